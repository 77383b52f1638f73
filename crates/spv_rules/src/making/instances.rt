//! Instances of rules, made in an arena.

ghost use Rattle.std.specs.Prelude.{◌≡◌, ◌<◌, true, length, map, Ok, IfOk, OnOk, IfErr, IfSome};
ghost use Rattle.std.specs.Option.{option_map};
ghost use Rattle.spv_logic.specs.Substitution.{substitute};
ghost use Rattle.spv_term.specs.Arena.{AllBelow, Extends, tree, trees_of};
ghost use Rattle.spv_proof_rules.specs.Rules.{have_sorts, instance_of, numbered_rule, placed};
ghost use Rattle.spv_proof_rules.specs.Stops.{all_kept, layers, layers_if};
ghost use Rattle.spv_rules.specs.RuleSets.{IsRule, rule_in, rules_in};
ghost use Rattle.spv_rules.specs.making.Pieces.{IsMadeFault};

use crate::making::building::build;
use crate::making::fitting::fitting;
use crate::making::sketching::sketch;
use crate::rules::{Rule, Rules};
use spv_term::{TermFault, TermId, Terms};
use std::alloc::Global;

// What a rule says of terms that may stand in the place of its variables, made behind its subterms.
fn made(
    alloc: Global,
    terms: &mut Terms,
    from: &Terms,
    rule: &Rule,
    values: &[TermId],
) -> Result<TermId, TermFault>
    requires values { AllBelow (length terms.old.nodes) values.now }
    requires rule { IsRule from.now rule.now }
    requires shapes { from.now.shapes ≡ terms.old.shapes }
    requires decls { from.now.decls ≡ terms.old.decls }
    requires fits { have_sorts terms.old.shapes terms.old.decls (rule_in from.now rule.now).replaced (map (tree terms.old) values.now) ≡ true }
    ensures tree { IfOk result (λ t. tree terms.new t
        ≡ substitute (placed (rule_in from.now rule.now).replaced (map (tree terms.old) values.now)) (tree from.now rule.now.formula)) }
    ensures in_range { IfOk result (λ t. t.0 < length terms.new.nodes) }
    ensures all { OnOk result (all_kept terms.old.most (trees_of terms.old.nodes)
        (layers (substitute (placed (rule_in from.now rule.now).replaced (map (tree terms.old) values.now)) (tree from.now rule.now.formula)))
        ≡ Ok (trees_of terms.new.nodes)) }
    ensures fault { IfErr result (λ f. IsMadeFault terms.new f (all_kept terms.old.most (trees_of terms.old.nodes)
        (layers (substitute (placed (rule_in from.now rule.now).replaced (map (tree terms.old) values.now)) (tree from.now rule.now.formula))))) }
    ensures grows { Extends terms.old terms.new }
{
    from.law_arena();
    terms.law_arena();
    let pieces = sketch(alloc, from, rule.variables.as_slice(), values, rule.formula)?;
    build(alloc, terms, pieces.as_slice())
}

/// What the rule of a number says of terms, made behind its subterms, arguments first: no other term is made. None exactly where there is
/// no such rule, or where there is not one term for each of its variables, of its sort. `Size` comes exactly at the first of
/// these terms that is new where there may be no more; for want of memory the arena has some of those that come first.
pub fn instance(
    alloc: Global,
    terms: &mut Terms,
    rules: &Rules,
    number: u32,
    values: &[TermId],
) -> Result<Option<TermId>, TermFault>
    requires values { AllBelow (length terms.old.nodes) values.now }
    requires shapes { rules.now.arena.shapes ≡ terms.old.shapes }
    requires decls { rules.now.arena.decls ≡ terms.old.decls }
    ensures instance { IfOk result (λ t. option_map (tree terms.new) t
        ≡ instance_of terms.old.shapes terms.old.decls (numbered_rule (rules_in rules.now) number) (map (tree terms.old) values.now)) }
    ensures in_range { IfOk result (λ t. IfSome t (λ u. u.0 < length terms.new.nodes)) }
    ensures all { OnOk result (all_kept terms.old.most (trees_of terms.old.nodes)
        (layers_if (instance_of terms.old.shapes terms.old.decls (numbered_rule (rules_in rules.now) number) (map (tree terms.old) values.now)))
        ≡ Ok (trees_of terms.new.nodes)) }
    ensures fault { IfErr result (λ f. IsMadeFault terms.new f (all_kept terms.old.most (trees_of terms.old.nodes)
        (layers_if (instance_of terms.old.shapes terms.old.decls (numbered_rule (rules_in rules.now) number) (map (tree terms.old) values.now))))) }
    ensures grows { Extends terms.old terms.new }
{
    match fitting(rules, terms, number, values) {
        Some(rule) => Ok(Some(made(alloc, terms, rules.terms(), rule, values)?)),
        None => Ok(None),
    }
}

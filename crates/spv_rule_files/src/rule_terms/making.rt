// Rules made in an arena.

ghost use Rattle.std.specs.Prelude.{◌≡◌, ◌<◌, [], ◌∷◌, ◌++◌, true, is_some, length, map, IfOk, IsTrue, OnOk};
ghost use Rattle.std.specs.List.{list_all};
ghost use Rattle.spv_logic.specs.declared.operators.Head.TheVariants as head;
ghost use Rattle.spv_logic.specs.Sorts.{sort_in_range};
ghost use Rattle.spv_program.specs.Terms.{formula_term, name_in};
ghost use Rattle.spv_term.specs.Arena.{AllBelow, Extends, tree};
ghost use Rattle.spv_term.specs.substitution.Images.{head_at};
ghost use Rattle.spv_rules.specs.RuleSets.{AreRules, IsRule, rule_in, rules_in};
ghost use Rattle.spv_rule_files.specs.Rules.{leading};
ghost use Rattle.spv_rule_files.specs.Stated.{stated};
ghost use Rattle.spv_rule_files.specs.Triggers.{trigger_in};
ghost use Rattle.spv_expression_terms.specs.term_walk.Makeable.{IsWellSorted};
ghost use Rattle.spv_rule_files.specs.rule_terms.RuleTerms.{rule_of, trigger_term, variable_head};
ghost use Rattle.spv_rule_files.specs.rule_terms.Sound.{AreSound, IsSound};

use crate::rule_terms::writing::write_stated;
use crate::{TypedRule, trigger};
use spv_expression_terms::postfix::built;
use spv_expression_terms::sort_table::SortTable;
use spv_expression_terms::term_walk::formula_term;
use spv_logic::list::List;
use spv_logic::names::Symbol;
use spv_logic::{Head, Sort};
use spv_program::ordered_map::Named;
use spv_rules::{Rule, Rules};
use spv_term::{TermFault, TermId, Terms};
use std::alloc::{AllocError, Global};

fn push<T: Drop>(items: &mut Vec<T>, item: T) -> Result<(), AllocError>
    ensures { OnOk result (items.new.items ≡ items.old.items ++ item ∷ []) }
{
    items.push(item)?;
    Ok(())
}

// A variable.
fn variable(terms: &mut Terms, x: Symbol, sort: Sort) -> Result<TermId, TermFault>
    requires { IsTrue (sort_in_range terms.old.shapes sort) }
    ensures head { IfOk result (λ t. head_at terms.new t ≡ head.Var x sort 0) }
    ensures in_range { IfOk result (λ t. t.0 < length terms.new.nodes) }
    ensures grows { Extends terms.old terms.new }
{
    terms.make(Head::Var(x, sort, 0), &[])
}

// The variables of a rule, in order.
fn variables(
    terms: &mut Terms,
    alloc: Global,
    names: &Named<Sort>,
) -> Result<List<TermId>, TermFault>
    requires { list_all (λ v. sort_in_range terms.old.shapes v.1) names.now ≡ true }
    ensures heads { IfOk result (λ l. map (head_at terms.new) l ≡ map variable_head names.now) }
    ensures below { IfOk result (λ l. AllBelow (length terms.new.nodes) l) }
    ensures grows { Extends terms.old terms.new }
{
    let mut made = Vec::new(alloc);
    for place in 0..names.len() {
        let (x, sort) = names.entry(place).unwrap();
        let one = variable(terms, x, *sort)?;
        push(&mut made, one)?;
    }
    Ok(List::from_vec(made))
}

// The trigger of a rule that has one.
fn trigger_made(terms: &mut Terms, alloc: Global, rule: &TypedRule) -> Result<TermId, TermFault>
    requires there { is_some (trigger_in (leading rule.now.form)) ≡ true }
    requires sorted { IsWellSorted terms.old.shapes terms.old.decls (trigger_term rule.now.variables (trigger_in (leading rule.now.form))) }
    ensures tree { IfOk result (λ t. tree terms.new t ≡ trigger_term rule.now.variables (trigger_in (leading rule.now.form))) }
    ensures in_range { IfOk result (λ t. t.0 < length terms.new.nodes) }
    ensures grows { Extends terms.old terms.new }
{
    let found = trigger(rule.form.leading()).unwrap();
    let names = SortTable::of(alloc, &rule.variables);
    formula_term(terms, alloc, &names, found)
}

// What a rule says.
fn stated_made(terms: &mut Terms, alloc: Global, rule: &TypedRule) -> Result<TermId, TermFault>
    requires { IsWellSorted terms.old.shapes terms.old.decls (formula_term (name_in rule.now.variables) (stated rule.now)) }
    ensures tree { IfOk result (λ t. tree terms.new t ≡ formula_term (name_in rule.now.variables) (stated rule.now)) }
    ensures in_range { IfOk result (λ t. t.0 < length terms.new.nodes) }
    ensures grows { Extends terms.old terms.new }
{
    let mut pieces = Vec::new(alloc);
    write_stated(alloc, &mut pieces, rule)?;
    built(terms, alloc, pieces.as_slice())
}

// A rule.
fn rule_made(terms: &mut Terms, alloc: Global, rule: &TypedRule) -> Result<Rule, TermFault>
    requires { IsSound terms.old.shapes terms.old.decls rule.now }
    ensures is { IfOk result (λ r. rule_in terms.new r ≡ rule_of rule.now) }
    ensures rule { IfOk result (λ r. IsRule terms.new r) }
    ensures grows { Extends terms.old terms.new }
{
    let variables = variables(terms, alloc, &rule.variables)?;
    let trigger = trigger_made(terms, alloc, rule)?;
    let formula = stated_made(terms, alloc, rule)?;
    Ok(Rule {
        variables,
        trigger,
        formula,
    })
}

// One rule more behind others.
fn put_rule(
    terms: &mut Terms,
    alloc: Global,
    made: &mut Vec<Rule>,
    rule: &TypedRule,
) -> Result<(), TermFault>
    requires sound { IsSound terms.old.shapes terms.old.decls rule.now }
    requires rules { AreRules terms.old made.old.items }
    ensures are { OnOk result (map (rule_in terms.new) made.new.items ≡ map (rule_in terms.old) made.old.items ++ rule_of rule.now ∷ []) }
    ensures rules { OnOk result (AreRules terms.new made.new.items) }
    ensures grows { Extends terms.old terms.new }
{
    let one = rule_made(terms, alloc, rule)?;
    push(made, one)?;
    Ok(())
}

// All rules, in order.
fn all_made(terms: &mut Terms, alloc: Global, list: &[TypedRule]) -> Result<Vec<Rule>, TermFault>
    requires { AreSound terms.old.shapes terms.old.decls list.now }
    ensures are { IfOk result (λ v. map (rule_in terms.new) v.items ≡ map rule_of list.now) }
    ensures rules { IfOk result (λ v. AreRules terms.new v.items) }
    ensures grows { Extends terms.old terms.new }
{
    let mut made = Vec::new(alloc);
    for rule in list {
        put_rule(terms, alloc, &mut made, rule)?;
    }
    Ok(made)
}

/// The rules of a file as rules over terms, made in this arena, which has the types and symbols of the program that they are right in.
/// `Size` comes only where the arena is full, `Memory` where there was not enough of it.
pub fn rules_of(alloc: Global, terms: Terms, list: &[TypedRule]) -> Result<Rules, TermFault>
    requires { AreSound terms.shapes terms.decls list.now }
    ensures rules { IfOk result (λ r. rules_in r ≡ map rule_of list.now) }
    ensures shapes { IfOk result (λ r. r.arena.shapes ≡ terms.shapes) }
    ensures decls { IfOk result (λ r. r.arena.decls ≡ terms.decls) }
{
    let mut terms = terms;
    let made = all_made(&mut terms, alloc, list)?;
    Ok(Rules::from_vec(terms, made))
}

// The instances that a table calls for.

ghost use Rattle.std.specs.Prelude.{◌≡◌, ◌<◌, ◌++◌, ◌∷◌, [], length, map, Ok, IfOk, IfErr};
ghost use Rattle.spv_term.specs.Arena.{AllBelow, tree, sequent};
ghost use Rattle.spv_table.specs.Kept.{PairsIn, listed_over};
ghost use Rattle.spv_models.specs.leaf_models.Subterms as subterm_spec;
ghost use Rattle.spv_models.specs.leaf_models.Tables.{formulas_of};
ghost use Rattle.spv_rules.specs.RuleSets.{rules_in};
ghost use Rattle.spv_rules.specs.matching.Matches as spec;
ghost use Rattle.spv_rules.specs.matching.Views.{instance_in, AllIn, IsMatchFault};

use crate::knowing::Settled;
use spv_rules::Rules;
use spv_rules::matching::{Instance, MatchFault, matches};
use spv_search_terms::subterms::{IdSet, subterms};
use spv_table::Table;
use std::alloc::{AllocError, Global};

// The terms that a condition and what the members of its rounds say use.
fn used_terms(alloc: Global, s: &Settled) -> Result<IdSet, AllocError>
    requires given { AllBelow (length s.now.terms.nodes) s.now.condition.given }
    requires goal { s.now.condition.goal.0 < length s.now.terms.nodes }
    requires formulas { AllBelow (length s.now.terms.nodes) s.now.formulas }
    ensures used { IfOk result (λ ids. map (tree s.now.terms) ids ≡ subterm_spec.subterms (formulas_of (sequent s.now.terms s.now.condition) ++ map (tree s.now.terms) s.now.formulas)) }
    ensures in_range { IfOk result (AllBelow (length s.now.terms.nodes)) }
{
    let mut roots = Vec::new(alloc);
    roots.extend_from_slice(s.condition.given.as_slice())?;
    roots.push(s.condition.goal)?;
    roots.extend_from_slice(s.formulas.as_slice())?;
    subterms(alloc, &s.terms, roots.as_slice())
}

/// The instances of rules that the terms of a condition, and of what the members of its rounds say, call for in a table; or the first term whose value
/// is too wide.
pub fn find(
    alloc: Global,
    rules: &Rules,
    s: &Settled,
    table: &Table,
) -> Result<Vec<Instance>, MatchFault>
    requires given { AllBelow (length s.now.terms.nodes) s.now.condition.given }
    requires goal { s.now.condition.goal.0 < length s.now.terms.nodes }
    requires formulas { AllBelow (length s.now.terms.nodes) s.now.formulas }
    requires table { PairsIn s.now.terms table.now.values }
    ensures found { IfOk result (λ found. spec.matches s.now.terms.shapes s.now.terms.decls (rules_in rules.now)
        (subterm_spec.subterms (formulas_of (sequent s.now.terms s.now.condition) ++ map (tree s.now.terms) s.now.formulas)) (listed_over s.now.terms table.now.values)
        ≡ Ok (map (instance_in s.now.terms) found.items)) }
    ensures in_range { IfOk result (λ found. AllIn (length s.now.terms.nodes) found.items) }
    ensures fault { IfErr result (IsMatchFault s.now.terms (spec.matches s.now.terms.shapes s.now.terms.decls (rules_in rules.now)
        (subterm_spec.subterms (formulas_of (sequent s.now.terms s.now.condition) ++ map (tree s.now.terms) s.now.formulas)) (listed_over s.now.terms table.now.values))) }
{
    let used = match used_terms(alloc, s) {
        Ok(used) => used,
        Err(_) => return Err(MatchFault::Memory),
    };
    matches(alloc, rules, &s.terms, used.as_slice(), table)
}

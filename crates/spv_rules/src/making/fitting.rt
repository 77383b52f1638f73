//! Whether terms may stand in the place of a rule's variables.

ghost use Rattle.std.specs.Prelude.{◌≡◌, ◌<◌, List, length, map, Some, IfSome, IfNone};
ghost use Rattle.spv_term.specs.Arena.{AllBelow, tree};
ghost use Rattle.spv_term.specs.substitution.Images.{head_at};
ghost use Rattle.spv_proof_rules.specs.Rules.{have_sorts, numbered_rule};
ghost use Rattle.spv_rules.specs.RuleSets.{IsRule, rule_in, rules_in};
ghost use Rattle.spv_rules.specs.making.Fitting.{IsFitting, HasNone};

use crate::rules::{Rule, Rules};
use crate::sorts::{same_sort, variable_sort};
use spv_term::{TermId, Terms};

// Whether there is one term for each variable, of its sort.
fn have_sorts(from: &Terms, variables: &[TermId], terms: &Terms, values: &[TermId]) -> bool
    requires variables { AllBelow (length from.now.nodes) variables.now }
    requires values { AllBelow (length terms.now.nodes) values.now }
    ensures { result ≡ have_sorts terms.now.shapes terms.now.decls (map (head_at from.now) variables.now) (map (tree terms.now) values.now) }
{
    from.law_arena();
    terms.law_arena();
    if variables.len() != values.len() {
        return false;
    }
    for k in 0..variables.len() {
        if !same_sort(
            variable_sort(from.node(variables[k]).head),
            terms.sort(values[k]),
        ) {
            return false;
        }
    }
    true
}

// The rule of a number, from 1.
fn numbered(rules: &Rules, number: u32) -> Option<&Rule>
    ensures there { IfSome result (λ r. numbered_rule (rules_in rules.now) number ≡ Some (rule_in rules.now.arena r.now)) }
    ensures rule { IfSome result (λ r. IsRule rules.now.arena r.now) }
    ensures missing { IfNone result (numbered_rule (rules_in rules.now) number ≡ None) }
{
    rules.law_rules();
    if number == 0 {
        return None;
    }
    let place = number as usize - 1;
    if place >= rules.len() {
        return None;
    }
    Some(rules.get(place))
}

/// The rule of a number, if these terms may stand in the place of its variables.
pub(crate) fn fitting<'a>(
    rules: &'a Rules,
    terms: &Terms,
    number: u32,
    values: &[TermId],
) -> Option<&'a Rule>
    requires { AllBelow (length terms.now.nodes) values.now }
    ensures there { IfSome result (λ r. IsFitting rules.now terms.now number values.now r.now) }
    ensures missing { IfNone result (HasNone rules.now terms.now number values.now) }
{
    let rule = numbered(rules, number)?;
    if have_sorts(rules.terms(), rule.variables.as_slice(), terms, values) {
        Some(rule)
    } else {
        None
    }
}

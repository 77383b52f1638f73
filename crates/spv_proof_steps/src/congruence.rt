//! Terms of one head with equal arguments.

ghost use Rattle.std.specs.Prelude.{◌≡◌, ◌<◌, map, length, IsTrue};
ghost use Rattle.spv_logic.specs.Formulas as formulas;
ghost use Rattle.spv_logic.specs.Terms.{head_eq};
ghost use Rattle.spv_term.specs.Arena.{AllBelow, tree, trees, sort_at, IsArena};
ghost use Rattle.spv_proof_rules.specs.Effects as spec;
ghost use Rattle.spv_proof_steps.specs.Steps.{effect_of, MayAdd};

use crate::candidates::is_equation;
use crate::facts::{Effect, Fact};
use crate::steps::fact;
use spv_term::{Head, TermId, Terms};

// Whether the fact of a number is the equation of two terms.
#[tactic(auto, using(crate::proofs::Same::sameness))]
fn says_equal(terms: &Terms, facts: &[TermId], number: u32, s: TermId, t: TermId) -> bool
    requires facts { AllBelow (length terms.now.nodes) facts.now }
    requires s { s.0 < length terms.now.nodes }
    requires t { t.0 < length terms.now.nodes }
    ensures { result ≡ spec.is_fact (spec.numbered (map (tree terms.now) facts.now) number)
        (formulas.equation (tree terms.now s) (tree terms.now t)) }
{
    match fact(facts, number) {
        Some(u) => is_equation(terms, u, s, t),
        None => false,
    }
}

// Whether the facts of these numbers are the equations of these terms, in order.
fn all_equal(
    terms: &Terms,
    facts: &[TermId],
    left: &[TermId],
    right: &[TermId],
    numbers: &[u32],
) -> bool
    requires facts { AllBelow (length terms.now.nodes) facts.now }
    requires left { AllBelow (length terms.now.nodes) left.now }
    requires right { AllBelow (length terms.now.nodes) right.now }
    ensures { result ≡ spec.all_equal (map (tree terms.now) facts.now)
        (trees terms.now left.now) (trees terms.now right.now) numbers.now }
{
    if left.len() != right.len() {
        return false;
    }
    if left.len() != numbers.len() {
        return false;
    }
    for i in 0..left.len() {
        if !says_equal(terms, facts, numbers[i], left[i], right[i]) {
            return false;
        }
    }
    true
}

// Whether two heads are the same.
fn same_head(left: Head, right: Head) -> bool
    ensures { result ≡ head_eq left right }
{
    left == right
}

// Whether two terms have one head, and the cited facts are the equations of their arguments.
fn is_congruent(terms: &Terms, facts: &[TermId], t: TermId, u: TermId, numbers: &[u32]) -> bool
    requires facts { AllBelow (length terms.now.nodes) facts.now }
    requires t { t.0 < length terms.now.nodes }
    requires u { u.0 < length terms.now.nodes }
    ensures { result ≡ spec.congruent (map (tree terms.now) facts.now) (tree terms.now t) (tree terms.now u) numbers.now }
{
    terms.law_arena();
    let left = terms.node(t);
    let right = terms.node(u);
    same_head(left.head, right.head)
        && all_equal(
            terms,
            facts,
            left.args.as_slice(),
            right.args.as_slice(),
            numbers,
        )
}

/// The equation of two terms of one head, where the cited facts are the equations of their arguments.
pub fn congruent(terms: &Terms, facts: &[TermId], t: TermId, u: TermId, numbers: &[u32]) -> Effect
    requires facts { AllBelow (length terms.now.nodes) facts.now }
    requires t { t.0 < length terms.now.nodes }
    requires u { u.0 < length terms.now.nodes }
    ensures value { effect_of terms.now result
        ≡ spec.adds_if (spec.congruent (map (tree terms.now) facts.now) (tree terms.now t) (tree terms.now u) numbers.now)
        (formulas.equation (tree terms.now t) (tree terms.now u)) }
    ensures may { MayAdd terms.now result }
{
    terms.law_arena();
    if is_congruent(terms, facts, t, u, numbers) {
        Effect::Adds(Fact::Equation(t, u))
    } else {
        Effect::Fails
    }
}

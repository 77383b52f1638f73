//! The cases of atoms.

ghost use Rattle.std.specs.Prelude.{◌≡◌, ◌<◌, ◌&&◌, map, length, IsTrue};
ghost use Rattle.spv_logic.specs.declared.types.Sort.TheVariants as sort;
ghost use Rattle.spv_logic.specs.Conditions.{Sequent};
ghost use Rattle.spv_term.specs.Arena.{tree, sort_at, IsArena};
ghost use Rattle.spv_atoms.specs.Atoms as atoms;
ghost use Rattle.spv_proof_rules.specs.Accepted as accepted;
ghost use Rattle.spv_proof_steps.specs.Candidates.{IsBool};
ghost use Rattle.spv_proof_steps.specs.Steps.{fact_of, asked};
ghost use Rattle.spv_proof.specs.checker.Stacks.{facts_in, AllStand};

use crate::sums::is_number;
use spv_proof_steps::sides;
use spv_term::{TermId, Terms};

/// How an atom splits.
#[derive(Clone, Copy, Debug)]
pub enum Cases {
    /// This atom, or its negation.
    Two(TermId),
    /// The first number is equal to the second, below it, or above it.
    Three(TermId, TermId),
}

// Whether two terms are of sort Int.
pub(crate) fn are_numbers(terms: &Terms, s: TermId, t: TermId) -> bool
    requires s { s.0 < length terms.now.nodes }
    requires t { t.0 < length terms.now.nodes }
    ensures value { result ≡ (atoms.is_number terms.now.shapes terms.now.decls (tree terms.now s)
        && atoms.is_number terms.now.shapes terms.now.decls (tree terms.now t)) }
    ensures left { IsTrue result → sort_at terms.now s ≡ sort.Int }
    ensures right { IsTrue result → sort_at terms.now t ≡ sort.Int }
{
    is_number(terms, s) && is_number(terms, t)
}

// The cases of an atom.
pub(crate) fn cases_of(terms: &Terms, t: TermId) -> Cases
    requires t { t.0 < length terms.now.nodes }
    requires sort { IsBool terms.now t }
    ensures value { (c : Sequent) → map (fact_of terms.now) (facts_in result) ≡ accepted.cases_of (asked terms.now c) (tree terms.now t) }
    ensures may { AllStand terms.now (facts_in result) }
{
    match sides(terms, t) {
        Some((s, u)) => {
            if are_numbers(terms, s, u) {
                Cases::Three(s, u)
            } else {
                Cases::Two(t)
            }
        }
        None => Cases::Two(t),
    }
}

// How many cases there are.
pub(crate) fn count(cases: Cases) -> usize
    ensures { result ≡ length (facts_in cases) }
{
    match cases {
        Cases::Two(_) => 2,
        Cases::Three(_, _) => 3,
    }
}

//! Formulas that steps and cases add, and what a step does.

ghost use Rattle.std.specs.Prelude.{◌≡◌};
ghost use Rattle.spv_term.specs.Arena.{Arena};
ghost use Rattle.spv_proof_steps.specs.Candidates.{formula_of, MayStand};
ghost use Rattle.spv_proof_steps.specs.Steps.{fact_of, FactStands};

use crate::candidates::Candidate;
use spv_term::TermId;

/// A formula that a step or a case adds. Its parts are terms of the arena; it need not be one itself.
#[derive(Clone, Copy, Debug)]
pub enum Fact {
    /// A term of the arena.
    Known(TermId),
    /// The negation of a term.
    Negation(TermId),
    /// The equation of two terms.
    Equation(TermId, TermId),
    /// That the first number is below the second.
    Below(TermId, TermId),
    /// That the first number is at most the second.
    AtMost(TermId, TermId),
}

/// What a step does on a path.
#[derive(Clone, Copy, Debug)]
pub enum Effect {
    /// It adds a fact.
    Adds(Fact),
    /// It ends the path.
    Ends,
    /// It does not follow.
    Fails,
}

// The fact that a formula is.
pub(crate) fn stated_fact(formula: Candidate) -> Fact
    ensures value { (a : Arena) → fact_of a result ≡ formula_of a formula }
    ensures may { (a : Arena) → MayStand a formula → FactStands a result }
{
    match formula {
        Candidate::Known(t) => Fact::Known(t),
        Candidate::Negation(t) => Fact::Negation(t),
        Candidate::Equation(s, t) => Fact::Equation(s, t),
    }
}

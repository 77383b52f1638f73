// Taking off the outer negations of a term.

ghost use Rattle.std.specs.Prelude.{◌≡◌, ◌<◌, length};
ghost use Rattle.spv_term.specs.Arena.{tree};
ghost use Rattle.spv_assignments.specs.polarity.Cores.{IsCore};
ghost use Rattle.spv_assignments.specs.polarity.Standings as spec;
ghost use Rattle.spv_assignments.specs.polarity.Standings.{IsStanding};

use crate::polarity::saying::Standing;
use spv_proof_steps::candidates::negated;
use spv_term::{TermId, Terms};

/// A term without its outer negations, and whether it is true where the term is.
pub fn core(terms: &Terms, t: TermId) -> (TermId, bool)
    requires { t.0 < length terms.now.nodes }
    ensures core { IsCore terms.now t result.0 result.1 }
{
    let mut at = t;
    let mut is_even = true;
    while let Some(inner) = negated(terms, at) {
        at = inner;
        is_even = !is_even;
    }
    (at, is_even)
}

// Whether a term is a negation.
fn is_negation(terms: &Terms, t: TermId) -> bool
    requires { t.0 < length terms.now.nodes }
    ensures { result ≡ spec.is_negation (tree terms.now t) }
{
    match negated(terms, t) {
        Some(_) => true,
        None => false,
    }
}

// Whether a term is the negation of a negation.
fn is_double_negation(terms: &Terms, t: TermId) -> bool
    requires { t.0 < length terms.now.nodes }
    ensures { result ≡ spec.is_double_negation (tree terms.now t) }
{
    match negated(terms, t) {
        Some(inner) => is_negation(terms, inner),
        None => false,
    }
}

/// What is said of the core of a term where the term is true, or false.
pub fn standing(terms: &Terms, t: TermId, truth: bool) -> Standing
    requires { t.0 < length terms.now.nodes }
    ensures { IsStanding terms.now t truth result }
{
    let (inner, is_even) = core(terms, t);
    if truth {
        Standing {
            core: inner,
            truth: is_even,
            is_same: !is_double_negation(terms, t),
        }
    } else {
        Standing {
            core: inner,
            truth: !is_even,
            is_same: !is_negation(terms, t),
        }
    }
}

// What facts say of the terms of an arena.

ghost use Rattle.std.specs.Prelude.{◌≡◌, ◌<◌, length, IfOk, OnOk};
ghost use Rattle.spv_term.specs.Arena.{tree};
ghost use Rattle.spv_derivations.specs.derivation.Derivation.{literal};
ghost use Rattle.spv_derivations.specs.declared.derivation.entries.Part.TheVariants as part;
ghost use Rattle.spv_assignments.specs.partial_assignment.Facts.{fact_of, facts_of};
ghost use Rattle.spv_assignments.specs.assignment_vector.Sayings.{Adds, AreSaid, AreThere, IsRowConstraint};

use crate::assignment_vector::sayings::{RowConstraint, Sayings};
use crate::partial_assignment::Known;
use spv_derivations::derivation::Part;
use spv_proof_steps::candidates::{lower, negated};
use spv_proof_steps::sides;
use spv_term::{TermId, Terms};
use std::alloc::{AllocError, Global};

/// What is said where a term is true.
pub(crate) fn affirmed(terms: &Terms, t: TermId) -> RowConstraint
    requires { t.0 < length terms.now.nodes }
    ensures { IsRowConstraint terms.now (tree terms.now t) result }
{
    match negated(terms, t) {
        Some(u) => RowConstraint::Denies(u),
        None => match lower(terms, t) {
            Some((low, high)) => RowConstraint::Orders(low, high),
            None => RowConstraint::Affirms(t),
        },
    }
}

// What is said where the left side of a term is below the right one.
fn left_below(terms: &Terms, t: TermId) -> RowConstraint
    requires { t.0 < length terms.now.nodes }
    ensures { IsRowConstraint terms.now (literal (tree terms.now t) part.Below) result }
{
    match sides(terms, t) {
        Some((left, right)) => RowConstraint::Orders(left, right),
        None => affirmed(terms, t),
    }
}

// What is said where the right side of a term is below the left one.
fn right_below(terms: &Terms, t: TermId) -> RowConstraint
    requires { t.0 < length terms.now.nodes }
    ensures { IsRowConstraint terms.now (literal (tree terms.now t) part.Above) result }
{
    match sides(terms, t) {
        Some((left, right)) => RowConstraint::Orders(right, left),
        None => affirmed(terms, t),
    }
}

// What a fact says.
fn saying_of(terms: &Terms, k: Known) -> RowConstraint
    requires { k.term.0 < length terms.now.nodes }
    ensures { IsRowConstraint terms.now (fact_of terms.now k) result }
{
    match k.part {
        Part::True => affirmed(terms, k.term),
        Part::False => RowConstraint::Denies(k.term),
        Part::Below => left_below(terms, k.term),
        Part::Above => right_below(terms, k.term),
    }
}

/// What facts say.
pub(crate) fn sayings_of(
    alloc: Global,
    terms: &Terms,
    known: &[Known],
) -> Result<Sayings, AllocError>
    requires { AreThere terms.now known.now }
    ensures { IfOk result (AreSaid terms.now (facts_of terms.now known.now)) }
{
    terms.law_arena();
    let mut sayings = Sayings::new(alloc, terms.len())?;
    for k in known {
        let saying = saying_of(terms, *k);
        sayings.put(saying)?;
    }
    Ok(sayings)
}

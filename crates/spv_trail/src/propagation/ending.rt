// The facts that end a path.

ghost use Rattle.std.specs.Prelude.{◌≡◌, ◌<◌, length, List, IfOk};
ghost use Rattle.spv_logic.specs.Terms.{Term, no_terms, terms};
ghost use Rattle.spv_logic.specs.Formulas.{below};
ghost use Rattle.spv_term.specs.Arena.{tree};
ghost use Rattle.spv_proof_rules.specs.Effects.{is_false};
ghost use Rattle.spv_atoms.specs.Tables as tables;
ghost use Rattle.spv_assignments.specs.declared.partial_assignment.facts.Known.{Known};
ghost use Rattle.spv_assignments.specs.partial_assignment.Facts.{fact_of};
ghost use Rattle.spv_decisions.specs.literal_lookup.Facts.{AreCores, IsCore};
ghost use Rattle.spv_decisions.specs.literal_lookup.Clashes.{IsClash};
ghost use Rattle.spv_trail.specs.propagation.Learning as spec;
ghost use Rattle.spv_trail.specs.propagation.Learning.{ContradictsIf, EndsNow, IsCitable, MayCite};

use crate::asserted_steps::deny;
use spv_assignments::partial_assignment::Known;
use spv_atoms::numeral;
use spv_decisions::literal_lookup::{Clash, find_clash, order_of};
use spv_derivations::derivation::Derivation;
use spv_term::{Condition, TermId, Terms};
use std::alloc::{AllocError, Global};

/// The facts that end a path.
#[derive(Clone, Copy, Debug)]
pub struct End {
    /// The number of a fact.
    pub first: u32,
    /// The number of one that contradicts it; none where the first one is never true.
    pub second: Option<u32>,
}

// Whether two terms are numerals of which the first is not below the second.
fn is_downward(terms: &Terms, low: TermId, high: TermId) -> bool
    requires low { low.0 < length terms.now.nodes }
    requires high { high.0 < length terms.now.nodes }
    ensures { result ≡ is_false (tables.numeral_relation (below (tree terms.now low) (tree terms.now high))) }
{
    let Some(a) = numeral(terms, low) else {
        return false;
    };
    let Some(b) = numeral(terms, high) else {
        return false;
    };
    a >= b
}

// Whether a fact is an order of two numerals that does not hold.
fn is_refuted(terms: &Terms, k: Known) -> bool
    requires { k.term.0 < length terms.now.nodes }
    ensures { result ≡ spec.is_refuted (fact_of terms.now k) }
{
    match order_of(terms, k) {
        Some((low, high)) => is_downward(terms, low, high),
        None => false,
    }
}

// The facts that end a path on which a new fact contradicts a known one. An equation and an order of its sides do so by the equation's
// negation, which is put behind the others.
fn end_by(
    alloc: Global,
    derivation: &mut Derivation,
    terms: &Terms,
    condition: &Condition,
    falsity: TermId,
    added: Known,
    clash: Clash,
) -> Result<End, AllocError>
    ensures { IfOk result (λ e. (cases : List Term) (ks : List Known) → MayCite terms.now condition.now falsity cases derivation.old ks
        → IsCitable terms.now condition.now derivation.old added
        → IsClash terms.now ks added clash
        → EndsNow terms.now condition.now cases derivation.old derivation.new e) }
{
    match clash {
        Clash::Opposite(number) => Ok(End {
            first: added.fact,
            second: Some(number),
        }),
        Clash::Crossed { equation, order } => {
            let number = deny(
                alloc,
                derivation,
                terms,
                condition,
                equation.term,
                order,
                falsity,
            )?;
            Ok(End {
                first: equation.fact,
                second: Some(number),
            })
        }
    }
}

/// The facts that end a path by a new fact: one that is never true, since it is an order of two numerals that does not hold, or one that contradicts
/// a known fact. `falsity` is the term FALSE.
pub fn contradiction(
    alloc: Global,
    derivation: &mut Derivation,
    known: &[Known],
    terms: &Terms,
    condition: &Condition,
    falsity: TermId,
    added: Known,
) -> Result<Option<End>, AllocError>
    requires known { AreCores terms.now known.now }
    requires added { IsCore terms.now added }
    ensures { IfOk result (ContradictsIf terms.now condition.now falsity known.now added derivation.old derivation.new) }
{
    if is_refuted(terms, added) {
        return Ok(Some(End {
            first: added.fact,
            second: None,
        }));
    }
    match find_clash(terms, known, added) {
        Some(clash) => {
            let end = end_by(alloc, derivation, terms, condition, falsity, added, clash)?;
            Ok(Some(end))
        }
        None => Ok(None),
    }
}

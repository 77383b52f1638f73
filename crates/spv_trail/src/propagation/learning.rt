// Facts that become known.

ghost use Rattle.std.specs.Prelude.{◌≡◌, ◌<◌, true, Bool, Some, length, List, IfOk};
ghost use Rattle.spv_logic.specs.declared.conditions.TermId.{TermId};
ghost use Rattle.spv_logic.specs.Terms.{Term};
ghost use Rattle.spv_term.specs.Arena.{tree};
ghost use Rattle.spv_proof_rules.specs.Effects.{is_truth, numbered};
ghost use Rattle.spv_proof_rules.specs.Stand.{question};
ghost use Rattle.spv_tableau_rules.specs.constraints.Sayings.{literal};
ghost use Rattle.spv_derivations.specs.derivation.Literals.{Literal};
ghost use Rattle.spv_derivations.specs.branches.Paths.{facts_in, IsPath};
ghost use Rattle.spv_assignments.specs.polarity.Standings.{IsStanding};
ghost use Rattle.spv_decisions.specs.literal_lookup.Facts.{AreCores};
ghost use Rattle.spv_trail.specs.asserted_steps.Steps.{HasNumber};
ghost use Rattle.spv_trail.specs.propagation.Learning.{IsLearnedOrEnded, MayLearn};
ghost use Rattle.spv_trail.specs.propagation.Learning as spec;

use crate::asserted_steps::evaluate;
use crate::propagation::ending::{End, contradiction};
use spv_assignments::partial_assignment::Known;
use spv_assignments::polarity::{Standing, standing};
use spv_derivations::derivation::{Derivation, Part};
use spv_term::{Condition, TermId, Terms};
use std::alloc::{AllocError, Global};

/// The part that a truth is.
pub fn part_of(truth: bool) -> Part
    ensures { result ≡ spec.part_of truth }
{
    if truth { Part::True } else { Part::False }
}

// The number of the fact that a core has this truth, where a fact says so of a term over it.
fn core_number(
    alloc: Global,
    derivation: &mut Derivation,
    terms: &Terms,
    condition: &Condition,
    said: Standing,
    number: u32,
) -> Result<u32, AllocError>
    ensures { IfOk result (λ n. (cases : List Term) (t : TermId) (truth : Bool) → IsPath (question terms.now condition.now) cases derivation.old
        → IsStanding terms.now t truth said
        → is_truth (question terms.now condition.now) (tree terms.now said.core) ≡ true
        → numbered (facts_in (question terms.now condition.now) derivation.old) number ≡ Some (literal truth (tree terms.now t))
        → HasNumber (question terms.now condition.now) cases derivation.old derivation.new n (literal said.truth (tree terms.now said.core))) }
{
    if said.is_same {
        return Ok(number);
    }
    evaluate(
        alloc, derivation, terms, condition, said.core, said.truth, number,
    )
}

/// What a fact says of the core of its term becomes known: `number` is that of the fact that the term `t` has this truth. The path ends where that
/// contradicts a known fact. `falsity` is the term FALSE.
pub fn learn(
    alloc: Global,
    derivation: &mut Derivation,
    known: &mut Vec<Known>,
    terms: &Terms,
    condition: &Condition,
    falsity: TermId,
    t: TermId,
    truth: bool,
    number: u32,
) -> Result<Option<End>, AllocError>
    requires known { AreCores terms.now known.old.items }
    requires t { t.0 < length terms.now.nodes }
    ensures { IfOk result (λ o. (cases : List Term) (ls : List Literal) → MayLearn terms.now condition.now falsity cases derivation.old known.old.items ls t truth number
        → IsLearnedOrEnded terms.now condition.now cases ls derivation.old derivation.new known.old.items known.new.items (literal truth (tree terms.now t)) o) }
{
    let said = standing(terms, t, truth);
    let fact = core_number(alloc, derivation, terms, condition, said, number)?;
    let added = Known {
        term: said.core,
        part: part_of(said.truth),
        fact,
    };
    let end = contradiction(
        alloc,
        derivation,
        known.as_slice(),
        terms,
        condition,
        falsity,
        added,
    )?;
    match end {
        Some(end) => Ok(Some(end)),
        None => {
            known.push(added)?;
            Ok(None)
        }
    }
}

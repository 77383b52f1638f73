// Opening a search.

ghost use Rattle.std.specs.Prelude.{◌<◌, IfOk, length};
ghost use Rattle.spv_search_terms.specs.condition_copy.Copies.{IsBase, IsCopy, all_terms};
ghost use Rattle.spv_models.specs.leaf_models.Laws.{AreFormulas};
ghost use Rattle.spv_models.specs.leaf_models.Tables.{formulas_of};
ghost use Rattle.spv_proof_rules.specs.Stand.{question};
ghost use Rattle.spv_term.specs.Arena.{AllBelow, sequent};
ghost use Rattle.spv_trail.specs.search_setup.Openings.{AreAsked, HasTooMany, IsCopied, IsOpening};

use crate::search_setup::outcomes::{Opened, Opening};
use crate::search_setup::sides::{both_for, ground_of};
use spv_arithmetic_side::slack_rows::RowFault;
use spv_search_terms::condition_copy::{Base, Copied, copy_condition};
use spv_search_terms::split_candidates::{Questions, ask};
use spv_term::{Condition, TermFault, Terms};
use spv_verdicts::answers::Limits;
use std::alloc::{AllocError, Global};

// A condition that has more terms than a search may have, in an arena for as many as there are numbers of 32 bits; want of memory, where
// these are too few.
fn copy_large(
    alloc: Global,
    terms: &Terms,
    condition: &Condition,
    limits: &Limits,
) -> Result<Copied, AllocError>
    requires given { AllBelow (length terms.now.nodes) condition.now.given }
    requires goal { condition.now.goal.0 < length terms.now.nodes }
    requires many { limits.now.terms < length (all_terms (sequent terms.now condition.now)) }
    ensures { IfOk result (λ k. HasTooMany terms.now condition.now limits.now.terms k.terms k.condition) }
{
    let _ = limits;
    match copy_condition(alloc, terms, condition, u32::MAX) {
        Ok(copied) => Ok(copied),
        Err(_) => Err(AllocError),
    }
}

// Opens both sides for the atoms of a copy.
fn open_sides(
    alloc: Global,
    terms: &Terms,
    condition: &Condition,
    own: Terms,
    claim: Condition,
    base: Base,
    questions: Questions,
    limits: &Limits,
) -> Result<Opening, AllocError>
    requires copy { IsCopied terms.now condition.now own claim }
    requires formulas { AreFormulas own.shapes own.decls (formulas_of (question own claim).sequent) }
    requires base { IsBase own base }
    requires asked { AreAsked own claim questions }
    ensures { IfOk result (λ o. IsOpening terms.now condition.now limits.now o) }
{
    let _ = terms;
    let _ = condition;
    let ground = ground_of(alloc, &own, &claim, &questions.questions)?;
    match both_for(alloc, &own, &claim, &questions, base, limits.pivots()) {
        Ok(both) => Ok(Opening::Ready(Opened {
            terms: own,
            condition: claim,
            subterms: questions.subterms,
            listed: questions.listed,
            atoms: questions.atoms,
            ground,
            both,
        })),
        Err(RowFault::Wide(atom)) => Ok(Opening::Wide {
            terms: own,
            condition: claim,
            atom,
        }),
        Err(RowFault::Memory) => Err(AllocError),
    }
}

// Asks of a copy what a search has to know.
fn ask_copy(
    alloc: Global,
    terms: &Terms,
    condition: &Condition,
    copied: Copied,
    limits: &Limits,
) -> Result<Opening, AllocError>
    requires formulas { AreFormulas terms.now.shapes terms.now.decls (formulas_of (question terms.now condition.now).sequent) }
    requires copy { IsCopy terms.now condition.now limits.now.terms copied }
    ensures { IfOk result (λ o. IsOpening terms.now condition.now limits.now o) }
{
    let base = copied.base;
    let mut own = copied.terms;
    let claim = copied.condition;
    match ask(alloc, &mut own, &claim) {
        Ok(questions) => open_sides(alloc, terms, condition, own, claim, base, questions, limits),
        Err(TermFault::Size) => Ok(Opening::Terms {
            terms: own,
            condition: claim,
        }),
        Err(TermFault::Memory) => Err(AllocError),
    }
}

/// Opens a search for a proof of a condition: copies it into an arena of its own, makes the equations that are atoms, and opens both
/// sides for the atoms. A check of the tableau makes at most as many pivots as the limits say. `Terms` comes only where the search would
/// have more terms than these say, and `Wide` names an atom that is a relation of whole numbers whose forms do not fit.
pub fn open(
    alloc: Global,
    terms: &Terms,
    condition: &Condition,
    limits: &Limits,
) -> Result<Opening, AllocError>
    requires given { AllBelow (length terms.now.nodes) condition.now.given }
    requires goal { condition.now.goal.0 < length terms.now.nodes }
    requires formulas { AreFormulas terms.now.shapes terms.now.decls (formulas_of (question terms.now condition.now).sequent) }
    ensures { IfOk result (λ o. IsOpening terms.now condition.now limits.now o) }
{
    match copy_condition(alloc, terms, condition, limits.terms()) {
        Ok(copied) => ask_copy(alloc, terms, condition, copied, limits),
        Err(TermFault::Size) => {
            let copied = copy_large(alloc, terms, condition, limits)?;
            Ok(Opening::Terms {
                terms: copied.terms,
                condition: copied.condition,
            })
        }
        Err(TermFault::Memory) => Err(AllocError),
    }
}

// Conditions that are proved by parts: with cuts, or by the values of a number. Each proof that is put together is tested by the checker.

ghost use Rattle.std.specs.Prelude.{◌<◌, length, IfOk, IfSome};
ghost use Rattle.spv_term.specs.declared.nodes.Condition.{Condition};
ghost use Rattle.spv_term.specs.Arena.{AllBelow, Arena, Extends};
ghost use Rattle.spv_verdicts.specs.Verdicts.{Limits};
ghost use Rattle.spv_verdicts.specs.answers.Views.{IsDecided};
ghost use Rattle.spv_fact_search.specs.Asking.{IsOwn};

use crate::assembling::Assembly;
use crate::cutting::{by_cuts, has_cuts};
use crate::numbers::Numbers;
use crate::parts::Attempt;
use crate::ranging::{by_values, has_range};
use crate::stages::own_copy;
use crate::trying::{Trial, tried_near};
use spv_atoms::ProofNode;
use spv_search_terms::condition_copy::Base;
use spv_term::{Condition, Terms};
use spv_trimming::testing::proof_of;
use spv_verdicts::answers::{Decided, Limits, Verdict};
use std::alloc::{AllocError, Global};

// The nodes of a proof that is put together, if it has no more splits than there may be.
fn within(limits: &Limits, found: Attempt<Assembly>) -> Attempt<Vec<ProofNode>> {
    match found {
        Attempt::Done(whole) => {
            if whole.splits() > limits.splits() {
                Attempt::Nothing
            } else {
                Attempt::Done(whole.into_nodes())
            }
        }
        Attempt::Table(numbers) => Attempt::Table(numbers),
        Attempt::Nothing => Attempt::Nothing,
    }
}

// What is found of a condition by parts: the nodes of a proof, or a table.
fn attempted(
    alloc: Global,
    terms: &mut Terms,
    condition: &Condition,
    limits: &Limits,
    base: Base,
) -> Result<Attempt<Vec<ProofNode>>, AllocError>
    ensures grows { Extends terms.old terms.new }
{
    match by_cuts(alloc, terms, condition, limits, base.falsity)? {
        Attempt::Nothing => {
            let found = by_values(alloc, terms, condition, limits, base)?;
            Ok(within(limits, found))
        }
        found => Ok(within(limits, found)),
    }
}

// A condition in an arena of its own is proved by these nodes, if the checker accepts them.
fn tested(
    alloc: Global,
    own: Terms,
    claim: Condition,
    nodes: Vec<ProofNode>,
) -> Result<Option<Decided>, AllocError>
    ensures { (a : Arena) (c : Condition) (limits : Limits) → IsOwn a c own claim → IfOk result (λ o. IfSome o (IsDecided a c limits)) }
{
    let mut own = own;
    let found = proof_of(alloc, &mut own, &claim, nodes)?;
    match found {
        Some(proof) => Ok(Some(Decided {
            terms: own,
            condition: claim,
            verdict: Verdict::Proved(proof),
        })),
        None => Ok(None),
    }
}

// A condition is false in a table near to these numbers, if this is seen of it there: in an arena that has nothing but its terms, whose ids are those that
// they have in the arena of the numbers.
fn shown(
    alloc: Global,
    terms: &Terms,
    condition: &Condition,
    numbers: Numbers,
) -> Result<Option<Decided>, AllocError>
    requires given { AllBelow (length terms.now.nodes) condition.now.given }
    requires goal { condition.now.goal.0 < length terms.now.nodes }
    ensures { (limits : Limits) → IfOk result (λ o. IfSome o (IsDecided terms.now condition.now limits)) }
{
    let Some(own) = own_copy(alloc, terms, condition)? else {
        return Ok(None);
    };
    match tried_near(alloc, &own.terms, &own.condition, numbers)? {
        Trial::Shown(found) => Ok(Some(Decided {
            terms: own.terms,
            condition: own.condition,
            verdict: Verdict::Unproved(found),
        })),
        _ => Ok(None),
    }
}

// Whether a proof by parts may be looked for.
fn has_parts(alloc: Global, terms: &Terms, condition: &Condition) -> Result<bool, AllocError> {
    if has_cuts(alloc, terms, condition)? {
        return Ok(true);
    }
    has_range(alloc, terms, condition)
}

/// What is decided of a condition by parts, if anything is.
pub(crate) fn decide_by_parts(
    alloc: Global,
    terms: &Terms,
    condition: &Condition,
    limits: &Limits,
) -> Result<Option<Decided>, AllocError>
    requires given { AllBelow (length terms.now.nodes) condition.now.given }
    requires goal { condition.now.goal.0 < length terms.now.nodes }
    ensures { IfOk result (λ o. IfSome o (IsDecided terms.now condition.now limits.now)) }
{
    if !has_parts(alloc, terms, condition)? {
        return Ok(None);
    }
    let Some(copied) = own_copy(alloc, terms, condition)? else {
        return Ok(None);
    };
    let mut own = copied.terms;
    let claim = copied.condition;
    match attempted(alloc, &mut own, &claim, limits, copied.base)? {
        Attempt::Done(nodes) => tested(alloc, own, claim, nodes),
        Attempt::Table(numbers) => shown(alloc, terms, condition, numbers),
        Attempt::Nothing => Ok(None),
    }
}

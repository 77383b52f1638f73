// What is known, in the arena where a verdict was found.

ghost use Rattle.std.specs.Prelude.{◌≡◌, ◌<◌, ◌+◌, List as Items, drop, length, IfOk};
ghost use Rattle.spv_proof_rules.specs.Rules.{Rule};
ghost use Rattle.spv_search_terms.specs.condition_copy.Copies.{IsSameClaim};
ghost use Rattle.spv_verdicts.specs.answers.Views.{rounds_in};
ghost use Rattle.spv_rounds.specs.Claims.{formulas};
ghost use Rattle.spv_rounds.specs.moving.Moves.{AreMoves};
ghost use Rattle.spv_rounds.specs.knowing.Known.{HasClaim, IsClaim, RoundsStand, IsSettled, members_in};
ghost use Rattle.spv_proof_rules.specs.Stand.{question_under};

use crate::knowing::known::Settled;
use crate::knowing::owning::own_condition;
use crate::moving::moved_rounds;
use spv_logic::list::List;
use spv_term::{Condition, TermId, Terms};
use spv_verdicts::answers::Round;
use std::alloc::{AllocError, Global};

// The hypotheses of a claim behind so many and one.
fn said_by(alloc: Global, claim: &Condition, hypotheses: usize) -> Result<List<TermId>, AllocError>
    requires { hypotheses < length claim.now.given }
    ensures { IfOk result (λ said. said ≡ drop (hypotheses + 1) claim.now.given) }
{
    let given = claim.given.as_slice();
    let said = given[hypotheses + 1..].to_vec(alloc)?;
    Ok(List::from_vec(said))
}

/// A condition and rounds in another arena, in which a claim of the condition stands, and the terms of the rounds at these places: a term without one
/// is want of memory.
pub fn settle(
    alloc: Global,
    from: &Terms,
    whole: &Condition,
    own: &Terms,
    rounds: &[Round],
    places: &[Option<TermId>],
    terms: Terms,
    claim: &Condition,
) -> Result<Settled, AllocError>
    requires claim { HasClaim from.now whole.now terms claim.now }
    requires moves { AreMoves own.now terms places.now }
    ensures terms { IfOk result (λ s. s.terms ≡ terms) }
    ensures same { IfOk result (λ s. rounds_in s.terms s.rounds ≡ rounds_in own.now rounds.now) }
    ensures settled { IfOk result (λ s. (rules : Items Rule) → IsClaim from.now whole.now (formulas (question_under rules from.now whole.now) (members_in own.now rounds.now)) terms claim.now → RoundsStand (question_under rules from.now whole.now) own.now rounds.now → IsSettled rules from.now whole.now s) }
{
    let _ = own;
    let condition = own_condition(alloc, from, whole, &terms, claim)?;
    let said = said_by(alloc, claim, whole.given.as_slice().len())?;
    let rounds = moved_rounds(alloc, places, rounds)?;
    Ok(Settled {
        terms,
        condition,
        falsity: claim.goal,
        rounds,
        formulas: said,
    })
}

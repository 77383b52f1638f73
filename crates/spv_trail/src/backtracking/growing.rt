// What follows on a path by evaluation.

ghost use Rattle.std.specs.Prelude.{◌≡◌, ◌<◌, length, List, IfOk, OnOk, Some};
ghost use Rattle.spv_logic.specs.Terms.{Term};
ghost use Rattle.spv_logic.specs.declared.conditions.TermId.{TermId};
ghost use Rattle.spv_proof_rules.specs.Stand.{question};
ghost use Rattle.spv_models.specs.leaf_models.Laws.{AreFormulas};
ghost use Rattle.spv_models.specs.leaf_models.Tables.{formulas_of};
ghost use Rattle.spv_assignments.specs.partial_assignment.Facts.{facts_of};
ghost use Rattle.spv_assignments.specs.partial_assignment.Following.{Contradicts, Follows};
ghost use Rattle.spv_assignments.specs.kleene.Passes.{StandsAt};
ghost use Rattle.spv_trail.specs.backtracking.Paths.{GoesOn, IsAskedOf, IsEnded, IsGrownOrEnded, IsStep, IsBranchTrail, WasTold};

use crate::asserted_steps::evaluate_all;
use crate::backtracking::path::{BranchTrail, Ground};
use crate::propagation::{End, learn, value_fact};
use spv_assignments::partial_assignment::{Following, next};
use spv_term::{Condition, TermId, Terms};
use std::alloc::{AllocError, Global};

// What came of looking at what follows.
#[derive(Clone, Copy, Debug)]
pub(crate) enum Growth {
    // Nothing follows.
    Done,
    // One more question has a value.
    More,
    // The path ends.
    Ended(End),
}

// The place of a term; that of the first one where it is not there.
fn place_of(ids: &[TermId], t: TermId) -> usize {
    ids.iter().position(|id| *id == t).unwrap_or(0)
}

impl BranchTrail {
    // A question has this truth, since it follows.
    fn follow(
        &mut self,
        alloc: Global,
        terms: &Terms,
        condition: &Condition,
        ground: &Ground,
        t: TermId,
        truth: bool,
    ) -> Result<Growth, AllocError>
        requires asked { IsAskedOf terms.now condition.now ground.now self.old.both }
        requires told { WasTold terms.now condition.now self.old }
        requires question { StandsAt ground.now.questions.items t }
        requires follows { Follows terms.now (facts_of terms.now self.old.known.items) t truth }
        ensures told { IfOk result (λ s. (cases : List Term) → IsBranchTrail terms.now condition.now cases self.old
            → IsStep terms.now condition.now ground.now.questions.items cases self.old self.new s) }
        ensures goes { OnOk result (GoesOn terms.now self.old self.new) }
    {
        let number = evaluate_all(
            alloc,
            &mut self.derivation,
            terms,
            condition,
            self.known.as_slice(),
            t,
            truth,
        )?;
        let falsity = self.both.trail.falsity;
        let end = learn(
            alloc,
            &mut self.derivation,
            &mut self.known,
            terms,
            condition,
            falsity,
            t,
            truth,
            number,
        )?;
        match end {
            Some(end) => Ok(Growth::Ended(end)),
            None => {
                self.settle(alloc, terms, condition, ground)?;
                Ok(Growth::More)
            }
        }
    }

    // The facts contradict each other: a term has this truth by one, and the opposite one follows.
    fn contradict(
        &mut self,
        alloc: Global,
        terms: &Terms,
        condition: &Condition,
        t: TermId,
        truth: bool,
    ) -> Result<Growth, AllocError>
        requires told { WasTold terms.now condition.now self.old }
        requires formulas { AreFormulas terms.now.shapes terms.now.decls (formulas_of (question terms.now condition.now).sequent) }
        requires contradicts { Contradicts terms.now (facts_of terms.now self.old.known.items) t truth }
        ensures told { IfOk result (λ s. (asked : List TermId) (cases : List Term) → IsBranchTrail terms.now condition.now cases self.old
            → IsStep terms.now condition.now asked cases self.old self.new s) }
        ensures goes { OnOk result (GoesOn terms.now self.old self.new) }
    {
        let falsity = self.both.trail.falsity;
        let first = value_fact(
            alloc,
            &mut self.derivation,
            self.known.as_slice(),
            terms,
            condition,
            falsity,
            t,
            truth,
        )?;
        let second = evaluate_all(
            alloc,
            &mut self.derivation,
            terms,
            condition,
            self.known.as_slice(),
            t,
            !truth,
        )?;
        Ok(Growth::Ended(End {
            first,
            second: Some(second),
        }))
    }

    // Adds what follows next. The questions are looked at from a place on, which becomes that of the one that follows.
    fn grow_once(
        &mut self,
        alloc: Global,
        terms: &Terms,
        condition: &Condition,
        ground: &Ground,
        place: &mut usize,
    ) -> Result<Growth, AllocError>
        requires asked { IsAskedOf terms.now condition.now ground.now self.old.both }
        requires told { WasTold terms.now condition.now self.old }
        ensures told { IfOk result (λ s. (cases : List Term) → IsBranchTrail terms.now condition.now cases self.old
            → IsStep terms.now condition.now ground.now.questions.items cases self.old self.new s) }
        ensures goes { OnOk result (GoesOn terms.now self.old self.new) }
    {
        let found = next(
            alloc,
            terms,
            &ground.connectives,
            self.known.as_slice(),
            &self.lists,
            ground.questions.as_slice(),
            *place,
        )?;
        match found {
            Following::Nothing => Ok(Growth::Done),
            Following::Question(t, truth) => {
                *place = place_of(ground.questions.as_slice(), t);
                self.follow(alloc, terms, condition, ground, t, truth)
            }
            Following::Clash(t, truth) => self.contradict(alloc, terms, condition, t, truth),
        }
    }

    /// Adds what follows by evaluation, until nothing does, or the path ends.
    pub fn grow(
        &mut self,
        alloc: Global,
        terms: &Terms,
        condition: &Condition,
        ground: &Ground,
    ) -> Result<Option<End>, AllocError>
        requires asked { IsAskedOf terms.now condition.now ground.now self.old.both }
        requires told { WasTold terms.now condition.now self.old }
        ensures told { IfOk result (λ o. (cases : List Term) → IsBranchTrail terms.now condition.now cases self.old
            → IsGrownOrEnded terms.now condition.now ground.now.questions.items cases self.new o) }
        ensures goes { OnOk result (GoesOn terms.now self.old self.new) }
    {
        let mut place = 0;
        loop {
            match self.grow_once(alloc, terms, condition, ground, &mut place)? {
                Growth::Done => return Ok(None),
                Growth::More => {}
                Growth::Ended(end) => return Ok(Some(end)),
            }
        }
    }
}

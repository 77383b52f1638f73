// The beginning of a path.

ghost use Rattle.std.specs.Prelude.{◌≡◌, ◌<◌, [], length, List, IfOk, OnOk};
ghost use Rattle.spv_term.specs.Arena.{AllBelow, tree};
ghost use Rattle.spv_tableau_rules.specs.constraints.Sayings.{literal};
ghost use Rattle.spv_share.specs.Both.{IsBoth, Stays, told};
ghost use Rattle.spv_trail.specs.backtracking.Paths.{IsAskedOf, IsEmptyPath, IsToldOrEnded};
ghost use Rattle.spv_trail.specs.backtracking.Beginning.{AreFirst, IsFirstOrEnded, IsOfNumber, KnowsAllOrEnded, KnowsGiven, KnowsGivenOrEnded, MayBegin};

use crate::asserted_steps::give;
use crate::backtracking::path::{BranchTrail, Ground};
use crate::propagation::{End, learn};
use spv_assignments::assignment_vector::listed;
use spv_assignments::partial_assignment::Known;
use spv_derivations::derivation::Derivation;
use spv_share::Both;
use spv_term::{Condition, TermId, Terms};
use std::alloc::{AllocError, Global};

// A hypothesis, by its number from 1; or by 0 that the goal is false.
fn give_one(
    alloc: Global,
    derivation: &mut Derivation,
    known: &mut Vec<Known>,
    terms: &Terms,
    condition: &Condition,
    falsity: TermId,
    number: u32,
    t: TermId,
    truth: bool,
) -> Result<Option<End>, AllocError>
    requires may { MayBegin terms.now condition.now falsity }
    requires first { AreFirst terms.now condition.now derivation.old known.old.items }
    requires number { IsOfNumber condition.now number t truth }
    requires t { t.0 < length terms.now.nodes }
    ensures { IfOk result (IsFirstOrEnded terms.now condition.now derivation.new known.new.items known.old.items (literal truth (tree terms.now t))) }
{
    let fact = give(derivation, terms, condition, number)?;
    learn(
        alloc, derivation, known, terms, condition, falsity, t, truth, fact,
    )
}

// All hypotheses, until one contradicts those before it.
fn give_hypotheses(
    alloc: Global,
    derivation: &mut Derivation,
    known: &mut Vec<Known>,
    terms: &Terms,
    condition: &Condition,
    falsity: TermId,
) -> Result<Option<End>, AllocError>
    requires may { MayBegin terms.now condition.now falsity }
    requires given { AllBelow (length terms.now.nodes) condition.now.given }
    requires known { known.old.items ≡ [] }
    requires derivation { derivation.old ≡ [] }
    ensures { IfOk result (KnowsGivenOrEnded terms.now condition.now derivation.new known.new.items) }
{
    let given = condition.given.as_slice();
    for place in 0..given.len() {
        if place >= u32::MAX as usize {
            return Err(AllocError);
        }
        let number = place as u32 + 1;
        let end = give_one(
            alloc,
            derivation,
            known,
            terms,
            condition,
            falsity,
            number,
            given[place],
            true,
        )?;
        if let Some(end) = end {
            return Ok(Some(end));
        }
    }
    Ok(None)
}

// That the goal is false.
fn give_goal(
    alloc: Global,
    derivation: &mut Derivation,
    known: &mut Vec<Known>,
    terms: &Terms,
    condition: &Condition,
    falsity: TermId,
) -> Result<Option<End>, AllocError>
    requires may { MayBegin terms.now condition.now falsity }
    requires goal { condition.now.goal.0 < length terms.now.nodes }
    requires given { KnowsGiven terms.now condition.now derivation.old known.old.items }
    ensures { IfOk result (KnowsAllOrEnded terms.now condition.now derivation.new known.new.items) }
{
    let goal = condition.goal;
    let end = give_one(
        alloc, derivation, known, terms, condition, falsity, 0, goal, false,
    )?;
    match end {
        Some(end) => Ok(Some(end)),
        None => Ok(None),
    }
}

// All hypotheses, and that the goal is false.
fn give_all(
    alloc: Global,
    derivation: &mut Derivation,
    known: &mut Vec<Known>,
    terms: &Terms,
    condition: &Condition,
    falsity: TermId,
) -> Result<Option<End>, AllocError>
    requires may { MayBegin terms.now condition.now falsity }
    requires given { AllBelow (length terms.now.nodes) condition.now.given }
    requires goal { condition.now.goal.0 < length terms.now.nodes }
    requires known { known.old.items ≡ [] }
    requires derivation { derivation.old ≡ [] }
    ensures { IfOk result (KnowsAllOrEnded terms.now condition.now derivation.new known.new.items) }
{
    let end = give_hypotheses(alloc, derivation, known, terms, condition, falsity)?;
    match end {
        Some(end) => Ok(Some(end)),
        None => give_goal(alloc, derivation, known, terms, condition, falsity),
    }
}

impl BranchTrail {
    // A path without facts.
    fn empty(alloc: Global, terms: &Terms, both: Both) -> Result<BranchTrail, AllocError>
        ensures { IfOk result (IsEmptyPath terms.now both) }
    {
        let lists = listed(alloc, terms, &[])?;
        Ok(BranchTrail {
            derivation: Derivation::new(alloc),
            known: Vec::new(alloc),
            both,
            lists,
        })
    }

    // The hypotheses, and that the goal is false: the path is told, or it ends.
    fn fill(
        &mut self,
        alloc: Global,
        terms: &Terms,
        condition: &Condition,
        ground: &Ground,
    ) -> Result<Option<End>, AllocError>
        requires given { AllBelow (length terms.now.nodes) condition.now.given }
        requires goal { condition.now.goal.0 < length terms.now.nodes }
        requires empty { IsEmptyPath terms.now self.old.both self.old }
        requires both { IsBoth terms.now self.old.both }
        requires untold { told self.old.both ≡ [] }
        requires asked { IsAskedOf terms.now condition.now ground.now self.old.both }
        ensures told { IfOk result (IsToldOrEnded terms.now condition.now [] self.new) }
        ensures stays { OnOk result (Stays self.old.both self.new.both) }
    {
        let falsity = self.both.trail.falsity;
        let end = give_all(
            alloc,
            &mut self.derivation,
            &mut self.known,
            terms,
            condition,
            falsity,
        )?;
        match end {
            Some(end) => Ok(Some(end)),
            None => {
                self.settle(alloc, terms, condition, ground)?;
                Ok(None)
            }
        }
    }

    /// The path without cases: the hypotheses, and that the goal is false. It may end at once. Both sides were told nothing before.
    pub fn begin(
        alloc: Global,
        terms: &Terms,
        condition: &Condition,
        ground: &Ground,
        both: Both,
    ) -> Result<(BranchTrail, Option<End>), AllocError>
        requires given { AllBelow (length terms.now.nodes) condition.now.given }
        requires goal { condition.now.goal.0 < length terms.now.nodes }
        requires both { IsBoth terms.now both }
        requires untold { told both ≡ [] }
        requires asked { IsAskedOf terms.now condition.now ground.now both }
        ensures told { IfOk result (λ r. IsToldOrEnded terms.now condition.now [] r.0 r.1) }
        ensures stays { IfOk result (λ r. Stays both r.0.both) }
    {
        let mut path = BranchTrail::empty(alloc, terms, both)?;
        let end = path.fill(alloc, terms, condition, ground)?;
        Ok((path, end))
    }
}

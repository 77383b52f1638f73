// A path on which facts are told, and how its questions are settled.

ghost use Rattle.std.specs.Prelude.{◌≡◌, List, OnOk};
ghost use Rattle.spv_logic.specs.Terms.{Term};
ghost use Rattle.spv_proof_rules.specs.Stand.{question};
ghost use Rattle.spv_derivations.specs.branches.Paths.{IsPath};
ghost use Rattle.spv_trail.specs.backtracking.Paths.{GoesOn, HasPath, IsBegun, IsHeld, IsBranchTrail};

use crate::propagation::tell_values;
use spv_assignments::assignment_vector::listed;
use spv_assignments::kleene::Connectives;
use spv_assignments::partial_assignment::{Known, Listed};
use spv_derivations::derivation::Derivation;
use spv_share::Both;
use spv_term::{Condition, TermId, Terms};
use std::alloc::{AllocError, Global};

/// What a search over a condition asks: its questions, and the connectives of its arena.
#[derive(Drop)]
pub struct Ground {
    /// The ids of the questions.
    pub questions: Vec<TermId>,
    /// The connectives.
    pub connectives: Connectives,
}

/// What is told on a path: its facts in order, those that are known of cores, both sides, and the values that the known facts give.
#[derive(Drop)]
pub struct BranchTrail {
    /// The facts of the path in order.
    pub derivation: Derivation,
    /// The facts that say something of a core.
    pub known: Vec<Known>,
    /// Both sides, which were told the truth of each question that has one.
    pub both: Both,
    /// The values that the known facts gave when the questions were last told.
    pub lists: Listed,
}

impl BranchTrail {
    // Tells both sides each question whose value is new.
    pub(crate) fn settle(
        &mut self,
        alloc: Global,
        terms: &Terms,
        condition: &Condition,
        ground: &Ground,
    ) -> Result<(), AllocError>
        requires held { IsHeld terms.now condition.now ground.now self.old }
        requires path { HasPath terms.now condition.now self.old.derivation }
        ensures told { OnOk result ((cases : List Term) → IsPath (question terms.now condition.now) cases self.old.derivation
            → IsBegun terms.now condition.now cases self.old.known.items → IsBranchTrail terms.now condition.now cases self.new) }
        ensures goes { OnOk result (GoesOn terms.now self.old self.new) }
        ensures known { OnOk result (self.new.known.items ≡ self.old.known.items) }
    {
        let lists = listed(alloc, terms, self.known.as_slice())?;
        tell_values(
            alloc,
            &mut self.derivation,
            &mut self.both,
            self.known.as_slice(),
            terms,
            condition,
            ground.questions.as_slice(),
            self.lists.all.as_slice(),
            lists.all.as_slice(),
        )?;
        self.lists = lists;
        Ok(())
    }
}

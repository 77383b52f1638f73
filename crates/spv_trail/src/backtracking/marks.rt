// Going back on a path.

ghost use Rattle.std.specs.Prelude.{◌≡◌, ◌≤◌, List, take, length, OnOk};
ghost use Rattle.spv_logic.specs.Terms.{Term};
ghost use Rattle.spv_share.specs.Both.{IsBoth, Stays};
ghost use Rattle.spv_trail.specs.declared.backtracking.marks.TrailMark.{TrailMark};
ghost use Rattle.spv_trail.specs.backtracking.Paths.{HasMark, IsEarlier, IsMark, IsBranchTrail};

use crate::backtracking::path::BranchTrail;
use spv_assignments::assignment_vector::listed;
use spv_assignments::partial_assignment::Known;
use spv_share::Level;
use spv_term::{Condition, Terms};
use std::alloc::{AllocError, Global};

/// How far a path was told.
#[derive(Debug, Drop)]
pub struct TrailMark {
    /// How many facts there were.
    pub entries: usize,
    /// How many of them were known.
    pub known: usize,
    /// How far both sides were.
    pub level: Level,
}

// Takes back to the first known facts, so many.
fn keep_known(known: &mut Vec<Known>, count: usize)
    requires { count ≤ length known.old.items }
    ensures { known.new.items ≡ take count known.old.items }
{
    known.truncate(count);
}

impl BranchTrail {
    /// How far the path is told. It takes no memory.
    pub fn mark(&self, terms: &Terms, condition: &Condition) -> TrailMark
        requires { IsBoth terms.now self.now.both }
        ensures mark { (cases : List Term) → IsBranchTrail terms.now condition.now cases self.now → IsMark terms.now condition.now cases self.now result }
        ensures last { (cases : List Term) (m : TrailMark) → IsMark terms.now condition.now cases self.now m → IsEarlier m result }
    {
        let _ = condition;
        TrailMark {
            entries: self.derivation.len(),
            known: self.known.as_slice().len(),
            level: self.both.mark(terms),
        }
    }

    /// Goes back to a mark: what was told since is taken back.
    pub fn undo(
        &mut self,
        alloc: Global,
        terms: &Terms,
        condition: &Condition,
        mark: &TrailMark,
    ) -> Result<(), AllocError>
        requires both { IsBoth terms.now self.old.both }
        requires mark { HasMark terms.now condition.now self.old mark.now }
        ensures told { OnOk result ((cases : List Term) → IsMark terms.now condition.now cases self.old mark.now → IsBranchTrail terms.now condition.now cases self.new) }
        ensures stays { OnOk result (Stays self.old.both self.new.both) }
        ensures marks { OnOk result ((cases : List Term) (m : TrailMark) → IsMark terms.now condition.now cases self.old m → IsEarlier m mark.now
            → IsMark terms.now condition.now cases self.new m) }
    {
        let _ = condition;
        self.derivation.keep(mark.entries);
        keep_known(&mut self.known, mark.known);
        self.both.undo(terms, &mark.level);
        self.lists = listed(alloc, terms, self.known.as_slice())?;
        Ok(())
    }
}

// The way from one branch to the next.

ghost use Rattle.std.specs.Prelude.{◌≡◌, true, IfOk, OnOk};
ghost use Rattle.spv_search.specs.Searching.{IsArrived, IsRunning};
ghost use Rattle.spv_search.specs.Walking.{IsBefore};

use crate::branches::Branches;
use spv_term::{Condition, TermId, Terms};
use spv_trail::backtracking::{BranchTrail, Ground, TrailMark};
use spv_trail::propagation::End;
use spv_verdicts::answers::Limits;
use std::alloc::{AllocError, Global};

// The path goes back to the mark before the last case of the branch that comes next.
fn go_back(
    alloc: Global,
    terms: &Terms,
    condition: &Condition,
    atoms: &[TermId],
    ground: &Ground,
    limits: &Limits,
    path: &mut BranchTrail,
    branches: &Branches,
    marks: &[TrailMark],
) -> Result<(), AllocError>
    requires running { IsRunning terms.now condition.now atoms.now ground.now limits.now path.old branches.now marks.now }
    requires comes { branches.now.is_left ≡ true }
    ensures { OnOk result (IsBefore terms.now condition.now atoms.now ground.now limits.now path.new branches.now marks.now) }
{
    let _ = atoms;
    let _ = ground;
    let _ = limits;
    let place = branches.cases().len() - 1;
    path.undo(alloc, terms, condition, &marks[place])
}

// The last case of the branch that comes next is told.
fn tell_last(
    alloc: Global,
    terms: &Terms,
    condition: &Condition,
    atoms: &[TermId],
    ground: &Ground,
    limits: &Limits,
    path: &mut BranchTrail,
    branches: &Branches,
    marks: &[TrailMark],
) -> Result<Option<End>, AllocError>
    requires { IsBefore terms.now condition.now atoms.now ground.now limits.now path.old branches.now marks.now }
    ensures { IfOk result (IsArrived terms.now condition.now atoms.now ground.now limits.now path.new branches.now marks.now) }
{
    terms.law_arena();
    let _ = atoms;
    let _ = limits;
    let _ = marks;
    let cases = branches.cases();
    let count = cases.len();
    if count > u32::MAX as usize {
        return Err(AllocError);
    }
    let case = cases[count - 1];
    path.tell_case(
        alloc,
        terms,
        condition,
        ground,
        case.atom,
        case.part,
        count as u32,
    )
}

/// Goes to the branch that comes next: the path goes back to the cases that it keeps, and its last case is told. The path may end by it.
pub(crate) fn advance(
    alloc: Global,
    terms: &Terms,
    condition: &Condition,
    atoms: &[TermId],
    ground: &Ground,
    limits: &Limits,
    path: &mut BranchTrail,
    branches: &Branches,
    marks: &[TrailMark],
) -> Result<Option<End>, AllocError>
    requires running { IsRunning terms.now condition.now atoms.now ground.now limits.now path.old branches.now marks.now }
    requires comes { branches.now.is_left ≡ true }
    ensures { IfOk result (IsArrived terms.now condition.now atoms.now ground.now limits.now path.new branches.now marks.now) }
{
    go_back(
        alloc, terms, condition, atoms, ground, limits, path, branches, marks,
    )?;
    tell_last(
        alloc, terms, condition, atoms, ground, limits, path, branches, marks,
    )
}

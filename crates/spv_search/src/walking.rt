// From branch to branch.

ghost use Rattle.std.specs.Prelude.{◌≡◌, ◌<◌, true, length, IfOk};
ghost use Rattle.spv_term.specs.Arena.{AllBelow};
ghost use Rattle.spv_branch_theory.specs.saturation.States.{AreListed};
ghost use Rattle.spv_decisions.specs.heuristic.Guiding.{IsHeuristic};
ghost use Rattle.spv_search.specs.Searching.{IsArrived, IsRunning};
ghost use Rattle.spv_search.specs.Finding.{IsVisited};
ghost use Rattle.spv_search.specs.Walking.{IsWalked};

use crate::advancing::advance;
use crate::branch::take_branch;
use crate::branches::Branches;
use spv_decisions::heuristic::Heuristic;
use spv_term::{Condition, TermId, Terms};
use spv_trail::backtracking::{BranchTrail, Ground, TrailMark};
use spv_trail::propagation::End;
use spv_verdicts::answers::{Limits, Verdict};
use std::alloc::{AllocError, Global};

// The branch that comes next is gone to, and taken.
fn turn(
    alloc: Global,
    terms: &Terms,
    condition: &Condition,
    subterms: &[TermId],
    listed: &[bool],
    atoms: &[TermId],
    ground: &Ground,
    limits: &Limits,
    heuristic: &Heuristic,
    path: &mut BranchTrail,
    branches: &mut Branches,
    marks: &mut Vec<TrailMark>,
) -> Result<Option<Verdict>, AllocError>
    requires given { AllBelow (length terms.now.nodes) condition.now.given }
    requires goal { condition.now.goal.0 < length terms.now.nodes }
    requires listed { AreListed terms.now condition.now subterms.now listed.now }
    requires heuristic { IsHeuristic terms.now heuristic.now }
    requires running { IsRunning terms.now condition.now atoms.now ground.now limits.now path.old branches.old marks.old.items }
    requires comes { branches.old.is_left ≡ true }
    ensures { IfOk result (IsVisited terms.now condition.now atoms.now ground.now limits.now path.new branches.old branches.new marks.new.items) }
{
    let end = advance(
        alloc,
        terms,
        condition,
        atoms,
        ground,
        limits,
        path,
        branches,
        marks.as_slice(),
    )?;
    take_branch(
        alloc, terms, condition, subterms, listed, atoms, ground, limits, heuristic, path,
        branches, marks, end,
    )
}

// All branches that are left, until a verdict is found. Each leaves less room to the tree.
fn walk(
    alloc: Global,
    terms: &Terms,
    condition: &Condition,
    subterms: &[TermId],
    listed: &[bool],
    atoms: &[TermId],
    ground: &Ground,
    limits: &Limits,
    heuristic: &Heuristic,
    path: &mut BranchTrail,
    branches: &mut Branches,
    marks: &mut Vec<TrailMark>,
) -> Result<Option<Verdict>, AllocError>
    requires given { AllBelow (length terms.now.nodes) condition.now.given }
    requires goal { condition.now.goal.0 < length terms.now.nodes }
    requires listed { AreListed terms.now condition.now subterms.now listed.now }
    requires heuristic { IsHeuristic terms.now heuristic.now }
    requires running { IsRunning terms.now condition.now atoms.now ground.now limits.now path.old branches.old marks.old.items }
    ensures { IfOk result (IsWalked terms.now condition.now limits.now branches.new) }
{
    while branches.is_left() {
        let found = turn(
            alloc, terms, condition, subterms, listed, atoms, ground, limits, heuristic, path,
            branches, marks,
        )?;
        if let Some(verdict) = found {
            return Ok(Some(verdict));
        }
    }
    Ok(None)
}

/// The branch that comes next, whose path is told or ends, and all that are left behind it, until a verdict is found.
pub(crate) fn run(
    alloc: Global,
    terms: &Terms,
    condition: &Condition,
    subterms: &[TermId],
    listed: &[bool],
    atoms: &[TermId],
    ground: &Ground,
    limits: &Limits,
    heuristic: &Heuristic,
    path: &mut BranchTrail,
    branches: &mut Branches,
    marks: &mut Vec<TrailMark>,
    end: Option<End>,
) -> Result<Option<Verdict>, AllocError>
    requires given { AllBelow (length terms.now.nodes) condition.now.given }
    requires goal { condition.now.goal.0 < length terms.now.nodes }
    requires listed { AreListed terms.now condition.now subterms.now listed.now }
    requires heuristic { IsHeuristic terms.now heuristic.now }
    requires arrived { IsArrived terms.now condition.now atoms.now ground.now limits.now path.old branches.old marks.old.items end }
    ensures { IfOk result (IsWalked terms.now condition.now limits.now branches.new) }
{
    let found = take_branch(
        alloc, terms, condition, subterms, listed, atoms, ground, limits, heuristic, path,
        branches, marks, end,
    )?;
    match found {
        Some(verdict) => Ok(Some(verdict)),
        None => walk(
            alloc, terms, condition, subterms, listed, atoms, ground, limits, heuristic, path,
            branches, marks,
        ),
    }
}

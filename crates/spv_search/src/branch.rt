// One branch of a search.

ghost use Rattle.std.specs.Prelude.{◌≡◌, ◌<◌, ◌≤◌, ◌+◌, List, length, Some, None, IfOk, OnOk};
ghost use Rattle.spv_term.specs.Arena.{AllBelow};
ghost use Rattle.spv_search.specs.declared.branches.cases.Case.{Case};
ghost use Rattle.spv_decisions.specs.heuristic.Guiding.{IsHeuristic, MayBeSplit};
ghost use Rattle.spv_branch_theory.specs.saturation.States.{AreListed};
ghost use Rattle.spv_share.specs.Both.{IsBoth};
ghost use Rattle.spv_trail.specs.backtracking.Paths.{IsBranchTrail};
ghost use Rattle.spv_search.specs.Searching.{AreMarks, formulas_in, IsArrived};
ghost use Rattle.spv_search.specs.Finding.{IsQuiet, IsResting, IsVisited};

use crate::branches::Branches;
use crate::closing::{close, close_by, count_of};
use crate::consulting::{Next, consult};
use crate::resting::law_rest;
use crate::stating::state;
use crate::stopping::give_up;
use crate::surveying::survey;
use spv_decisions::decision::{Choice, choose};
use spv_decisions::heuristic::Heuristic;
use spv_share::Shared;
use spv_term::{Condition, TermId, Terms};
use spv_trail::backtracking::{BranchTrail, Ground, TrailMark};
use spv_trail::propagation::End;
use spv_verdicts::answers::{Limits, Verdict};
use std::alloc::{AllocError, Global};

// The marks of the first cases, so many, with one of the path as it is behind them.
fn push_mark(
    terms: &Terms,
    condition: &Condition,
    path: &BranchTrail,
    marks: &mut Vec<TrailMark>,
    count: usize,
) -> Result<(), AllocError>
    requires both { IsBoth terms.now path.now.both }
    requires count { count ≤ length marks.old.items }
    ensures { OnOk result ((cs : List Case) → count ≡ length cs → IsBranchTrail terms.now condition.now (formulas_in terms.now cs) path.now
        → AreMarks terms.now condition.now path.now marks.old.items cs count → AreMarks terms.now condition.now path.now marks.new.items cs (count + 1)) }
{
    marks.truncate(count);
    marks.push(path.mark(terms, condition))?;
    Ok(())
}

// The branch that comes next is split on an atom, where a split is left; else it stays open.
fn split(
    terms: &Terms,
    condition: &Condition,
    atoms: &[TermId],
    ground: &Ground,
    limits: &Limits,
    path: &BranchTrail,
    branches: &mut Branches,
    marks: &mut Vec<TrailMark>,
    t: TermId,
) -> Result<(), AllocError>
    requires resting { IsResting terms.now condition.now atoms.now ground.now limits.now path.now branches.old marks.old.items }
    requires split { MayBeSplit terms.now atoms.now path.now.lists.all.items path.now.known.items t }
    ensures { OnOk result (IsVisited terms.now condition.now atoms.now ground.now limits.now path.now branches.old branches.new marks.new.items None) }
{
    law_rest(terms, path);
    let _ = atoms;
    let _ = ground;
    if branches.splits() < limits.splits() {
        let count = branches.cases().len();
        push_mark(terms, condition, path, marks, count)?;
        branches.split(terms, t)
    } else {
        branches.open()
    }
}

// Both sides are open, and nothing better is known: nothing is left to split on, and there is a verdict; or a node takes the branch.
fn go_on(
    alloc: Global,
    terms: &Terms,
    condition: &Condition,
    subterms: &[TermId],
    listed: &[bool],
    atoms: &[TermId],
    ground: &Ground,
    limits: &Limits,
    path: &BranchTrail,
    branches: &mut Branches,
    marks: &mut Vec<TrailMark>,
) -> Result<Option<Verdict>, AllocError>
    requires given { AllBelow (length terms.now.nodes) condition.now.given }
    requires goal { condition.now.goal.0 < length terms.now.nodes }
    requires listed { AreListed terms.now condition.now subterms.now listed.now }
    requires resting { IsResting terms.now condition.now atoms.now ground.now limits.now path.now branches.old marks.old.items }
    ensures { IfOk result (IsVisited terms.now condition.now atoms.now ground.now limits.now path.now branches.old branches.new marks.new.items) }
{
    law_rest(terms, path);
    match choose(
        terms,
        atoms,
        path.lists.all.as_slice(),
        path.known.as_slice(),
    ) {
        Choice::Split(t) => {
            split(
                terms, condition, atoms, ground, limits, path, branches, marks, t,
            )?;
            Ok(None)
        }
        Choice::Full => {
            let verdict = survey(alloc, terms, condition, subterms, listed, &path.both)?;
            Ok(Some(verdict))
        }
    }
}

// Both sides are open: their table falsifies the condition; or a node takes the branch, where an atom is advised on that one.
fn rest(
    alloc: Global,
    terms: &Terms,
    condition: &Condition,
    subterms: &[TermId],
    listed: &[bool],
    atoms: &[TermId],
    ground: &Ground,
    limits: &Limits,
    heuristic: &Heuristic,
    path: &BranchTrail,
    branches: &mut Branches,
    marks: &mut Vec<TrailMark>,
) -> Result<Option<Verdict>, AllocError>
    requires given { AllBelow (length terms.now.nodes) condition.now.given }
    requires goal { condition.now.goal.0 < length terms.now.nodes }
    requires listed { AreListed terms.now condition.now subterms.now listed.now }
    requires heuristic { IsHeuristic terms.now heuristic.now }
    requires resting { IsResting terms.now condition.now atoms.now ground.now limits.now path.now branches.old marks.old.items }
    ensures { IfOk result (IsVisited terms.now condition.now atoms.now ground.now limits.now path.now branches.old branches.new marks.new.items) }
{
    law_rest(terms, path);
    let next = consult(
        alloc, terms, condition, subterms, listed, atoms, heuristic, path,
    )?;
    match next {
        Next::Found(unproved) => Ok(Some(Verdict::Unproved(unproved))),
        Next::Split(t) => {
            split(
                terms, condition, atoms, ground, limits, path, branches, marks, t,
            )?;
            Ok(None)
        }
        Next::Nothing => go_on(
            alloc, terms, condition, subterms, listed, atoms, ground, limits, path, branches, marks,
        ),
    }
}

// Evaluations add nothing: both sides are asked.
fn ask(
    alloc: Global,
    terms: &Terms,
    condition: &Condition,
    subterms: &[TermId],
    listed: &[bool],
    atoms: &[TermId],
    ground: &Ground,
    limits: &Limits,
    heuristic: &Heuristic,
    path: &mut BranchTrail,
    branches: &mut Branches,
    marks: &mut Vec<TrailMark>,
) -> Result<Option<Verdict>, AllocError>
    requires given { AllBelow (length terms.now.nodes) condition.now.given }
    requires goal { condition.now.goal.0 < length terms.now.nodes }
    requires listed { AreListed terms.now condition.now subterms.now listed.now }
    requires heuristic { IsHeuristic terms.now heuristic.now }
    requires quiet { IsQuiet terms.now condition.now atoms.now ground.now limits.now path.old branches.old marks.old.items }
    ensures { IfOk result (IsVisited terms.now condition.now atoms.now ground.now limits.now path.new branches.old branches.new marks.new.items) }
{
    let count = count_of(branches.cases())?;
    let shared = state(alloc, terms, path)?;
    match shared {
        Shared::Open => rest(
            alloc, terms, condition, subterms, listed, atoms, ground, limits, heuristic, path,
            branches, marks,
        ),
        Shared::Closed(steps) => {
            close(
                alloc,
                terms,
                condition,
                &mut path.derivation,
                branches,
                steps,
                count,
            )?;
            Ok(None)
        }
        Shared::Limit => {
            let verdict = give_up(alloc, &path.both)?;
            Ok(Some(verdict))
        }
    }
}

// The path is told: what follows is added.
fn grow(
    alloc: Global,
    terms: &Terms,
    condition: &Condition,
    subterms: &[TermId],
    listed: &[bool],
    atoms: &[TermId],
    ground: &Ground,
    limits: &Limits,
    heuristic: &Heuristic,
    path: &mut BranchTrail,
    branches: &mut Branches,
    marks: &mut Vec<TrailMark>,
) -> Result<Option<Verdict>, AllocError>
    requires given { AllBelow (length terms.now.nodes) condition.now.given }
    requires goal { condition.now.goal.0 < length terms.now.nodes }
    requires listed { AreListed terms.now condition.now subterms.now listed.now }
    requires heuristic { IsHeuristic terms.now heuristic.now }
    requires arrived { IsArrived terms.now condition.now atoms.now ground.now limits.now path.old branches.old marks.old.items None }
    ensures { IfOk result (IsVisited terms.now condition.now atoms.now ground.now limits.now path.new branches.old branches.new marks.new.items) }
{
    let ended = path.grow(alloc, terms, condition, ground)?;
    match ended {
        Some(end) => {
            close_by(alloc, terms, condition, &mut path.derivation, branches, end)?;
            Ok(None)
        }
        None => ask(
            alloc, terms, condition, subterms, listed, atoms, ground, limits, heuristic, path,
            branches, marks,
        ),
    }
}

/// The branch that comes next, whose path is told or ends: a node of the tree takes it, or the verdict of the search is found. A path that
/// ends, or on which both sides contradict each other, is closed. Where both sides are open, the branch is split on an atom that is chosen; or it
/// stays open, where no split is left. Where nothing is left to split on, the condition is unproved, or an operation in the table of the
/// path is too wide. The search gives up, where a check of the tableau stops at a limit.
pub(crate) fn take_branch(
    alloc: Global,
    terms: &Terms,
    condition: &Condition,
    subterms: &[TermId],
    listed: &[bool],
    atoms: &[TermId],
    ground: &Ground,
    limits: &Limits,
    heuristic: &Heuristic,
    path: &mut BranchTrail,
    branches: &mut Branches,
    marks: &mut Vec<TrailMark>,
    end: Option<End>,
) -> Result<Option<Verdict>, AllocError>
    requires given { AllBelow (length terms.now.nodes) condition.now.given }
    requires goal { condition.now.goal.0 < length terms.now.nodes }
    requires listed { AreListed terms.now condition.now subterms.now listed.now }
    requires heuristic { IsHeuristic terms.now heuristic.now }
    requires arrived { IsArrived terms.now condition.now atoms.now ground.now limits.now path.old branches.old marks.old.items end }
    ensures { IfOk result (IsVisited terms.now condition.now atoms.now ground.now limits.now path.new branches.old branches.new marks.new.items) }
{
    match end {
        Some(end) => {
            close_by(alloc, terms, condition, &mut path.derivation, branches, end)?;
            Ok(None)
        }
        None => grow(
            alloc, terms, condition, subterms, listed, atoms, ground, limits, heuristic, path,
            branches, marks,
        ),
    }
}

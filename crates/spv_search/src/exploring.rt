// A search.

ghost use Rattle.std.specs.Prelude.{◌≡◌, ◌<◌, [], false, length, IfOk};
ghost use Rattle.spv_term.specs.Arena.{AllBelow};
ghost use Rattle.spv_branch_theory.specs.saturation.States.{AreListed};
ghost use Rattle.spv_decisions.specs.heuristic.Guiding.{IsHeuristic};
ghost use Rattle.spv_models.specs.leaf_models.Laws.{AreFormulas};
ghost use Rattle.spv_models.specs.leaf_models.Tables.{formulas_of};
ghost use Rattle.spv_proof_rules.specs.Stand.{question};
ghost use Rattle.spv_share.specs.Both.{IsBoth, told};
ghost use Rattle.spv_trail.specs.backtracking.Paths.{IsToldOrEnded};
ghost use Rattle.spv_search.specs.Searching.{IsSetUp, IsWithin};
ghost use Rattle.spv_search.specs.Finding.{IsFound};

use crate::branches::{Branches, Finished};
use crate::walking::run;
use spv_decisions::heuristic::Heuristic;
use spv_logic::list::List;
use spv_share::Both;
use spv_term::{Condition, TermId, Terms};
use spv_trail::backtracking::{BranchTrail, Ground};
use spv_trail::propagation::End;
use spv_verdicts::answers::{Limit, Limits, Verdict};
use std::alloc::{AllocError, Global};

// The verdict where no branch is left: proved, or that the splits are spent.
fn conclude(
    alloc: Global,
    terms: &Terms,
    condition: &Condition,
    limits: &Limits,
    branches: Branches,
) -> Result<Verdict, AllocError>
    requires within { IsWithin terms.now condition.now limits.now branches }
    requires none { branches.is_left ≡ false }
    requires formulas { AreFormulas terms.now.shapes terms.now.decls (formulas_of (question terms.now condition.now).sequent) }
    ensures { IfOk result (IsFound terms.now condition.now limits.now) }
{
    let _ = terms;
    let _ = condition;
    let _ = limits;
    let finished = branches.finish(alloc)?;
    match finished {
        Finished::Proved(proof) => Ok(Verdict::Proved(proof)),
        Finished::Open(tree) => Ok(Verdict::GaveUp(List::new(alloc), Limit::Splits(tree))),
    }
}

// The search from a path without cases, which is told or ends.
fn explore(
    alloc: Global,
    terms: &Terms,
    condition: &Condition,
    subterms: &[TermId],
    listed: &[bool],
    atoms: &[TermId],
    ground: &Ground,
    limits: &Limits,
    heuristic: &Heuristic,
    path: &mut BranchTrail,
    end: Option<End>,
) -> Result<Verdict, AllocError>
    requires given { AllBelow (length terms.now.nodes) condition.now.given }
    requires goal { condition.now.goal.0 < length terms.now.nodes }
    requires listed { AreListed terms.now condition.now subterms.now listed.now }
    requires heuristic { IsHeuristic terms.now heuristic.now }
    requires set_up { IsSetUp terms.now condition.now atoms.now ground.now limits.now path.old.both }
    requires told { IsToldOrEnded terms.now condition.now [] path.old end }
    ensures { IfOk result (IsFound terms.now condition.now limits.now) }
{
    let mut branches = Branches::new(alloc);
    let mut marks = Vec::new(alloc);
    let found = run(
        alloc,
        terms,
        condition,
        subterms,
        listed,
        atoms,
        ground,
        limits,
        heuristic,
        path,
        &mut branches,
        &mut marks,
        end,
    )?;
    match found {
        Some(verdict) => Ok(verdict),
        None => conclude(alloc, terms, condition, limits, branches),
    }
}

/// What a search for a proof of a condition finds within limits, where both sides were opened for its atoms and its questions and were told
/// nothing: a proof; the truths of its atoms in a table that falsifies it; or the limit that was reached. `subterms` are those of its formulas, and
/// `listed` says which of them a table lists. The heuristic advises which atom a branch splits on. The terms of the verdict are in the arena.
pub fn search(
    alloc: Global,
    terms: &Terms,
    condition: &Condition,
    subterms: &[TermId],
    listed: &[bool],
    atoms: &[TermId],
    ground: &Ground,
    both: Both,
    limits: &Limits,
    heuristic: &Heuristic,
) -> Result<Verdict, AllocError>
    requires given { AllBelow (length terms.now.nodes) condition.now.given }
    requires goal { condition.now.goal.0 < length terms.now.nodes }
    requires listed { AreListed terms.now condition.now subterms.now listed.now }
    requires heuristic { IsHeuristic terms.now heuristic.now }
    requires set_up { IsSetUp terms.now condition.now atoms.now ground.now limits.now both }
    requires both { IsBoth terms.now both }
    requires untold { told both ≡ [] }
    ensures { IfOk result (IsFound terms.now condition.now limits.now) }
{
    let (mut path, end) = BranchTrail::begin(alloc, terms, condition, ground, both)?;
    explore(
        alloc, terms, condition, subterms, listed, atoms, ground, limits, heuristic, &mut path, end,
    )
}

// A branch that is closed.

ghost use Rattle.std.specs.Prelude.{◌≡◌, [], ◌∷◌, length, true, IfOk, OnOk};
ghost use Rattle.spv_atoms.specs.declared.proofs.Step.TheVariants as step;
ghost use Rattle.spv_proof_rules.specs.Accepted.{Closed, walk};
ghost use Rattle.spv_proof_rules.specs.Stand.{question, StepsIn};
ghost use Rattle.spv_verdicts.specs.Verdicts.{Limits};
ghost use Rattle.spv_derivations.specs.branches.Paths.{facts_in, IsPath};
ghost use Rattle.spv_trail.specs.propagation.Learning.{EndsBy};
ghost use Rattle.spv_search.specs.Searching.{formulas_in, HasTaken, IsWithin};

use crate::branches::{Branches, Case};
use spv_atoms::Step;
use spv_derivations::branches::closed_behind;
use spv_derivations::derivation::Derivation;
use spv_term::{Condition, Terms};
use spv_trail::propagation::End;
use std::alloc::{AllocError, Global};

/// How many cases these are; want of memory where a number of 32 bits does not hold it.
pub(crate) fn count_of(cases: &[Case]) -> Result<u32, AllocError>
    ensures { IfOk result (λ n. n ≡ length cases.now) }
{
    let count = cases.len();
    if count > u32::MAX as usize {
        return Err(AllocError);
    }
    Ok(count as u32)
}

// The step by which facts end a path.
fn last_step(alloc: Global, end: End) -> Result<Vec<Step>, AllocError>
    ensures { IfOk result (λ v. v.items ≡ step.Contra end.first end.second ∷ []) }
{
    let mut steps = Vec::new(alloc);
    steps.push(Step::Contra(end.first, end.second))?;
    Ok(steps)
}

/// Steps over terms of the arena that close a path behind all its facts close the branch that comes next, whose path it is.
pub(crate) fn close(
    alloc: Global,
    terms: &Terms,
    condition: &Condition,
    derivation: &mut Derivation,
    branches: &mut Branches,
    steps: Vec<Step>,
    count: u32,
) -> Result<(), AllocError>
    requires closes { walk (question terms.now condition.now) (facts_in (question terms.now condition.now) derivation.old) steps.items ≡ Closed }
    requires within { StepsIn terms.now steps.items }
    requires path { IsPath (question terms.now condition.now) (formulas_in terms.now branches.old.cases) derivation.old }
    requires comes { branches.old.is_left ≡ true }
    requires count { count ≡ length branches.old.cases }
    ensures derivation { derivation.new ≡ derivation.old }
    ensures taken { OnOk result ((limits : Limits) → IsWithin terms.now condition.now limits branches.old
        → HasTaken terms.now condition.now limits (length branches.old.cases) branches.old branches.new) }
{
    let closing = closed_behind(alloc, terms, condition, derivation, steps, count)?;
    branches.close(closing)
}

/// Facts that end a path close the branch that comes next, whose path it is.
pub(crate) fn close_by(
    alloc: Global,
    terms: &Terms,
    condition: &Condition,
    derivation: &mut Derivation,
    branches: &mut Branches,
    end: End,
) -> Result<(), AllocError>
    requires ends { EndsBy terms.now condition.now (formulas_in terms.now branches.old.cases) derivation.old end }
    requires comes { branches.old.is_left ≡ true }
    ensures derivation { derivation.new ≡ derivation.old }
    ensures taken { OnOk result ((limits : Limits) → IsWithin terms.now condition.now limits branches.old
        → HasTaken terms.now condition.now limits (length branches.old.cases) branches.old branches.new) }
{
    let count = count_of(branches.cases())?;
    let steps = last_step(alloc, end)?;
    close(alloc, terms, condition, derivation, branches, steps, count)
}

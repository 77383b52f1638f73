// Steps that close a path behind its cases.

ghost use Rattle.std.specs.Prelude.{◌≡◌, ◌++◌, ◌∷◌, [], List, length, IfOk, OnOk};
ghost use Rattle.spv_logic.specs.Terms.{Term};
ghost use Rattle.spv_proof_rules.specs.Accepted.{Closed, walk};
ghost use Rattle.spv_proof_rules.specs.Stand.{question, StepsIn};
ghost use Rattle.spv_atoms.specs.declared.proofs.Step.TheVariants as step;
ghost use Rattle.spv_derivations.specs.branches.Paths.{as_entries, EndsPath, facts_in, IsClosing, IsGrown, IsPath, turned};

use crate::derivation::Derivation;
use spv_atoms::Step;
use spv_term::{Condition, Terms};
use std::alloc::{AllocError, Global};

/// The facts that end a path.
#[derive(Clone, Copy, Debug)]
pub(crate) struct End {
    pub(crate) first: u32,
    pub(crate) second: Option<u32>,
}

// Takes the end of the path from behind other steps.
fn take_end(steps: &mut Vec<Step>) -> End
    requires { EndsPath steps.old.items }
    ensures { steps.old.items ≡ steps.new.items ++ step.Contra result.first result.second ∷ [] }
{
    match steps.pop() {
        Some(Step::Contra(first, second)) => End { first, second },
        _ => unreachable!(),
    }
}

// The same steps in the other order.
fn turn(alloc: Global, steps: Vec<Step>) -> Result<Vec<Step>, AllocError>
    ensures { IfOk result (λ v. v.items ≡ turned steps.items) }
{
    let mut left = steps;
    let mut other = Vec::new(alloc);
    while let Some(step) = left.pop() {
        other.push(step)?;
    }
    Ok(other)
}

// Puts steps, which stand in the other order, behind the facts of a path.
fn derive_all(path: &mut Derivation, steps: Vec<Step>) -> Result<(), AllocError>
    ensures grows { IsGrown path.old path.new }
    ensures all { OnOk result (path.new ≡ path.old ++ as_entries (turned steps.items)) }
{
    let mut left = steps;
    while let Some(step) = left.pop() {
        path.derive(step)?;
    }
    Ok(())
}

// The closing steps of a path with further facts; some of these are left behind it.
fn close(
    alloc: Global,
    path: &mut Derivation,
    steps: Vec<Step>,
    cases: u32,
) -> Result<Vec<Step>, AllocError>
    requires ends { EndsPath steps.items }
    ensures grows { IsGrown path.old path.new }
    ensures closing { IfOk result (λ v. IsClosing path.old steps.items cases v.items) }
{
    let mut front = steps;
    let end = take_end(&mut front);
    let other = turn(alloc, front)?;
    derive_all(path, other)?;
    path.closing_steps(alloc, cases, end.first, end.second)
}

/// The steps that close a path behind its cases, from steps that close it behind all its facts: those of its other facts come first, and
/// the numbers are changed. The terms that they name are in the arena where those of the given steps are. The path is as it was. `cases` is
/// how many cases it has. Where a number would be too large the answer is want of memory.
pub fn closed_behind(
    alloc: Global,
    terms: &Terms,
    condition: &Condition,
    path: &mut Derivation,
    steps: Vec<Step>,
    cases: u32,
) -> Result<Vec<Step>, AllocError>
    requires closes { walk (question terms.now condition.now) (facts_in (question terms.now condition.now) path.old) steps.items ≡ Closed }
    ensures closes { IfOk result (λ v. (known : List Term) → length known ≡ cases → IsPath (question terms.now condition.now) known path.old
        → walk (question terms.now condition.now) known v.items ≡ Closed) }
    ensures within { IfOk result (λ v. (known : List Term) → IsPath (question terms.now condition.now) known path.old
        → StepsIn terms.now steps.items → StepsIn terms.now v.items) }
    ensures path { path.new ≡ path.old }
{
    let _ = terms;
    let _ = condition;
    let count = path.len();
    let closed = close(alloc, path, steps, cases);
    path.keep(count);
    closed
}

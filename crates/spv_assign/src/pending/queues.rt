// Queues of steps.

ghost use Rattle.std.specs.Prelude.{◌≡◌, ◌≤◌, ◌++◌, length, map, IfOk};
ghost use Rattle.spv_assign.specs.pending.Steps.{all_with_id, id_of, with_id};

use crate::pending::steps::{Assumption, Step};
use spv_term::TermId;
use std::alloc::{AllocError, Global};
use std::collections::VecDeque;

// The same steps once more.
pub(crate) fn copied(alloc: Global, steps: &VecDeque<Step>) -> Result<VecDeque<Step>, AllocError>
    ensures { IfOk result (λ all. all.items ≡ steps.now.items) }
{
    let mut all = VecDeque::with_capacity(alloc, steps.len())?;
    for place in 0..steps.len() {
        all.push_back(steps[place])?;
    }
    Ok(all)
}

// Steps in front of others, of which there are more.
fn put_in_front(first: VecDeque<Step>, second: VecDeque<Step>) -> Result<VecDeque<Step>, AllocError>
    ensures { IfOk result (λ all. all.items ≡ first.items ++ second.items) }
{
    let mut left = first;
    let mut all = second;
    while let Some(step) = left.pop_back() {
        all.push_front(step)?;
    }
    Ok(all)
}

// Steps behind others, of which there are more.
fn put_behind(first: VecDeque<Step>, second: VecDeque<Step>) -> Result<VecDeque<Step>, AllocError>
    ensures { IfOk result (λ all. all.items ≡ first.items ++ second.items) }
{
    let mut all = first;
    let mut left = second;
    all.append(&mut left)?;
    Ok(all)
}

// Steps in front of others; the fewer of them are moved.
pub(crate) fn joined(
    first: VecDeque<Step>,
    second: VecDeque<Step>,
) -> Result<VecDeque<Step>, AllocError>
    ensures { IfOk result (λ all. all.items ≡ first.items ++ second.items) }
{
    if first.len() < second.len() {
        put_in_front(first, second)
    } else {
        put_behind(first, second)
    }
}

fn id_of(step: Step) -> TermId
    ensures { result ≡ id_of step }
{
    match step {
        Step::Goal(t, _) => t,
        Step::Given(h) => h.term,
    }
}

// The terms of steps, in order.
pub(crate) fn ids(alloc: Global, steps: &VecDeque<Step>) -> Result<Vec<TermId>, AllocError>
    ensures { IfOk result (λ ids. ids.items ≡ map id_of steps.now.items) }
{
    let mut ids = Vec::with_capacity(alloc, steps.len())?;
    for place in 0..steps.len() {
        ids.push(id_of(steps[place]))?;
    }
    Ok(ids)
}

fn with_id(step: Step, t: TermId) -> Step
    ensures { result ≡ with_id step t }
{
    match step {
        Step::Goal(_, origin) => Step::Goal(t, origin),
        Step::Given(h) => Step::Given(Assumption {
            term: t,
            count: h.count,
        }),
    }
}

// Steps with these terms in the place of their own.
pub(crate) fn with_ids(
    alloc: Global,
    steps: &VecDeque<Step>,
    ids: &[TermId],
) -> Result<VecDeque<Step>, AllocError>
    requires { length steps.now.items ≡ length ids.now }
    ensures { IfOk result (λ all. all.items ≡ all_with_id steps.now.items ids.now) }
{
    let mut all = VecDeque::with_capacity(alloc, steps.len())?;
    for place in 0..steps.len() {
        all.push_back(with_id(steps[place], ids[place]))?;
    }
    Ok(all)
}

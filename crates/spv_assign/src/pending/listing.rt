// Steps written out as conditions, each with all that is given in front of it.

ghost use Rattle.std.specs.Prelude.{◌≡◌, IfOk, OnOk};
ghost use Rattle.spv_assign.specs.pending.Steps.{AreSteps, AreUsed, Takes, conditions_in, left_behind, terms_of};

use crate::pending::steps::{Assumption, Step};
use spv_logic::list::List;
use spv_term::{Condition, TermId};
use std::alloc::{AllocError, Global};
use std::collections::VecDeque;

// The terms of hypotheses, in order.
fn terms_of(alloc: Global, known: &[Assumption]) -> Result<List<TermId>, AllocError>
    ensures { IfOk result (λ terms. terms ≡ terms_of known.now) }
{
    let mut terms = Vec::with_capacity(alloc, known.len())?;
    for h in known {
        terms.push(h.term)?;
    }
    Ok(List::from_vec(terms))
}

// The hypotheses that are left where one condition is done.
fn left_behind(alloc: Global, known: &[Assumption]) -> Result<Vec<Assumption>, AllocError>
    requires { AreUsed known.now }
    ensures { IfOk result (λ left. left.items ≡ left_behind known.now) }
{
    let mut left = Vec::new(alloc);
    for h in known {
        if h.count > 1 {
            left.push(Assumption {
                term: h.term,
                count: h.count - 1,
            })?;
        }
    }
    Ok(left)
}

// Takes one step: a hypothesis is in use from here on, and a goal is a condition under those in use.
fn take(
    alloc: Global,
    step: Step,
    known: &mut Vec<Assumption>,
    all: &mut Vec<Condition>,
) -> Result<(), AllocError>
    requires { AreUsed known.old.items }
    ensures { OnOk result (Takes step known.old.items all.old.items known.new.items all.new.items) }
{
    match step {
        Step::Given(h) => {
            known.push(h)?;
            Ok(())
        }
        Step::Goal(goal, origin) => {
            let given = terms_of(alloc, known.as_slice())?;
            all.push(Condition {
                given,
                goal,
                origin,
            })?;
            *known = left_behind(alloc, known.as_slice())?;
            Ok(())
        }
    }
}

/// The conditions of steps, in order.
pub(crate) fn conditions(
    alloc: Global,
    steps: &VecDeque<Step>,
) -> Result<Vec<Condition>, AllocError>
    requires { AreSteps steps.now.items }
    ensures { IfOk result (λ all. all.items ≡ conditions_in steps.now.items) }
{
    let mut all = Vec::new(alloc);
    let mut known = Vec::new(alloc);
    for place in 0..steps.len() {
        take(alloc, steps[place], &mut known, &mut all)?;
    }
    Ok(all)
}

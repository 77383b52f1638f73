// What takes the place of each hypothesis of what claims that all is refuted together.

ghost use Rattle.std.specs.Prelude.{◌≡◌, IfOk};
ghost use Rattle.spv_term.specs.Arena.{Arena};
ghost use Rattle.spv_proof_rules.specs.Stand.{In, StepsIn};
ghost use Rattle.spv_verdicts.specs.translation.Replacements.{replacements};

use crate::answers::number_of;
use spv_atoms::{Stated, Step};
use spv_logic::list::List;
use spv_term::TermId;
use std::alloc::{AllocError, Global};

/// For each number of a hypothesis, from 0, of what claims that a condition is refuted together with facts
/// of schemas: the step that does the same for the condition. The condition has so many hypotheses; `falsity` is FALSE, and `facts`
/// are steps that state these facts, in order. Where a number would be too large the answer is want of memory.
pub fn replacements_of(
    alloc: Global,
    hypotheses: usize,
    falsity: TermId,
    mut facts: Vec<Step>,
) -> Result<Vec<Step>, AllocError>
    ensures steps { IfOk result (λ v. v.items ≡ replacements hypotheses falsity facts.items) }
    ensures terms { IfOk result (λ v. (a : Arena) → In a falsity → StepsIn a facts.items → StepsIn a v.items) }
{
    let mut steps = Vec::new(alloc);
    steps.push(Step::Eval(Stated::Is(falsity, false), List::new(alloc)))?;
    for place in 0..hypotheses {
        steps.push(Step::Given(number_of(place + 1)?))?;
    }
    steps.push(Step::Given(0))?;
    steps.append(&mut facts)?;
    Ok(steps)
}

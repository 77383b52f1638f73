// Steps for the members of rounds.

ghost use Rattle.std.specs.Prelude.{◌≡◌, ◌++◌, length, map, IfOk, OnOk};
ghost use Rattle.spv_logic.specs.declared.operators.Head.TheVariants.{False};
ghost use Rattle.spv_logic.specs.Terms.{term, no_terms};
ghost use Rattle.spv_proof_rules.specs.Stand.{StepsIn};
ghost use Rattle.spv_verdicts.specs.answers.Views.{RoundsIn};
ghost use Rattle.spv_verdicts.specs.translation.Replacements.{replacements};
ghost use Rattle.spv_search_terms.specs.condition_copy.Copies.{StandsFor};
ghost use Rattle.spv_rounds.specs.telling.Told.{rule_step, all_members};

use crate::knowing::Settled;
use spv_atoms::Step;
use spv_logic::list::List;
use spv_verdicts::answers::{Instance, Round};
use spv_verdicts::translation::replacements_of;
use std::alloc::{AllocError, Global};

// The step that adds what an instance says.
fn step_of(alloc: Global, instance: &Instance) -> Result<Step, AllocError>
    ensures { IfOk result (λ s. s ≡ rule_step instance.now) }
{
    let values = instance.values.as_slice().to_vec(alloc)?;
    Ok(Step::Rule(instance.rule, List::from_vec(values)))
}

// The steps for instances come behind the others.
fn add_steps(alloc: Global, instances: &[Instance], steps: &mut Vec<Step>) -> Result<(), AllocError>
    ensures { OnOk result (steps.new.items ≡ steps.old.items ++ map rule_step instances.now) }
{
    for instance in instances {
        steps.push(step_of(alloc, instance)?)?;
    }
    Ok(())
}

// The steps for the members of rounds.
fn steps_of(alloc: Global, rounds: &[Round]) -> Result<Vec<Step>, AllocError>
    ensures { IfOk result (λ steps. steps.items ≡ map rule_step (all_members rounds.now)) }
{
    let mut steps = Vec::new(alloc);
    for round in rounds {
        add_steps(alloc, round.members.as_slice(), &mut steps)?;
    }
    Ok(steps)
}

/// The step for each number of a hypothesis of what claims that all is refuted.
pub(crate) fn replaced(alloc: Global, s: &Settled) -> Result<Vec<Step>, AllocError>
    ensures steps { IfOk result (λ steps. steps.items ≡ replacements (length s.now.condition.given) s.now.falsity (map rule_step (all_members s.now.rounds))) }
    ensures in_range { IfOk result (λ steps. StandsFor s.now.terms s.now.falsity (term False no_terms) → RoundsIn s.now.terms s.now.rounds → StepsIn s.now.terms steps.items) }
{
    let steps = steps_of(alloc, s.rounds.as_slice())?;
    Ok(replacements_of(alloc, s.condition.given.as_slice().len(), s.falsity, steps)?)
}

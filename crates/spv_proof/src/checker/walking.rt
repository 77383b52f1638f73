//! The steps of a node, one after the other.

ghost use Rattle.std.specs.Prelude.{◌≡◌, ◌<◌, List, map, length, Ok, IfOk, OnOk, IfErr, IfSome};
ghost use Rattle.std.specs.Option.{option_map};
ghost use Rattle.spv_logic.specs.Terms.{Term};
ghost use Rattle.spv_atoms.specs.declared.proofs.Step.{Step};
ghost use Rattle.spv_term.specs.Arena.{Arena, Extends, AllBelow, tree, trees_of, IsArena};
ghost use Rattle.spv_proof_rules.specs.Stand.{StepIn, StepsIn};
ghost use Rattle.spv_proof_rules.specs.Accepted.{closed_if_last};
ghost use Rattle.spv_proof_rules.specs.Outcomes as outcomes;
ghost use Rattle.spv_proof_rules.specs.Outcomes.{Does, made_by};
ghost use Rattle.spv_proof_rules.specs.Effects.{adds_known};
ghost use Rattle.spv_proof_rules.specs.Stops.{all_kept};
ghost use Rattle.spv_proof_steps.specs.Steps.{effect_of, MayAdd};
ghost use Rattle.spv_proof.specs.checker.Ends.{IsMade, IsMadeStop, IsTrialStop, EndsAs};
ghost use Rattle.spv_proof.specs.checker.Tasks.{TaskIn, asks};
ghost use Rattle.spv_proof.specs.checker.Walks.{no_steps, path_of, steps_in, Leads};

use crate::checker::keeping::add;
use crate::checker::linear::linear;
use crate::checker::stops::CheckStop;
use crate::checker::tasks::Task;
use crate::schema_facts::{fact, kind_of};
use spv_atoms::Step;
use spv_proof_steps::{
    Effect, Fact, congruent, end_of, evaluated, exchanged, given_effect, joined,
};
use spv_rules::instance;
use spv_term::{TermId, Terms};
use std::alloc::Global;

/// Where the steps of a node lead.
#[derive(Clone, Copy, Debug)]
pub enum Path {
    /// The path goes on.
    Open,
    /// It has ended.
    Closed,
    /// A step does not follow.
    Broken,
}

// What a step adds that need not stand in the arena, made behind its subterms: the fact of a schema, or an instance of a rule.
#[tactic(auto, using(crate::proofs::checker::Made::none_made))]
fn made(
    alloc: Global,
    terms: &mut Terms,
    task: &Task<'_>,
    step: &Step,
) -> Result<Option<TermId>, CheckStop>
    requires task { TaskIn terms.old task.now }
    requires step { StepIn terms.old step.now }
    ensures fact { IfOk result (IsMade terms.new (asks terms.new task.now) step.now) }
    ensures all { OnOk result (all_kept terms.old.most (trees_of terms.old.nodes) (made_by (asks terms.old task.now) step.now) ≡ Ok (trees_of terms.new.nodes)) }
    ensures stop { IfErr result (λ e. IsMadeStop terms.new e (all_kept terms.old.most (trees_of terms.old.nodes) (made_by (asks terms.old task.now) step.now))) }
    ensures grows { Extends terms.old terms.new }
{
    match step {
        Step::Schema(number, ts, field) => match kind_of(*number) {
            Some(kind) => Ok(fact(alloc, terms, kind, ts.as_slice(), *field)?),
            None => Ok(None),
        },
        Step::Rule(number, ts) => match task.rules {
            Some(rules) => Ok(instance(alloc, terms, rules, *number, ts.as_slice())?),
            None => Ok(None),
        },
        _ => Ok(None),
    }
}

// What a step does after these facts, or why the check ends there.
#[tactic(auto, using(crate::proofs::checker::UnderRules::stated_under))]
fn trial(
    alloc: Global,
    terms: &mut Terms,
    task: &Task<'_>,
    facts: &[TermId],
    step: &Step,
    made: Option<TermId>,
) -> Result<Effect, CheckStop>
    requires task { TaskIn terms.old task.now }
    requires facts { AllBelow (length terms.old.nodes) facts.now }
    requires step { StepIn terms.old step.now }
    requires made { IsMade terms.old (asks terms.old task.now) step.now made }
    ensures value { IfOk result (λ e. outcomes.trial terms.old.most (asks terms.old task.now)
        (trees_of terms.old.nodes) (map (tree terms.old) facts.now) step.now ≡ Does (effect_of terms.old e)) }
    ensures may { IfOk result (MayAdd terms.old) }
    ensures same { OnOk result (terms.new ≡ terms.old) }
    ensures stop { IfErr result (λ e. IsTrialStop terms.old terms.new e
        (outcomes.trial terms.old.most (asks terms.old task.now) (trees_of terms.old.nodes) (map (tree terms.old) facts.now) step.now)) }
    ensures grows { Extends terms.old terms.new }
{
    match step {
        Step::Given(number) => Ok(given_effect(terms, task.condition, *number)),
        Step::Refl(t) => Ok(Effect::Adds(Fact::Equation(*t, *t))),
        Step::Symm(number) => Ok(exchanged(terms, facts, *number)),
        Step::Trans(first, second) => Ok(joined(terms, facts, *first, *second)),
        Step::Cong(t, u, numbers) => Ok(congruent(terms, facts, *t, *u, numbers.as_slice())),
        Step::Linear(relation, first, second) => {
            linear(
                alloc,
                terms,
                facts,
                *relation,
                first.as_slice(),
                second.as_slice(),
            )
        }
        Step::Eval(claim, numbers) => Ok(evaluated(
            alloc,
            terms,
            facts,
            *claim,
            numbers.as_slice(),
        )?),
        Step::Contra(first, second) => Ok(end_of(terms, facts, *first, *second)),
        Step::Schema(_, _, _) => Ok(known(made)),
        Step::Rule(_, _) => Ok(known(made)),
    }
}

// A fact that is there is added, and without one a step does not follow.
fn known(fact: Option<TermId>) -> Effect
    ensures effect { (a : Arena) → effect_of a result ≡ adds_known (option_map (tree a) fact) }
    ensures may { (a : Arena) → IfSome fact (λ t. t.0 < length a.nodes) → MayAdd a result }
{
    match fact {
        Some(t) => Effect::Adds(Fact::Known(t)),
        None => Effect::Fails,
    }
}

// Where a path is that has ended: closed, if its last step ended it.
fn ended(last: bool) -> Path
    ensures { (facts : List Term) → (steps : List Step) → (no_steps steps ≡ last) → path_of facts result ≡ closed_if_last steps }
{
    if last { Path::Closed } else { Path::Broken }
}

// Goes over the steps of a node and adds their facts, up to the first that ends the path or does not follow.
pub(crate) fn walk(
    alloc: Global,
    terms: &mut Terms,
    task: &Task<'_>,
    facts: &mut Vec<TermId>,
    steps: &[Step],
) -> Result<Path, CheckStop>
    requires task { TaskIn terms.old task.now }
    requires facts { AllBelow (length terms.old.nodes) facts.old.items }
    requires steps { StepsIn terms.old steps.now }
    ensures leads { IfOk result (Leads terms.old task.now facts.old.items steps.now terms.new facts.new.items) }
    ensures stop { IfErr result (λ e. EndsAs terms.new e (steps_in terms.old task.now facts.old.items steps.now)) }
    ensures grows { Extends terms.old terms.new }
{
    for (place, step) in steps.iter().enumerate() {
        let made = made(alloc, terms, task, step)?;
        match trial(alloc, terms, task, facts.as_slice(), step, made)? {
            Effect::Adds(fact) => add(terms, facts, fact)?,
            Effect::Ends => return Ok(ended(place + 1 == steps.len())),
            Effect::Fails => return Ok(Path::Broken),
        }
    }
    Ok(Path::Open)
}

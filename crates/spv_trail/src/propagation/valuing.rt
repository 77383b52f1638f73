// The facts from which terms have their values.

ghost use Rattle.std.specs.Prelude.{◌≡◌, ◌<◌, true, false, length, None, Some, List, IfOk};
ghost use Rattle.spv_logic.specs.Terms.{Term};
ghost use Rattle.spv_term.specs.Arena.{tree};
ghost use Rattle.spv_proof_rules.specs.Sums.{negated};
ghost use Rattle.spv_proof_rules.specs.Evaluation.{cites};
ghost use Rattle.spv_proof_rules.specs.Effects.{is_truth};
ghost use Rattle.spv_proof_rules.specs.Stand.{question};
ghost use Rattle.spv_tableau_rules.specs.constraints.Sayings.{literal};
ghost use Rattle.spv_derivations.specs.declared.derivation.entries.Entry.{Entry};
ghost use Rattle.spv_assignments.specs.polarity.Standings.{IsStanding};
ghost use Rattle.spv_assignments.specs.partial_assignment.Facts.{facts_of};
ghost use Rattle.spv_decisions.specs.literal_lookup.Facts.{AreCores};
ghost use Rattle.spv_trail.specs.trail_states.Told.{values_of};
ghost use Rattle.spv_trail.specs.asserted_steps.Steps.{HasNumber};
ghost use Rattle.spv_trail.specs.propagation.Learning.{MayCite};

use crate::asserted_steps::{deny, evaluate};
use spv_assignments::partial_assignment::Known;
use spv_assignments::polarity::{Standing, standing};
use spv_decisions::literal_lookup::{find_fact, find_order};
use spv_derivations::derivation::Derivation;
use spv_term::{Condition, TermId, Terms};
use std::alloc::{AllocError, Global};

// The number of the fact that an equation is false of which a known fact puts the sides in order.
fn denied_fact(
    alloc: Global,
    derivation: &mut Derivation,
    known: &[Known],
    terms: &Terms,
    condition: &Condition,
    falsity: TermId,
    core: TermId,
    truth: bool,
) -> Result<u32, AllocError>
    requires known { AreCores terms.now known.now }
    requires core { core.0 < length terms.now.nodes }
    requires bare { negated (tree terms.now core) ≡ None }
    requires value { values_of terms.now known.now (tree terms.now core) ≡ Some truth }
    requires other { cites (facts_of terms.now known.now) (literal truth (tree terms.now core)) ≡ false }
    ensures { IfOk result (λ n. (cases : List Term) → MayCite terms.now condition.now falsity cases derivation.old known.now
        → is_truth (question terms.now condition.now) (tree terms.now core) ≡ true
        → HasNumber (question terms.now condition.now) cases derivation.old derivation.new n (literal truth (tree terms.now core))) }
{
    match find_order(terms, known, core) {
        Some(order) => deny(alloc, derivation, terms, condition, core, order, falsity),
        None => unreachable!(),
    }
}

// The number of the fact that a core has its value: a known one, or what an order of its sides gives.
fn core_fact(
    alloc: Global,
    derivation: &mut Derivation,
    known: &[Known],
    terms: &Terms,
    condition: &Condition,
    falsity: TermId,
    core: TermId,
    truth: bool,
) -> Result<u32, AllocError>
    requires known { AreCores terms.now known.now }
    requires core { core.0 < length terms.now.nodes }
    requires bare { negated (tree terms.now core) ≡ None }
    requires value { values_of terms.now known.now (tree terms.now core) ≡ Some truth }
    ensures { IfOk result (λ n. (cases : List Term) → MayCite terms.now condition.now falsity cases derivation.old known.now
        → is_truth (question terms.now condition.now) (tree terms.now core) ≡ true
        → HasNumber (question terms.now condition.now) cases derivation.old derivation.new n (literal truth (tree terms.now core))) }
{
    match find_fact(terms, known, core, truth) {
        Some(number) => Ok(number),
        None => denied_fact(
            alloc, derivation, known, terms, condition, falsity, core, truth,
        ),
    }
}

// The number of the fact that a term has this truth, where a fact says so of its core.
fn term_number(
    alloc: Global,
    derivation: &mut Derivation,
    terms: &Terms,
    condition: &Condition,
    said: Standing,
    t: TermId,
    truth: bool,
    number: u32,
) -> Result<u32, AllocError>
    requires said { IsStanding terms.now t truth said }
    ensures { IfOk result (λ n. (cases : List Term) (old : List Entry) → HasNumber (question terms.now condition.now) cases old derivation.old number (literal said.truth (tree terms.now said.core))
        → is_truth (question terms.now condition.now) (tree terms.now t) ≡ true
        → HasNumber (question terms.now condition.now) cases old derivation.new n (literal truth (tree terms.now t))) }
{
    if said.is_same {
        return Ok(number);
    }
    evaluate(alloc, derivation, terms, condition, t, truth, number)
}

/// The number of a fact that a term has the value which the known facts give to it. Where none of them is that, it is put behind the others.
/// `falsity` is the term FALSE.
pub fn value_fact(
    alloc: Global,
    derivation: &mut Derivation,
    known: &[Known],
    terms: &Terms,
    condition: &Condition,
    falsity: TermId,
    t: TermId,
    truth: bool,
) -> Result<u32, AllocError>
    requires known { AreCores terms.now known.now }
    requires t { t.0 < length terms.now.nodes }
    requires value { values_of terms.now known.now (tree terms.now t) ≡ Some truth }
    ensures { IfOk result (λ n. (cases : List Term) → MayCite terms.now condition.now falsity cases derivation.old known.now
        → is_truth (question terms.now condition.now) (tree terms.now t) ≡ true
        → HasNumber (question terms.now condition.now) cases derivation.old derivation.new n (literal truth (tree terms.now t))) }
{
    let said = standing(terms, t, truth);
    let number = core_fact(
        alloc, derivation, known, terms, condition, falsity, said.core, said.truth,
    )?;
    term_number(alloc, derivation, terms, condition, said, t, truth, number)
}

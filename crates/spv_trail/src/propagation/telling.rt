// Telling both sides the values of questions.

ghost use Rattle.std.specs.Prelude.{◌≡◌, ◌<◌, true, false, length, List, Some, OnOk, IfSome};
ghost use Rattle.spv_logic.specs.Terms.{Term};
ghost use Rattle.spv_term.specs.Arena.{tree};
ghost use Rattle.spv_derivations.specs.derivation.Derivation.{IsComparison};
ghost use Rattle.spv_explanations.specs.congruence_side.Holding.{MayTell};
ghost use Rattle.spv_share.specs.Both.{IsBoth};
ghost use Rattle.spv_assignments.specs.partial_assignment.Facts.{fact_of};
ghost use Rattle.spv_decisions.specs.literal_lookup.Orders.{has_order, orders};
ghost use Rattle.spv_trail.specs.trail_states.Told.{values_of};
ghost use Rattle.spv_trail.specs.propagation.Telling.{AreSound, AreTellable, Goes, IsTellable, IsTelling, ListsValuesOf, TellsChange, TellsFact, TellsLiteral, TellsValue, TellsValues};

use crate::propagation::learning::part_of;
use crate::propagation::valuing::value_fact;
use spv_assignments::kleene::value_at;
use spv_assignments::partial_assignment::Known;
use spv_decisions::literal_lookup::{find_order, order_part};
use spv_derivations::derivation::{Derivation, Part};
use spv_share::Both;
use spv_term::{Condition, TermId, Terms};
use std::alloc::{AllocError, Global};

/// Tells both sides a literal. `why` is the number of its fact.
pub fn tell_literal(
    both: &mut Both,
    terms: &Terms,
    t: TermId,
    part: Part,
    why: u32,
) -> Result<(), AllocError>
    requires both { IsBoth terms.now both.old }
    requires may { MayTell terms.now both.old.trail t part }
    ensures both { OnOk result (IsBoth terms.now both.new) }
    ensures tells { OnOk result (TellsLiteral terms.now both.old both.new (record { atom = t; part = part; why = why })) }
{
    both.tell(terms, t, part, why)
}

// Tells both sides of an equation the order of its sides that a known fact is.
fn tell_order(
    both: &mut Both,
    terms: &Terms,
    condition: &Condition,
    t: TermId,
    order: Known,
) -> Result<(), AllocError>
    requires both { IsBoth terms.now both.old }
    requires t { IsTellable terms.now condition.now both.old t }
    requires order { order.term.0 < length terms.now.nodes }
    requires orders { orders terms.now t order ≡ true }
    requires comparison { IsComparison terms.now t }
    ensures both { OnOk result (IsBoth terms.now both.new) }
    ensures tells { OnOk result (TellsFact terms.now both.old both.new t false (fact_of terms.now order) order.fact) }
{
    let _ = condition;
    let part = order_part(terms, t, order);
    tell_literal(both, terms, t, part, order.fact)
}

// Tells both sides that a question has its value.
fn tell_truth(
    alloc: Global,
    derivation: &mut Derivation,
    both: &mut Both,
    known: &[Known],
    terms: &Terms,
    condition: &Condition,
    t: TermId,
    truth: bool,
) -> Result<(), AllocError>
    requires both { IsBoth terms.now both.old }
    requires known { AreSound terms.now condition.now known.now }
    requires t { IsTellable terms.now condition.now both.old t }
    requires value { values_of terms.now known.now (tree terms.now t) ≡ Some truth }
    ensures both { OnOk result (IsBoth terms.now both.new) }
    ensures goes { OnOk result (Goes terms.now both.old both.new) }
    ensures tells { OnOk result ((cases : List Term) → IsTelling terms.now condition.now cases derivation.old known.now both.old
        → TellsValue terms.now condition.now cases derivation.old derivation.new known.now both.new t truth) }
{
    let falsity = both.trail.falsity;
    let number = value_fact(
        alloc, derivation, known, terms, condition, falsity, t, truth,
    )?;
    tell_literal(both, terms, t, part_of(truth), number)
}

// Tells both sides the value of a question: of an equation whose sides a known fact puts in order, this order.
fn tell_value(
    alloc: Global,
    derivation: &mut Derivation,
    both: &mut Both,
    known: &[Known],
    terms: &Terms,
    condition: &Condition,
    t: TermId,
    truth: bool,
) -> Result<(), AllocError>
    requires both { IsBoth terms.now both.old }
    requires known { AreSound terms.now condition.now known.now }
    requires t { IsTellable terms.now condition.now both.old t }
    requires value { values_of terms.now known.now (tree terms.now t) ≡ Some truth }
    ensures both { OnOk result (IsBoth terms.now both.new) }
    ensures goes { OnOk result (Goes terms.now both.old both.new) }
    ensures tells { OnOk result ((cases : List Term) → IsTelling terms.now condition.now cases derivation.old known.now both.old
        → TellsValue terms.now condition.now cases derivation.old derivation.new known.now both.new t truth) }
{
    match find_order(terms, known, t) {
        Some(order) => tell_order(both, terms, condition, t, order),
        None => tell_truth(alloc, derivation, both, known, terms, condition, t, truth),
    }
}

// Whether a value is not this one.
fn is_other(value: Option<bool>, truth: bool) -> bool
    ensures { result ≡ false → value ≡ Some truth }
{
    match value {
        Some(same) => same != truth,
        None => true,
    }
}

// Tells both sides the value of a question, where it had another one.
fn tell_changed(
    alloc: Global,
    derivation: &mut Derivation,
    both: &mut Both,
    known: &[Known],
    terms: &Terms,
    condition: &Condition,
    t: TermId,
    before: Option<bool>,
    now: Option<bool>,
) -> Result<(), AllocError>
    requires both { IsBoth terms.now both.old }
    requires known { AreSound terms.now condition.now known.now }
    requires t { IsTellable terms.now condition.now both.old t }
    requires value { IfSome now (λ b. values_of terms.now known.now (tree terms.now t) ≡ Some b) }
    ensures both { OnOk result (IsBoth terms.now both.new) }
    ensures goes { OnOk result (Goes terms.now both.old both.new) }
    ensures tells { OnOk result ((cases : List Term) → IsTelling terms.now condition.now cases derivation.old known.now both.old
        → TellsChange terms.now condition.now cases derivation.old derivation.new known.now both.old both.new t before now) }
{
    let Some(truth) = now else {
        return Ok(());
    };
    if is_other(before, truth) {
        tell_value(alloc, derivation, both, known, terms, condition, t, truth)
    } else {
        Ok(())
    }
}

/// Tells both sides each of these questions that has a value now, unless it had this value before.
pub fn tell_values(
    alloc: Global,
    derivation: &mut Derivation,
    both: &mut Both,
    known: &[Known],
    terms: &Terms,
    condition: &Condition,
    questions: &[TermId],
    before: &[Option<bool>],
    now: &[Option<bool>],
) -> Result<(), AllocError>
    requires both { IsBoth terms.now both.old }
    requires known { AreSound terms.now condition.now known.now }
    requires questions { AreTellable terms.now condition.now both.old questions.now }
    requires values { ListsValuesOf terms.now known.now now.now }
    ensures both { OnOk result (IsBoth terms.now both.new) }
    ensures goes { OnOk result (Goes terms.now both.old both.new) }
    ensures tells { OnOk result ((cases : List Term) → IsTelling terms.now condition.now cases derivation.old known.now both.old
        → TellsValues terms.now condition.now cases derivation.old derivation.new known.now both.old both.new questions.now before.now now.now) }
{
    for t in questions {
        let old_value = value_at(before, *t);
        let new_value = value_at(now, *t);
        tell_changed(
            alloc, derivation, both, known, terms, condition, *t, old_value, new_value,
        )?;
    }
    Ok(())
}

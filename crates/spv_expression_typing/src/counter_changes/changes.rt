// What the parts of a statement change among the variables that count.

ghost use Rattle.std.specs.Prelude.{◌≡◌, IfOk, None};
ghost use Rattle.spv_program.specs.Statements.{Assign, Counting, Empty, For, If, New, Perform};
ghost use Rattle.spv_program.specs.typed.StatementViews.{counting_of};
ghost use Rattle.spv_typing.specs.StatementWalk.{changes, first_counted, own_in};
ghost use Rattle.spv_environments.specs.Scopes.{scope_of};

use crate::counter_changes::works::{Event, Work, first_changed};
use spv_environments::Scope;
use spv_logic::TypeId;
use spv_logic::names::Symbol;
use spv_program::typed::{Call, Counting, Designator, Expression};
use std::alloc::{AllocError, Global};

/// The first variable that counts which an assignment changes.
#[tactic(auto, using(crate::proofs::counter_changes::Statements::assignment_is, crate::proofs::counter_changes::Counters::none_counted))]
pub fn changed_by_assignment(
    scope: &Scope<'_, '_>,
    alloc: Global,
    counted: &[Symbol],
    place: &Designator,
    value: &Expression,
) -> Result<Option<Symbol>, AllocError>
    ensures { IfOk result (λ o. o ≡ first_counted (own_in (scope_of scope.now)) counted.now (changes (scope_of scope.now) (Assign place.now value.now))) }
{
    if counted.is_empty() {
        return Ok(None);
    }
    first_changed(
        scope,
        alloc,
        counted,
        &[Work::Value(value), Work::Place(place)],
    )
}

/// The first variable that counts which a procedure's call changes.
#[tactic(auto, using(crate::proofs::counter_changes::Statements::call_is, crate::proofs::counter_changes::Counters::none_counted))]
pub fn changed_by_call(
    scope: &Scope<'_, '_>,
    alloc: Global,
    counted: &[Symbol],
    call: &Call,
) -> Result<Option<Symbol>, AllocError>
    ensures { IfOk result (λ o. o ≡ first_counted (own_in (scope_of scope.now)) counted.now (changes (scope_of scope.now) (Perform call.now))) }
{
    if counted.is_empty() {
        return Ok(None);
    }
    let called = Work::Done(Event::Called(call.routine));
    first_changed(
        scope,
        alloc,
        counted,
        &[called, Work::Arguments(call.arguments.as_slice())],
    )
}

/// The first variable that counts which a NEW changes.
#[tactic(auto, using(crate::proofs::counter_changes::Statements::creation_is, crate::proofs::counter_changes::Counters::none_counted))]
pub fn changed_by_creation(
    scope: &Scope<'_, '_>,
    alloc: Global,
    counted: &[Symbol],
    line: u32,
    place: &Designator,
    of: TypeId,
) -> Result<Option<Symbol>, AllocError>
    ensures { IfOk result (λ o. o ≡ first_counted (own_in (scope_of scope.now)) counted.now (changes (scope_of scope.now) (New line place.now of))) }
{
    if counted.is_empty() {
        return Ok(None);
    }
    first_changed(scope, alloc, counted, &[Work::Place(place)])
}

/// The first variable that counts which a test changes, or what a CASE is about.
#[tactic(auto, using(crate::proofs::counter_changes::Statements::test_is, crate::proofs::counter_changes::Counters::none_counted))]
pub fn changed_by_test(
    scope: &Scope<'_, '_>,
    alloc: Global,
    counted: &[Symbol],
    line: u32,
    test: &Expression,
) -> Result<Option<Symbol>, AllocError>
    ensures { IfOk result (λ o. o ≡ first_counted (own_in (scope_of scope.now)) counted.now (changes (scope_of scope.now) (If line test.now Empty Empty))) }
{
    if counted.is_empty() {
        return Ok(None);
    }
    first_changed(scope, alloc, counted, &[Work::Value(test)])
}

/// The first variable that counts which the head of a FOR changes.
#[tactic(auto, using(crate::proofs::counter_changes::Statements::head_is, crate::proofs::counter_changes::Counters::none_counted))]
pub fn changed_by_head(
    scope: &Scope<'_, '_>,
    alloc: Global,
    counted: &[Symbol],
    line: u32,
    head: &Counting,
) -> Result<Option<Symbol>, AllocError>
    ensures { IfOk result (λ o. o ≡ first_counted (own_in (scope_of scope.now)) counted.now (changes (scope_of scope.now) (For line None (counting_of head.now) Empty))) }
{
    if counted.is_empty() {
        return Ok(None);
    }
    let variable = Work::Done(Event::Wrote(head.variable));
    first_changed(
        scope,
        alloc,
        counted,
        &[Work::Value(&head.last), Work::Value(&head.first), variable],
    )
}

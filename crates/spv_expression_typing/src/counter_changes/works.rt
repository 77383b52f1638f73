// Going through expressions with a list of what waits, so that expressions of any depth can be gone through.

ghost use Rattle.std.specs.Prelude.{◌≡◌, ◌*◌, ◌+◌, ◌++◌, ◌∷◌, [], IfOk, OnOk};
ghost use Rattle.spv_program.specs.Lists.{first_of};
ghost use Rattle.spv_program.specs.Uses.{has_cell};
ghost use Rattle.spv_program.specs.typed.ExpressionViews.{arguments_of, selectors_of};
ghost use Rattle.spv_program.specs.typed.Model.ExpressionSizes.{arguments_size, call_size, designator_size, expression_size, selectors_size};
ghost use Rattle.spv_environments.specs.Scopes.{scope_of};
ghost use Rattle.spv_expression_typing.specs.counter_changes.Counted.{callee_counted, first_in, if_counted};
ghost use Rattle.spv_expression_typing.specs.counter_changes.Events.{argument_events, call_events, expression_events, place_events, selector_events};
ghost use Rattle.spv_expression_typing.specs.counter_changes.Works.{IsStep, Opens, stack_events, work_events, work_size};

use crate::counter_changes::counted::{callee_counted, is_counted};
use spv_environments::Scope;
use spv_logic::RoutineId;
use spv_logic::names::Symbol;
use spv_program::typed::{Argument, Call, Designator, Expression, ExpressionForm, Selector};
use std::alloc::{AllocError, Global};

/// What may change a variable.
#[derive(Clone, Copy)]
pub(crate) enum Event {
    /// A name that is written.
    Wrote(Symbol),
    /// A routine that is called.
    Called(RoutineId),
}

/// What is still to be looked at.
#[derive(Clone, Copy)]
pub(crate) enum Work<'a> {
    /// An expression.
    Value(&'a Expression),
    /// A designator that is written.
    Place(&'a Designator),
    /// Selectors.
    Selectors(&'a [Selector]),
    /// Arguments.
    Arguments(&'a [Argument]),
    /// Nothing but this.
    Done(Event),
}

/// The first variable that counts among those that were written, and among those that calls may change.
#[derive(Clone, Copy)]
pub(crate) struct Found {
    /// Among those that were written.
    pub wrote: Option<Symbol>,
    /// Among those that calls may change.
    pub called: Option<Symbol>,
}

fn push<'a>(works: &mut Vec<Work<'a>>, work: Work<'a>) -> Result<(), AllocError>
    ensures { OnOk result (works.new.items ≡ works.old.items ++ work.entry ∷ []) }
{
    works.push(work)?;
    Ok(())
}

fn has_cell(selectors: &[Selector]) -> bool
    ensures { result ≡ has_cell (selectors_of selectors.now) }
{
    for selector in selectors {
        if let Selector::Cell(_, _) = selector {
            return true;
        }
    }
    false
}

fn open_call<'a>(works: &mut Vec<Work<'a>>, call: &'a Call) -> Result<(), AllocError>
    ensures { OnOk result (Opens (call_events call.now) (3 * call_size call.now) works.old.items works.new.items) }
{
    push(works, Work::Done(Event::Called(call.routine)))?;
    push(works, Work::Arguments(call.arguments.as_slice()))
}

fn open_place<'a>(works: &mut Vec<Work<'a>>, place: &'a Designator) -> Result<(), AllocError>
    ensures { OnOk result (Opens (place_events place.now) (3 * designator_size place.now) works.old.items works.new.items) }
{
    push(works, Work::Selectors(place.selectors.as_slice()))?;
    if has_cell(place.selectors.as_slice()) {
        return Ok(());
    }
    push(works, Work::Done(Event::Wrote(place.name)))
}

fn open_selectors<'a>(
    works: &mut Vec<Work<'a>>,
    selectors: &'a [Selector],
) -> Result<(), AllocError>
    ensures { OnOk result (Opens (selector_events (selectors_of selectors.now)) (3 * selectors_size (selectors_of selectors.now) + 1) works.old.items works.new.items) }
{
    match selectors {
        [] => Ok(()),
        [first, rest @ ..] => {
            push(works, Work::Selectors(rest))?;
            match first {
                Selector::Index(_, e) => push(works, Work::Value(e)),
                Selector::Field(_, _) => Ok(()),
                Selector::Cell(_, _) => Ok(()),
            }
        }
    }
}

fn open_arguments<'a>(
    works: &mut Vec<Work<'a>>,
    arguments: &'a [Argument],
) -> Result<(), AllocError>
    ensures { OnOk result (Opens (argument_events (arguments_of arguments.now)) (3 * arguments_size (arguments_of arguments.now) + 1) works.old.items works.new.items) }
{
    match arguments {
        [] => Ok(()),
        [first, rest @ ..] => {
            push(works, Work::Arguments(rest))?;
            match first {
                Argument::Value(e) => push(works, Work::Value(e)),
                Argument::Place(d) => push(works, Work::Place(d)),
            }
        }
    }
}

fn open_both<'a>(
    works: &mut Vec<Work<'a>>,
    a: &'a Expression,
    b: &'a Expression,
) -> Result<(), AllocError>
    ensures { OnOk result (Opens (expression_events a.now ++ expression_events b.now) (3 * (expression_size a.now + expression_size b.now) + 1) works.old.items works.new.items) }
{
    push(works, Work::Value(b))?;
    push(works, Work::Value(a))
}

fn open_value<'a>(works: &mut Vec<Work<'a>>, value: &'a Expression) -> Result<(), AllocError>
    ensures { OnOk result (Opens (expression_events value.now) (3 * expression_size value.now) works.old.items works.new.items) }
{
    match &value.form {
        ExpressionForm::Numeral(_) => Ok(()),
        ExpressionForm::Boolean(_) => Ok(()),
        ExpressionForm::Nil(_) => Ok(()),
        ExpressionForm::Read(d) => push(works, Work::Selectors(d.selectors.as_slice())),
        ExpressionForm::Result(c) => open_call(works, c),
        ExpressionForm::Through(t) => {
            push(works, Work::Selectors(t.selectors.as_slice()))?;
            open_call(works, &t.call)
        }
        ExpressionForm::Negative(a) => push(works, Work::Value(a)),
        ExpressionForm::Calculated(_, a, b) => open_both(works, a, b),
        ExpressionForm::Compared(_, a, b) => open_both(works, a, b),
        ExpressionForm::Negated(a) => push(works, Work::Value(a)),
        ExpressionForm::Joined(_, a, b) => open_both(works, a, b),
    }
}

fn wrote(counted: &[Symbol], x: Symbol, before: Option<Symbol>) -> Option<Symbol>
    ensures { result ≡ first_of before (if_counted counted.now x) }
{
    match before {
        Some(found) => Some(found),
        None => {
            if is_counted(counted, x) {
                Some(x)
            } else {
                None
            }
        }
    }
}

fn called(
    scope: &Scope<'_, '_>,
    counted: &[Symbol],
    number: RoutineId,
    before: Option<Symbol>,
) -> Option<Symbol>
    ensures { result ≡ first_of before (callee_counted (scope_of scope.now) counted.now number) }
{
    match before {
        Some(found) => Some(found),
        None => callee_counted(scope, counted, number),
    }
}

// Does one work.
fn step<'a>(
    scope: &Scope<'_, '_>,
    counted: &[Symbol],
    work: Work<'a>,
    works: &mut Vec<Work<'a>>,
    before: Found,
) -> Result<Found, AllocError>
    ensures { IfOk result (λ found. IsStep (scope_of scope.now) counted.now work.entry before found works.old.items works.new.items) }
{
    match work {
        Work::Done(Event::Wrote(x)) => Ok(Found {
            wrote: wrote(counted, x, before.wrote),
            called: before.called,
        }),
        Work::Done(Event::Called(number)) => Ok(Found {
            wrote: before.wrote,
            called: called(scope, counted, number, before.called),
        }),
        Work::Value(e) => {
            open_value(works, e)?;
            Ok(before)
        }
        Work::Place(d) => {
            open_place(works, d)?;
            Ok(before)
        }
        Work::Selectors(selectors) => {
            open_selectors(works, selectors)?;
            Ok(before)
        }
        Work::Arguments(arguments) => {
            open_arguments(works, arguments)?;
            Ok(before)
        }
    }
}

// The first variable that counts among those that are changed where these works stand, the last of them first.
pub(crate) fn first_changed<'a>(
    scope: &Scope<'_, '_>,
    alloc: Global,
    counted: &[Symbol],
    start: &[Work<'a>],
) -> Result<Option<Symbol>, AllocError>
    ensures { IfOk result (λ o. o ≡ first_in (scope_of scope.now) counted.now (stack_events start.now)) }
{
    let mut works = Vec::from_slice(alloc, start)?;
    let mut found = Found {
        wrote: None,
        called: None,
    };
    while let Some(work) = works.pop() {
        found = step(scope, counted, work, &mut works, found)?;
    }
    match found.wrote {
        Some(x) => Ok(Some(x)),
        None => Ok(found.called),
    }
}

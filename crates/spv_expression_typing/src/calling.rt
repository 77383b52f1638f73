// Calls that are statements.

ghost use Rattle.std.specs.Prelude.{◌≡◌, IfOk, IfErr, Ok, Some};
ghost use Rattle.spv_typing.specs.ExpressionWalk as spec;
ghost use Rattle.spv_tree.specs.syntax.StatementViews.{given_of};
ghost use Rattle.spv_typing.specs.StatementWalk.{arguments_of};
ghost use Rattle.spv_environments.specs.Answers.{Stops};
ghost use Rattle.spv_environments.specs.Scopes.{scope_of};
ghost use Rattle.spv_environments.specs.Views.{heading_of};
ghost use Rattle.spv_formula_typing.specs.Arguments.{given_as, all_given};
ghost use Rattle.spv_expression_typing.specs.Applied.{way_in};

use crate::callee::Callee;
use crate::fitting::call_with;
use crate::forms::Expressions;
use crate::naming::no_call_fault;
use crate::reached::Reached;
use spv_environments::{Heading, Scope};
use spv_formula_typing::{Given, arguments};
use spv_logic::names::Symbol;
use spv_program::typed::{Call, Expression};
use spv_tree::syntax::{Formula, Several};
use spv_typing::TypeFault;
use std::alloc::Global;

// The arguments of what is called, as it wants them read.
fn some_arguments(
    scope: &Scope<'_, '_>,
    alloc: Global,
    callee: Callee<'_>,
    given: &Several<Formula>,
) -> Result<Vec<(u32, Given<Expression, Reached>)>, TypeFault>
    ensures ok { IfOk result (λ gs. given_as (way_in callee.entry) 0 (arguments_of (scope_of scope.now) (Some given.now)) ≡ Ok (all_given gs.items)) }
    ensures err { IfErr result (λ e. Stops e (given_as (way_in callee.entry) 0 (arguments_of (scope_of scope.now) (Some given.now)))) }
{
    let forms = Expressions { scope: *scope };
    arguments(&forms, alloc, &callee, &given.first, given.more.as_slice())
}

// The same where there may be none.
fn all_arguments(
    scope: &Scope<'_, '_>,
    alloc: Global,
    callee: Callee<'_>,
    given: &Option<Box<Several<Formula>>>,
) -> Result<Vec<(u32, Given<Expression, Reached>)>, TypeFault>
    ensures ok { IfOk result (λ gs. given_as (way_in callee.entry) 0 (arguments_of (scope_of scope.now) (given_of given.now)) ≡ Ok (all_given gs.items)) }
    ensures err { IfErr result (λ e. Stops e (given_as (way_in callee.entry) 0 (arguments_of (scope_of scope.now) (given_of given.now)))) }
{
    match given {
        None => Ok(Vec::new(alloc)),
        Some(several) => some_arguments(scope, alloc, callee, several),
    }
}

/// The call of a routine with the arguments of a text, where the call begins on a line and its name stands on the line `at`.
pub fn call(
    scope: &Scope<'_, '_>,
    alloc: Global,
    line: u32,
    at: u32,
    name: Symbol,
    heading: &Heading,
    given: &Option<Box<Several<Formula>>>,
) -> Result<Call, TypeFault>
    ensures ok { IfOk result (λ c. spec.call_of (scope_of scope.now) line at (heading_of name heading.now) (arguments_of (scope_of scope.now) (given_of given.now)) ≡ Ok c) }
    ensures err { IfErr result (λ e. Stops e (spec.call_of (scope_of scope.now) line at (heading_of name heading.now) (arguments_of (scope_of scope.now) (given_of given.now)))) }
{
    let read = all_arguments(scope, alloc, Callee::Routine(name, heading), given)?;
    call_with(scope.known, alloc, line, at, name, heading, read)
}

/// The fault of calling what is no routine, which takes so many arguments, where it takes any.
pub fn no_call(
    scope: &Scope<'_, '_>,
    alloc: Global,
    line: u32,
    count: Option<usize>,
    given: &Option<Box<Several<Formula>>>,
) -> TypeFault
    ensures { Stops result (spec.no_call line count (arguments_of (scope_of scope.now) (given_of given.now))) }
{
    match all_arguments(scope, alloc, Callee::Other(count), given) {
        Ok(read) => no_call_fault(line, count, read.len()),
        Err(fault) => fault,
    }
}

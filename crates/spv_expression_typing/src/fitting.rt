// Arguments that fit their parameters.

ghost use Rattle.std.specs.Prelude.{◌≡◌, IfOk, IfErr, Ok, map};
ghost use Rattle.spv_program.specs.Types as types;
ghost use Rattle.spv_program.specs.Expressions.{NilOf};
ghost use Rattle.spv_program.specs.typed.ExpressionViews.{arguments_of};
ghost use Rattle.spv_program.specs.typed.ProgramViews.{formal_of};
ghost use Rattle.spv_typing.specs.ExpressionWalk as spec;
ghost use Rattle.spv_environments.specs.Answers.{Stops};
ghost use Rattle.spv_environments.specs.Views.{heading_of};
ghost use Rattle.spv_formula_typing.specs.Operands.{operand_of};
ghost use Rattle.spv_formula_typing.specs.Arguments.{all_given, given_of};
ghost use Rattle.spv_expression_typing.specs.Applied.{all_seen, call_with, fitted_of, fitted_one, fitted_place, seen};

use crate::reached::{Reached, boxed};
use crate::settling::settled_expression;
use spv_environments::{Heading, Known};
use spv_formula_typing::{Given, Operand, push};
use spv_logic::TypeId;
use spv_logic::names::Symbol;
use spv_program::TypeForm;
use spv_program::typed::{Argument, Call, Designator, Expression, Formal};
use spv_typing::TypeFault;
use std::alloc::Global;

// The bounds of a subrange, none of another type.
fn bounds(known: &Known, t: TypeId) -> Option<(i64, i64)>
    ensures { result ≡ types.bounds_of (types.form_at known.now.program.forms t.0) }
{
    match known.form(t) {
        Some(TypeForm::Range(low, high)) => Some((*low, *high)),
        Some(_) => None,
        None => None,
    }
}

fn same_bounds(a: Option<(i64, i64)>, b: Option<(i64, i64)>) -> bool
    ensures { result ≡ types.same_bounds a b }
{
    match (a, b) {
        (None, None) => true,
        (Some(a), Some(b)) => a.0 == b.0 && a.1 == b.1,
        _ => false,
    }
}

// Whether a place of the one type may stand for one of the other.
fn same_places(known: &Known, t: TypeId, u: TypeId) -> bool
    ensures { result ≡ types.same_places known.now.program.forms t u }
{
    known.sort_of(t) == known.sort_of(u) && same_bounds(bounds(known, t), bounds(known, u))
}

fn fitted_place(line: u32, place: Option<Designator>) -> Result<Argument, TypeFault>
    ensures ok { IfOk result (λ a. fitted_place line place ≡ Ok (fitted_of a)) }
    ensures err { IfErr result (λ e. Stops e (fitted_place line place)) }
{
    match place {
        Some(designator) => Ok(Argument::Place(designator)),
        None => Err(TypeFault::WrongType(line)),
    }
}

// An argument for a parameter of a type.
fn argument(
    known: &Known,
    alloc: Global,
    of: TypeId,
    line: u32,
    given: Given<Expression, Reached>,
) -> Result<Argument, TypeFault>
    ensures ok { IfOk result (λ a. fitted_one known.now.program.forms of line (seen (given_of given)) ≡ Ok (fitted_of a)) }
    ensures err { IfErr result (λ e. Stops e (fitted_one known.now.program.forms of line (seen (given_of given)))) }
{
    match given {
        Given::Value(operand) => {
            let value = settled_expression(line, known.sort_of(of), operand)?;
            Ok(Argument::Value(boxed(alloc, value)?))
        }
        Given::Place(reached) => {
            if !same_places(known, of, reached.of()) {
                return Err(TypeFault::WrongType(line));
            }
            fitted_place(line, reached.into_designator())
        }
        Given::NoPlace => Err(TypeFault::WrongType(line)),
        Given::Field(_) => Err(TypeFault::WrongType(line)),
    }
}

// The arguments, each beside its parameter.
fn fitted(
    known: &Known,
    alloc: Global,
    formals: &[Formal],
    given: Vec<(u32, Given<Expression, Reached>)>,
) -> Result<Vec<Argument>, TypeFault>
    ensures ok { IfOk result (λ xs. spec.fitted known.now.program.forms (map formal_of formals.now) (all_seen (all_given given.items)) ≡ Ok (arguments_of xs.items)) }
    ensures err { IfErr result (λ e. Stops e (spec.fitted known.now.program.forms (map formal_of formals.now) (all_seen (all_given given.items)))) }
{
    let mut made = Vec::new(alloc);
    let mut place = 0;
    for (line, one) in given {
        if place == formals.len() {
            return Ok(made);
        }
        let of = formals[place].of;
        let fits = argument(known, alloc, of, line, one)?;
        push(&mut made, fits)?;
        place += 1;
    }
    Ok(made)
}

/// The call of a routine whose name stands on the line `at`, with its arguments as they were read.
#[tactic(auto, using(crate::proofs::Formals::formals_count, crate::proofs::Formals::seen_count))]
pub(crate) fn call_with(
    known: &Known,
    alloc: Global,
    line: u32,
    at: u32,
    name: Symbol,
    heading: &Heading,
    given: Vec<(u32, Given<Expression, Reached>)>,
) -> Result<Call, TypeFault>
    ensures ok { IfOk result (λ c. call_with known.now.program.forms line at (heading_of name heading.now) (all_seen (all_given given.items)) ≡ Ok c) }
    ensures err { IfErr result (λ e. Stops e (call_with known.now.program.forms line at (heading_of name heading.now) (all_seen (all_given given.items)))) }
{
    if given.len() != heading.formals.len() {
        return Err(TypeFault::Count(line));
    }
    let arguments = fitted(known, alloc, heading.formals.as_slice(), given)?;
    Ok(Call {
        routine: heading.number,
        line: at,
        arguments,
    })
}

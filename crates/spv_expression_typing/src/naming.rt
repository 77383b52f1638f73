// Names in expressions.

ghost use Rattle.std.specs.Prelude.{◌≡◌, IfOk, IfErr, Ok, Err};
ghost use Rattle.spv_typing.specs.Known.{meaning};
ghost use Rattle.spv_typing.specs.ExpressionWalk as spec;
ghost use Rattle.spv_environments.specs.Answers.{Stops};
ghost use Rattle.spv_environments.specs.Scopes.{scope_of};
ghost use Rattle.spv_environments.specs.Views.{heading_of};
ghost use Rattle.spv_formula_typing.specs.Operands.{operand_of};
ghost use Rattle.spv_expression_typing.specs.Applied.{called_alone, no_call_fault};
ghost use Rattle.spv_expression_typing.specs.Alone.{is_own, symbol_alone, unknown_alone};

use crate::reached::{Base, Reached};
use spv_environments::{Heading, Meaning, Scope};
use spv_formula_typing::Operand;
use spv_logic::TypeId;
use spv_logic::names::Symbol;
use spv_program::typed::{Call, Expression};
use spv_tree::syntax::Name;
use spv_typing::TypeFault;
use std::alloc::Global;

/// What a function's call has come to; a procedure has no result.
pub(crate) fn function_result(
    alloc: Global,
    line: u32,
    name: Symbol,
    heading: &Heading,
    call: Call,
) -> Result<Reached, TypeFault>
    ensures ok { IfOk result (λ r. spec.function_result line (heading_of name heading.now) call ≡ Ok r) }
    ensures err { IfErr result (λ e. Stops e (spec.function_result line (heading_of name heading.now) call)) }
{
    match heading.result {
        Some(t) => Ok(Reached::at(alloc, Base::Called(call), t)),
        None => Err(TypeFault::WrongType(line)),
    }
}

// A routine without arguments.
#[tactic(auto, using(crate::proofs::Formals::formals_count))]
fn called_alone(
    alloc: Global,
    line: u32,
    x: Name,
    name: Symbol,
    heading: &Heading,
) -> Result<Reached, TypeFault>
    ensures ok { IfOk result (λ r. called_alone line x (heading_of name heading.now) ≡ Ok r) }
    ensures err { IfErr result (λ e. Stops e (called_alone line x (heading_of name heading.now))) }
{
    if heading.formals.len() == 0 {
        let call = Call {
            routine: heading.number,
            line: x.line,
            arguments: Vec::new(alloc),
        };
        function_result(alloc, line, name, heading, call)
    } else {
        Err(TypeFault::Count(line))
    }
}

/// What is no routine, by how many arguments it takes, where it takes any.
pub(crate) fn no_call_fault(line: u32, count: Option<usize>, given: usize) -> TypeFault
    ensures { result ≡ no_call_fault line count given }
{
    match count {
        None => TypeFault::WrongType(line),
        Some(count) => {
            if given == count {
                TypeFault::WrongType(line)
            } else {
                TypeFault::Count(line)
            }
        }
    }
}

// A declared symbol alone, which has so many arguments.
fn symbol_alone(line: u32, count: usize) -> Result<Reached, TypeFault>
    ensures ok { IfOk result (λ r. symbol_alone line count ≡ Ok r) }
    ensures err { IfErr result (λ e. Stops e (symbol_alone line count)) }
{
    if count == 0 {
        Err(TypeFault::WrongType(line))
    } else {
        Err(TypeFault::Count(line))
    }
}

// A name that nothing declares.
fn unknown_alone(scope: &Scope<'_, '_>, line: u32, x: Name) -> TypeFault
    ensures { result ≡ unknown_alone (scope_of scope.now) line x }
{
    match scope.function(x.symbol) {
        Some(_) => TypeFault::Count(line),
        None => TypeFault::Undeclared(x.line, x.symbol),
    }
}

/// A name that is read; a function's name is a call.
pub(crate) fn name_read(
    scope: &Scope<'_, '_>,
    alloc: Global,
    line: u32,
    x: Name,
) -> Result<Reached, TypeFault>
    ensures ok { IfOk result (λ r. spec.name_read (scope_of scope.now) line x (meaning (scope_of scope.now) x.symbol) ≡ Ok r) }
    ensures err { IfErr result (λ e. Stops e (spec.name_read (scope_of scope.now) line x (meaning (scope_of scope.now) x.symbol))) }
{
    match scope.meaning(x.symbol) {
        Some(Meaning::Constant(z)) => Ok(Reached::at(alloc, Base::Number(z), TypeId(0))),
        Some(Meaning::Place(t)) => Ok(Reached::at(alloc, Base::Name(x.line, x.symbol), t)),
        Some(Meaning::Declared(_, signature)) => symbol_alone(line, signature.args.len()),
        Some(Meaning::Routine(name, heading)) => called_alone(alloc, line, x, name, heading),
        Some(Meaning::Start(_)) => Err(TypeFault::WrongType(line)),
        Some(Meaning::Type(_)) => Err(TypeFault::WrongType(line)),
        Some(Meaning::List) => Err(TypeFault::WrongType(line)),
        None => Err(unknown_alone(scope, line, x)),
    }
}

// Whether a routine is the one in whose body this is.
fn is_own(own: Option<(Symbol, &Heading)>, name: Symbol) -> bool
    ensures { result ≡ is_own own.entry name }
{
    match own {
        None => false,
        Some((own_name, _)) => own_name.0 == name.0,
    }
}

// In its own body a function's name is a place.
fn own_result(
    alloc: Global,
    line: u32,
    x: Name,
    is_own: bool,
    of: Option<TypeId>,
) -> Result<Reached, TypeFault>
    ensures ok { IfOk result (λ r. spec.own_result line x is_own of ≡ Ok r) }
    ensures err { IfErr result (λ e. Stops e (spec.own_result line x is_own of)) }
{
    match of {
        None => Err(TypeFault::WrongType(line)),
        Some(t) => {
            if is_own {
                Ok(Reached::at(alloc, Base::Result(x.line, x.symbol), t))
            } else {
                Err(TypeFault::WrongType(line))
            }
        }
    }
}

/// A name that is written.
pub(crate) fn name_written(
    scope: &Scope<'_, '_>,
    alloc: Global,
    line: u32,
    x: Name,
) -> Result<Reached, TypeFault>
    ensures ok { IfOk result (λ r. spec.name_written (scope_of scope.now) line x (meaning (scope_of scope.now) x.symbol) ≡ Ok r) }
    ensures err { IfErr result (λ e. Stops e (spec.name_written (scope_of scope.now) line x (meaning (scope_of scope.now) x.symbol))) }
{
    match scope.meaning(x.symbol) {
        Some(Meaning::Place(t)) => Ok(Reached::at(alloc, Base::Name(x.line, x.symbol), t)),
        Some(Meaning::Routine(name, heading)) => {
            own_result(alloc, line, x, is_own(scope.routine, name), heading.result)
        }
        Some(Meaning::Constant(_)) => Err(TypeFault::WrongType(line)),
        Some(Meaning::Declared(_, _)) => Err(TypeFault::WrongType(line)),
        Some(Meaning::Start(_)) => Err(TypeFault::WrongType(line)),
        Some(Meaning::Type(_)) => Err(TypeFault::WrongType(line)),
        Some(Meaning::List) => Err(TypeFault::WrongType(line)),
        None => Err(unknown_alone(scope, line, x)),
    }
}

// A class has no place in an expression.
pub(crate) fn class_fault(scope: &Scope<'_, '_>, line: u32, x: Name) -> TypeFault
    ensures { spec.class_at (scope_of scope.now) x line (meaning (scope_of scope.now) x.symbol) ≡ Err result }
{
    match scope.meaning(x.symbol) {
        Some(_) => TypeFault::WrongType(line),
        None => TypeFault::Undeclared(x.line, x.symbol),
    }
}

// The sorts that the arguments of functions known from the start must have.

ghost use Rattle.std.specs.Prelude.{◌≡◌, IfOk, IfErr, Ok};
ghost use Rattle.spv_program.specs.Programs.{shapes};
ghost use Rattle.spv_typing.specs.FormulaWalk as spec;
ghost use Rattle.spv_environments.specs.Answers.{Stops};
ghost use Rattle.spv_environments.specs.Scopes.{scope_of};
ghost use Rattle.spv_environments.specs.Views.{function_of};
ghost use Rattle.spv_formula_typing.specs.Operands.{operand_of, operands_of};
ghost use Rattle.spv_annotation_typing.specs.Signatures.{array_sorts, array_signature, class_behind, class_in, class_sort, content_signature, first_array, first_class, member_signature, signature_view, wants};

use spv_environments::{Function, Known, Scope, Signature};
use spv_formula_typing::Operand;
use spv_logic::list::List;
use spv_logic::{Sort, TypeId};
use spv_program::BuiltIn;
use spv_program::typed::Formula;
use spv_typing::TypeFault;
use std::alloc::{AllocError, Global};

fn class_sort(line: u32, of: Sort) -> Result<TypeId, TypeFault>
    ensures { result ≡ class_sort line of }
{
    match of {
        Sort::Class(t) => Ok(t),
        _ => Err(TypeFault::WrongType(line)),
    }
}

fn class_in(line: u32, operand: &Operand<Formula>) -> Result<TypeId, TypeFault>
    ensures { result ≡ class_in line (operand_of operand.now) }
{
    match operand {
        Operand::Of(_, of) => class_sort(line, *of),
        Operand::Nil(_) => Err(TypeFault::WrongType(line)),
    }
}

// The first argument is a class.
fn first_class(given: &[(u32, Operand<Formula>)]) -> Result<TypeId, TypeFault>
    ensures { result ≡ first_class (operands_of given.now) }
{
    match given {
        [first, ..] => class_in(first.0, &first.1),
        [] => Err(TypeFault::WrongType(0)),
    }
}

// A pointer comes first, and a class behind it.
fn class_behind(given: &[(u32, Operand<Formula>)]) -> Result<TypeId, TypeFault>
    ensures { result ≡ class_behind (operands_of given.now) }
{
    match given {
        [first, others @ ..] => match &first.1 {
            Operand::Nil(_) => first_class(others),
            Operand::Of(_, Sort::Ptr(_)) => first_class(others),
            Operand::Of(_, _) => Err(TypeFault::WrongType(first.0)),
        },
        [] => Err(TypeFault::WrongType(0)),
    }
}

// The sort of an array and that of its elements, where the first argument is one.
fn first_array(known: &Known, given: &[(u32, Operand<Formula>)]) -> Result<(Sort, Sort), TypeFault>
    ensures ok { IfOk result (λ a. first_array (shapes known.now.program) (operands_of given.now) ≡ Ok (array_sorts a.0 a.1)) }
    ensures err { IfErr result (λ e. Stops e (first_array (shapes known.now.program) (operands_of given.now))) }
{
    match given {
        [first, ..] => match &first.1 {
            Operand::Nil(_) => Err(TypeFault::WrongType(first.0)),
            Operand::Of(_, of) => match known.element_sort(*of) {
                Some(element) => Ok((*of, element)),
                None => Err(TypeFault::WrongType(first.0)),
            },
        },
        [] => Err(TypeFault::WrongType(0)),
    }
}

fn with_sorts(alloc: Global, wanted: &[Sort], gives: Sort) -> Result<Signature, AllocError>
    ensures { IfOk result (λ s. signature_view s ≡ wants wanted.now gives) }
{
    let args = List::from_vec(Vec::from_slice(alloc, wanted)?);
    Ok(Signature {
        args,
        result: gives,
    })
}

fn array_signature(
    known: &Known,
    alloc: Global,
    given: &[(u32, Operand<Formula>)],
    stores: bool,
) -> Result<Signature, TypeFault>
    ensures ok { IfOk result (λ s. array_signature (shapes known.now.program) (operands_of given.now) stores ≡ Ok (signature_view s)) }
    ensures err { IfErr result (λ e. Stops e (array_signature (shapes known.now.program) (operands_of given.now) stores)) }
{
    let (array, element) = first_array(known, given)?;
    if stores {
        Ok(with_sorts(alloc, &[array, Sort::Int, element], array)?)
    } else {
        Ok(with_sorts(alloc, &[array, Sort::Int], element)?)
    }
}

fn content_signature(
    known: &Known,
    alloc: Global,
    given: &[(u32, Operand<Formula>)],
    changes: bool,
) -> Result<Signature, TypeFault>
    ensures ok { IfOk result (λ s. content_signature known.now.program.forms (operands_of given.now) changes ≡ Ok (signature_view s)) }
    ensures err { IfErr result (λ e. Stops e (content_signature known.now.program.forms (operands_of given.now) changes)) }
{
    let t = first_class(given)?;
    let content = known.sort_of(t);
    if changes {
        let wanted = [Sort::Class(t), Sort::Ptr(t), content];
        Ok(with_sorts(alloc, &wanted, Sort::Class(t))?)
    } else {
        Ok(with_sorts(alloc, &[Sort::Class(t), Sort::Ptr(t)], content)?)
    }
}

fn member_signature(
    alloc: Global,
    given: &[(u32, Operand<Formula>)],
) -> Result<Signature, TypeFault>
    ensures ok { IfOk result (λ s. member_signature (operands_of given.now) ≡ Ok (signature_view s)) }
    ensures err { IfErr result (λ e. Stops e (member_signature (operands_of given.now))) }
{
    let t = class_behind(given)?;
    Ok(with_sorts(alloc, &[Sort::Ptr(t), Sort::Class(t)], Sort::Bool)?)
}

/// The sorts that the arguments of a function must have, and that of its result.
#[tactic(auto, using(crate::proofs::Signing::select_is, crate::proofs::Signing::store_is, crate::proofs::Signing::cell_is, crate::proofs::Signing::set_cell_is, crate::proofs::Signing::extend_is, crate::proofs::Signing::pointer_to_is))]
pub(crate) fn signature_of(
    scope: &Scope<'_, '_>,
    alloc: Global,
    b: Function,
    given: &[(u32, Operand<Formula>)],
) -> Result<Signature, TypeFault>
    ensures ok { IfOk result (λ s. spec.signature_of (scope_of scope.now) (function_of b) (operands_of given.now) ≡ Ok (signature_view s)) }
    ensures err { IfErr result (λ e. Stops e (spec.signature_of (scope_of scope.now) (function_of b) (operands_of given.now))) }
{
    let known = scope.known;
    match b {
        Function::Select => array_signature(known, alloc, given, false),
        Function::Store => array_signature(known, alloc, given, true),
        Function::Cell => content_signature(known, alloc, given, false),
        Function::SetCell => content_signature(known, alloc, given, true),
        Function::Extend => content_signature(known, alloc, given, true),
        Function::PointerTo => member_signature(alloc, given),
        Function::Cons => Ok(with_sorts(alloc, &[Sort::List, Sort::List], Sort::List)?),
        Function::Atom => Ok(with_sorts(alloc, &[Sort::List], Sort::Bool)?),
        Function::Car => Ok(with_sorts(alloc, &[Sort::List], Sort::List)?),
        Function::Cdr => Ok(with_sorts(alloc, &[Sort::List], Sort::List)?),
        Function::Put => Ok(with_sorts(alloc, &[Sort::List], Sort::List)?),
    }
}

/// How many arguments a function takes.
pub(crate) fn arity(b: Function) -> usize
    ensures { result ≡ spec.arity (function_of b) }
{
    match b {
        Function::Select => 2,
        Function::Store => 3,
        Function::Put => 3,
        Function::Cell => 2,
        Function::SetCell => 3,
        Function::Extend => 3,
        Function::PointerTo => 2,
        Function::Car => 1,
        Function::Cdr => 1,
        Function::Cons => 2,
        Function::Atom => 1,
    }
}

/// The function as it stands in formulas; PUT has its field apart.
pub(crate) fn operator_of(b: Function) -> BuiltIn
    ensures { result ≡ spec.operator_of (function_of b) }
{
    match b {
        Function::Select => BuiltIn::Select,
        Function::Store => BuiltIn::Store,
        Function::Cell => BuiltIn::Cell,
        Function::SetCell => BuiltIn::SetCell,
        Function::Extend => BuiltIn::Extend,
        Function::PointerTo => BuiltIn::PointerTo,
        Function::Car => BuiltIn::Car,
        Function::Cdr => BuiltIn::Cdr,
        Function::Cons => BuiltIn::Cons,
        Function::Atom => BuiltIn::Atom,
        Function::Put => BuiltIn::Atom,
    }
}

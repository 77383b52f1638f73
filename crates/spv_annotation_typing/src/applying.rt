// Applications in annotations.

ghost use Rattle.std.specs.Prelude.{◌≡◌, IfOk, IfErr, Ok, None};
ghost use Rattle.spv_typing.specs.FormulaWalk as spec;
ghost use Rattle.spv_environments.specs.Answers.{Stops};
ghost use Rattle.spv_environments.specs.Scopes.{scope_of};
ghost use Rattle.spv_environments.specs.Symbols.{decl_of};
ghost use Rattle.spv_environments.specs.Views.{function_of};
ghost use Rattle.spv_program.specs.typed.FormulaViews.{formulas_of};
ghost use Rattle.spv_formula_typing.specs.Operands.{operands_of};
ghost use Rattle.spv_formula_typing.specs.Arguments.{all_given};
ghost use Rattle.spv_annotation_typing.specs.Applied.{applied_to, known_on, routine_fault, put_given, symbol_on, values};

use crate::callee::Callee;
use crate::putting::put_applied;
use crate::settling::settled_formula;
use crate::signatures::{arity, operator_of, signature_of};
use crate::sorted::{Sorted, boxed};
use spv_environments::{Function, Known, Scope, Signature};
use spv_formula_typing::{Given, Operand, push};
use spv_logic::Sort;
use spv_logic::names::Symbol;
use spv_program::BuiltIn;
use spv_program::typed::{Formula, FormulaForm};
use spv_tree::syntax::Name;
use spv_typing::TypeFault;
use std::alloc::{AllocError, Global};

// The arguments, each of the sort that is wanted of it.
fn settled_all(
    alloc: Global,
    wanted: &[Sort],
    given: Vec<(u32, Operand<Formula>)>,
) -> Result<Vec<Formula>, TypeFault>
    ensures ok { IfOk result (λ fs. spec.settled_all wanted.now (operands_of given.items) ≡ Ok (formulas_of fs.items)) }
    ensures err { IfErr result (λ e. Stops e (spec.settled_all wanted.now (operands_of given.items))) }
{
    let mut made = Vec::new(alloc);
    let mut place = 0;
    for (line, operand) in given {
        if place == wanted.len() {
            return Ok(made);
        }
        let formula = settled_formula(line, wanted[place], operand)?;
        push(&mut made, formula)?;
        place += 1;
    }
    Ok(made)
}

// The arguments that are values.
fn values_of(
    alloc: Global,
    given: Vec<(u32, Given<Formula, Sorted>)>,
) -> Result<Vec<(u32, Operand<Formula>)>, AllocError>
    ensures { IfOk result (λ os. operands_of os.items ≡ values (all_given given.items)) }
{
    let mut found = Vec::new(alloc);
    for (line, one) in given {
        match one {
            Given::Value(operand) => push(&mut found, (line, operand))?,
            _ => {}
        }
    }
    Ok(found)
}

// A function that is known from the start, other than PUT.
fn known_applied(
    scope: &Scope<'_, '_>,
    alloc: Global,
    line: u32,
    b: Function,
    given: Vec<(u32, Operand<Formula>)>,
) -> Result<Sorted, TypeFault>
    ensures ok { IfOk result (λ r. known_on (scope_of scope.now) line (function_of b) (operands_of given.items) ≡ Ok r) }
    ensures err { IfErr result (λ e. Stops e (known_on (scope_of scope.now) line (function_of b) (operands_of given.items))) }
{
    if given.len() != arity(b) {
        return Err(TypeFault::Count(line));
    }
    let signature = signature_of(scope, alloc, b, given.as_slice())?;
    let formulas = settled_all(alloc, signature.args.as_slice(), given)?;
    Ok(Sorted::new(
        FormulaForm::Known(operator_of(b), formulas),
        signature.result,
    ))
}

// A declared symbol.
fn symbol_applied(
    alloc: Global,
    line: u32,
    name: Symbol,
    signature: &Signature,
    given: Vec<(u32, Operand<Formula>)>,
) -> Result<Sorted, TypeFault>
    ensures ok { IfOk result (λ r. symbol_on line (decl_of name signature.now) (operands_of given.items) ≡ Ok r) }
    ensures err { IfErr result (λ e. Stops e (symbol_on line (decl_of name signature.now) (operands_of given.items))) }
{
    if given.len() != signature.args.len() {
        return Err(TypeFault::Count(line));
    }
    let formulas = settled_all(alloc, signature.args.as_slice(), given)?;
    Ok(Sorted::new(FormulaForm::Applied(name, formulas), signature.result))
}

// What has no place in an annotation, but has its arguments counted.
fn routine_applied(line: u32, count: usize, given: &[(u32, Operand<Formula>)]) -> TypeFault
    ensures { result ≡ routine_fault line count (operands_of given.now) }
{
    if given.len() == count {
        TypeFault::WrongType(line)
    } else {
        TypeFault::Count(line)
    }
}

/// What is called, with its arguments as they were read.
pub(crate) fn applied(
    scope: &Scope<'_, '_>,
    alloc: Global,
    line: u32,
    callee: Callee<'_>,
    given: Vec<(u32, Given<Formula, Sorted>)>,
) -> Result<Sorted, TypeFault>
    ensures ok { IfOk result (λ r. applied_to (scope_of scope.now) line callee.entry (all_given given.items) ≡ Ok r) }
    ensures err { IfErr result (λ e. Stops e (applied_to (scope_of scope.now) line callee.entry (all_given given.items))) }
{
    match callee {
        Callee::Put => put_applied(scope, alloc, line, given),
        Callee::Known(b) => {
            let values = values_of(alloc, given)?;
            known_applied(scope, alloc, line, b, values)
        }
        Callee::Declared(name, signature) => {
            let values = values_of(alloc, given)?;
            symbol_applied(alloc, line, name, signature, values)
        }
        Callee::Routine(count) => {
            let values = values_of(alloc, given)?;
            Err(routine_applied(line, count, values.as_slice()))
        }
        Callee::Other => Err(TypeFault::WrongType(line)),
    }
}

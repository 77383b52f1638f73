// Names in annotations.

ghost use Rattle.std.specs.Prelude.{◌≡◌, IfOk, IfErr, Ok};
ghost use Rattle.spv_typing.specs.FormulaWalk as spec;
ghost use Rattle.spv_typing.specs.Known.{meaning};
ghost use Rattle.spv_environments.specs.Answers.{Stops};
ghost use Rattle.spv_environments.specs.Scopes.{scope_of};
ghost use Rattle.spv_environments.specs.Symbols.{decl_of};
ghost use Rattle.spv_formula_typing.specs.Operands.{operand_of};
ghost use Rattle.spv_annotation_typing.specs.Alone.{symbol_alone, unknown_alone};

use crate::sorted::Sorted;
use spv_environments::{Meaning, Scope, Signature};
use spv_formula_typing::Operand;
use spv_logic::Sort;
use spv_logic::names::Symbol;
use spv_program::typed::{Formula, FormulaForm};
use spv_tree::syntax::Name;
use spv_typing::TypeFault;
use std::alloc::Global;

// A declared symbol without brackets.
fn symbol_alone(
    alloc: Global,
    line: u32,
    name: Symbol,
    signature: &Signature,
) -> Result<Sorted, TypeFault>
    ensures ok { IfOk result (λ r. symbol_alone line (decl_of name signature.now) ≡ Ok r) }
    ensures err { IfErr result (λ e. Stops e (symbol_alone line (decl_of name signature.now))) }
{
    if signature.args.len() == 0 {
        Ok(Sorted::new(
            FormulaForm::Applied(name, Vec::new(alloc)),
            signature.result,
        ))
    } else {
        Err(TypeFault::Count(line))
    }
}

// A name that nothing declares.
fn unknown_alone(scope: &Scope<'_, '_>, line: u32, x: Name) -> TypeFault
    ensures { result ≡ unknown_alone (scope_of scope.now) line x }
{
    match scope.function(x.symbol) {
        Some(_) => TypeFault::Count(line),
        None => TypeFault::Undeclared(x.line, x.symbol),
    }
}

// A name alone; a function that is known from the start lacks its arguments.
pub(crate) fn name_alone(
    scope: &Scope<'_, '_>,
    alloc: Global,
    line: u32,
    x: Name,
) -> Result<Sorted, TypeFault>
    ensures ok { IfOk result (λ r. spec.name_alone (scope_of scope.now) line x (meaning (scope_of scope.now) x.symbol) ≡ Ok r) }
    ensures err { IfErr result (λ e. Stops e (spec.name_alone (scope_of scope.now) line x (meaning (scope_of scope.now) x.symbol))) }
{
    match scope.meaning(x.symbol) {
        Some(Meaning::Constant(z)) => Ok(Sorted::new(FormulaForm::Numeral(z), Sort::Int)),
        Some(Meaning::Place(t)) => {
            let known = scope.known;
            Ok(Sorted::new(FormulaForm::Named(x.line, x.symbol), known.sort_of(t)))
        }
        Some(Meaning::Start(of)) => Ok(Sorted::new(FormulaForm::Named(x.line, x.symbol), of)),
        Some(Meaning::Declared(name, signature)) => symbol_alone(alloc, line, name, signature),
        Some(Meaning::Type(_)) => Err(TypeFault::WrongType(line)),
        Some(Meaning::List) => Err(TypeFault::WrongType(line)),
        Some(Meaning::Routine(_, _)) => Err(TypeFault::WrongType(line)),
        None => Err(unknown_alone(scope, line, x)),
    }
}

// `#T`
pub(crate) fn class_at(
    scope: &Scope<'_, '_>,
    line: u32,
    x: Name,
) -> Result<Operand<Formula>, TypeFault>
    ensures ok { IfOk result (λ o. spec.class_at (scope_of scope.now) line x ≡ Ok (operand_of o)) }
    ensures err { IfErr result (λ e. Stops e (spec.class_at (scope_of scope.now) line x)) }
{
    match scope.meaning(x.symbol) {
        Some(Meaning::Type(t)) => Ok(Operand::Of(
            Formula {
                form: FormulaForm::Class(line, t),
            },
            Sort::Class(t),
        )),
        Some(Meaning::List) => Err(TypeFault::WrongType(line)),
        Some(Meaning::Constant(_)) => Err(TypeFault::WrongType(line)),
        Some(Meaning::Place(_)) => Err(TypeFault::WrongType(line)),
        Some(Meaning::Start(_)) => Err(TypeFault::WrongType(line)),
        Some(Meaning::Declared(_, _)) => Err(TypeFault::WrongType(line)),
        Some(Meaning::Routine(_, _)) => Err(TypeFault::WrongType(line)),
        None => Err(TypeFault::Undeclared(x.line, x.symbol)),
    }
}

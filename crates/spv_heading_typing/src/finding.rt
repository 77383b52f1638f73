// What a name must stand for.

ghost use Rattle.std.specs.Prelude.{◌≡◌, IfOk, IfErr, Ok, Some};
ghost use Rattle.spv_program.specs.Lists.{found};
ghost use Rattle.spv_program.specs.Types.{form_at, may_be_result};
ghost use Rattle.spv_typing.specs.Known as spec;
ghost use Rattle.spv_typing.specs.TypeWalk as types;
ghost use Rattle.spv_typing.specs.DeclarationWalk.{class_named};
ghost use Rattle.spv_typing.specs.RoutineWalk.{variable_named};
ghost use Rattle.spv_environments.specs.Answers.{Stops};
ghost use Rattle.spv_environments.specs.Scopes.{meaning_of, scope_of};
ghost use Rattle.std.specs.Prelude.{option_map};

use spv_environments::{Known, Meaning, Scope};
use spv_logic::TypeId;
use spv_program::TypeForm;
use spv_tree::syntax::Name;
use spv_typing::TypeFault;

// The type of a name, where it stands for one.
pub(crate) fn type_named(scope: &Scope<'_, '_>, x: Name) -> Result<TypeId, TypeFault>
    ensures ok { IfOk result (λ t. types.type_named x.line x (spec.meaning (scope_of scope.now) x.symbol) ≡ Ok t) }
    ensures err { IfErr result (λ e. Stops e (types.type_named x.line x (spec.meaning (scope_of scope.now) x.symbol))) }
{
    match scope.meaning(x.symbol) {
        Some(Meaning::Type(t)) => Ok(t),
        Some(Meaning::List) => Err(TypeFault::WrongType(x.line)),
        Some(Meaning::Constant(_)) => Err(TypeFault::WrongType(x.line)),
        Some(Meaning::Place(_)) => Err(TypeFault::WrongType(x.line)),
        Some(Meaning::Start(_)) => Err(TypeFault::WrongType(x.line)),
        Some(Meaning::Declared(_, _)) => Err(TypeFault::WrongType(x.line)),
        Some(Meaning::Routine(_, _)) => Err(TypeFault::WrongType(x.line)),
        None => Err(TypeFault::Undeclared(x.line, x.symbol)),
    }
}

// The class of cells of the type that a name of the program stands for.
pub(crate) fn class_item(known: &Known, line: u32, x: Name) -> Result<TypeId, TypeFault>
    ensures ok { IfOk result (λ t. class_named line x (found (spec.program_names known.now) x.symbol) ≡ Ok t) }
    ensures err { IfErr result (λ e. Stops e (class_named line x (found (spec.program_names known.now) x.symbol))) }
{
    match known.meaning(x.symbol) {
        Some(Meaning::Type(t)) => Ok(t),
        Some(Meaning::List) => Err(TypeFault::WrongType(line)),
        Some(Meaning::Constant(_)) => Err(TypeFault::WrongType(line)),
        Some(Meaning::Place(_)) => Err(TypeFault::WrongType(line)),
        Some(Meaning::Start(_)) => Err(TypeFault::WrongType(line)),
        Some(Meaning::Declared(_, _)) => Err(TypeFault::WrongType(line)),
        Some(Meaning::Routine(_, _)) => Err(TypeFault::WrongType(line)),
        None => Err(TypeFault::Undeclared(x.line, x.symbol)),
    }
}

// The variable of this name, with its type; `found` is what the name stands for.
pub(crate) fn variable_item(
    line: u32,
    x: Name,
    meaning: Option<Meaning<'_>>,
) -> Result<TypeId, TypeFault>
    ensures ok { IfOk result (λ t. option_map meaning_of meaning.entry ≡ Some (spec.OfPlace t)) }
    ensures err { IfErr result (λ e. Stops e (variable_named line x (option_map meaning_of meaning.entry))) }
{
    match meaning {
        Some(Meaning::Place(t)) => Ok(t),
        Some(Meaning::Type(_)) => Err(TypeFault::WrongType(line)),
        Some(Meaning::List) => Err(TypeFault::WrongType(line)),
        Some(Meaning::Constant(_)) => Err(TypeFault::WrongType(line)),
        Some(Meaning::Start(_)) => Err(TypeFault::WrongType(line)),
        Some(Meaning::Declared(_, _)) => Err(TypeFault::WrongType(line)),
        Some(Meaning::Routine(_, _)) => Err(TypeFault::WrongType(line)),
        None => Err(TypeFault::Undeclared(x.line, x.symbol)),
    }
}

// Whether a function may have a result of this type: it is no array and no record.
pub(crate) fn may_be_result(known: &Known, t: TypeId) -> bool
    ensures { result ≡ may_be_result (form_at known.now.program.forms t.0) }
{
    match known.form(t) {
        Some(TypeForm::Array(_, _)) => false,
        Some(TypeForm::Record(_)) => false,
        Some(_) => true,
        None => false,
    }
}

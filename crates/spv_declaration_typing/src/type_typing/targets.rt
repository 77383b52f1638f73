// Where pointers may lead, and the types so far.

ghost use Rattle.std.specs.Prelude.{◌≡◌, Ok, Some, IfOk, IfErr, [], ◌∷◌, ◌++◌, OnOk, length};
ghost use Rattle.spv_program.specs.Lists.{item_at};
ghost use Rattle.spv_program.specs.Types.{is_range};
ghost use Rattle.spv_typing.specs.declared.faults.TypeFault.TheVariants.{Memory};
ghost use Rattle.spv_typing.specs.Known.{meaning};
ghost use Rattle.spv_typing.specs.TypeWalk as spec;
ghost use Rattle.spv_environments.specs.Answers.{Stops};
ghost use Rattle.spv_environments.specs.Scopes.{scope_of};
ghost use Rattle.spv_declaration_typing.specs.pointer_types.Views.{written_of, all_written};
ghost use Rattle.spv_declaration_typing.specs.type_typing.Reading.{is_target, types_of, read_as};
ghost use Rattle.spv_declaration_typing.specs.type_typing.Simple.{range_walk, no_target, pointer_walk};

use crate::pointer_types::Written;
use crate::type_typing::constants::constant;
use spv_environments::{Known, Scope};
use spv_logic::TypeId;
use spv_logic::names::Symbol;
use spv_program::TypeForm;
use spv_program::ordered_map::Named;
use spv_tree::syntax::{Constant, Name};
use spv_typing::TypeFault;
use std::alloc::AllocError;

/// Which names pointers may lead to.
#[derive(Clone, Copy)]
pub enum Targets<'t> {
    /// Those of the program's types.
    Declared,
    /// Those of the TYPE part that is read, with their lines.
    Part(&'t Named<u32>),
}

#[tactic(auto, using(crate::proofs::type_typing::TypeNames::type_names))]
fn is_target(known: &Known, targets: Targets<'_>, x: Symbol) -> bool
    ensures { result ≡ is_target known.now targets.entry x }
{
    match targets {
        Targets::Declared => known.types().has(x),
        Targets::Part(names) => names.has(x),
    }
}

// The number of the next type.
fn next_type(scope: &Scope<'_, '_>, new: &[Written]) -> Result<TypeId, TypeFault>
    ensures ok { IfOk result (λ t. t.0 ≡ length (types_of scope.now new.now)) }
    ensures err { IfErr result (λ e. e ≡ Memory) }
{
    let known = scope.known;
    match known.forms().len().checked_add(new.len()) {
        Some(count) => {
            if count > 4294967295 {
                Err(TypeFault::Memory)
            } else {
                Ok(TypeId(count as u32))
            }
        }
        None => Err(TypeFault::Memory),
    }
}

fn push(new: &mut Vec<Written>, item: Written) -> Result<(), AllocError>
    ensures { OnOk result (new.new.items ≡ new.old.items ++ item ∷ []) }
{
    new.push(item)?;
    Ok(())
}

/// A further type.
pub(crate) fn add_type(
    scope: &Scope<'_, '_>,
    new: &mut Vec<Written>,
    item: Written,
) -> Result<TypeId, TypeFault>
    ensures ok { IfOk result (λ t. spec.adding (types_of scope.now new.old.items) (written_of item) ≡ read_as scope.now new.new.items t) }
    ensures err { IfErr result (λ e. e ≡ Memory) }
{
    let t = next_type(scope, new.as_slice())?;
    push(new, item)?;
    Ok(t)
}

fn is_range_form(form: &TypeForm) -> bool
    ensures { result ≡ is_range form.now }
{
    match form {
        TypeForm::Range(_, _) => true,
        _ => false,
    }
}

fn is_range_written(item: &Written) -> bool
    ensures { result ≡ spec.is_range (Some (written_of item.now)) }
{
    match item {
        Written::Built(form) => is_range_form(form),
        Written::PointerTo(_) => false,
    }
}

/// Whether a type is a subrange.
pub(crate) fn is_range(scope: &Scope<'_, '_>, new: &[Written], t: TypeId) -> bool
    ensures { result ≡ spec.is_range (item_at (types_of scope.now new.now) t.0) }
{
    let place = t.0 as usize;
    let known = scope.known;
    let forms = known.forms();
    if place < forms.len() {
        return is_range_form(&forms[place]);
    }
    if place - forms.len() < new.len() {
        return is_range_written(&new[place - forms.len()]);
    }
    false
}

/// A subrange.
pub(crate) fn range(
    scope: &Scope<'_, '_>,
    new: &mut Vec<Written>,
    line: u32,
    low: &Constant,
    high: &Constant,
) -> Result<TypeId, TypeFault>
    ensures ok { IfOk result (λ t. range_walk scope.now new.old.items line low.now high.now ≡ Ok (read_as scope.now new.new.items t)) }
    ensures err { IfErr result (λ e. Stops e (range_walk scope.now new.old.items line low.now high.now)) }
{
    let a = constant(scope, low)?;
    let b = constant(scope, high)?;
    if b < a {
        return Err(TypeFault::WrongType(line));
    }
    add_type(scope, new, Written::Built(TypeForm::Range(a, b)))
}

fn no_target(scope: &Scope<'_, '_>, line: u32, x: Name) -> TypeFault
    ensures { result ≡ no_target line x (meaning (scope_of scope.now) x.symbol) }
{
    match scope.meaning(x.symbol) {
        Some(_) => TypeFault::WrongType(line),
        None => TypeFault::Undeclared(x.line, x.symbol),
    }
}

/// `^` and the name of its target.
pub(crate) fn pointer(
    scope: &Scope<'_, '_>,
    targets: Targets<'_>,
    new: &mut Vec<Written>,
    line: u32,
    x: Name,
) -> Result<TypeId, TypeFault>
    ensures ok { IfOk result (λ t. pointer_walk scope.now targets.entry new.old.items line x ≡ Ok (read_as scope.now new.new.items t)) }
    ensures err { IfErr result (λ e. Stops e (pointer_walk scope.now targets.entry new.old.items line x)) }
{
    if !is_target(scope.known, targets, x.symbol) {
        return Err(no_target(scope, line, x));
    }
    add_type(scope, new, Written::PointerTo(x.symbol))
}

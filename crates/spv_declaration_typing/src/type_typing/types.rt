// Types as they are written, in the order of the text.

ghost use Rattle.std.specs.Prelude.{◌≡◌, ◌++◌, [], ◌∷◌, Ok, IfOk, IfErr, OnOk};
ghost use Rattle.spv_tree.specs.syntax.Model.TypeSizes.{more_types_of, more_fields_of};
ghost use Rattle.spv_typing.specs.TypeWalk as spec;
ghost use Rattle.spv_environments.specs.Answers.{Stops};
ghost use Rattle.spv_declaration_typing.specs.type_typing.Reading.{read_as, denoted, more_denoted, field_denoted, fields_denoted, indices_so_far, fields_so_far};
ghost use Rattle.spv_declaration_typing.specs.type_typing.Walks.{array_walk, record_walk, names_walk};

use crate::pointer_types::Written;
use crate::type_typing::constants::type_named;
use crate::type_typing::fields::{add_fields, listed, new_fields};
use crate::type_typing::nested::{Index, nested_if_ranges};
use crate::type_typing::targets::{Targets, add_type, pointer, range};
use spv_environments::Scope;
use spv_logic::TypeId;
use spv_program::TypeForm as Form;
use spv_program::ordered_map::Named;
use spv_tree::syntax::{Field, Name, Several, TypeDenoter, TypeForm};
use spv_typing::TypeFault;
use std::alloc::{AllocError, Global};

/// The type that is written; the types that it is built of are put behind those so far.
#[cycle(types)]
pub fn denoted(
    scope: &Scope<'_, '_>,
    targets: Targets<'_>,
    alloc: Global,
    new: &mut Vec<Written>,
    tree: &TypeDenoter,
) -> Result<TypeId, TypeFault>
    ensures ok { IfOk result (λ t. denoted scope.now targets.entry new.old.items tree.now ≡ Ok (read_as scope.now new.new.items t)) }
    ensures err { IfErr result (λ e. Stops e (denoted scope.now targets.entry new.old.items tree.now)) }
{
    match &tree.form {
        TypeForm::Named(x) => type_named(scope, tree.line, *x),
        TypeForm::Range(low, high) => range(scope, new, tree.line, low, high),
        TypeForm::Pointer(x) => pointer(scope, targets, new, tree.line, *x),
        TypeForm::Array(first, more, elements) => {
            array_type(scope, targets, alloc, new, first, more, elements)
        }
        TypeForm::Record(first, more) => record_type(scope, targets, alloc, new, first, more),
    }
}

#[tactic(auto, using(crate::proofs::type_typing::Lines::line_is))]
fn line_of(tree: &TypeDenoter) -> u32
    ensures { result ≡ spec.type_line tree.now }
{
    tree.line
}

fn push(indices: &mut Vec<Index>, index: Index) -> Result<(), AllocError>
    ensures { OnOk result (indices.new.items ≡ indices.old.items ++ index ∷ []) }
{
    indices.push(index)?;
    Ok(())
}

#[cycle(types)]
fn array_type(
    scope: &Scope<'_, '_>,
    targets: Targets<'_>,
    alloc: Global,
    new: &mut Vec<Written>,
    first: &TypeDenoter,
    more: &[TypeDenoter],
    elements: &TypeDenoter,
) -> Result<TypeId, TypeFault>
    ensures ok { IfOk result (λ t. array_walk scope.now targets.entry new.old.items first.now more.now elements.now ≡ Ok (read_as scope.now new.new.items t)) }
    ensures err { IfErr result (λ e. Stops e (array_walk scope.now targets.entry new.old.items first.now more.now elements.now)) }
{
    let one = denoted(scope, targets, alloc, new, first)?;
    let line = line_of(first);
    let indices = more_types(scope, targets, alloc, new, one, line, more)?;
    let element = denoted(scope, targets, alloc, new, elements)?;
    nested_if_ranges(scope, new, indices.as_slice(), element)
}

#[cycle(types)]
fn more_types(
    scope: &Scope<'_, '_>,
    targets: Targets<'_>,
    alloc: Global,
    new: &mut Vec<Written>,
    one: TypeId,
    line: u32,
    more: &[TypeDenoter],
) -> Result<Vec<Index>, TypeFault>
    ensures ok { IfOk result (λ v. more_denoted scope.now targets.entry new.old.items one line (more_types_of more.now) ≡ Ok (indices_so_far scope.now new.new.items v.items)) }
    ensures err { IfErr result (λ e. Stops e (more_denoted scope.now targets.entry new.old.items one line (more_types_of more.now))) }
{
    let mut indices = Vec::new(alloc);
    push(&mut indices, Index { of: one, line })?;
    for next in more {
        let line = line_of(next);
        let of = denoted(scope, targets, alloc, new, next)?;
        push(&mut indices, Index { of, line })?;
    }
    Ok(indices)
}

#[cycle(types)]
fn record_type(
    scope: &Scope<'_, '_>,
    targets: Targets<'_>,
    alloc: Global,
    new: &mut Vec<Written>,
    first: &Field,
    more: &[Field],
) -> Result<TypeId, TypeFault>
    ensures ok { IfOk result (λ t. record_walk scope.now targets.entry new.old.items first.now more.now ≡ Ok (read_as scope.now new.new.items t)) }
    ensures err { IfErr result (λ e. Stops e (record_walk scope.now targets.entry new.old.items first.now more.now)) }
{
    let mut fields = Named::new(alloc);
    field(scope, targets, alloc, new, &mut fields, first)?;
    more_fields(scope, targets, alloc, new, &mut fields, more)?;
    let all = listed(alloc, &fields)?;
    add_type(scope, new, Written::Built(Form::Record(all)))
}

#[cycle(types)]
fn more_fields(
    scope: &Scope<'_, '_>,
    targets: Targets<'_>,
    alloc: Global,
    new: &mut Vec<Written>,
    fields: &mut Named<TypeId>,
    more: &[Field],
) -> Result<(), TypeFault>
    ensures ok { OnOk result (fields_denoted scope.now targets.entry new.old.items fields.old (more_fields_of more.now) ≡ Ok (fields_so_far scope.now new.new.items fields.new)) }
    ensures err { IfErr result (λ e. Stops e (fields_denoted scope.now targets.entry new.old.items fields.old (more_fields_of more.now))) }
{
    for next in more {
        field(scope, targets, alloc, new, fields, next)?;
    }
    Ok(())
}

#[cycle(types)]
fn field(
    scope: &Scope<'_, '_>,
    targets: Targets<'_>,
    alloc: Global,
    new: &mut Vec<Written>,
    fields: &mut Named<TypeId>,
    tree: &Field,
) -> Result<(), TypeFault>
    ensures ok { OnOk result (field_denoted scope.now targets.entry new.old.items fields.old tree.now ≡ Ok (fields_so_far scope.now new.new.items fields.new)) }
    ensures err { IfErr result (λ e. Stops e (field_denoted scope.now targets.entry new.old.items fields.old tree.now)) }
{
    match &tree.form {
        None => Ok(()),
        Some((names, of)) => named_fields(scope, targets, alloc, new, fields, names, of),
    }
}

#[cycle(types)]
fn named_fields(
    scope: &Scope<'_, '_>,
    targets: Targets<'_>,
    alloc: Global,
    new: &mut Vec<Written>,
    fields: &mut Named<TypeId>,
    names: &Several<Name>,
    of: &TypeDenoter,
) -> Result<(), TypeFault>
    ensures ok { OnOk result (names_walk scope.now targets.entry new.old.items fields.old names.now of.now ≡ Ok (fields_so_far scope.now new.new.items fields.new)) }
    ensures err { IfErr result (λ e. Stops e (names_walk scope.now targets.entry new.old.items fields.old names.now of.now)) }
{
    let named = new_fields(fields, alloc, names)?;
    let t = denoted(scope, targets, alloc, new, of)?;
    add_fields(fields, &named, t)?;
    Ok(())
}

// Types as they are written.

ghost use Rattle.std.specs.Prelude.{◌≡◌, ◌++◌, [], ◌∷◌, map, IfOk, OnOk};
ghost use Rattle.spv_typing.specs.Merging as spec;
ghost use Rattle.spv_declaration_typing.specs.pointer_types.Views.{all_written};

use spv_logic::list::List;
use spv_logic::names::Symbol;
use spv_program::{TypeField, TypeForm};
use std::alloc::{AllocError, Global};

/// How a type is written.
#[derive(Drop)]
pub enum Written {
    /// Built of types that have numbers.
    Built(TypeForm),
    /// A pointer to cells of the type of this name.
    PointerTo(Symbol),
}

fn copied_fields(alloc: Global, fields: &[TypeField]) -> Result<List<TypeField>, AllocError>
    ensures { IfOk result (λ l. l ≡ fields.now) }
{
    Ok(List::from_vec(Vec::from_slice(alloc, fields)?))
}

/// A copy of a form.
pub fn copied(alloc: Global, form: &TypeForm) -> Result<TypeForm, AllocError>
    ensures { IfOk result (λ f. f ≡ form.now) }
{
    match form {
        TypeForm::Integer => Ok(TypeForm::Integer),
        TypeForm::Boolean => Ok(TypeForm::Boolean),
        TypeForm::Range(low, high) => Ok(TypeForm::Range(*low, *high)),
        TypeForm::Pointer(t) => Ok(TypeForm::Pointer(*t)),
        TypeForm::Array(index, element) => Ok(TypeForm::Array(*index, *element)),
        TypeForm::Record(fields) => Ok(TypeForm::Record(copied_fields(alloc, fields.as_slice())?)),
    }
}

fn push(types: &mut Vec<Written>, item: Written) -> Result<(), AllocError>
    ensures { OnOk result (types.new.items ≡ types.old.items ++ item ∷ []) }
{
    types.push(item)?;
    Ok(())
}

fn built(alloc: Global, forms: &[TypeForm]) -> Result<Vec<Written>, AllocError>
    ensures { IfOk result (λ v. all_written v.items ≡ map spec.Built forms.now) }
{
    let mut types = Vec::new(alloc);
    for form in forms {
        let copy = copied(alloc, form)?;
        push(&mut types, Written::Built(copy))?;
    }
    Ok(types)
}

/// The types that have forms, and those behind them.
pub fn whole(
    alloc: Global,
    forms: &[TypeForm],
    further: Vec<Written>,
) -> Result<Vec<Written>, AllocError>
    ensures { IfOk result (λ v. all_written v.items ≡ map spec.Built forms.now ++ all_written further.items) }
{
    let mut types = built(alloc, forms)?;
    for item in further {
        push(&mut types, item)?;
    }
    Ok(types)
}

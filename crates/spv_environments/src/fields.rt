// Fields of record types under their names.

ghost use Rattle.std.specs.Prelude.{◌≡◌, ◌<◌, ◌++◌, ◌∷◌, [], IfOk, OnOk, length};
ghost use Rattle.spv_program.specs.declared.types.TypeForm.TheVariants.{Record};
ghost use Rattle.spv_program.specs.Types as types;
ghost use Rattle.spv_environments.specs.Fields.{AreFields, HasFields, WithField};

use spv_logic::TypeId;
use spv_logic::names::Symbol;
use spv_program::ordered_map::Named;
use spv_program::{TypeField, TypeForm};
use std::alloc::{AllocError, Global};

// A field more; of two of one name the first counts.
#[tactic(auto, using(crate::proofs::FieldTables::field_known, crate::proofs::FieldTables::field_new))]
fn note_field(table: &mut Named<TypeId>, field: TypeField) -> Result<(), AllocError>
    ensures { OnOk result (WithField table.old table.new field) }
{
    if table.has(field.name) {
        return Ok(());
    }
    table.insert(field.name, field.of)?;
    Ok(())
}

#[tactic(auto, using(crate::proofs::FieldTables::fields_begin, crate::proofs::FieldTables::field_noted, crate::proofs::FieldTables::fields_noted))]
fn fields_of(alloc: Global, fields: &[TypeField]) -> Result<Named<TypeId>, AllocError>
    ensures { IfOk result (λ t. HasFields (Record fields.now) t) }
{
    let mut table = Named::new(alloc);
    for field in fields {
        note_field(&mut table, *field)?;
    }
    Ok(table)
}

// The fields of a form under their names; a form that is no record has none.
#[tactic(auto, using(crate::proofs::FieldTables::no_fields))]
fn table_of(alloc: Global, form: &TypeForm) -> Result<Named<TypeId>, AllocError>
    ensures { IfOk result (λ t. HasFields form.now t) }
{
    match form {
        TypeForm::Integer => Ok(Named::new(alloc)),
        TypeForm::Boolean => Ok(Named::new(alloc)),
        TypeForm::Range(_, _) => Ok(Named::new(alloc)),
        TypeForm::Pointer(_) => Ok(Named::new(alloc)),
        TypeForm::Array(_, _) => Ok(Named::new(alloc)),
        TypeForm::Record(fields) => fields_of(alloc, fields.as_slice()),
    }
}

// A table for each form.
#[tactic(auto, using(crate::proofs::FieldTables::none_yet, crate::proofs::FieldTables::all_tables))]
pub(crate) fn tables(alloc: Global, forms: &[TypeForm]) -> Result<Vec<Named<TypeId>>, AllocError>
    ensures { IfOk result (λ v. AreFields forms.now v.items) }
{
    let mut tables = Vec::new(alloc);
    for form in forms {
        let table = table_of(alloc, form)?;
        tables.push(table)?;
    }
    Ok(tables)
}

// The tables with one form more.
#[tactic(auto, using(crate::proofs::FieldTables::form_noted))]
pub(crate) fn with_form(
    alloc: Global,
    mut tables: Vec<Named<TypeId>>,
    forms: &[TypeForm],
    form: &TypeForm,
) -> Result<Vec<Named<TypeId>>, AllocError>
    requires { AreFields forms.now tables.items }
    ensures { IfOk result (λ v. AreFields (forms.now ++ form.now ∷ []) v.items) }
{
    let table = table_of(alloc, form)?;
    tables.push(table)?;
    Ok(tables)
}

// The type of the first field of a name, by going through them.
#[tactic(auto, using(crate::proofs::Pieces::field_first, crate::proofs::Pieces::field_behind))]
pub(crate) fn field_type(fields: &[TypeField], x: Symbol) -> Option<TypeId>
    ensures { result ≡ types.field_type fields.now x }
{
    for field in fields {
        if field.name.0 == x.0 {
            return Some(field.of);
        }
    }
    None
}

/// The type of a form's field, by the table of its fields.
#[tactic(auto, using(crate::proofs::FieldTables::field_there))]
pub(crate) fn field_at(
    tables: &[Named<TypeId>],
    forms: &[TypeForm],
    place: usize,
    x: Symbol,
) -> Option<TypeId>
    requires within { place < length forms.now }
    requires tables { AreFields forms.now tables.now }
    ensures { result ≡ types.field_of (types.form_at forms.now place) x }
{
    tables[place].get(x).copied()
}

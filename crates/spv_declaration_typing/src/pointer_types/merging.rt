// Types as they are written become forms and new numbers.

ghost use Rattle.std.specs.Prelude.{◌≡◌, ◌++◌, map, IfOk, OnOk, length};
ghost use Rattle.spv_program.specs.Lists.{found};
ghost use Rattle.spv_typing.specs.Merging as spec;
ghost use Rattle.spv_declaration_typing.specs.pointer_types.Views.{written_of, all_written};
ghost use Rattle.spv_declaration_typing.specs.pointer_types.Counting.{alone_if, all_firsts, counting};

use crate::pointer_types::counting::Renumbering;
use crate::pointer_types::firsts::firsts;
use crate::pointer_types::rounds::push;
use crate::pointer_types::written::Written;
use spv_logic::TypeId;
use spv_logic::list::List;
use spv_logic::names::Symbol;
use spv_program::ordered_map::Named;
use spv_program::{TypeField, TypeForm};
use std::alloc::{AllocError, Global};

/// Forms, with the new numbers of the types.
#[derive(Drop)]
pub struct Merged {
    /// The forms of the types that are the first of their kind.
    pub forms: List<TypeForm>,
    /// The new numbers.
    pub numbers: Renumbering,
}

fn field_with(numbers: &Renumbering, field: TypeField) -> TypeField
    ensures { result ≡ record { name = field.name; of = spec.renumbered (all_firsts numbers.now) field.of } }
{
    TypeField {
        name: field.name,
        of: numbers.number(field.of),
    }
}

fn fields_with(
    alloc: Global,
    numbers: &Renumbering,
    fields: &[TypeField],
) -> Result<List<TypeField>, AllocError>
    ensures { IfOk result (λ l. l ≡ map (λ f. record { name = f.name; of = spec.renumbered (all_firsts numbers.now) f.of }) fields.now) }
{
    let mut made = Vec::new(alloc);
    for field in fields {
        push(&mut made, field_with(numbers, *field))?;
    }
    Ok(List::from_vec(made))
}

// A form with the new numbers in it.
fn form_with(alloc: Global, numbers: &Renumbering, form: &TypeForm) -> Result<TypeForm, AllocError>
    ensures { IfOk result (λ f. f ≡ spec.form_with (spec.renumbered (all_firsts numbers.now)) form.now) }
{
    match form {
        TypeForm::Integer => Ok(TypeForm::Integer),
        TypeForm::Boolean => Ok(TypeForm::Boolean),
        TypeForm::Range(low, high) => Ok(TypeForm::Range(*low, *high)),
        TypeForm::Pointer(t) => Ok(TypeForm::Pointer(numbers.number(*t))),
        TypeForm::Array(index, element) => Ok(TypeForm::Array(
            numbers.number(*index),
            numbers.number(*element),
        )),
        TypeForm::Record(fields) => {
            let made = fields_with(alloc, numbers, fields.as_slice())?;
            Ok(TypeForm::Record(made))
        }
    }
}

fn target(names: &Named<TypeId>, x: Symbol) -> TypeId
    ensures { result ≡ spec.target_or_first (found names.now x) }
{
    match names.get(x) {
        Some(t) => *t,
        None => TypeId(0),
    }
}

fn new_form(
    alloc: Global,
    names: &Named<TypeId>,
    numbers: &Renumbering,
    written: &Written,
) -> Result<TypeForm, AllocError>
    ensures { IfOk result (λ f. f ≡ spec.form_with (spec.renumbered (all_firsts numbers.now)) (spec.form_of names.now (written_of written.now))) }
{
    match written {
        Written::Built(form) => form_with(alloc, numbers, form),
        Written::PointerTo(x) => Ok(TypeForm::Pointer(numbers.number(target(names, *x)))),
    }
}

fn add_if(
    alloc: Global,
    names: &Named<TypeId>,
    numbers: &Renumbering,
    written: &Written,
    leads: bool,
    forms: &mut Vec<TypeForm>,
) -> Result<(), AllocError>
    ensures { OnOk result (forms.new.items ≡ forms.old.items ++ alone_if leads (spec.form_with (spec.renumbered (all_firsts numbers.now)) (spec.form_of names.now (written_of written.now)))) }
{
    if !leads {
        return Ok(());
    }
    let form = new_form(alloc, names, numbers, written)?;
    push(forms, form)
}

fn forms(
    alloc: Global,
    names: &Named<TypeId>,
    numbers: &Renumbering,
    written: &[Written],
) -> Result<List<TypeForm>, AllocError>
    requires { length numbers.now.firsts ≡ length written.now }
    ensures { IfOk result (λ l. l ≡ spec.forms_from names.now (spec.renumbered (all_firsts numbers.now)) numbers.now.base numbers.now.firsts (all_written written.now)) }
{
    let mut made = Vec::new(alloc);
    for place in 0..written.len() {
        let leads = numbers.leads(place);
        add_if(alloc, names, numbers, &written[place], leads, &mut made)?;
    }
    Ok(List::from_vec(made))
}

/// New numbers of types, and the forms of those behind others that keep their numbers, where it is known which type each is
/// the same as.
pub fn merge_behind(
    alloc: Global,
    names: &Named<TypeId>,
    base: usize,
    firsts: Vec<usize>,
    written: &[Written],
) -> Result<Merged, AllocError>
    requires { length firsts.items ≡ length written.now }
    ensures numbers { IfOk result (λ m. m.numbers ≡ record { base = base; firsts = firsts.items }) }
    ensures forms { IfOk result (λ m. m.forms ≡ spec.forms_from names.now (spec.renumbered (counting 0 base ++ firsts.items)) base firsts.items (all_written written.now)) }
{
    if base > 4294967295 || firsts.len() > 4294967295 - base {
        return Err(AllocError);
    }
    let numbers = Renumbering::new(alloc, base, firsts)?;
    let forms = forms(alloc, names, &numbers, written)?;
    Ok(Merged { forms, numbers })
}

/// Forms and new numbers of types as they are written, with the names of types; equal pointer types are one.
pub fn merge(
    alloc: Global,
    names: &Named<TypeId>,
    written: &[Written],
) -> Result<Merged, AllocError>
    ensures numbers { IfOk result (λ m. all_firsts m.numbers ≡ spec.firsts (map (spec.target_number names.now) (all_written written.now))) }
    ensures forms { IfOk result (λ m. m.forms ≡ (spec.merged names.now (all_written written.now)).forms) }
{
    let firsts = firsts(alloc, names, written)?;
    merge_behind(alloc, names, 0, firsts, written)
}

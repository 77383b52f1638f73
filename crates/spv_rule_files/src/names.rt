// What is known of a program in a rule file.

ghost use Rattle.std.specs.Prelude.{◌≡◌, IfOk, OnOk};
ghost use Rattle.spv_typing.specs.Known.{known_in};
ghost use Rattle.spv_rule_files.specs.Outcomes.{fold};
ghost use Rattle.spv_rule_files.specs.Scopes as spec;

use spv_environments::{Known, Signature};
use spv_logic::list::List;
use spv_logic::names::{Names, Symbol};
use spv_logic::{Decl, Sort, TypeId};
use spv_program::typed::Program;
use spv_program::{TypeField, TypeForm};
use std::alloc::{AllocError, Global};

fn copied_fields(alloc: Global, fields: &[TypeField]) -> Result<List<TypeField>, AllocError>
    ensures { IfOk result (λ l. l ≡ fields.now) }
{
    let mut copy = List::new(alloc);
    for field in fields {
        copy.push(*field)?;
    }
    Ok(copy)
}

fn copied_sorts(alloc: Global, sorts: &[Sort]) -> Result<List<Sort>, AllocError>
    ensures { IfOk result (λ l. l ≡ sorts.now) }
{
    let mut copy = List::new(alloc);
    for sort in sorts {
        copy.push(*sort)?;
    }
    Ok(copy)
}

fn copied_form(alloc: Global, form: &TypeForm) -> Result<TypeForm, AllocError>
    ensures { IfOk result (λ f. f ≡ form.now) }
{
    match form {
        TypeForm::Integer => Ok(TypeForm::Integer),
        TypeForm::Boolean => Ok(TypeForm::Boolean),
        TypeForm::Range(low, high) => Ok(TypeForm::Range(*low, *high)),
        TypeForm::Pointer(t) => Ok(TypeForm::Pointer(*t)),
        TypeForm::Array(index, element) => Ok(TypeForm::Array(*index, *element)),
        TypeForm::Record(fields) => {
            let fields = copied_fields(alloc, fields.as_slice())?;
            Ok(TypeForm::Record(fields))
        }
    }
}

fn copied_forms(alloc: Global, forms: &[TypeForm]) -> Result<List<TypeForm>, AllocError>
    ensures { IfOk result (λ l. l ≡ forms.now) }
{
    let mut copy = List::new(alloc);
    for form in forms {
        let one = copied_form(alloc, form)?;
        copy.push(one)?;
    }
    Ok(copy)
}

// The types of a program.
fn known_types(alloc: Global, names: &Names, program: &Program) -> Result<Known, AllocError>
    ensures { IfOk result (λ k. k ≡ spec.known_types (known_in names.now) program.now) }
{
    let forms = copied_forms(alloc, program.forms.as_slice())?;
    let mut known = Known::new(alloc, names)?;
    known.set_forms(alloc, forms)?;
    Ok(known)
}

#[tactic(auto, using(spv_environments::proofs::Free::no_constant))]
fn constant_if_free(known: &mut Known, x: Symbol, z: &i64) -> Result<(), AllocError>
    ensures { OnOk result (known.new ≡ spec.constant_if_free known.old (x, z.now)) }
{
    if known.is_free(x) {
        known.add_constant(x, *z)?;
    }
    Ok(())
}

#[tactic(auto, using(spv_environments::proofs::Free::no_type))]
fn type_if_free(known: &mut Known, x: Symbol, t: TypeId) -> Result<(), AllocError>
    ensures { OnOk result (known.new ≡ spec.type_if_free known.old (x, t)) }
{
    if known.is_free(x) {
        known.add_type(x, t)?;
    }
    Ok(())
}

fn symbol_if_free(known: &mut Known, alloc: Global, symbol: &Decl) -> Result<(), AllocError>
    ensures { OnOk result (known.new ≡ spec.symbol_if_free known.old symbol.now) }
{
    if known.is_free(symbol.name) {
        let args = copied_sorts(alloc, symbol.args.as_slice())?;
        let signature = Signature {
            args,
            result: symbol.result,
        };
        known.add_symbol(symbol.name, signature)?;
    }
    Ok(())
}

fn constants(known: &mut Known, all: &[(Symbol, i64)]) -> Result<(), AllocError>
    ensures { OnOk result (known.new ≡ fold spec.constant_if_free known.old all.now) }
{
    for one in all {
        constant_if_free(known, one.0, &one.1)?;
    }
    Ok(())
}

fn types(known: &mut Known, all: &[(Symbol, TypeId)]) -> Result<(), AllocError>
    ensures { OnOk result (known.new ≡ fold spec.type_if_free known.old all.now) }
{
    for one in all {
        type_if_free(known, one.0, one.1)?;
    }
    Ok(())
}

fn symbols(known: &mut Known, alloc: Global, all: &[Decl]) -> Result<(), AllocError>
    ensures { OnOk result (known.new ≡ fold spec.symbol_if_free known.old all.now) }
{
    for one in all {
        symbol_if_free(known, alloc, one)?;
    }
    Ok(())
}

// What a rule file may name of a program.
pub(crate) fn rule_known(
    alloc: Global,
    names: &Names,
    program: &Program,
) -> Result<Known, AllocError>
    ensures { IfOk result (λ k. k ≡ spec.rule_known (known_in names.now) program.now) }
{
    let mut known = known_types(alloc, names, program)?;
    constants(&mut known, program.constants.as_slice())?;
    types(&mut known, program.types.as_slice())?;
    symbols(&mut known, alloc, program.symbols.as_slice())?;
    Ok(known)
}

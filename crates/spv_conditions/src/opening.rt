// An arena for the terms of a program.

ghost use Rattle.std.specs.Prelude.{◌≡◌, [], map, IfOk, IsTrue};
ghost use Rattle.spv_program.specs.Programs.{shapes};
ghost use Rattle.spv_program.specs.Types.{shape_of_form, shapes_of, sort_of};
ghost use Rattle.spv_program.specs.Typing.{declarations_ok};
ghost use Rattle.spv_conditions.specs.Making.{empty_arena};

use spv_effects::mod_sets::sort_of;
use spv_logic::list::List;
use spv_logic::{Decl, Field, Shape};
use spv_program::typed::Program;
use spv_program::{TypeField, TypeForm};
use spv_term::{Shapes, Terms};
use std::alloc::{AllocError, Global};

/// How many terms the conditions of a program may have.
pub const MOST_TERMS: u32 = 200_000;

// The fields of a record with the sorts of their values.
fn fields_of(
    alloc: Global,
    forms: &[TypeForm],
    fields: &[TypeField],
) -> Result<List<Field>, AllocError>
    ensures { IfOk result (λ made. made ≡ map (λ f. record { name = f.name; sort = sort_of forms.now f.of }) fields.now) }
{
    let mut made = Vec::new(alloc);
    for f in fields {
        made.push(Field {
            name: f.name,
            sort: sort_of(forms, f.of),
        })?;
    }
    Ok(List::from_vec(made))
}

fn shape_of_form(alloc: Global, forms: &[TypeForm], form: &TypeForm) -> Result<Shape, AllocError>
    ensures { IfOk result (λ shape. shape ≡ shape_of_form forms.now form.now) }
{
    match form {
        TypeForm::Integer => Ok(Shape::Int),
        TypeForm::Boolean => Ok(Shape::Bool),
        TypeForm::Range(_, _) => Ok(Shape::Int),
        TypeForm::Pointer(t) => Ok(Shape::Pointer(*t)),
        TypeForm::Array(_, element) => Ok(Shape::Array(sort_of(forms, *element))),
        TypeForm::Record(fields) => {
            Ok(Shape::Record(fields_of(alloc, forms, fields.as_slice())?))
        }
    }
}

fn shapes_of(alloc: Global, forms: &[TypeForm]) -> Result<Vec<Shape>, AllocError>
    ensures { IfOk result (λ made. made.items ≡ shapes_of forms.now) }
{
    let mut made = Vec::new(alloc);
    for form in forms {
        made.push(shape_of_form(alloc, forms, form)?)?;
    }
    Ok(made)
}

fn symbol_of(alloc: Global, symbol: &Decl) -> Result<Decl, AllocError>
    ensures { IfOk result (λ made. made ≡ symbol.now) }
{
    Ok(Decl {
        name: symbol.name,
        args: List::from_vec(Vec::from_slice(alloc, symbol.args.as_slice())?),
        result: symbol.result,
    })
}

fn symbols_of(alloc: Global, symbols: &[Decl]) -> Result<Vec<Decl>, AllocError>
    ensures { IfOk result (λ made. made.items ≡ symbols.now) }
{
    let mut made = Vec::new(alloc);
    for symbol in symbols {
        made.push(symbol_of(alloc, symbol)?)?;
    }
    Ok(made)
}

/// An arena for the terms of a program, in which none stands yet; it may have `MOST_TERMS` of them.
#[tactic(auto, using(crate::proofs::Symbols::symbols_may_stand, crate::proofs::Symbols::symbols_are_there))]
pub fn empty_arena(alloc: Global, program: &Program) -> Result<Terms, AllocError>
    requires { IsTrue (declarations_ok program.now) }
    ensures { IfOk result (λ terms. terms ≡ empty_arena program.now) }
{
    let shapes = Shapes::from_vec(shapes_of(alloc, program.forms.as_slice())?);
    let symbols = List::from_vec(symbols_of(alloc, program.symbols.as_slice())?);
    Ok(Terms::new(alloc, shapes, symbols, MOST_TERMS))
}

// An arena for the terms of rules.

ghost use Rattle.std.specs.Prelude.{◌≡◌, IfOk, IsTrue};
ghost use Rattle.spv_program.specs.Programs.{shapes};
ghost use Rattle.spv_program.specs.Typing.{declarations_ok};

use spv_conditions::empty_arena;
use spv_logic::list::List;
use spv_logic::{Decl, Shape};
use spv_program::typed::Program;
use spv_term::{Shapes, Terms};
use std::alloc::{AllocError, Global};

// The items of a slice as a list.
fn items<T: Copy + Drop>(alloc: Global, slice: &[T]) -> Result<List<T>, AllocError>
    ensures { IfOk result (λ list. list ≡ slice.now) }
{
    let mut copy = Vec::new(alloc);
    for item in slice {
        copy.push(*item)?;
    }
    Ok(List::from_vec(copy))
}

// The same shape once more.
fn shape_copy(alloc: Global, shape: &Shape) -> Result<Shape, AllocError>
    ensures { IfOk result (λ s. s ≡ shape.now) }
{
    match shape {
        Shape::Int => Ok(Shape::Int),
        Shape::Bool => Ok(Shape::Bool),
        Shape::Pointer(t) => Ok(Shape::Pointer(*t)),
        Shape::Array(sort) => Ok(Shape::Array(*sort)),
        Shape::Record(fields) => Ok(Shape::Record(items(alloc, fields.as_slice())?)),
    }
}

fn shapes_copy(alloc: Global, shapes: &Shapes) -> Result<Shapes, AllocError>
    ensures { IfOk result (λ s. s ≡ shapes.now) }
{
    shapes.law_shapes();
    let mut list = Vec::new(alloc);
    for shape in shapes.as_slice() {
        let copy = shape_copy(alloc, shape)?;
        list.push(copy)?;
    }
    Ok(Shapes::from_vec(list))
}

// The same symbol once more.
fn decl_copy(alloc: Global, decl: &Decl) -> Result<Decl, AllocError>
    ensures { IfOk result (λ d. d ≡ decl.now) }
{
    let args = items(alloc, decl.args.as_slice())?;
    Ok(Decl {
        name: decl.name,
        args,
        result: decl.result,
    })
}

fn decls_copy(alloc: Global, decls: &[Decl]) -> Result<List<Decl>, AllocError>
    ensures { IfOk result (λ list. list ≡ decls.now) }
{
    let mut list = Vec::new(alloc);
    for decl in decls {
        let copy = decl_copy(alloc, decl)?;
        list.push(copy)?;
    }
    Ok(List::from_vec(list))
}

/// An arena for the terms of rules over a program's types and symbols, in which none stands yet. The limit of a program's conditions is
/// not one of rules: as many terms as ids can name have their place, more than a rule file has bytes.
pub(crate) fn rule_arena(alloc: Global, program: &Program) -> Result<Terms, AllocError>
    requires { IsTrue (declarations_ok program.now) }
    ensures shapes { IfOk result (λ terms. terms.shapes ≡ shapes program.now) }
    ensures decls { IfOk result (λ terms. terms.decls ≡ program.now.symbols) }
{
    let own = empty_arena(alloc, program)?;
    own.law_arena();
    let shapes = shapes_copy(alloc, own.shapes())?;
    let decls = decls_copy(alloc, own.decls())?;
    Ok(Terms::new(alloc, shapes, decls, u32::MAX))
}

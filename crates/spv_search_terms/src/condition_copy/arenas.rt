// An arena without terms over the types and symbols of another one.

ghost use Rattle.std.specs.Prelude.{◌≡◌, IfOk};
ghost use Rattle.spv_search_terms.specs.condition_copy.Copies.{IsEmptyOver};

use spv_logic::list::List;
use spv_term::{Decl, Shape, Shapes, Terms};
use std::alloc::{AllocError, Global};

// The items of a slice as a list.
fn items<T: Copy + Drop>(alloc: Global, slice: &[T]) -> Result<List<T>, AllocError>
    ensures { IfOk result (λ list. list ≡ slice.now) }
{
    let mut copy = Vec::new(alloc);
    for item in slice {
        copy.push(*item)?;
    }
    Ok(List::from_vec(copy))
}

// The same shape once more.
fn shape_copy(alloc: Global, shape: &Shape) -> Result<Shape, AllocError>
    ensures { IfOk result (λ s. s ≡ shape.now) }
{
    match shape {
        Shape::Int => Ok(Shape::Int),
        Shape::Bool => Ok(Shape::Bool),
        Shape::Pointer(t) => Ok(Shape::Pointer(*t)),
        Shape::Array(sort) => Ok(Shape::Array(*sort)),
        Shape::Record(fields) => Ok(Shape::Record(items(alloc, fields.as_slice())?)),
    }
}

fn shapes_copy(alloc: Global, shapes: &Shapes) -> Result<Shapes, AllocError>
    ensures { IfOk result (λ s. s ≡ shapes.now) }
{
    shapes.law_shapes();
    let mut list = Vec::new(alloc);
    for shape in shapes.as_slice() {
        let copy = shape_copy(alloc, shape)?;
        list.push(copy)?;
    }
    Ok(Shapes::from_vec(list))
}

// The same symbol once more.
fn decl_copy(alloc: Global, decl: &Decl) -> Result<Decl, AllocError>
    ensures { IfOk result (λ d. d ≡ decl.now) }
{
    let args = items(alloc, decl.args.as_slice())?;
    Ok(Decl {
        name: decl.name,
        args,
        result: decl.result,
    })
}

fn decls_copy(alloc: Global, decls: &[Decl]) -> Result<List<Decl>, AllocError>
    ensures { IfOk result (λ list. list ≡ decls.now) }
{
    let mut list = Vec::new(alloc);
    for decl in decls {
        let copy = decl_copy(alloc, decl)?;
        list.push(copy)?;
    }
    Ok(List::from_vec(list))
}

/// The arena without terms, for at most `most` of them, over the types and symbols of another one.
pub(crate) fn empty(alloc: Global, terms: &Terms, most: u32) -> Result<Terms, AllocError>
    ensures { IfOk result (λ new. IsEmptyOver terms.now most new) }
{
    terms.law_arena();
    let shapes = shapes_copy(alloc, terms.shapes())?;
    let decls = decls_copy(alloc, terms.decls())?;
    Ok(Terms::new(alloc, shapes, decls, most))
}

//! The sort that a head gives.
ghost use Rattle.std.specs.Prelude.{◌≡◌, List, [], Some, IfSome, IfNone, nat_eq};
ghost use Rattle.std.specs.List.{find};
ghost use Rattle.std.specs.Option.{option_map};
ghost use Rattle.spv_logic.specs.declared.types.Sort.{Sort};
ghost use Rattle.spv_logic.specs.declared.types.Shape.TheVariants as shape;
ghost use Rattle.spv_logic.specs.Shapes as type_spec;
ghost use Rattle.spv_logic.specs.Sorts as spec;

use spv_logic::names::Symbol;
use spv_logic::{Decl, Field, Head, Shape, Sort, TypeId};

// The shape of a type, if it is there.
fn shape_at(shapes: &[Shape], t: TypeId) -> Option<&Shape>
    ensures there { IfSome result (λ s. type_spec.shape_at shapes.now t.0 ≡ s.now) }
    ensures missing { IfNone result (type_spec.shape_at shapes.now t.0 ≡ shape.Record []) }
{
    shapes.get(t.0 as usize)
}

// The sort of an array's elements.
fn element_sort(shapes: &[Shape], array: Sort) -> Option<Sort>
    ensures { result ≡ type_spec.element_sort shapes.now array }
{
    let Sort::Whole(t) = array else {
        return None;
    };
    match shape_at(shapes, t) {
        Some(Shape::Array(element)) => Some(*element),
        _ => None,
    }
}

// The sort of the field of this name.
fn field_sort(fields: &[Field], name: Symbol) -> Option<Sort>
    ensures { result ≡ option_map (λ f. f.sort) (find (λ f. nat_eq f.name.0 name.0) fields.now) }
{
    fields
        .iter()
        .find(|field| field.name == name)
        .map(|field| field.sort)
}

// The sort of a record's field of this name.
fn part_sort(shapes: &[Shape], record_sort: Sort, name: Symbol) -> Option<Sort>
    ensures { result ≡ type_spec.field_sort_of (type_spec.fields_of shapes.now record_sort) name.0 }
{
    let Sort::Whole(t) = record_sort else {
        return None;
    };
    match shape_at(shapes, t) {
        Some(Shape::Record(fields)) => field_sort(fields.as_slice(), name),
        _ => None,
    }
}

// The sort of the values of a type.
fn sort_of_type(shapes: &[Shape], t: TypeId) -> Sort
    ensures { result ≡ type_spec.sort_of_type shapes.now t }
{
    match shape_at(shapes, t) {
        Some(Shape::Int) => Sort::Int,
        Some(Shape::Bool) => Sort::Bool,
        Some(Shape::Pointer(u)) => Sort::Ptr(*u),
        _ => Sort::Whole(t),
    }
}

// The sort of the contents of a class.
fn content_sort(shapes: &[Shape], class: Sort) -> Option<Sort>
    ensures { result ≡ type_spec.content_sort shapes.now class }
{
    match class {
        Sort::Class(t) => Some(sort_of_type(shapes, t)),
        _ => None,
    }
}

// The sort of a symbol's result.
fn symbol_sort(decls: &[Decl], symbol: Symbol) -> Option<Sort>
    ensures { result ≡ option_map (λ d. d.result) (find (λ d. nat_eq d.name.0 symbol.0) decls.now) }
{
    decls
        .iter()
        .find(|decl| decl.name == symbol)
        .map(|decl| decl.result)
}

/// The sort of a head over arguments that fit it, of which `first` is the first one's sort. Of a head
/// without arguments, `first` is not looked at.
pub(crate) fn result_sort(shapes: &[Shape], decls: &[Decl], head: Head, first: Sort) -> Sort
    ensures { (given : List Sort) (s : Sort) → first ≡ spec.first_sort given
        → spec.result_sort shapes.now decls.now head given ≡ Some s → result ≡ s }
{
    match head {
        Head::Var(_, sort, _) => sort,
        Head::ClassVar(t, _) => Sort::Class(t),
        Head::Start(_, sort) => sort,
        Head::App(symbol) => symbol_sort(decls, symbol).unwrap_or(first),
        Head::Nil(t) => Sort::Ptr(t),
        Head::Num(_) | Head::Add | Head::Sub | Head::Mul | Head::Div | Head::Mod => Sort::Int,
        Head::Car | Head::Cdr | Head::Cons => Sort::List,
        Head::Eq | Head::Lt | Head::Le => Sort::Bool,
        Head::Not | Head::And | Head::Or | Head::Implies => Sort::Bool,
        Head::Atom | Head::PointerTo | Head::True | Head::False => Sort::Bool,
        Head::Select => element_sort(shapes, first).unwrap_or(first),
        Head::Field(name) => part_sort(shapes, first, name).unwrap_or(first),
        Head::Cell => content_sort(shapes, first).unwrap_or(first),
        Head::Store | Head::Put(_) => first,
        Head::SetCell | Head::Extend => first,
    }
}

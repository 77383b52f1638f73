// The sort that a head gives over arguments of some sorts, if they fit it.

ghost use Rattle.std.specs.Prelude.{◌≡◌, ◌∷◌, [], ◌&&◌, Some, IfSome, IfNone, option_map};
ghost use Rattle.spv_logic.specs.declared.types.Shape.TheVariants as shape;
ghost use Rattle.spv_logic.specs.declared.types.Sort.TheVariants as sort;
ghost use Rattle.spv_logic.specs.Shapes as type_spec;
ghost use Rattle.spv_logic.specs.Sorts as spec;
ghost use Rattle.spv_logic.specs.Terms.{sort_eq};
ghost use Rattle.spv_rechecking.specs.written_terms.Standing.{may_stand};

use spv_logic::names::Symbol;
use spv_logic::{Decl, Field, Head, Shape, Sort, TypeId};

// Whether two sorts are the same.
fn same_sort(left: Sort, right: Sort) -> bool
    ensures { result ≡ sort_eq left right }
{
    match left {
        Sort::Int => matches!(right, Sort::Int),
        Sort::Bool => matches!(right, Sort::Bool),
        Sort::List => matches!(right, Sort::List),
        Sort::Ptr(t) => match right {
            Sort::Ptr(u) => t.0 == u.0,
            _ => false,
        },
        Sort::Whole(t) => match right {
            Sort::Whole(u) => t.0 == u.0,
            _ => false,
        },
        Sort::Class(t) => match right {
            Sort::Class(u) => t.0 == u.0,
            _ => false,
        },
    }
}

// Whether two lists of sorts are the same.
fn same_sorts(left: &[Sort], right: &[Sort]) -> bool
    ensures { result ≡ spec.sorts_eq left.now right.now }
{
    if left.len() != right.len() {
        return false;
    }
    for i in 0..left.len() {
        if !same_sort(left[i], right[i]) {
            return false;
        }
    }
    true
}

// The result where the arguments have the wanted sorts.
fn takes(wanted: &[Sort], given: &[Sort], gives: Sort) -> Option<Sort>
    ensures { result ≡ spec.takes wanted.now given.now gives }
{
    if same_sorts(wanted, given) {
        return Some(gives);
    }
    None
}

// The first sort; of none, that of a number.
fn first_sort(given: &[Sort]) -> Sort
    ensures { result ≡ spec.first_sort given.now }
{
    match given {
        [] => Sort::Int,
        [first, ..] => *first,
    }
}

// The shape of a type, if it is there.
fn shape_at(shapes: &[Shape], t: TypeId) -> Option<&Shape>
    ensures there { IfSome result (λ s. type_spec.shape_at shapes.now t.0 ≡ s.now) }
    ensures missing { IfNone result (type_spec.shape_at shapes.now t.0 ≡ shape.Record []) }
{
    shapes.get(t.0 as usize)
}

// The sort of an array's elements.
fn element_sort(shapes: &[Shape], array: Sort) -> Option<Sort>
    ensures { result ≡ type_spec.element_sort shapes.now array }
{
    let Sort::Whole(t) = array else {
        return None;
    };
    match shape_at(shapes, t) {
        Some(Shape::Array(element)) => Some(*element),
        _ => None,
    }
}

// The sort of the field of this name.
fn field_sort(fields: &[Field], name: Symbol) -> Option<Sort>
    ensures { result ≡ type_spec.field_sort fields.now name.0 }
{
    for field in fields {
        if field.name.0 == name.0 {
            return Some(field.sort);
        }
    }
    None
}

// The sort of a record's field of this name.
fn part_sort(shapes: &[Shape], record_sort: Sort, name: Symbol) -> Option<Sort>
    ensures { result ≡ type_spec.field_sort_of (type_spec.fields_of shapes.now record_sort) name.0 }
{
    let Sort::Whole(t) = record_sort else {
        return None;
    };
    match shape_at(shapes, t) {
        Some(Shape::Record(fields)) => field_sort(fields.as_slice(), name),
        _ => None,
    }
}

// The sort of the values of a type.
fn sort_of_type(shapes: &[Shape], t: TypeId) -> Sort
    ensures { result ≡ type_spec.sort_of_type shapes.now t }
{
    match shape_at(shapes, t) {
        Some(Shape::Int) => Sort::Int,
        Some(Shape::Bool) => Sort::Bool,
        Some(Shape::Pointer(u)) => Sort::Ptr(*u),
        _ => Sort::Whole(t),
    }
}

// The declaration of a symbol.
fn declared(decls: &[Decl], symbol: Symbol) -> Option<&Decl>
    ensures { option_map (λ d. d.now) result ≡ spec.declared decls.now symbol.0 }
{
    for decl in decls {
        if decl.name.0 == symbol.0 {
            return Some(decl);
        }
    }
    None
}

// What a declared symbol gives.
fn symbol_sort(decls: &[Decl], symbol: Symbol, given: &[Sort]) -> Option<Sort>
    ensures { result ≡ spec.takes_declared (spec.declared decls.now symbol.0) given.now }
{
    match declared(decls, symbol) {
        Some(decl) => takes(decl.args.as_slice(), given, decl.result),
        None => None,
    }
}

// What SELECT gives.
fn select_sort(shapes: &[Shape], array: Sort, given: &[Sort]) -> Option<Sort>
    ensures { result ≡ spec.with_sort (type_spec.element_sort shapes.now array) (λ e. spec.takes (array ∷ sort.Int ∷ []) given.now e) }
{
    match element_sort(shapes, array) {
        Some(element) => takes(&[array, Sort::Int], given, element),
        None => None,
    }
}

// What STORE gives.
fn store_sort(shapes: &[Shape], array: Sort, given: &[Sort]) -> Option<Sort>
    ensures { result ≡ spec.with_sort (type_spec.element_sort shapes.now array) (λ e. spec.takes (array ∷ sort.Int ∷ e ∷ []) given.now array) }
{
    match element_sort(shapes, array) {
        Some(element) => takes(&[array, Sort::Int, element], given, array),
        None => None,
    }
}

// What FIELD gives.
fn part_given(shapes: &[Shape], record_sort: Sort, name: Symbol, given: &[Sort]) -> Option<Sort>
    ensures { result ≡ spec.with_sort (type_spec.field_sort_of (type_spec.fields_of shapes.now record_sort) name.0) (λ s. spec.takes (record_sort ∷ []) given.now s) }
{
    match part_sort(shapes, record_sort, name) {
        Some(part) => takes(&[record_sort], given, part),
        None => None,
    }
}

// What PUT gives.
fn put_sort(shapes: &[Shape], record_sort: Sort, name: Symbol, given: &[Sort]) -> Option<Sort>
    ensures { result ≡ spec.with_sort (type_spec.field_sort_of (type_spec.fields_of shapes.now record_sort) name.0) (λ s. spec.takes (record_sort ∷ s ∷ []) given.now record_sort) }
{
    match part_sort(shapes, record_sort, name) {
        Some(part) => takes(&[record_sort, part], given, record_sort),
        None => None,
    }
}

// What CELL gives.
fn cell_sort(shapes: &[Shape], class: Sort, given: &[Sort]) -> Option<Sort>
    ensures { result ≡ spec.with_sort (type_spec.content_sort shapes.now class) (λ s. spec.takes (class ∷ type_spec.pointer_sort class ∷ []) given.now s) }
{
    match class {
        Sort::Class(t) => takes(&[class, Sort::Ptr(t)], given, sort_of_type(shapes, t)),
        _ => None,
    }
}

// What a change of a class gives.
fn class_change(shapes: &[Shape], class: Sort, given: &[Sort]) -> Option<Sort>
    ensures { result ≡ spec.class_change shapes.now class given.now }
{
    match class {
        Sort::Class(t) => takes(
            &[class, Sort::Ptr(t), sort_of_type(shapes, t)],
            given,
            class,
        ),
        _ => None,
    }
}

// What POINTERTO gives.
fn membership(pointer: Sort, given: &[Sort]) -> Option<Sort>
    ensures { result ≡ spec.membership pointer given.now }
{
    match pointer {
        Sort::Ptr(t) => takes(&[pointer, Sort::Class(t)], given, Sort::Bool),
        _ => None,
    }
}

// What an operation on numbers gives.
fn arithmetic(given: &[Sort]) -> Option<Sort>
    ensures { result ≡ spec.arithmetic given.now }
{
    takes(&[Sort::Int, Sort::Int], given, Sort::Int)
}

// What a relation of numbers gives.
fn relation(given: &[Sort]) -> Option<Sort>
    ensures { result ≡ spec.relation given.now }
{
    takes(&[Sort::Int, Sort::Int], given, Sort::Bool)
}

// What a connective of two truth values gives.
fn connective(given: &[Sort]) -> Option<Sort>
    ensures { result ≡ spec.connective given.now }
{
    takes(&[Sort::Bool, Sort::Bool], given, Sort::Bool)
}

/// The sort of a head over arguments of these sorts; none where they do not fit it.
pub fn result_sort(shapes: &[Shape], decls: &[Decl], head: Head, given: &[Sort]) -> Option<Sort>
    ensures { result ≡ spec.result_sort shapes.now decls.now head given.now }
{
    let first = first_sort(given);
    match head {
        Head::Var(_, sort, _) => takes(&[], given, sort),
        Head::ClassVar(t, _) => takes(&[], given, Sort::Class(t)),
        Head::Start(_, sort) => takes(&[], given, sort),
        Head::Num(_) => takes(&[], given, Sort::Int),
        Head::App(symbol) => symbol_sort(decls, symbol, given),
        Head::Add | Head::Sub | Head::Mul | Head::Div | Head::Mod => arithmetic(given),
        Head::Eq => takes(&[first, first], given, Sort::Bool),
        Head::Lt | Head::Le => relation(given),
        Head::Not => takes(&[Sort::Bool], given, Sort::Bool),
        Head::And | Head::Or | Head::Implies => connective(given),
        Head::Select => select_sort(shapes, first, given),
        Head::Store => store_sort(shapes, first, given),
        Head::Field(name) => part_given(shapes, first, name, given),
        Head::Put(name) => put_sort(shapes, first, name, given),
        Head::Cell => cell_sort(shapes, first, given),
        Head::SetCell | Head::Extend => class_change(shapes, first, given),
        Head::PointerTo => membership(first, given),
        Head::Car | Head::Cdr => takes(&[Sort::List], given, Sort::List),
        Head::Cons => takes(&[Sort::List, Sort::List], given, Sort::List),
        Head::Atom => takes(&[Sort::List], given, Sort::Bool),
        Head::Nil(t) => takes(&[], given, Sort::Ptr(t)),
        Head::True | Head::False => takes(&[], given, Sort::Bool),
    }
}

// Whether the types that a sort names are there.
fn sort_in_range(shapes: &[Shape], sort: Sort) -> bool
    ensures { result ≡ spec.sort_in_range shapes.now sort }
{
    match sort {
        Sort::Ptr(t) => (t.0 as usize) < shapes.len(),
        Sort::Whole(t) => (t.0 as usize) < shapes.len(),
        Sort::Class(t) => (t.0 as usize) < shapes.len(),
        _ => true,
    }
}

// Whether the types that a head names are there.
fn head_in_range(shapes: &[Shape], head: Head) -> bool
    ensures { result ≡ spec.head_in_range shapes.now head }
{
    match head {
        Head::Var(_, sort, _) => sort_in_range(shapes, sort),
        Head::ClassVar(t, _) => (t.0 as usize) < shapes.len(),
        Head::Start(_, sort) => sort_in_range(shapes, sort),
        Head::Nil(t) => (t.0 as usize) < shapes.len(),
        _ => true,
    }
}

// Whether a numeral without its sign is below 2^127.
fn numeral_fits(head: Head) -> bool
    ensures { result ≡ spec.numeral_fits head }
{
    match head {
        Head::Num(number) => number.unsigned_abs() < 170141183460469231731687303715884105728,
        _ => true,
    }
}

/// Whether the types that a head names are there, and its number fits.
pub(crate) fn may_stand(shapes: &[Shape], head: Head) -> bool
    ensures { result ≡ may_stand shapes.now head }
{
    head_in_range(shapes, head) && numeral_fits(head)
}

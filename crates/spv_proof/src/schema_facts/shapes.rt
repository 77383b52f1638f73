//! Terms of the shapes that facts of schemas are about, where their sorts fit.

ghost use Rattle.std.specs.Prelude.{◌≡◌, ◌<◌, [], ◌∷◌, IfSome, IfNone, length, map, is_some, nat_eq};
ghost use Rattle.std.specs.List.{find};
ghost use Rattle.std.specs.Option.{option_map};
ghost use Rattle.spv_logic.specs.declared.names.names.Symbol.{Symbol};
ghost use Rattle.spv_logic.specs.declared.types.TypeId.{TypeId};
ghost use Rattle.spv_logic.specs.declared.types.Sort.TheVariants as sort;
ghost use Rattle.spv_logic.specs.declared.operators.Head.TheVariants as head;
ghost use Rattle.spv_logic.specs.Terms.{Term, head_eq, sort_eq};
ghost use Rattle.spv_logic.specs.Shapes.{field_sort_of, fields_of};
ghost use Rattle.spv_schemas.specs.Facts.{two, three, about_store, about_set_cell, about_extend};
ghost use Rattle.spv_term.specs.Arena.{Arena, AllBelow, IsArena, sort_at, tree, trees};
ghost use Rattle.spv_proof.specs.schema_facts.Shapes.{AreTwo, AreThree, IsChange, IsFieldChange, IsPair, IsFitting, index_fits, pointer_fits};

use crate::schema_facts::facts::{Change, FieldChange, Pair};
use crate::sums::is_number;
use spv_logic::names::Symbol;
use spv_logic::{Field, Head, Shape, Sort, TypeId};
use spv_term::{TermId, Terms};

/// Whether two heads are the same.
pub(crate) fn same_head(left: Head, right: Head) -> bool
    ensures { result ≡ head_eq left right }
{
    left == right
}

/// Two ids, if there are two.
pub(crate) fn two(ids: &[TermId]) -> Option<(TermId, TermId)>
    ensures there { IfSome result (λ p. ids.now ≡ p.0 ∷ p.1 ∷ []) }
    ensures missing { IfNone result (length ids.now ≡ 2 → ⊥) }
{
    match ids {
        [first, second] => Some((*first, *second)),
        _ => None,
    }
}

// Three ids, if there are three.
fn three(ids: &[TermId]) -> Option<(TermId, TermId, TermId)>
    ensures there { IfSome result (λ p. ids.now ≡ p.0 ∷ p.1 ∷ p.2 ∷ []) }
    ensures missing { IfNone result (length ids.now ≡ 3 → ⊥) }
{
    match ids {
        [first, second, third] => Some((*first, *second, *third)),
        _ => None,
    }
}

// What a term of this head is made of, if it has two arguments.
fn two_parts(terms: &Terms, head: Head, t: TermId) -> Option<(TermId, TermId)>
    requires { t.0 < length terms.now.nodes }
    ensures there { IfSome result (AreTwo terms.now head t) }
    ensures missing { IfNone result ((x : Term) → (y : Term) → tree terms.now t ≡ two head x y → ⊥) }
{
    terms.law_arena();
    let node = terms.node(t);
    if !same_head(node.head, head) {
        return None;
    }
    two(node.args.as_slice())
}

// The same, if it has three.
fn three_parts(terms: &Terms, head: Head, t: TermId) -> Option<(TermId, TermId, TermId)>
    requires { t.0 < length terms.now.nodes }
    ensures there { IfSome result (AreThree terms.now head t) }
    ensures missing { IfNone result
        ((x : Term) → (y : Term) → (z : Term) → tree terms.now t ≡ three head x y z → ⊥) }
{
    terms.law_arena();
    let node = terms.node(t);
    if !same_head(node.head, head) {
        return None;
    }
    three(node.args.as_slice())
}

// An array or a class that is changed by this head, and another place.
fn changed(terms: &Terms, head: Head, ts: &[TermId]) -> Option<Change>
    requires { AllBelow (length terms.now.nodes) ts.now }
    ensures there { IfSome result (IsChange terms.now head) }
    ensures terms { IfSome result (λ c. ts.now ≡ c.whole ∷ c.other ∷ []) }
    ensures missing { IfNone result ((x : Term) → (y : Term) → (z : Term) → (w : Term)
        → map (tree terms.now) ts.now ≡ three head x y z ∷ w ∷ [] → ⊥) }
{
    let (whole, other) = two(ts)?;
    let (base, place, value) = three_parts(terms, head, whole)?;
    Some(Change {
        whole,
        base,
        place,
        value,
        other,
    })
}

// Whether a sort is that of the pointers to this type.
fn is_pointer_to(class: TypeId, pointer: Sort) -> bool
    ensures { result ≡ sort_eq (sort.Ptr class) pointer }
{
    match pointer {
        Sort::Ptr(t) => t == class,
        _ => false,
    }
}

// Whether a term is a pointer of a class.
fn is_pointer_of(terms: &Terms, class: TermId, pointer: TermId) -> bool
    requires class { class.0 < length terms.now.nodes }
    requires pointer { pointer.0 < length terms.now.nodes }
    ensures { (t : TypeId) → sort_at terms.now class ≡ sort.Class t
        → result ≡ sort_eq (sort.Ptr t) (sort_at terms.now pointer) }
{
    match terms.sort(class) {
        Sort::Class(t) => is_pointer_to(t, terms.sort(pointer)),
        _ => false,
    }
}

/// An array with a value at an index, and an index.
pub(crate) fn stored(terms: &Terms, ts: &[TermId]) -> Option<Change>
    requires { AllBelow (length terms.now.nodes) ts.now }
    ensures { IsFitting terms.now head.Store about_store index_fits (map (tree terms.now) ts.now) result }
{
    terms.law_arena();
    let change = changed(terms, Head::Store, ts)?;
    if is_number(terms, change.other) {
        Some(change)
    } else {
        None
    }
}

/// A class with a content at a pointer, and a pointer of it.
pub(crate) fn set(terms: &Terms, ts: &[TermId]) -> Option<Change>
    requires { AllBelow (length terms.now.nodes) ts.now }
    ensures { IsFitting terms.now head.SetCell about_set_cell pointer_fits (map (tree terms.now) ts.now) result }
{
    terms.law_arena();
    let change = changed(terms, Head::SetCell, ts)?;
    if is_pointer_of(terms, change.whole, change.other) {
        Some(change)
    } else {
        None
    }
}

/// A class with one member more, and a pointer of it.
pub(crate) fn extended(terms: &Terms, ts: &[TermId]) -> Option<Change>
    requires { AllBelow (length terms.now.nodes) ts.now }
    ensures { IsFitting terms.now head.Extend about_extend pointer_fits (map (tree terms.now) ts.now) result }
{
    terms.law_arena();
    let change = changed(terms, Head::Extend, ts)?;
    if is_pointer_of(terms, change.whole, change.other) {
        Some(change)
    } else {
        None
    }
}

/// The only one of some ids.
pub(crate) fn single(ids: &[TermId]) -> Option<TermId>
    ensures there { IfSome result (λ t. ids.now ≡ t ∷ []) }
    ensures missing { IfNone result (length ids.now ≡ 1 → ⊥) }
{
    match ids {
        [t] => Some(*t),
        _ => None,
    }
}

// The field that a term changes.
fn put_field(terms: &Terms, t: TermId) -> Option<Symbol>
    requires { t.0 < length terms.now.nodes }
    ensures field { IfSome result (λ f. (g : Symbol) → (x : Term) → (y : Term)
        → tree terms.now t ≡ two (head.Put g) x y → g ≡ f) }
    ensures missing { IfNone result ((g : Symbol) → (x : Term) → (y : Term)
        → tree terms.now t ≡ two (head.Put g) x y → ⊥) }
{
    terms.law_arena();
    match terms.node(t).head {
        Head::Put(field) => Some(field),
        _ => None,
    }
}

/// A record with a value in a field.
pub(crate) fn put(terms: &Terms, ts: &[TermId]) -> Option<FieldChange>
    requires { AllBelow (length terms.now.nodes) ts.now }
    ensures there { IfSome result (IsFieldChange terms.now) }
    ensures terms { IfSome result (λ c. ts.now ≡ c.whole ∷ []) }
    ensures missing { IfNone result ((f : Symbol) → (x : Term) → (y : Term)
        → map (tree terms.now) ts.now ≡ two (head.Put f) x y ∷ [] → ⊥) }
{
    let whole = single(ts)?;
    let field = put_field(terms, whole)?;
    let (base, value) = two_parts(terms, Head::Put(field), whole)?;
    Some(FieldChange {
        whole,
        field,
        base,
        value,
    })
}

/// A pair.
pub(crate) fn cons(terms: &Terms, ts: &[TermId]) -> Option<Pair>
    requires { AllBelow (length terms.now.nodes) ts.now }
    ensures there { IfSome result (IsPair terms.now) }
    ensures terms { IfSome result (λ p. ts.now ≡ p.whole ∷ []) }
    ensures missing { IfNone result ((x : Term) → (y : Term)
        → map (tree terms.now) ts.now ≡ two head.Cons x y ∷ [] → ⊥) }
{
    let whole = single(ts)?;
    let (first, second) = two_parts(terms, Head::Cons, whole)?;
    Some(Pair {
        whole,
        first,
        second,
    })
}

/// A list.
pub(crate) fn list(terms: &Terms, ts: &[TermId]) -> Option<TermId>
    requires { AllBelow (length terms.now.nodes) ts.now }
    ensures there { IfSome result (λ t. (ts.now ≡ t ∷ []) × (t.0 < length terms.now.nodes) × (sort_at terms.now t ≡ sort.List)) }
    ensures missing { IfNone result ((t : TermId) → ts.now ≡ t ∷ [] → sort_at terms.now t ≡ sort.List → ⊥) }
{
    let t = single(ts)?;
    match terms.sort(t) {
        Sort::List => Some(t),
        _ => None,
    }
}

/// A class and its type.
pub(crate) fn class(terms: &Terms, ts: &[TermId]) -> Option<(TermId, TypeId)>
    requires { AllBelow (length terms.now.nodes) ts.now }
    ensures there { IfSome result (λ p. (ts.now ≡ p.0 ∷ []) × (p.0.0 < length terms.now.nodes) × (sort_at terms.now p.0 ≡ sort.Class p.1)) }
    ensures missing { IfNone result ((t : TermId) → (k : TypeId) → ts.now ≡ t ∷ [] → sort_at terms.now t ≡ sort.Class k → ⊥) }
{
    let t = single(ts)?;
    match terms.sort(t) {
        Sort::Class(k) => Some((t, k)),
        _ => None,
    }
}

// The sort of the field of this name.
fn field_sort(fields: &[Field], name: Symbol) -> Option<Sort>
    ensures { result ≡ option_map (λ f. f.sort) (find (λ f. nat_eq f.name.0 name.0) fields.now) }
{
    fields
        .iter()
        .find(|field| field.name == name)
        .map(|field| field.sort)
}

/// Whether a record has a field of this name.
pub(crate) fn has_field(terms: &Terms, whole: TermId, name: Symbol) -> bool
    requires { whole.0 < length terms.now.nodes }
    ensures { result ≡ is_some (field_sort_of (fields_of terms.now.shapes (sort_at terms.now whole)) name.0) }
{
    terms.law_arena();
    match terms.sort(whole) {
        Sort::Whole(t) => match terms.shapes().get(t) {
            Shape::Record(fields) => field_sort(fields.as_slice(), name).is_some(),
            _ => false,
        },
        _ => false,
    }
}

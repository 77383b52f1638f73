//! Which terms used terms put together.

ghost use Rattle.std.specs.Prelude.{◌≡◌, ◌<◌, ◌&&◌, ℕ, List, [], ◌∷◌, IfOk, IfSome, IfNone, length, drop};
ghost use Rattle.spv_logic.specs.declared.types.Sort.TheVariants as sort;
ghost use Rattle.spv_logic.specs.Terms.{sort_eq};
ghost use Rattle.spv_atoms.specs.Order.{same_id};
ghost use Rattle.spv_logic.specs.declared.conditions.TermId.{TermId};
ghost use Rattle.spv_term.specs.Arena.{AllBelow, IsArena, sort_at};
ghost use Rattle.spv_proof.specs.declared.schema_facts.relations.Relation.TheVariants as relation;
ghost use Rattle.spv_proof.specs.schema_facts.Groups.{OnceEach};
ghost use Rattle.spv_proof.specs.schema_facts.Relations.{Tells, TellsAll, IsDivision, IsTable, divides, is_array_head, is_class_head, is_list_head, is_membership_head, says};

use crate::schema_facts::groups::{Groups, Link, Links, grouped};
use crate::schema_facts::shapes::{single, two};
use spv_logic::{Head, Sort};
use spv_term::{TermId, Terms};
use std::alloc::{AllocError, Global};

/// What a used term puts together.
#[derive(Clone, Copy, Debug)]
pub(crate) enum Relation {
    /// The type of an array that it reads or changes, and the index.
    Indices,
    /// The type of a class that it reads or changes, or asks for a member, and the pointer.
    Pointers,
    /// A number, and what it is divided by.
    Divisors,
    /// The same where it is the quotient.
    Quotients,
    /// The same where it is the remainder.
    Remainders,
    /// A list that it takes apart, or asks whether that is an atom, and the list itself.
    Lists,
}

// The first two of some ids.
fn first_two(ids: &[TermId]) -> Option<(TermId, TermId)>
    ensures there { IfSome result (λ p. ids.now ≡ p.0 ∷ p.1 ∷ drop 2 ids.now) }
    ensures missing { IfNone result (length ids.now < 2) }
{
    match ids {
        [first, second, ..] => Some((*first, *second)),
        _ => None,
    }
}

// Whether a term with this head is about an array, and then about an index.
fn is_about_array(head: Head) -> bool
    ensures { result ≡ is_array_head head }
{
    matches!(head, Head::Select | Head::Store)
}

// Whether a term with this head is about a class, and then about a pointer.
fn is_about_class(head: Head) -> bool
    ensures { result ≡ is_class_head head }
{
    matches!(head, Head::Cell | Head::SetCell | Head::Extend)
}

// Whether a term with this head is about a pointer, and then about a class.
fn is_membership(head: Head) -> bool
    ensures { result ≡ is_membership_head head }
{
    matches!(head, Head::PointerTo)
}

// Whether a term with this head divides so.
fn is_division(relation: Relation, head: Head) -> bool
    ensures { result ≡ divides relation head }
{
    match relation {
        Relation::Divisors => matches!(head, Head::Div | Head::Mod),
        Relation::Quotients => matches!(head, Head::Div),
        Relation::Remainders => matches!(head, Head::Mod),
        _ => false,
    }
}

// An index with the type of an array.
fn array_link(terms: &Terms, array: TermId, member: TermId) -> Option<Link>
    requires { array.0 < length terms.now.nodes }
    ensures { (q : ℕ) (t : TermId) → says result q t
        ≡ (sort_eq (sort_at terms.now array) (sort.Whole (record { 0 = q })) && same_id member t) }
{
    match terms.sort(array) {
        Sort::Whole(t) => Some(Link { key: t.0, member }),
        _ => None,
    }
}

// A pointer with the type of a class.
fn class_link(terms: &Terms, class: TermId, member: TermId) -> Option<Link>
    requires { class.0 < length terms.now.nodes }
    ensures { (q : ℕ) (t : TermId) → says result q t
        ≡ (sort_eq (sort_at terms.now class) (sort.Class (record { 0 = q })) && same_id member t) }
{
    match terms.sort(class) {
        Sort::Class(t) => Some(Link { key: t.0, member }),
        _ => None,
    }
}

// An index with the type of the array that a term reads or changes there.
fn indexed(terms: &Terms, u: TermId) -> Option<Link>
    requires { u.0 < length terms.now.nodes }
    ensures { Tells terms.now relation.Indices u result }
{
    terms.law_arena();
    let node = terms.node(u);
    if !is_about_array(node.head) {
        return None;
    }
    let (array, index) = first_two(node.args.as_slice())?;
    array_link(terms, array, index)
}

// A pointer with the type of the class that a term reads or changes there, or asks for it.
fn pointed(terms: &Terms, u: TermId) -> Option<Link>
    requires { u.0 < length terms.now.nodes }
    ensures { Tells terms.now relation.Pointers u result }
{
    terms.law_arena();
    let node = terms.node(u);
    if is_about_class(node.head) {
        let (class, pointer) = first_two(node.args.as_slice())?;
        return class_link(terms, class, pointer);
    }
    if is_membership(node.head) {
        let (pointer, class) = first_two(node.args.as_slice())?;
        return class_link(terms, class, pointer);
    }
    None
}

// What a number is divided by, with that number.
fn divided_by(terms: &Terms, relation: Relation, u: TermId) -> Option<Link>
    requires u { u.0 < length terms.now.nodes }
    requires relation { IsDivision relation }
    ensures { Tells terms.now relation u result }
{
    terms.law_arena();
    let node = terms.node(u);
    if !is_division(relation, node.head) {
        return None;
    }
    let (dividend, member) = two(node.args.as_slice())?;
    Some(Link {
        key: dividend.0,
        member,
    })
}

// Whether a term with this head is about a list.
fn is_about_list(head: Head) -> bool
    ensures { result ≡ is_list_head head }
{
    matches!(head, Head::Car | Head::Cdr | Head::Atom)
}

// A list that is taken apart.
fn taken_apart(terms: &Terms, u: TermId) -> Option<Link>
    requires { u.0 < length terms.now.nodes }
    ensures { Tells terms.now relation.Lists u result }
{
    terms.law_arena();
    let node = terms.node(u);
    if !is_about_list(node.head) {
        return None;
    }
    let member = single(node.args.as_slice())?;
    Some(Link {
        key: member.0,
        member,
    })
}

// What a term puts together.
fn link(terms: &Terms, relation: Relation, u: TermId) -> Option<Link>
    requires { u.0 < length terms.now.nodes }
    ensures { Tells terms.now relation u result }
{
    match relation {
        Relation::Indices => indexed(terms, u),
        Relation::Pointers => pointed(terms, u),
        Relation::Divisors | Relation::Quotients | Relation::Remainders => {
            divided_by(terms, relation, u)
        }
        Relation::Lists => taken_apart(terms, u),
    }
}

/// What used terms put together.
pub(crate) fn links(
    alloc: Global,
    terms: &Terms,
    used: &[TermId],
    relation: Relation,
) -> Result<Links, AllocError>
    requires { AllBelow (length terms.now.nodes) used.now }
    ensures once { IfOk result OnceEach }
    ensures all { IfOk result (λ links. TellsAll terms.now relation used.now links) }
{
    let mut links = Links::new(alloc);
    for u in used {
        if let Some(link) = link(terms, relation, *u) {
            links.put(link)?;
        }
    }
    Ok(links)
}

/// The used terms that used terms put together with a number, in their order.
pub(crate) fn table(
    alloc: Global,
    terms: &Terms,
    used: &[TermId],
    relation: Relation,
) -> Result<Groups, AllocError>
    requires { AllBelow (length terms.now.nodes) used.now }
    ensures { IfOk result (IsTable terms.now used.now relation) }
{
    let links = links(alloc, terms, used, relation)?;
    grouped(alloc, used, &links)
}

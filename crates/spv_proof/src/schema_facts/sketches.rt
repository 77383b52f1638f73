//! The pieces of facts.

ghost use Rattle.std.specs.Prelude.{◌≡◌, IfOk};
ghost use Rattle.spv_proof.specs.schema_facts.Sketches as spec;

use crate::schema_facts::facts::{Change, Division, NumeralDivision, SchemaFact};
use spv_logic::{Head, TypeId};
use spv_rules::making::Piece;
use spv_rules::making::Piece::{Known, Over};
use spv_term::TermId;
use std::alloc::{AllocError, Global};

// What stands at the other place, if it is the one where the change was.
fn same_place(alloc: Global, read: Head, c: Change) -> Result<Vec<Piece>, AllocError>
    ensures { IfOk result (λ v. v.items ≡ spec.same_place read c) }
{
    Ok(vec![in alloc;
        Known(c.place),
        Known(c.other),
        Over(Head::Eq, 2),
        Known(c.whole),
        Known(c.other),
        Over(read, 2),
        Known(c.value),
        Over(Head::Eq, 2),
        Over(Head::Implies, 2),
    ]?)
}

// What stands there, if it is not.
fn other_place(alloc: Global, read: Head, c: Change) -> Result<Vec<Piece>, AllocError>
    ensures { IfOk result (λ v. v.items ≡ spec.other_place read c) }
{
    Ok(vec![in alloc;
        Known(c.place),
        Known(c.other),
        Over(Head::Eq, 2),
        Over(Head::Not, 1),
        Known(c.whole),
        Known(c.other),
        Over(read, 2),
        Known(c.base),
        Known(c.other),
        Over(read, 2),
        Over(Head::Eq, 2),
        Over(Head::Implies, 2),
    ]?)
}

// That a changed class has the members that it had.
fn members_stay(alloc: Global, c: Change) -> Result<Vec<Piece>, AllocError>
    ensures { IfOk result (λ v. v.items ≡ spec.members_stay c) }
{
    Ok(vec![in alloc;
        Known(c.other),
        Known(c.whole),
        Over(Head::PointerTo, 2),
        Known(c.other),
        Known(c.base),
        Over(Head::PointerTo, 2),
        Over(Head::Eq, 2),
    ]?)
}

// That it has one member more, where that is not NIL.
fn members_extended(alloc: Global, class: TypeId, c: Change) -> Result<Vec<Piece>, AllocError>
    ensures { IfOk result (λ v. v.items ≡ spec.members_extended class c) }
{
    Ok(vec![in alloc;
        Known(c.place),
        Over(Head::Nil(class), 0),
        Over(Head::Eq, 2),
        Over(Head::Not, 1),
        Known(c.other),
        Known(c.whole),
        Over(Head::PointerTo, 2),
        Known(c.place),
        Known(c.other),
        Over(Head::Eq, 2),
        Known(c.other),
        Known(c.base),
        Over(Head::PointerTo, 2),
        Over(Head::Or, 2),
        Over(Head::Eq, 2),
        Over(Head::Implies, 2),
    ]?)
}

// That NIL is no member of a class.
fn nil_is_no_member(alloc: Global, class: TypeId, c: TermId) -> Result<Vec<Piece>, AllocError>
    ensures { IfOk result (λ v. v.items ≡ spec.nil_is_no_member class c) }
{
    Ok(vec![in alloc;
        Over(Head::Nil(class), 0),
        Known(c),
        Over(Head::PointerTo, 2),
        Over(Head::Not, 1),
    ]?)
}

// What a part of a term is.
fn part_is(
    alloc: Global,
    part: Head,
    whole: TermId,
    value: TermId,
) -> Result<Vec<Piece>, AllocError>
    ensures { IfOk result (λ v. v.items ≡ spec.part_is part whole value) }
{
    Ok(vec![in alloc;
        Known(whole),
        Over(part, 1),
        Known(value),
        Over(Head::Eq, 2),
    ]?)
}

// That two terms have the same part.
fn same_part(
    alloc: Global,
    part: Head,
    whole: TermId,
    base: TermId,
) -> Result<Vec<Piece>, AllocError>
    ensures { IfOk result (λ v. v.items ≡ spec.same_part part whole base) }
{
    Ok(vec![in alloc;
        Known(whole),
        Over(part, 1),
        Known(base),
        Over(part, 1),
        Over(Head::Eq, 2),
    ]?)
}

// That a pair is no atom.
fn no_atom(alloc: Global, pair: TermId) -> Result<Vec<Piece>, AllocError>
    ensures { IfOk result (λ v. v.items ≡ spec.no_atom pair) }
{
    Ok(vec![in alloc; Known(pair), Over(Head::Atom, 1), Over(Head::Not, 1)]?)
}

// That a list that is no atom is the pair of its parts.
fn pair_of_parts(alloc: Global, x: TermId) -> Result<Vec<Piece>, AllocError>
    ensures { IfOk result (λ v. v.items ≡ spec.pair_of_parts x) }
{
    Ok(vec![in alloc;
        Known(x),
        Over(Head::Atom, 1),
        Over(Head::Not, 1),
        Known(x),
        Over(Head::Car, 1),
        Known(x),
        Over(Head::Cdr, 1),
        Over(Head::Cons, 2),
        Known(x),
        Over(Head::Eq, 2),
        Over(Head::Implies, 2),
    ]?)
}

// That a number is the divisor times the quotient, and the remainder.
fn dividend(alloc: Global, d: Division) -> Result<Vec<Piece>, AllocError>
    ensures { IfOk result (λ v. v.items ≡ spec.dividend d) }
{
    Ok(vec![in alloc;
        Known(d.dividend),
        Known(d.divisor),
        Known(d.dividend),
        Known(d.divisor),
        Over(Head::Div, 2),
        Over(Head::Mul, 2),
        Known(d.dividend),
        Known(d.divisor),
        Over(Head::Mod, 2),
        Over(Head::Add, 2),
        Over(Head::Eq, 2),
    ]?)
}

// Where the remainder of a number lies that is not negative.
fn remainder_above(alloc: Global, d: Division) -> Result<Vec<Piece>, AllocError>
    ensures { IfOk result (λ v. v.items ≡ spec.remainder_above d) }
{
    Ok(vec![in alloc;
        Over(Head::Num(0), 0),
        Known(d.dividend),
        Over(Head::Le, 2),
        Over(Head::Num(0), 0),
        Known(d.dividend),
        Known(d.divisor),
        Over(Head::Mod, 2),
        Over(Head::Le, 2),
        Known(d.dividend),
        Known(d.divisor),
        Over(Head::Mod, 2),
        Over(Head::Num(d.greatest), 0),
        Over(Head::Le, 2),
        Over(Head::And, 2),
        Over(Head::Implies, 2),
    ]?)
}

// Where that of a number lies that is not positive.
fn remainder_below(alloc: Global, d: Division) -> Result<Vec<Piece>, AllocError>
    ensures { IfOk result (λ v. v.items ≡ spec.remainder_below d) }
{
    Ok(vec![in alloc;
        Known(d.dividend),
        Over(Head::Num(0), 0),
        Over(Head::Le, 2),
        Over(Head::Num(d.least), 0),
        Known(d.dividend),
        Known(d.divisor),
        Over(Head::Mod, 2),
        Over(Head::Le, 2),
        Known(d.dividend),
        Known(d.divisor),
        Over(Head::Mod, 2),
        Over(Head::Num(0), 0),
        Over(Head::Le, 2),
        Over(Head::And, 2),
        Over(Head::Implies, 2),
    ]?)
}

// What the quotient of numerals is.
fn quotient_is(alloc: Global, d: NumeralDivision) -> Result<Vec<Piece>, AllocError>
    ensures { IfOk result (λ v. v.items ≡ spec.quotient_is d) }
{
    Ok(vec![in alloc;
        Known(d.dividend),
        Known(d.divisor),
        Over(Head::Div, 2),
        Over(Head::Num(d.quotient), 0),
        Over(Head::Eq, 2),
    ]?)
}

// What their remainder is.
fn remainder_is(alloc: Global, d: NumeralDivision) -> Result<Vec<Piece>, AllocError>
    ensures { IfOk result (λ v. v.items ≡ spec.remainder_is d) }
{
    Ok(vec![in alloc;
        Known(d.dividend),
        Known(d.divisor),
        Over(Head::Mod, 2),
        Over(Head::Num(d.remainder), 0),
        Over(Head::Eq, 2),
    ]?)
}

/// The pieces of the term that a fact is.
pub(crate) fn sketch(alloc: Global, fact: SchemaFact) -> Result<Vec<Piece>, AllocError>
    ensures { IfOk result (λ v. v.items ≡ spec.sketch fact) }
{
    match fact {
        SchemaFact::SamePlace(read, c) => same_place(alloc, read, c),
        SchemaFact::OtherPlace(read, c) => other_place(alloc, read, c),
        SchemaFact::MembersStay(c) => members_stay(alloc, c),
        SchemaFact::MembersExtended(class, c) => members_extended(alloc, class, c),
        SchemaFact::NilIsNoMember(class, c) => nil_is_no_member(alloc, class, c),
        SchemaFact::PartIs(part, whole, value) => part_is(alloc, part, whole, value),
        SchemaFact::SamePart(part, whole, base) => same_part(alloc, part, whole, base),
        SchemaFact::NoAtom(pair) => no_atom(alloc, pair),
        SchemaFact::PairOfParts(x) => pair_of_parts(alloc, x),
        SchemaFact::Dividend(d) => dividend(alloc, d),
        SchemaFact::RemainderAbove(d) => remainder_above(alloc, d),
        SchemaFact::RemainderBelow(d) => remainder_below(alloc, d),
        SchemaFact::QuotientIs(d) => quotient_is(alloc, d),
        SchemaFact::RemainderIs(d) => remainder_is(alloc, d),
    }
}

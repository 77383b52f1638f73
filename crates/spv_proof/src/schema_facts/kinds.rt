//! Facts by their kinds.

ghost use Rattle.std.specs.Prelude.{◌≡◌, None, Some, length, map};
ghost use Rattle.spv_schemas.specs.Kinds.{kind_of_number};
ghost use Rattle.spv_schemas.specs.declared.kinds.SchemaKind.TheVariants.{FieldPutOther, PointerToExtend, PointerToNil, ConsCarCdr};
ghost use Rattle.spv_term.specs.Arena.{AllBelow, IsArena, tree};
ghost use Rattle.spv_proof.specs.schema_facts.Facts.{IsSaid};
ghost use Rattle.spv_proof.specs.schema_facts.Kinds.{fitting};

use crate::schema_facts::divisions::{divided, numerals};
use crate::schema_facts::facts::SchemaFact;
use crate::schema_facts::shapes::{class, cons, extended, has_field, list, put, set, stored};
use spv_logic::names::Symbol;
use spv_logic::{Head, Sort};
use spv_schemas::SchemaKind;
use spv_term::{TermId, Terms};

/// The kind of a number.
pub(crate) fn kind_of(number: u8) -> Option<SchemaKind>
    ensures { result ≡ kind_of_number number }
{
    match number {
        1 => Some(SchemaKind::SelectStoreSame),
        2 => Some(SchemaKind::SelectStoreOther),
        3 => Some(SchemaKind::FieldPutSame),
        4 => Some(SchemaKind::FieldPutOther),
        5 => Some(SchemaKind::CellSetCellSame),
        6 => Some(SchemaKind::CellSetCellOther),
        7 => Some(SchemaKind::PointerToSetCell),
        8 => Some(SchemaKind::CellExtendSame),
        9 => Some(SchemaKind::CellExtendOther),
        10 => Some(SchemaKind::PointerToExtend),
        11 => Some(SchemaKind::PointerToNil),
        12 => Some(SchemaKind::CarCons),
        13 => Some(SchemaKind::CdrCons),
        14 => Some(SchemaKind::AtomCons),
        15 => Some(SchemaKind::ConsCarCdr),
        16 => Some(SchemaKind::DivMod),
        17 => Some(SchemaKind::ModOfNonNegative),
        18 => Some(SchemaKind::ModOfNonPositive),
        19 => Some(SchemaKind::DivOfNumerals),
        20 => Some(SchemaKind::ModOfNumerals),
        _ => None,
    }
}

// That a class has one member more, where that is not NIL.
fn members_extended(terms: &Terms, ts: &[TermId]) -> Option<SchemaFact>
    requires { AllBelow (length terms.now.nodes) ts.now }
    ensures { IsSaid terms.now (fitting terms.now PointerToExtend (map (tree terms.now) ts.now) None) result }
{
    terms.law_arena();
    let change = extended(terms, ts)?;
    match terms.sort(change.base) {
        Sort::Class(t) => Some(SchemaFact::MembersExtended(t, change)),
        _ => unreachable!(),
    }
}

// That NIL is no member of a class.
fn nil_is_no_member(terms: &Terms, ts: &[TermId]) -> Option<SchemaFact>
    requires { AllBelow (length terms.now.nodes) ts.now }
    ensures { IsSaid terms.now (fitting terms.now PointerToNil (map (tree terms.now) ts.now) None) result }
{
    terms.law_arena();
    let (c, t) = class(terms, ts)?;
    Some(SchemaFact::NilIsNoMember(t, c))
}

// That a list that is no atom is the pair of its parts.
fn pair_of_parts(terms: &Terms, ts: &[TermId]) -> Option<SchemaFact>
    requires { AllBelow (length terms.now.nodes) ts.now }
    ensures { IsSaid terms.now (fitting terms.now ConsCarCdr (map (tree terms.now) ts.now) None) result }
{
    terms.law_arena();
    let x = list(terms, ts)?;
    Some(SchemaFact::PairOfParts(x))
}

// The fact of a kind that names no field.
fn without_field(terms: &Terms, kind: SchemaKind, ts: &[TermId]) -> Option<SchemaFact>
    requires { AllBelow (length terms.now.nodes) ts.now }
    ensures { IsSaid terms.now (fitting terms.now kind (map (tree terms.now) ts.now) None) result }
{
    terms.law_arena();
    match kind {
        SchemaKind::SelectStoreSame => {
            Some(SchemaFact::SamePlace(Head::Select, stored(terms, ts)?))
        }
        SchemaKind::SelectStoreOther => {
            Some(SchemaFact::OtherPlace(Head::Select, stored(terms, ts)?))
        }
        SchemaKind::FieldPutSame => {
            let c = put(terms, ts)?;
            Some(SchemaFact::PartIs(Head::Field(c.field), c.whole, c.value))
        }
        SchemaKind::FieldPutOther => None,
        SchemaKind::CellSetCellSame => Some(SchemaFact::SamePlace(Head::Cell, set(terms, ts)?)),
        SchemaKind::CellSetCellOther => Some(SchemaFact::OtherPlace(Head::Cell, set(terms, ts)?)),
        SchemaKind::PointerToSetCell => Some(SchemaFact::MembersStay(set(terms, ts)?)),
        SchemaKind::CellExtendSame => Some(SchemaFact::SamePlace(Head::Cell, extended(terms, ts)?)),
        SchemaKind::CellExtendOther => Some(SchemaFact::OtherPlace(
            Head::Cell,
            extended(terms, ts)?,
        )),
        SchemaKind::PointerToExtend => members_extended(terms, ts),
        SchemaKind::PointerToNil => nil_is_no_member(terms, ts),
        SchemaKind::CarCons => {
            let p = cons(terms, ts)?;
            Some(SchemaFact::PartIs(Head::Car, p.whole, p.first))
        }
        SchemaKind::CdrCons => {
            let p = cons(terms, ts)?;
            Some(SchemaFact::PartIs(Head::Cdr, p.whole, p.second))
        }
        SchemaKind::AtomCons => Some(SchemaFact::NoAtom(cons(terms, ts)?.whole)),
        SchemaKind::ConsCarCdr => pair_of_parts(terms, ts),
        SchemaKind::DivMod => Some(SchemaFact::Dividend(divided(terms, ts)?)),
        SchemaKind::ModOfNonNegative => Some(SchemaFact::RemainderAbove(divided(terms, ts)?)),
        SchemaKind::ModOfNonPositive => Some(SchemaFact::RemainderBelow(divided(terms, ts)?)),
        SchemaKind::DivOfNumerals => Some(SchemaFact::QuotientIs(numerals(terms, ts)?)),
        SchemaKind::ModOfNumerals => Some(SchemaFact::RemainderIs(numerals(terms, ts)?)),
    }
}

// What a changed record holds in another field.
fn other_field(terms: &Terms, ts: &[TermId], field: Symbol) -> Option<SchemaFact>
    requires { AllBelow (length terms.now.nodes) ts.now }
    ensures { IsSaid terms.now (fitting terms.now FieldPutOther (map (tree terms.now) ts.now) (Some field)) result }
{
    terms.law_arena();
    let change = put(terms, ts)?;
    if field == change.field {
        return None;
    }
    if !has_field(terms, change.whole, field) {
        return None;
    }
    Some(SchemaFact::SamePart(Head::Field(field), change.whole, change.base))
}

/// The fact of a kind about these terms, and for one kind about a field: none where they lack its shape, or where their sorts do not fit.
pub(crate) fn of_kind(
    terms: &Terms,
    kind: SchemaKind,
    ts: &[TermId],
    field: Option<Symbol>,
) -> Option<SchemaFact>
    requires { AllBelow (length terms.now.nodes) ts.now }
    ensures { IsSaid terms.now (fitting terms.now kind (map (tree terms.now) ts.now) field) result }
{
    match field {
        None => without_field(terms, kind, ts),
        Some(field) => match kind {
            SchemaKind::FieldPutOther => other_field(terms, ts, field),
            _ => None,
        },
    }
}

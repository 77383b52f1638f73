//! Facts of schemas by the terms that they are about.

use spv_logic::names::Symbol;
use spv_logic::{Head, TypeId};
use spv_term::TermId;

/// An array or a class with a value at a place, and another place of it.
#[derive(Clone, Copy, Debug)]
pub struct Change {
    /// The changed array or class.
    pub whole: TermId,
    /// What was changed.
    pub base: TermId,
    pub place: TermId,
    pub value: TermId,
    pub other: TermId,
}

/// A record with a value in a field.
#[derive(Clone, Copy, Debug)]
pub struct FieldChange {
    /// The changed record.
    pub whole: TermId,
    pub field: Symbol,
    /// What was changed.
    pub base: TermId,
    pub value: TermId,
}

/// A pair of lists.
#[derive(Clone, Copy, Debug)]
pub struct Pair {
    pub whole: TermId,
    pub first: TermId,
    pub second: TermId,
}

/// A number and a numeral to divide it by, with the greatest and the least remainder.
#[derive(Clone, Copy, Debug)]
pub struct Division {
    pub dividend: TermId,
    pub divisor: TermId,
    pub greatest: i128,
    pub least: i128,
}

/// A numeral and another one to divide it by.
#[derive(Clone, Copy, Debug)]
pub struct NumeralDivision {
    pub dividend: TermId,
    pub divisor: TermId,
    pub quotient: i128,
    pub remainder: i128,
}

/// What a schema says of terms of an arena. It need not stand there itself.
#[derive(Clone, Copy, Debug)]
pub enum SchemaFact {
    /// What stands at the other place by this head, if it is the one where the change was.
    SamePlace(Head, Change),
    /// What stands there, if it is not.
    OtherPlace(Head, Change),
    /// That a changed class has the members that it had.
    MembersStay(Change),
    /// That a class of this type has one member more, where that is not NIL.
    MembersExtended(TypeId, Change),
    /// That NIL is no member of a class of this type.
    NilIsNoMember(TypeId, TermId),
    /// What a part of a term is.
    PartIs(Head, TermId, TermId),
    /// That two terms have the same part.
    SamePart(Head, TermId, TermId),
    /// That a pair is no atom.
    NoAtom(TermId),
    /// That a list that is no atom is the pair of its parts.
    PairOfParts(TermId),
    /// That a number is the divisor times the quotient, and the remainder.
    Dividend(Division),
    /// Where the remainder of a number lies that is not negative.
    RemainderAbove(Division),
    /// Where that of a number lies that is not positive.
    RemainderBelow(Division),
    /// What the quotient of numerals is.
    QuotientIs(NumeralDivision),
    /// What their remainder is.
    RemainderIs(NumeralDivision),
}

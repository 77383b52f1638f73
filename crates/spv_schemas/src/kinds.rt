// The kinds of schemas.

/// The kind of a schema. Its facts are formulas about terms of one shape, which are true in every world.
#[derive(Clone, Copy, Debug)]
pub enum SchemaKind {
    /// What a changed array holds at the index where it was changed.
    SelectStoreSame,
    /// What it holds at every other index.
    SelectStoreOther,
    /// What a changed record holds in the field that was changed.
    FieldPutSame,
    /// What it holds in another field.
    FieldPutOther,
    /// What a class with a content changed has at the pointer where it was changed.
    CellSetCellSame,
    /// What it has at every other pointer.
    CellSetCellOther,
    /// Which members it has.
    PointerToSetCell,
    /// What a class with one more member has at that pointer.
    CellExtendSame,
    /// What it has at every other pointer.
    CellExtendOther,
    /// Which members it has.
    PointerToExtend,
    /// That NIL is no member of a class.
    PointerToNil,
    /// What the first part of a pair is.
    CarCons,
    /// What its second part is.
    CdrCons,
    /// That a pair is no atom.
    AtomCons,
    /// That a list that is no atom is the pair of its parts.
    ConsCarCdr,
    /// That a number is the divisor times the quotient, and the remainder.
    DivMod,
    /// Where the remainder of a number lies that is not negative.
    ModOfNonNegative,
    /// Where the remainder of a number lies that is not positive.
    ModOfNonPositive,
    /// What the quotient of two numerals is.
    DivOfNumerals,
    /// What their remainder is.
    ModOfNumerals,
}

// The operators of expressions and formulas.

use spv_logic::names::Symbol;

/// An operator that makes a number of two numbers.
#[derive(Clone, Copy, PartialEq, Eq, Debug)]
pub enum Arithmetic {
    /// `+`
    Plus,
    /// `-`
    Minus,
    /// `*`
    Times,
    /// DIV
    Div,
    /// MOD
    Mod,
}

/// An operator that compares two values.
#[derive(Clone, Copy, PartialEq, Eq, Debug)]
pub enum Comparison {
    /// `=`
    Equal,
    /// `<>`
    NotEqual,
    /// `<`
    Less,
    /// `<=`
    AtMost,
    /// `>`
    Greater,
    /// `>=`
    AtLeast,
}

/// An operator that joins two truth values.
#[derive(Clone, Copy, PartialEq, Eq, Debug)]
pub enum Connective {
    /// AND
    And,
    /// OR
    Or,
}

/// Which way the variable of a FOR goes.
#[derive(Clone, Copy, PartialEq, Eq, Debug)]
pub enum Direction {
    /// TO
    Up,
    /// DOWNTO
    Down,
}

/// A function of formulas that is known from the start.
#[derive(Clone, Copy, PartialEq, Eq, Debug)]
pub enum BuiltIn {
    /// SELECT: an array's element at an index.
    Select,
    /// STORE: an array with one element changed.
    Store,
    /// PUT: a record with this field changed.
    Put(Symbol),
    /// CELL: the content of a class at a pointer.
    Cell,
    /// SETCELL: a class with the content at a pointer changed.
    SetCell,
    /// EXTEND: a class with one cell more.
    Extend,
    /// POINTERTO: whether a pointer is a member of a class.
    PointerTo,
    /// CAR: the first part of a pair.
    Car,
    /// CDR: the second part of a pair.
    Cdr,
    /// CONS: the pair of two lists.
    Cons,
    /// ATOM: whether a list is an atom.
    Atom,
}

// What stands at the head of a term.

use crate::names::Symbol;
use crate::types::{Sort, TypeId};

/// The head of a term: a variable, a numeral, a declared symbol or a built-in operator.
#[derive(Clone, Copy, PartialEq, Eq, PartialOrd, Ord, Hash, Debug)]
pub enum Head {
    /// A variable: its name, its sort, and 0 for the program's own or the number of a fresh one.
    Var(Symbol, Sort, u32),
    /// The cells of a type: 0 for the program's own or the number of a fresh one.
    ClassVar(TypeId, u32),
    /// What a value parameter held when its routine was called.
    Start(Symbol, Sort),
    /// A numeral.
    Num(i128),
    /// A declared symbol.
    App(Symbol),
    /// The sum of two numbers.
    Add,
    /// The difference of two numbers.
    Sub,
    /// The product of two numbers.
    Mul,
    /// The quotient, rounded toward zero; 0 where the divisor is 0.
    Div,
    /// The remainder, with the dividend's sign; the dividend where the divisor is 0.
    Mod,
    /// Whether two values of one sort are the same.
    Eq,
    /// Whether the first number is below the second.
    Lt,
    /// Whether the first number is at most the second.
    Le,
    Not,
    And,
    Or,
    Implies,
    /// An array's element at an index.
    Select,
    /// An array with one element changed.
    Store,
    /// A record's field.
    Field(Symbol),
    /// A record with one field changed.
    Put(Symbol),
    /// The content of a class at a pointer.
    Cell,
    /// A class with the content at a pointer changed and the same members.
    SetCell,
    /// A class with the content at a pointer changed and, unless it is NIL, that member more.
    Extend,
    /// Whether a pointer is a member of a class.
    PointerTo,
    /// The first part of a pair; the default atom for an atom.
    Car,
    /// The second part of a pair; the default atom for an atom.
    Cdr,
    /// The pair of two lists.
    Cons,
    /// Whether a list is an atom.
    Atom,
    /// The pointer to no cell of this type.
    Nil(TypeId),
    True,
    False,
}

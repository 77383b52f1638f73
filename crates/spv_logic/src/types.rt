// The sorts of terms, and what the program's types look like.

use crate::list::List;
use crate::names::Symbol;

/// A type of the program: its place in the list of shapes, from 0.
#[derive(Clone, Copy, PartialEq, Eq, PartialOrd, Ord, Hash, Debug)]
pub struct TypeId(pub u32);

/// The sort of a term.
#[derive(Clone, Copy, PartialEq, Eq, PartialOrd, Ord, Hash, Debug)]
pub enum Sort {
    /// A whole number, without limit.
    Int,
    /// A truth value.
    Bool,
    /// A list: an atom or a pair of lists.
    List,
    /// A pointer to cells of this type: a number from 0 up, where 0 is NIL.
    Ptr(TypeId),
    /// A whole value of this array or record type.
    Whole(TypeId),
    /// The cells of this type.
    Class(TypeId),
}

/// A field of a record type: its name and the sort of its values.
#[derive(Clone, Copy, Debug)]
pub struct Field {
    pub name: Symbol,
    pub sort: Sort,
}

/// What a type of the program looks like.
#[derive(Debug, Drop)]
pub enum Shape {
    /// INTEGER or a subrange of it.
    Int,
    /// BOOLEAN.
    Bool,
    /// Pointers to cells of this type.
    Pointer(TypeId),
    /// An array whose elements have this sort.
    Array(Sort),
    /// A record with these fields, in the order of the declaration.
    Record(List<Field>),
}

/// A declared symbol: its name, the sorts of its arguments and of its result.
#[derive(Debug, Drop)]
pub struct Decl {
    pub name: Symbol,
    pub args: List<Sort>,
    pub result: Sort,
}

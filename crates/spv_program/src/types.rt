// Types as a program declares them, and what a routine may share with the program.

use spv_logic::TypeId;
use spv_logic::list::List;
use spv_logic::names::Symbol;

/// A field of a record type: its name and its type.
#[derive(Clone, Copy, Debug)]
pub struct TypeField {
    pub name: Symbol,
    pub of: TypeId,
}

/// How a type is built.
#[derive(Debug, Drop)]
pub enum TypeForm {
    /// INTEGER.
    Integer,
    /// BOOLEAN.
    Boolean,
    /// A subrange of INTEGER, from its lower bound to its upper.
    Range(i64, i64),
    /// Pointers to cells of this type.
    Pointer(TypeId),
    /// An array: the type of its indices, and that of its elements.
    Array(TypeId, TypeId),
    /// A record with these fields, in the order of the declaration.
    Record(List<TypeField>),
}

/// What a routine may share with the program.
#[derive(Clone, Copy, PartialEq, Eq, Debug)]
pub enum Item {
    /// A variable; in an INITIAL part also a VAR parameter.
    Variable(Symbol),
    /// The cells of a type.
    Class(TypeId),
}

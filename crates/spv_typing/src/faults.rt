// Why a text has no types.

ghost use Rattle.std.specs.Prelude.{◌≡◌};
ghost use Rattle.spv_typing.specs.declared.faults.TypeFault.TheVariants.{Memory};

use spv_logic::names::Symbol;
use std::alloc::AllocError;

/// The first thing in the order of the text that breaks a rule of names and types. The first number is the line.
#[derive(Clone, Copy, PartialEq, Eq, Debug)]
pub enum TypeFault {
    /// A name, or a field of a record, is not declared where it stands.
    Undeclared(u32, Symbol),
    /// A name, a field or an item is declared a second time in its scope, or is known from the start.
    DeclaredTwice(u32, Symbol),
    /// A number is the label of a CASE a second time.
    LabelTwice(u32, i64),
    /// A construct that begins on this line breaks a rule of types.
    WrongType(u32),
    /// A wrong number of arguments or of indices.
    Count(u32),
    /// A routine of this name stands inside a routine.
    Nested(u32, Symbol),
    /// A parameter of this name is a routine.
    ProcParameter(u32, Symbol),
    /// The body of a FOR changes the variable of this name, which counts.
    ControlChanged(u32, Symbol),
    /// The memory was not enough.
    Memory,
}

impl From<AllocError> for TypeFault {
    ghost from_gives = { λ _ fault. fault ≡ Memory };

    fn from(_refused: AllocError) -> TypeFault {
        TypeFault::Memory
    }
}

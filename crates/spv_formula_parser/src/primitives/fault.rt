// Why a part is not read.

ghost use Rattle.std.specs.Prelude.{◌≡◌, length};
ghost use Rattle.spv_grammar.specs.reading.Readers.{wrong, deep};
ghost use Rattle.spv_formula_parser.specs.declared.primitives.fault.Fault.TheVariants.{Memory};
ghost use Rattle.spv_formula_parser.specs.primitives.Faults.{IsStop};

use spv_tree::tokens::Token;
use std::alloc::{AllocError, AllocFailed};

/// Why a part is not read. A number says how many tokens are left there.
#[derive(Clone, Copy)]
pub enum Fault {
    /// It can't go on with the first of these tokens, or there are none of them.
    Syntax(usize),
    /// A part is due there, and no level is left for it.
    Deep(usize),
    /// There was no memory left.
    Memory,
}

impl From<AllocError> for Fault {
    ghost from_gives = { λ _ fault. fault ≡ Memory };

    fn from(_refused: AllocError) -> Fault {
        Fault::Memory
    }
}

impl<T: Drop> From<AllocFailed<T>> for Fault {
    ghost from_gives = { λ _ fault. fault ≡ Memory };

    fn from(_refused: AllocFailed<T>) -> Fault {
        Fault::Memory
    }
}

/// No part goes on with the first of these tokens.
pub fn unexpected(tokens: &[Token]) -> Fault
    ensures { IsStop (wrong (length tokens.now)) result }
{
    Fault::Syntax(tokens.len())
}

/// No level is left for the part that begins with these tokens.
pub fn out_of_levels(tokens: &[Token]) -> Fault
    ensures { IsStop (deep (length tokens.now)) result }
{
    Fault::Deep(tokens.len())
}

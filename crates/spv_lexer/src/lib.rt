//! The tokens of a text.
#![tactic(auto)]

pub mod token_laws;

ghost use Rattle.std.specs.Prelude.{◌≡◌};
ghost use Rattle.spv_lexer.specs.declared.LexFault.TheVariants.{Memory};

mod front;
mod laws;
mod lexer;
mod signs;
mod words;

pub use laws::{law_front, law_gap, law_longest_sign};
pub use lexer::{LONGEST_TEXT, tokens};
use std::alloc::AllocError;
use thiserror::Error;

/// Why a text is refused. A number is a line; the first line is 1.
#[derive(Clone, Copy, PartialEq, Eq, Debug, Error)]
pub enum LexFault {
    /// A byte with which no token can begin, and which is in no comment.
    #[error("line {0}: no token begins with this byte")]
    BadByte(u32),
    /// A comment without an end. The line is the one it begins on.
    #[error("line {0}: the comment is not closed")]
    OpenComment(u32),
    /// A numeral above 9223372036854775807.
    #[error("line {0}: the numeral is too large")]
    NumeralTooLarge(u32),
    /// A text of more than 4194304 bytes.
    #[error("the text is too long")]
    TextTooLong,
    /// There was no memory left.
    #[error("out of memory")]
    Memory,
}

impl From<AllocError> for LexFault {
    ghost from_gives = { λ _ fault. fault ≡ Memory };

    fn from(_refused: AllocError) -> LexFault {
        LexFault::Memory
    }
}

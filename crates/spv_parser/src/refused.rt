// Why tokens are refused.

ghost use Rattle.std.specs.Prelude.{◌≡◌};
ghost use Rattle.spv_parser.specs.declared.refused.SyntaxFault.TheVariants.{Memory};

use spv_tree::tokens::Word;
use std::alloc::AllocError;
use thiserror::Error;

/// Why tokens are refused. A number is a line; the first line is 1.
#[derive(Clone, Copy, PartialEq, Eq, Debug, Error)]
pub enum SyntaxFault {
    /// A word that is known and belongs to nothing that is accepted stands among them: the first such word, behind its line.
    #[error("line {0}: this word belongs to nothing that is read")]
    Profile(u32, Word),
    /// No such word stands there, and the level of the text exceeds 200. The line is that of the first token after which it does.
    #[error("line {0}: the text goes too deep")]
    TooDeep(u32),
    /// Neither is so, and no tree reads the tokens. The line is the one at which they go wrong: that of the first token with which
    /// they begin no text any more, or where all of them begin one that of the last one, or 1 without any token.
    #[error("line {0}: no program goes on so")]
    Syntax(u32),
    /// There was no memory left, or no level for a part inside others. No text that is not too deep has been seen to need more levels
    /// than there are.
    #[error("out of memory")]
    Memory,
}

impl From<AllocError> for SyntaxFault {
    ghost from_gives = { λ _ fault. fault ≡ Memory };

    fn from(_refused: AllocError) -> SyntaxFault {
        SyntaxFault::Memory
    }
}

// Why a text has no tree.

ghost use Rattle.std.specs.Prelude.{◌≡◌};
ghost use Rattle.spv_parser.specs.declared.language.fault.LanguageFault.TheVariants.{Tokens, Tree};

use crate::SyntaxFault;
use spv_lexer::LexFault;
use thiserror::Error;

/// Why a text has no tree.
///
/// A text that is too long has that fault and no other. Of any other text the first bad byte, open comment or large numeral
/// counts; where there is none of these, the first word that is left out; where there is none, the depth; and where that is
/// not too great, that no tree reads the text. Only want of memory is no fault of the text.
#[derive(Clone, Copy, PartialEq, Eq, Debug, Error)]
pub enum LanguageFault {
    /// The text has no tokens.
    #[error("{0}")]
    Tokens(LexFault),
    /// It has tokens, and they have no tree. Where no tree reads them the line is the one at which they go wrong.
    #[error("{0}")]
    Tree(SyntaxFault),
}

impl From<LexFault> for LanguageFault {
    ghost from_gives = { λ fault result. result ≡ Tokens fault };

    fn from(fault: LexFault) -> LanguageFault {
        LanguageFault::Tokens(fault)
    }
}

impl From<SyntaxFault> for LanguageFault {
    ghost from_gives = { λ fault result. result ≡ Tree fault };

    fn from(fault: SyntaxFault) -> LanguageFault {
        LanguageFault::Tree(fault)
    }
}

// Words that are known and belong to nothing that is accepted.

ghost use Rattle.std.specs.Prelude.{◌≡◌};
ghost use Rattle.spv_grammar.specs.nesting.LeftOut.{left_out_word};
ghost use Rattle.spv_grammar.specs.nesting.LeftOut as spec;

use spv_tree::tokens::{Token, TokenKind, Word};

// The left-out word that a token is.
fn left_out_word(kind: TokenKind) -> Option<Word>
    ensures { result ≡ spec.left_out_word kind }
{
    match kind {
        TokenKind::Word(Word::Packed) => Some(Word::Packed),
        TokenKind::Word(Word::Set) => Some(Word::Set),
        TokenKind::Word(Word::File) => Some(Word::File),
        TokenKind::Word(Word::With) => Some(Word::With),
        TokenKind::Word(Word::In) => Some(Word::In),
        TokenKind::Word(Word::Goto) => Some(Word::Goto),
        TokenKind::Word(Word::Label) => Some(Word::Label),
        _ => None,
    }
}

/// The first word of a text that belongs to nothing that is accepted, behind its line.
pub fn left_out(tokens: &[Token]) -> Option<(u32, Word)>
    ensures first { result ≡ spec.left_out tokens.now }
{
    for token in tokens {
        if let Some(word) = left_out_word(token.kind) {
            return Some((token.line, word));
        }
    }
    None
}

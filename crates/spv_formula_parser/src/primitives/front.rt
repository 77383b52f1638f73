// The first of the tokens that are left.

ghost use Rattle.std.specs.Prelude.{◌≡◌, true, false, length, IfOk, IsErrAnd};
ghost use Rattle.spv_tree.specs.declared.tokens.token.TokenKind.TheVariants as kind;
ghost use Rattle.spv_tree.specs.syntax.Steps as steps;
ghost use Rattle.spv_grammar.specs.reading.Readers.{Stop, Read, Halted, wrong, is};
ghost use Rattle.spv_grammar.specs.reading.Readers as reader;
ghost use Rattle.spv_formula_parser.specs.primitives.Faults.{IsStop};

use crate::primitives::fault::{Fault, unexpected};
use spv_tree::syntax::Name;
use spv_tree::tokens::{Sign, Token, TokenKind, Word};

/// The kind of the first token.
pub fn front(tokens: &[Token]) -> Option<TokenKind>
    ensures { result ≡ reader.front tokens.now }
{
    match tokens {
        [] => None,
        [first, ..] => Some(first.kind),
    }
}

/// The tokens behind the first.
pub fn after(tokens: &[Token]) -> &[Token]
    ensures { result.now ≡ reader.after tokens.now }
{
    match tokens {
        [] => &[],
        [_, rest @ ..] => rest,
    }
}

/// The line of the first token, or 1.
pub fn first_line(tokens: &[Token]) -> u32
    ensures { result ≡ steps.first_line tokens.now }
{
    match tokens {
        [] => 1,
        [first, ..] => first.line,
    }
}

/// Whether the tokens begin with this word.
pub fn is_word(word: Word, tokens: &[Token]) -> bool
    ensures { result ≡ is (kind.Word word) (reader.front tokens.now) }
{
    match front(tokens) {
        Some(TokenKind::Word(first)) => first == word,
        _ => false,
    }
}

/// Whether the tokens begin with this sign.
pub fn is_sign(sign: Sign, tokens: &[Token]) -> bool
    ensures { result ≡ is (kind.Sign sign) (reader.front tokens.now) }
{
    match front(tokens) {
        Some(TokenKind::Sign(first)) => first == sign,
        _ => false,
    }
}

/// The tokens behind this word, with which they have to begin.
pub fn past_word(word: Word, tokens: &[Token]) -> Result<&[Token], Fault>
    ensures there { IfOk result (λ rest. is (kind.Word word) (reader.front tokens.now) ≡ true) }
    ensures behind { IfOk result (λ rest. rest.now ≡ reader.after tokens.now) }
    ensures absent { (s : Stop) → IsErrAnd result (IsStop s) → is (kind.Word word) (reader.front tokens.now) ≡ false }
    ensures place { (s : Stop) → IsErrAnd result (IsStop s) → s ≡ wrong (length tokens.now) }
{
    if is_word(word, tokens) {
        Ok(after(tokens))
    } else {
        Err(unexpected(tokens))
    }
}

/// The tokens behind this sign, with which they have to begin.
pub fn past_sign(sign: Sign, tokens: &[Token]) -> Result<&[Token], Fault>
    ensures there { IfOk result (λ rest. is (kind.Sign sign) (reader.front tokens.now) ≡ true) }
    ensures behind { IfOk result (λ rest. rest.now ≡ reader.after tokens.now) }
    ensures absent { (s : Stop) → IsErrAnd result (IsStop s) → is (kind.Sign sign) (reader.front tokens.now) ≡ false }
    ensures place { (s : Stop) → IsErrAnd result (IsStop s) → s ≡ wrong (length tokens.now) }
{
    if is_sign(sign, tokens) {
        Ok(after(tokens))
    } else {
        Err(unexpected(tokens))
    }
}

/// The name at the front.
pub fn name(tokens: &[Token]) -> Result<(Name, &[Token]), Fault>
    ensures read { IfOk result (λ r. reader.name tokens.now ≡ Read (r.0, r.1.now)) }
    ensures absent { (s : Stop) → IsErrAnd result (IsStop s) → reader.name tokens.now ≡ Halted s }
{
    match front(tokens) {
        Some(TokenKind::Name(symbol)) => {
            let line = first_line(tokens);
            Ok((Name { line, symbol }, after(tokens)))
        }
        _ => Err(unexpected(tokens)),
    }
}

//! The walk over a text, piece by piece.
ghost use Rattle.std.specs.Prelude.{◌≡◌, ◌≤◌, ◌<◌, ◌==◌, ◌++◌, ◌↔◌, ℕ, List, All, None, Some, IfOk, IfErr, OnOk, OnErr, length, take, count_by};
ghost use Rattle.spv_logic.specs.names.Names.{IsFolded, folded};
ghost use Rattle.spv_lexer.specs.Spelling.{word_or_name};
ghost use Rattle.spv_lexer.specs.Front.{front as front_of};
ghost use Rattle.spv_lexer.specs.Reading.{reading, HasTokens};
ghost use Rattle.spv_lexer.specs.Tokens.{kind_of, with_name, names_after, numbered, HasTextCause, IsInTable};
ghost use Rattle.spv_lexer.specs.Seen.{IsPieceOf, IsRefusalOf, tokens_of};

use crate::LexFault;
use crate::front::{Front, decimal, digits, letters, read_front};
use crate::words::word_of;
use spv_logic::names::Names;
use spv_tree::tokens::{Token, TokenKind};
use std::alloc::{AllocError, Global};

/// A piece of a text: a token or a gap between tokens, with its length in bytes and how many lines end in it.
#[derive(Clone, Copy)]
pub(crate) struct Piece {
    pub(crate) kind: Option<TokenKind>,
    pub(crate) len: usize,
    pub(crate) lines: usize,
}

/// A gap with this length, in which so many lines end.
fn gap(len: usize, lines: usize) -> Piece
    ensures kind { result.kind ≡ None }
    ensures len { result.len ≡ len }
    ensures lines { result.lines ≡ lines }
{
    Piece {
        kind: None,
        len,
        lines,
    }
}

/// A token with this length. No line ends in a token.
fn token(kind: TokenKind, len: usize) -> Piece
    ensures kind { result.kind ≡ Some kind }
    ensures len { result.len ≡ len }
    ensures lines { result.lines ≡ 0 }
{
    Piece {
        kind: Some(kind),
        len,
        lines: 0,
    }
}

/// How many lines end in a text.
fn line_ends(text: &[u8]) -> usize
    ensures { result ≡ count_by (λ b. b == 10) text.now }
{
    text.iter().filter(|byte| **byte == b'\n').count()
}

/// The text in upper case.
fn upper_case(alloc: Global, text: &[u8]) -> Result<Vec<u8>, AllocError>
    ensures { IfOk result (λ upper. upper.items ≡ folded text.now) }
{
    let mut upper = Vec::from_slice(alloc, text)?;
    upper.make_ascii_uppercase();
    Ok(upper)
}

/// The kind of a row of letters and digits in upper case. A name is entered into the table.
fn word_or_name_kind(run: &[u8], names: &mut Names) -> Result<TokenKind, AllocError>
    requires folded { IsFolded run.now }
    requires room { length names.old < 2147483648 }
    ensures kind { IfOk result (λ kind. kind ≡ kind_of names.old (word_or_name run.now)) }
    ensures names { OnOk result (names.new ≡ with_name names.old (word_or_name run.now)) }
    ensures err { OnErr result (names.new ≡ names.old) }
{
    if let Some(word) = word_of(run) {
        return Ok(TokenKind::Word(word));
    }
    let symbol = names.enter(run)?;
    Ok(TokenKind::Name(symbol))
}

/// The piece at the front of `rest`, whose upper case is `upper`.
fn read_piece(rest: &[u8], upper: &[u8], line: u32, names: &mut Names) -> Result<Piece, LexFault>
    requires some { 0 < length rest.now }
    requires folded { upper.now ≡ folded rest.now }
    requires room { length names.old < 2147483648 }
    ensures piece { IfOk result (IsPieceOf (front_of rest.now) names.old names.new) }
    ensures lines { IfOk result (λ p. p.lines ≡ count_by (λ b. b == 10) (take p.len rest.now)) }
    ensures refused { IfErr result (IsRefusalOf (front_of rest.now) line) }
    ensures err { OnErr result (names.new ≡ names.old) }
{
    match read_front(rest) {
        Front::LineFeed => Ok(gap(1, 1)),
        Front::Blank => Ok(gap(1, 0)),
        Front::Comment(len) => Ok(gap(len, line_ends(&rest[..len]))),
        Front::Letters => {
            let len = letters(rest);
            let kind = word_or_name_kind(&upper[..len], names)?;
            Ok(token(kind, len))
        }
        Front::Digits => {
            let len = digits(rest);
            match decimal(&rest[..len]) {
                Some(number) => Ok(token(TokenKind::Number(number), len)),
                None => Err(LexFault::NumeralTooLarge(line)),
            }
        }
        Front::ShortSign(sign) => Ok(token(TokenKind::Sign(sign), 1)),
        Front::LongSign(sign) => Ok(token(TokenKind::Sign(sign), 2)),
        Front::BadByte => Err(LexFault::BadByte(line)),
        Front::OpenComment => Err(LexFault::OpenComment(line)),
    }
}

/// Adds the token of a piece, if it is one.
fn push_token(tokens: &mut Vec<Token>, kind: Option<TokenKind>, line: u32) -> Result<(), AllocError>
    ensures { OnOk result (tokens.new.items ≡ tokens.old.items ++ tokens_of kind line) }
{
    if let Some(kind) = kind {
        tokens.push(Token { kind, line })?;
    }
    Ok(())
}

/// The tokens of a text that is short enough, whose upper case is `upper`.
fn read(alloc: Global, text: &[u8], upper: &[u8], names: &mut Names) -> Result<Vec<Token>, LexFault>
    requires few { length names.old < 2143289344 }
    requires short { length text.now ≤ 4194304 }
    requires folded { upper.now ≡ folded text.now }
    ensures tokens { IfOk result (λ ts. ts.items ≡ numbered names.old (reading text.now).tokens) }
    ensures whole { OnOk result (HasTokens text.now) }
    ensures names { OnOk result (names.new ≡ names_after names.old (reading text.now).tokens) }
    ensures cause { IfErr result (HasTextCause text.now) }
    ensures grown { OnErr result ((k : ℕ) × (names.new ≡ names_after names.old (take k (reading text.now).tokens))) }
{
    let mut tokens = Vec::new(alloc);
    let mut line = 1;
    let mut at = 0;
    while at < text.len() {
        let piece = read_piece(&text[at..], &upper[at..], line, names)?;
        push_token(&mut tokens, piece.kind, line)?;
        line += piece.lines as u32;
        at += piece.len;
    }
    Ok(tokens)
}

/// The longest text that is read, in bytes.
pub const LONGEST_TEXT: usize = 4_194_304;

/// The tokens of a text. Its names are entered into the table, in the order in which they first stand in the text.
///
/// A text of more than 4194304 bytes is refused as such. Any other text is refused for the first byte that begins no token, comment
/// without an end or numeral above 9223372036854775807 in it. After a refusal some first names of the text may be in the table.
pub fn tokens(alloc: Global, text: &[u8], names: &mut Names) -> Result<Vec<Token>, LexFault>
    requires { length names.old < 2143289344 }

    // A text that is read gives all of its tokens, with its names in the table.
    ensures tokens { IfOk result (λ ts. ts.items ≡ numbered names.old (reading text.now).tokens) }
    ensures whole { OnOk result (HasTokens text.now) }
    ensures names { OnOk result (names.new ≡ names_after names.old (reading text.now).tokens) }
    ensures in_table { IfOk result (λ ts. All (λ t. IsInTable names.new t.kind) ts.items) }
    ensures few { IfOk result (λ ts. length ts.items ≤ length text.now) }
    ensures short { OnOk result (length text.now ≤ 4194304) }

    // A refusal has its cause in the text, and leaves the table with the names of some first tokens.
    ensures too_long { (result ≡ Err LexFault.TextTooLong) ↔ (4194304 < length text.now) }
    ensures cause { IfErr result (HasTextCause text.now) }
    ensures grown { OnErr result ((k : ℕ) × (names.new ≡ names_after names.old (take k (reading text.now).tokens))) }

    // The names that were there keep their numbers.
    ensures kept { (more : List (List ℕ)) × (names.new ≡ names.old ++ more) }
{
    if text.len() > LONGEST_TEXT {
        return Err(LexFault::TextTooLong);
    }
    let upper = upper_case(alloc, text)?;
    read(alloc, text, &upper, names)
}

// Constants.

ghost use Rattle.std.specs.Prelude.{◌≡◌, Some, None, IfOk, IsErrAnd};
ghost use Rattle.spv_grammar.specs.reading.Readers as reader;
ghost use Rattle.spv_grammar.specs.reading.FormulaReaders.{prefix_of};
ghost use Rattle.spv_grammar.specs.reading.StatementReaders as spec;
ghost use Rattle.spv_grammar.specs.reading.StatementReaders.{read_scalar, read_constant, read_constants};
ghost use Rattle.spv_grammar.specs.reading.Readers.{Stop, Read, Halted};
ghost use Rattle.spv_formula_parser.specs.primitives.Faults.{IsStop};

use crate::primitives::fault::{Fault, unexpected};
use crate::primitives::front::{after, first_line, front};
use crate::primitives::lists::{PartReader, several};
use spv_tree::syntax::{Constant, Name, PlusOrMinus, Scalar, Several};
use spv_tree::tokens::{Sign, Token, TokenKind};
use std::alloc::Global;

/// The sign at the front, where there is one.
pub fn prefix(tokens: &[Token]) -> Option<PlusOrMinus>
    ensures { result ≡ prefix_of (reader.front tokens.now) }
{
    match front(tokens) {
        Some(TokenKind::Sign(Sign::Plus)) => Some(PlusOrMinus::Plus),
        Some(TokenKind::Sign(Sign::Minus)) => Some(PlusOrMinus::Minus),
        _ => None,
    }
}

// number | name
fn scalar(tokens: &[Token]) -> Result<(Scalar, &[Token]), Fault>
    ensures read { IfOk result (λ r. read_scalar tokens.now ≡ Read (r.0, r.1.now)) }
    ensures absent { (s : Stop) → IsErrAnd result (IsStop s) → read_scalar tokens.now ≡ Halted s }
{
    match tokens {
        [
            Token {
                kind: TokenKind::Number(n),
                ..
            },
            rest @ ..,
        ] => Ok((Scalar::Number(*n), rest)),
        [
            Token {
                kind: TokenKind::Name(symbol),
                line,
            },
            rest @ ..,
        ] => {
            let name = Name {
                line: *line,
                symbol: *symbol,
            };
            Ok((Scalar::Name(name), rest))
        }
        _ => Err(unexpected(tokens)),
    }
}

/// ["+" | "-"] (number | name)
pub fn constant(tokens: &[Token]) -> Result<(Constant, &[Token]), Fault>
    ensures read { IfOk result (λ r. read_constant tokens.now ≡ Read (r.0, r.1.now)) }
    ensures absent { (s : Stop) → IsErrAnd result (IsStop s) → read_constant tokens.now ≡ Halted s }
{
    let line = first_line(tokens);
    let sign = prefix(tokens);
    let behind = if sign.is_some() {
        after(tokens)
    } else {
        tokens
    };
    match scalar(behind) {
        Ok((value, rest)) => Ok((Constant { line, sign, value }, rest)),
        Err(fault) => Err(fault),
    }
}

/// Whether a constant begins with the first token.
pub fn begins_constant(tokens: &[Token]) -> bool
    ensures { result ≡ spec.begins_constant (reader.front tokens.now) }
{
    matches!(
        front(tokens),
        Some(TokenKind::Number(_) | TokenKind::Name(_) | TokenKind::Sign(Sign::Plus | Sign::Minus))
    )
}

// Reads constants.
struct ConstantReader;

impl PartReader<Constant> for ConstantReader {
    ghost reader = { λ n. read_constant };

    fn read(_alloc: Global, _levels: u32, tokens: &[Token]) -> Result<(Constant, &[Token]), Fault> {
        constant(tokens)
    }
}

/// constant {"," constant}
pub fn constants(alloc: Global, tokens: &[Token]) -> Result<(Several<Constant>, &[Token]), Fault>
    ensures read { IfOk result (λ r. read_constants tokens.now ≡ Read (r.0, r.1.now)) }
    ensures absent { (s : Stop) → IsErrAnd result (IsStop s) → read_constants tokens.now ≡ Halted s }
{
    several::<ConstantReader, Constant>(alloc, 0, Sign::Comma, tokens)
}

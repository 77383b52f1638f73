// Declarations.

ghost use Rattle.std.specs.Prelude.{◌≡◌, Some, None, IfOk, IsErrAnd};
ghost use Rattle.spv_tree.specs.declared.tokens.token.TokenKind.TheVariants as kind;
ghost use Rattle.spv_tree.specs.declared.tokens.token.Sign.TheVariants as sign;
ghost use Rattle.spv_grammar.specs.reading.Readers as reader;
ghost use Rattle.spv_grammar.specs.reading.DeclarationReaders.{read_const, read_name_or_class, read_sort, read_sorts, read_symbol, read_typedef, read_vars, read_declarations};
ghost use Rattle.spv_grammar.specs.reading.Readers.{Stop, Read, Halted};
ghost use Rattle.spv_formula_parser.specs.primitives.Faults.{IsStop};

use crate::type_parser::types::{names, type_denoter};
use spv_formula_parser::primitives::constants::constant;
use spv_formula_parser::primitives::fault::Fault;
use spv_formula_parser::primitives::front::{after, first_line, is_sign, name, past_sign};
use spv_formula_parser::primitives::lists::{PartReader, headed, several};
use spv_tree::syntax::{
    Const, Declarations, NameOrClass, Several, SortName, SymbolText, Typedef, Vars,
};
use spv_tree::tokens::{Sign, Token, Word};
use std::alloc::Global;

/// Reads the parts of declarations of which there are lists.
pub struct DeclarationReader;

// name "=" constant ";"
impl PartReader<Const> for DeclarationReader {
    ghost reader = { λ n. read_const };

    fn read(_alloc: Global, _levels: u32, tokens: &[Token]) -> Result<(Const, &[Token]), Fault> {
        let line = first_line(tokens);
        let (name, rest) = name(tokens)?;
        let rest = past_sign(Sign::Equal, rest)?;
        match constant(rest) {
            Ok((value, rest)) => {
                let rest = past_sign(Sign::Semicolon, rest)?;
                Ok((Const { line, name, value }, rest))
            }
            Err(fault) => Err(fault),
        }
    }
}

// name "=" type ";"
impl PartReader<Typedef> for DeclarationReader {
    ghost reader = { read_typedef };

    fn read(alloc: Global, levels: u32, tokens: &[Token]) -> Result<(Typedef, &[Token]), Fault> {
        let line = first_line(tokens);
        let (name, rest) = name(tokens)?;
        let rest = past_sign(Sign::Equal, rest)?;
        let (of, rest) = type_denoter(alloc, levels, rest)?;
        let rest = past_sign(Sign::Semicolon, rest)?;
        Ok((Typedef { line, name, of }, rest))
    }
}

// names ":" type ";"
impl PartReader<Vars> for DeclarationReader {
    ghost reader = { read_vars };

    fn read(alloc: Global, levels: u32, tokens: &[Token]) -> Result<(Vars, &[Token]), Fault> {
        let line = first_line(tokens);
        let (names, rest) = names(alloc, tokens)?;
        let rest = past_sign(Sign::Colon, rest)?;
        let (of, rest) = type_denoter(alloc, levels, rest)?;
        let rest = past_sign(Sign::Semicolon, rest)?;
        Ok((Vars { line, names, of }, rest))
    }
}

/// name | "#" name
pub fn name_or_class(tokens: &[Token]) -> Result<(NameOrClass, &[Token]), Fault>
    ensures read { IfOk result (λ r. read_name_or_class tokens.now ≡ Read (r.0, r.1.now)) }
    ensures absent { (s : Stop) → IsErrAnd result (IsStop s) → read_name_or_class tokens.now ≡ Halted s }
{
    if is_sign(Sign::Hash, tokens) {
        let (class, rest) = name(after(tokens))?;
        Ok((NameOrClass::Class(class), rest))
    } else {
        let (plain, rest) = name(tokens)?;
        Ok((NameOrClass::Name(plain), rest))
    }
}

/// name | "#" name, as a sort
pub fn sort(tokens: &[Token]) -> Result<(SortName, &[Token]), Fault>
    ensures read { IfOk result (λ r. read_sort tokens.now ≡ Read (r.0, r.1.now)) }
    ensures absent { (s : Stop) → IsErrAnd result (IsStop s) → read_sort tokens.now ≡ Halted s }
{
    let line = first_line(tokens);
    let (form, rest) = name_or_class(tokens)?;
    Ok((SortName { line, form }, rest))
}

impl PartReader<SortName> for DeclarationReader {
    ghost reader = { λ n. read_sort };

    fn read(_alloc: Global, _levels: u32, tokens: &[Token]) -> Result<(SortName, &[Token]), Fault> {
        sort(tokens)
    }
}

// ["(" sort {"," sort} ")"]
fn sorts(alloc: Global, tokens: &[Token]) -> Result<(Option<Several<SortName>>, &[Token]), Fault>
    ensures read { IfOk result (λ r. reader.optional (kind.Sign sign.OpenParenthesis) read_sorts tokens.now ≡ Read (r.0, r.1.now)) }
    ensures absent { (s : Stop) → IsErrAnd result (IsStop s) → reader.optional (kind.Sign sign.OpenParenthesis) read_sorts tokens.now ≡ Halted s }
{
    if !is_sign(Sign::OpenParenthesis, tokens) {
        return Ok((None, tokens));
    }
    let (sorts, rest) = several::<DeclarationReader, SortName>(
        alloc,
        0,
        Sign::Comma,
        after(tokens),
    )?;
    let rest = past_sign(Sign::CloseParenthesis, rest)?;
    Ok((Some(sorts), rest))
}

// name ["(" sort {"," sort} ")"] ":" sort ";"
impl PartReader<SymbolText> for DeclarationReader {
    ghost reader = { λ n. read_symbol };

    fn read(alloc: Global, levels: u32, tokens: &[Token]) -> Result<(SymbolText, &[Token]), Fault> {
        let line = first_line(tokens);
        let (name, rest) = name(tokens)?;
        let (arguments, rest) = sorts(alloc, rest)?;
        let rest = past_sign(Sign::Colon, rest)?;
        let (result, rest) = sort(rest)?;
        let rest = past_sign(Sign::Semicolon, rest)?;
        let symbol = SymbolText {
            line,
            name,
            arguments,
            result,
        };
        Ok((symbol, rest))
    }
}

/// [CONST const {const}] [TYPE typedef {typedef}] [VAR vars {vars}] [DECLARE symbol {symbol}]
pub fn declarations(
    alloc: Global,
    levels: u32,
    tokens: &[Token],
) -> Result<(Declarations, &[Token]), Fault>
    ensures read { IfOk result (λ r. read_declarations levels tokens.now ≡ Read (r.0, r.1.now)) }
    ensures absent { (s : Stop) → IsErrAnd result (IsStop s) → read_declarations levels tokens.now ≡ Halted s }
{
    let line = first_line(tokens);
    let (constants, rest) = headed::<DeclarationReader, Const>(alloc, levels, Word::Const, tokens)?;
    let (types, rest) = headed::<DeclarationReader, Typedef>(alloc, levels, Word::Type, rest)?;
    let (variables, rest) = headed::<DeclarationReader, Vars>(alloc, levels, Word::Var, rest)?;
    let (symbols, rest) = headed::<DeclarationReader, SymbolText>(
        alloc,
        levels,
        Word::Declare,
        rest,
    )?;
    let declarations = Declarations {
        line,
        constants,
        types,
        variables,
        symbols,
    };
    Ok((declarations, rest))
}

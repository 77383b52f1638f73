// Types.

ghost use Rattle.std.specs.Prelude.{◌≡◌, Some, None, IfOk, IsErrAnd};
ghost use Rattle.spv_tree.specs.syntax.Model.TypeSizes.{more_types_of, more_fields_of};
ghost use Rattle.spv_grammar.specs.reading.Readers as reader;
ghost use Rattle.spv_grammar.specs.reading.TypeReaders.{read_names, read_upper, read_range, read_type_name, read_more_types, read_array, read_field_part, read_more_fields, read_record, read_lower_type, read_type};
ghost use Rattle.spv_grammar.specs.reading.Readers.{Stop, Read, Halted};
ghost use Rattle.spv_formula_parser.specs.primitives.Faults.{IsStop};
ghost use Rattle.spv_routine_parser.specs.type_parser.TypeParts.{read_range_behind, read_pointer, read_named_field};

use spv_formula_parser::primitives::constants::constant;
use spv_formula_parser::primitives::fault::{Fault, out_of_levels, unexpected};
use spv_formula_parser::primitives::front::{
    after, first_line, front, is_sign, name, past_sign, past_word,
};
use spv_formula_parser::primitives::lists::{PartReader, is_name, several};
use spv_tree::syntax::{Constant, Field, Name, Scalar, Several, TypeDenoter, TypeForm};
use spv_tree::tokens::{Sign, Token, TokenKind, Word};
use std::alloc::Global;

// Reads names.
struct NameReader;

impl PartReader<Name> for NameReader {
    ghost reader = { λ n. reader.name };

    fn read(_alloc: Global, _levels: u32, tokens: &[Token]) -> Result<(Name, &[Token]), Fault> {
        name(tokens)
    }
}

/// name {"," name}
pub fn names(alloc: Global, tokens: &[Token]) -> Result<(Several<Name>, &[Token]), Fault>
    ensures read { IfOk result (λ r. read_names tokens.now ≡ Read (r.0, r.1.now)) }
    ensures absent { (s : Stop) → IsErrAnd result (IsStop s) → read_names tokens.now ≡ Halted s }
{
    several::<NameReader, Name>(alloc, 0, Sign::Comma, tokens)
}

// constant, behind `constant ".."`
fn upper(line: u32, low: Constant, tokens: &[Token]) -> Result<(TypeDenoter, &[Token]), Fault>
    ensures read { IfOk result (λ r. read_upper line low tokens.now ≡ Read (r.0, r.1.now)) }
    ensures absent { (s : Stop) → IsErrAnd result (IsStop s) → read_upper line low tokens.now ≡ Halted s }
{
    match constant(tokens) {
        Ok((high, rest)) => {
            let form = TypeForm::Range(low, high);
            Ok((TypeDenoter { line, form }, rest))
        }
        Err(fault) => Err(fault),
    }
}

// ".." constant, behind the lower bound
fn range_behind(
    line: u32,
    low: Constant,
    tokens: &[Token],
) -> Result<(TypeDenoter, &[Token]), Fault>
    ensures read { IfOk result (λ r. read_range_behind line low tokens.now ≡ Read (r.0, r.1.now)) }
    ensures absent { (s : Stop) → IsErrAnd result (IsStop s) → read_range_behind line low tokens.now ≡ Halted s }
{
    let rest = past_sign(Sign::Range, tokens)?;
    upper(line, low, rest)
}

// constant ".." constant
fn range(tokens: &[Token]) -> Result<(TypeDenoter, &[Token]), Fault>
    ensures read { IfOk result (λ r. read_range tokens.now ≡ Read (r.0, r.1.now)) }
    ensures absent { (s : Stop) → IsErrAnd result (IsStop s) → read_range tokens.now ≡ Halted s }
{
    let line = first_line(tokens);
    match constant(tokens) {
        Ok((low, rest)) => range_behind(line, low, rest),
        Err(fault) => Err(fault),
    }
}

// name [".." constant], behind the name
fn type_name(first: Name, tokens: &[Token]) -> Result<(TypeDenoter, &[Token]), Fault>
    ensures read { IfOk result (λ r. read_type_name first tokens.now ≡ Read (r.0, r.1.now)) }
    ensures absent { (s : Stop) → IsErrAnd result (IsStop s) → read_type_name first tokens.now ≡ Halted s }
{
    let line = first.line;
    if is_sign(Sign::Range, tokens) {
        let value = Scalar::Name(first);
        let low = Constant {
            line,
            sign: None,
            value,
        };
        upper(line, low, after(tokens))
    } else {
        let form = TypeForm::Named(first);
        Ok((TypeDenoter { line, form }, tokens))
    }
}

// name, behind "^"
fn pointer(line: u32, tokens: &[Token]) -> Result<(TypeDenoter, &[Token]), Fault>
    ensures read { IfOk result (λ r. read_pointer line tokens.now ≡ Read (r.0, r.1.now)) }
    ensures absent { (s : Stop) → IsErrAnd result (IsStop s) → read_pointer line tokens.now ≡ Halted s }
{
    let (to, rest) = name(tokens)?;
    let form = TypeForm::Pointer(to);
    Ok((TypeDenoter { line, form }, rest))
}

// type, one level down
#[cycle(types)]
fn lower_type(
    alloc: Global,
    levels: u32,
    tokens: &[Token],
) -> Result<(TypeDenoter, &[Token]), Fault>
    ensures read { IfOk result (λ r. read_lower_type levels tokens.now ≡ Read (r.0, r.1.now)) }
    ensures absent { (s : Stop) → IsErrAnd result (IsStop s) → read_lower_type levels tokens.now ≡ Halted s }
{
    if levels == 0 {
        return Err(out_of_levels(tokens));
    }
    type_denoter(alloc, levels - 1, tokens)
}

// {"," type}
#[cycle(types)]
fn more_types(
    alloc: Global,
    levels: u32,
    tokens: &[Token],
) -> Result<(Vec<TypeDenoter>, &[Token]), Fault>
    ensures read { IfOk result (λ r. read_more_types (read_lower_type levels) tokens.now ≡ Read (more_types_of r.0.items, r.1.now)) }
    ensures absent { (s : Stop) → IsErrAnd result (IsStop s) → read_more_types (read_lower_type levels) tokens.now ≡ Halted s }
{
    let mut types = Vec::new(alloc);
    let mut rest = tokens;
    for _ in 0..tokens.len() {
        if !is_sign(Sign::Comma, rest) {
            return Ok((types, rest));
        }
        let (of, next) = lower_type(alloc, levels, after(rest))?;
        types.push(of)?;
        rest = next;
    }
    Ok((types, rest))
}

// "[" type {"," type} "]" OF type, behind ARRAY
#[cycle(types)]
fn array(
    alloc: Global,
    levels: u32,
    line: u32,
    tokens: &[Token],
) -> Result<(TypeDenoter, &[Token]), Fault>
    ensures read { IfOk result (λ r. read_array (read_lower_type levels) line tokens.now ≡ Read (r.0, r.1.now)) }
    ensures absent { (s : Stop) → IsErrAnd result (IsStop s) → read_array (read_lower_type levels) line tokens.now ≡ Halted s }
{
    let rest = past_sign(Sign::OpenBracket, tokens)?;
    let (first, rest) = lower_type(alloc, levels, rest)?;
    let first = Box::new(alloc, first)?;
    let (more, rest) = more_types(alloc, levels, rest)?;
    let rest = past_sign(Sign::CloseBracket, rest)?;
    let rest = past_word(Word::Of, rest)?;
    let (elements, rest) = lower_type(alloc, levels, rest)?;
    let elements = Box::new(alloc, elements)?;
    let form = TypeForm::Array(first, more, elements);
    Ok((TypeDenoter { line, form }, rest))
}

// names ":" type, one level down
#[cycle(types)]
fn named_field(alloc: Global, levels: u32, tokens: &[Token]) -> Result<(Field, &[Token]), Fault>
    ensures read { IfOk result (λ r. read_named_field (read_lower_type levels) tokens.now ≡ Read (r.0, r.1.now)) }
    ensures absent { (s : Stop) → IsErrAnd result (IsStop s) → read_named_field (read_lower_type levels) tokens.now ≡ Halted s }
{
    let line = first_line(tokens);
    let (names, rest) = names(alloc, tokens)?;
    let rest = past_sign(Sign::Colon, rest)?;
    let (of, rest) = lower_type(alloc, levels, rest)?;
    let form = Some((names, of));
    Ok((Field { line, form }, rest))
}

// [names ":" type]
#[cycle(types)]
fn field(alloc: Global, levels: u32, tokens: &[Token]) -> Result<(Field, &[Token]), Fault>
    ensures read { IfOk result (λ r. read_field_part (read_lower_type levels) tokens.now ≡ Read (r.0, r.1.now)) }
    ensures absent { (s : Stop) → IsErrAnd result (IsStop s) → read_field_part (read_lower_type levels) tokens.now ≡ Halted s }
{
    if is_name(tokens) {
        named_field(alloc, levels, tokens)
    } else {
        let line = first_line(tokens);
        Ok((Field { line, form: None }, tokens))
    }
}

// {";" field}
#[cycle(types)]
fn more_fields(
    alloc: Global,
    levels: u32,
    tokens: &[Token],
) -> Result<(Vec<Field>, &[Token]), Fault>
    ensures read { IfOk result (λ r. read_more_fields (read_lower_type levels) tokens.now ≡ Read (more_fields_of r.0.items, r.1.now)) }
    ensures absent { (s : Stop) → IsErrAnd result (IsStop s) → read_more_fields (read_lower_type levels) tokens.now ≡ Halted s }
{
    let mut fields = Vec::new(alloc);
    let mut rest = tokens;
    for _ in 0..tokens.len() {
        if !is_sign(Sign::Semicolon, rest) {
            return Ok((fields, rest));
        }
        let (part, next) = field(alloc, levels, after(rest))?;
        fields.push(part)?;
        rest = next;
    }
    Ok((fields, rest))
}

// field {";" field} END, behind RECORD
#[cycle(types)]
fn record(
    alloc: Global,
    levels: u32,
    line: u32,
    tokens: &[Token],
) -> Result<(TypeDenoter, &[Token]), Fault>
    ensures read { IfOk result (λ r. read_record (read_lower_type levels) line tokens.now ≡ Read (r.0, r.1.now)) }
    ensures absent { (s : Stop) → IsErrAnd result (IsStop s) → read_record (read_lower_type levels) line tokens.now ≡ Halted s }
{
    let (first, rest) = field(alloc, levels, tokens)?;
    let first = Box::new(alloc, first)?;
    let (more, rest) = more_fields(alloc, levels, rest)?;
    let rest = past_word(Word::End, rest)?;
    let form = TypeForm::Record(first, more);
    Ok((TypeDenoter { line, form }, rest))
}

/// name | constant ".." constant | "^" name | ARRAY "[" type {"," type} "]" OF type | RECORD field {";" field} END
#[cycle(types)]
pub fn type_denoter(
    alloc: Global,
    levels: u32,
    tokens: &[Token],
) -> Result<(TypeDenoter, &[Token]), Fault>
    ensures read { IfOk result (λ r. read_type levels tokens.now ≡ Read (r.0, r.1.now)) }
    ensures absent { (s : Stop) → IsErrAnd result (IsStop s) → read_type levels tokens.now ≡ Halted s }
{
    let line = first_line(tokens);
    match front(tokens) {
        Some(TokenKind::Name(symbol)) => type_name(Name { line, symbol }, after(tokens)),
        Some(TokenKind::Number(_) | TokenKind::Sign(Sign::Plus | Sign::Minus)) => range(tokens),
        Some(TokenKind::Sign(Sign::Caret)) => pointer(line, after(tokens)),
        Some(TokenKind::Word(Word::Array)) => array(alloc, levels, line, after(tokens)),
        Some(TokenKind::Word(Word::Record)) => record(alloc, levels, line, after(tokens)),
        _ => Err(unexpected(tokens)),
    }
}

// Factors and designators.

ghost use Rattle.std.specs.Prelude.{◌≡◌, Some, None, IfOk, IsErrAnd};
ghost use Rattle.spv_tree.specs.syntax.Formulas as plain;
ghost use Rattle.spv_tree.specs.syntax.Lines.{factor_line};
ghost use Rattle.spv_tree.specs.syntax.Steps.{first_line};
ghost use Rattle.spv_tree.specs.syntax.Model.FormulaSizes.{more_formulas_of, selectors_of};
ghost use Rattle.spv_grammar.specs.reading.FormulaReaders.{read_inner, read_factor, read_field, read_more_formulas, read_index, read_selectors, read_application, read_place, read_named, read_bracketed, read_designator};
ghost use Rattle.spv_grammar.specs.reading.Readers as reader;
ghost use Rattle.spv_grammar.specs.reading.Readers.{Stop, Read, Halted};
ghost use Rattle.spv_formula_parser.specs.primitives.Faults.{IsStop};
ghost use Rattle.spv_formula_parser.specs.Factors.{read_selector, read_class, read_negation, factor_at};
ghost use Rattle.spv_formula_parser.specs.Factors as spec;

use crate::formulas::inner;
use crate::primitives::fault::{Fault, out_of_levels, unexpected};
use crate::primitives::front::{after, first_line, front, is_sign, name, past_sign};
use crate::primitives::lists::push;
use spv_tree::syntax::{
    Application, Designator, Factor, FactorForm, Formula, Name, Selector, SelectorForm, in_box,
};
use spv_tree::tokens::{Sign, Token, TokenKind, Word};
use std::alloc::{AllocError, Global};

// {"," formula}, by a loop
#[cycle(formula)]
#[inline(never)]
fn further_formulas(
    alloc: Global,
    levels: u32,
    tokens: &[Token],
) -> Result<(Vec<Formula>, &[Token]), Fault>
    ensures read { IfOk result (λ r. read_more_formulas (read_inner levels) tokens.now ≡ Read (more_formulas_of r.0.items, r.1.now)) }
    ensures absent { (s : Stop) → IsErrAnd result (IsStop s) → read_more_formulas (read_inner levels) tokens.now ≡ Halted s }
{
    let mut more = Vec::new(alloc);
    let mut rest = tokens;
    for _ in 0..tokens.len() {
        if !is_sign(Sign::Comma, rest) {
            return Ok((more, rest));
        }
        let (read, next) = inner(alloc, levels, after(rest))?;
        push(&mut more, read)?;
        rest = next;
    }
    Ok((more, rest))
}

// {"," formula}
#[cycle(formula)]
#[inline(always)]
fn more_formulas(
    alloc: Global,
    levels: u32,
    tokens: &[Token],
) -> Result<(Vec<Formula>, &[Token]), Fault>
    ensures read { IfOk result (λ r. read_more_formulas (read_inner levels) tokens.now ≡ Read (more_formulas_of r.0.items, r.1.now)) }
    ensures absent { (s : Stop) → IsErrAnd result (IsStop s) → read_more_formulas (read_inner levels) tokens.now ≡ Halted s }
{
    if !is_sign(Sign::Comma, tokens) {
        return Ok((Vec::new(alloc), tokens));
    }
    further_formulas(alloc, levels, tokens)
}

// "[" formula {"," formula} "]", behind the bracket on this line
#[cycle(formula)]
#[inline(never)]
fn index(
    alloc: Global,
    levels: u32,
    line: u32,
    tokens: &[Token],
) -> Result<(Selector, &[Token]), Fault>
    ensures read { IfOk result (λ r. read_index (read_inner levels) line tokens.now ≡ Read (r.0, r.1.now)) }
    ensures absent { (s : Stop) → IsErrAnd result (IsStop s) → read_index (read_inner levels) line tokens.now ≡ Halted s }
{
    let (first, rest) = inner(alloc, levels, tokens)?;
    let (more, rest) = more_formulas(alloc, levels, rest)?;
    let more = in_box(alloc, more)?;
    let rest = past_sign(Sign::CloseBracket, rest)?;
    let form = SelectorForm::Index(first, more);
    Ok((Selector { line, form }, rest))
}

// "." name, behind the period on this line
fn field(line: u32, tokens: &[Token]) -> Result<(Selector, &[Token]), Fault>
    ensures read { IfOk result (λ r. read_field line tokens.now ≡ Read (r.0, r.1.now)) }
    ensures absent { (s : Stop) → IsErrAnd result (IsStop s) → read_field line tokens.now ≡ Halted s }
{
    let (x, rest) = name(tokens)?;
    let form = SelectorForm::Field(x);
    Ok((Selector { line, form }, rest))
}

// Whether the tokens begin with a selector.
#[inline(always)]
fn begins_selector(tokens: &[Token]) -> bool
    ensures { result ≡ spec.begins_selector (reader.front tokens.now) }
{
    is_sign(Sign::OpenBracket, tokens)
        || is_sign(Sign::Period, tokens)
        || is_sign(Sign::Caret, tokens)
}

// "[" formula {"," formula} "]" | "." name | "^"
#[cycle(formula)]
fn selector(alloc: Global, levels: u32, tokens: &[Token]) -> Result<(Selector, &[Token]), Fault>
    ensures read { IfOk result (λ r. read_selector (read_inner levels) tokens.now ≡ Read (r.0, r.1.now)) }
    ensures absent { (s : Stop) → IsErrAnd result (IsStop s) → read_selector (read_inner levels) tokens.now ≡ Halted s }
{
    let line = first_line(tokens);
    let rest = after(tokens);
    match front(tokens) {
        Some(TokenKind::Sign(Sign::OpenBracket)) => index(alloc, levels, line, rest),
        Some(TokenKind::Sign(Sign::Period)) => field(line, rest),
        Some(TokenKind::Sign(Sign::Caret)) => {
            let form = SelectorForm::Content;
            Ok((Selector { line, form }, rest))
        }
        _ => Err(unexpected(tokens)),
    }
}

// {selector}, by a loop
#[cycle(formula)]
#[inline(never)]
fn further_selectors(
    alloc: Global,
    levels: u32,
    tokens: &[Token],
) -> Result<(Vec<Selector>, &[Token]), Fault>
    ensures read { IfOk result (λ r. read_selectors (read_inner levels) tokens.now ≡ Read (selectors_of r.0.items, r.1.now)) }
    ensures absent { (s : Stop) → IsErrAnd result (IsStop s) → read_selectors (read_inner levels) tokens.now ≡ Halted s }
{
    let mut behind = Vec::new(alloc);
    let mut rest = tokens;
    for _ in 0..tokens.len() {
        if !begins_selector(rest) {
            return Ok((behind, rest));
        }
        let (read, next) = selector(alloc, levels, rest)?;
        push(&mut behind, read)?;
        rest = next;
    }
    Ok((behind, rest))
}

/// {selector}
#[cycle(formula)]
#[inline(always)]
pub fn selectors(
    alloc: Global,
    levels: u32,
    tokens: &[Token],
) -> Result<(Vec<Selector>, &[Token]), Fault>
    ensures read { IfOk result (λ r. read_selectors (read_inner levels) tokens.now ≡ Read (selectors_of r.0.items, r.1.now)) }
    ensures absent { (s : Stop) → IsErrAnd result (IsStop s) → read_selectors (read_inner levels) tokens.now ≡ Halted s }
{
    if !begins_selector(tokens) {
        return Ok((Vec::new(alloc), tokens));
    }
    further_selectors(alloc, levels, tokens)
}

/// name {selector}
pub fn designator(
    alloc: Global,
    levels: u32,
    tokens: &[Token],
) -> Result<(Designator, &[Token]), Fault>
    ensures read { IfOk result (λ r. read_designator (read_inner levels) tokens.now ≡ Read (r.0, r.1.now)) }
    ensures absent { (s : Stop) → IsErrAnd result (IsStop s) → read_designator (read_inner levels) tokens.now ≡ Halted s }
{
    let (name, rest) = name(tokens)?;
    let (behind, rest) = selectors(alloc, levels, rest)?;
    Ok((Designator { name, behind }, rest))
}

// An application of a name.
#[inline(never)]
fn applied(
    alloc: Global,
    f: Name,
    first: Formula,
    more: Vec<Formula>,
    behind: Vec<Selector>,
) -> Result<Factor, AllocError>
    ensures { IfOk result (λ a. a ≡ plain.application f.line f first (more_formulas_of more.items) (selectors_of behind.items)) }
{
    let given = Box::new(
        alloc,
        Application {
            first,
            more,
            behind,
        },
    )?;
    let form = FactorForm::Application(f, given);
    Ok(Factor { form })
}

// "(" formula {"," formula} ")" {selector}, behind a name and the bracket
#[cycle(formula)]
#[inline(never)]
fn application(
    alloc: Global,
    levels: u32,
    f: Name,
    tokens: &[Token],
) -> Result<(Factor, &[Token]), Fault>
    ensures read { IfOk result (λ r. read_application (read_inner levels) f tokens.now ≡ Read (r.0, r.1.now)) }
    ensures absent { (s : Stop) → IsErrAnd result (IsStop s) → read_application (read_inner levels) f tokens.now ≡ Halted s }
    ensures line { IfOk result (λ r. factor_line r.0 ≡ f.line) }
{
    let (first, rest) = inner(alloc, levels, tokens)?;
    let (more, rest) = more_formulas(alloc, levels, rest)?;
    let rest = past_sign(Sign::CloseParenthesis, rest)?;
    let (behind, rest) = selectors(alloc, levels, rest)?;
    Ok((applied(alloc, f, first, more, behind)?, rest))
}

// {selector}, behind a name
#[cycle(formula)]
#[inline(never)]
fn place(
    alloc: Global,
    levels: u32,
    name: Name,
    tokens: &[Token],
) -> Result<(Factor, &[Token]), Fault>
    ensures read { IfOk result (λ r. read_place (read_inner levels) name tokens.now ≡ Read (r.0, r.1.now)) }
    ensures absent { (s : Stop) → IsErrAnd result (IsStop s) → read_place (read_inner levels) name tokens.now ≡ Halted s }
    ensures line { IfOk result (λ r. factor_line r.0 ≡ name.line) }
{
    let (behind, rest) = selectors(alloc, levels, tokens)?;
    let form = FactorForm::Place(Designator { name, behind });
    Ok((Factor { form }, rest))
}

// What begins with this name.
#[cycle(formula)]
fn named(alloc: Global, levels: u32, x: Name, tokens: &[Token]) -> Result<(Factor, &[Token]), Fault>
    ensures read { IfOk result (λ r. read_named (read_inner levels) x tokens.now ≡ Read (r.0, r.1.now)) }
    ensures absent { (s : Stop) → IsErrAnd result (IsStop s) → read_named (read_inner levels) x tokens.now ≡ Halted s }
    ensures line { IfOk result (λ r. factor_line r.0 ≡ x.line) }
{
    if is_sign(Sign::OpenParenthesis, tokens) {
        application(alloc, levels, x, after(tokens))
    } else {
        place(alloc, levels, x, tokens)
    }
}

// "(" formula ")", behind the bracket on this line
#[cycle(formula)]
#[inline(never)]
fn bracketed(
    alloc: Global,
    levels: u32,
    line: u32,
    tokens: &[Token],
) -> Result<(Factor, &[Token]), Fault>
    ensures read { IfOk result (λ r. read_bracketed (read_inner levels) line tokens.now ≡ Read (r.0, r.1.now)) }
    ensures absent { (s : Stop) → IsErrAnd result (IsStop s) → read_bracketed (read_inner levels) line tokens.now ≡ Halted s }
    ensures line { IfOk result (λ r. factor_line r.0 ≡ line) }
{
    let (read, rest) = inner(alloc, levels, tokens)?;
    let rest = past_sign(Sign::CloseParenthesis, rest)?;
    let form = FactorForm::Bracketed(line, read);
    Ok((Factor { form }, rest))
}

// "#" name, behind the sign on this line
fn class(line: u32, tokens: &[Token]) -> Result<(Factor, &[Token]), Fault>
    ensures read { IfOk result (λ r. read_class line tokens.now ≡ Read (r.0, r.1.now)) }
    ensures absent { (s : Stop) → IsErrAnd result (IsStop s) → read_class line tokens.now ≡ Halted s }
    ensures line { IfOk result (λ r. factor_line r.0 ≡ line) }
{
    let (x, rest) = name(tokens)?;
    let form = FactorForm::Class(line, x);
    Ok((Factor { form }, rest))
}

// NOT factor, behind NOT on this line
#[cycle(formula)]
#[inline(never)]
fn negation(
    alloc: Global,
    levels: u32,
    line: u32,
    tokens: &[Token],
) -> Result<(Factor, &[Token]), Fault>
    ensures read { IfOk result (λ r. read_negation levels line tokens.now ≡ Read (r.0, r.1.now)) }
    ensures absent { (s : Stop) → IsErrAnd result (IsStop s) → read_negation levels line tokens.now ≡ Halted s }
    ensures line { IfOk result (λ r. factor_line r.0 ≡ line) }
{
    if levels == 0 {
        return Err(out_of_levels(tokens));
    }
    let (read, rest) = factor(alloc, levels - 1, tokens)?;
    let form = FactorForm::Negation(line, Box::new(alloc, read)?);
    Ok((Factor { form }, rest))
}

// number | TRUE | FALSE | NIL | "#" name | "(" formula ")" | NOT factor, or what begins with a name
#[cycle(formula)]
fn any_factor(alloc: Global, levels: u32, tokens: &[Token]) -> Result<(Factor, &[Token]), Fault>
    ensures read { IfOk result (λ r. factor_at levels tokens.now ≡ Read (r.0, r.1.now)) }
    ensures absent { (s : Stop) → IsErrAnd result (IsStop s) → factor_at levels tokens.now ≡ Halted s }
    ensures line { IfOk result (λ r. factor_line r.0 ≡ first_line tokens.now) }
{
    let [first, rest @ ..] = tokens else {
        return Err(unexpected(tokens));
    };
    let line = first.line;
    let form = match first.kind {
        TokenKind::Number(n) => FactorForm::Number(line, n),
        TokenKind::Word(Word::True) => FactorForm::Truth(line, true),
        TokenKind::Word(Word::False) => FactorForm::Truth(line, false),
        TokenKind::Word(Word::Nil) => FactorForm::Nil(line),
        TokenKind::Word(Word::Not) => return negation(alloc, levels, line, rest),
        TokenKind::Sign(Sign::Hash) => return class(line, rest),
        TokenKind::Sign(Sign::OpenParenthesis) => return bracketed(alloc, levels, line, rest),
        TokenKind::Name(symbol) => return named(alloc, levels, Name { line, symbol }, rest),
        _ => return Err(unexpected(tokens)),
    };
    Ok((Factor { form }, rest))
}

// A factor, with this many levels inside it at most.
#[cycle(formula)]
pub fn factor(alloc: Global, levels: u32, tokens: &[Token]) -> Result<(Factor, &[Token]), Fault>
    ensures read { IfOk result (λ r. read_factor levels tokens.now ≡ Read (r.0, r.1.now)) }
    ensures absent { (s : Stop) → IsErrAnd result (IsStop s) → read_factor levels tokens.now ≡ Halted s }
    ensures line { IfOk result (λ r. factor_line r.0 ≡ first_line tokens.now) }
{
    any_factor(alloc, levels, tokens)
}

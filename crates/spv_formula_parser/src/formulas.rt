// Formulas.

ghost use Rattle.std.specs.Prelude.{◌≡◌, Some, None, IfOk, IsErrAnd};
ghost use Rattle.spv_tree.specs.syntax.FormulaViews.{conclusion_of, right_side_of};
ghost use Rattle.spv_tree.specs.syntax.Formulas as plain;
ghost use Rattle.spv_tree.specs.syntax.Lines.{factor_line, relation_line, simple_line, term_line};
ghost use Rattle.spv_tree.specs.syntax.Steps.{first_line};
ghost use Rattle.spv_tree.specs.syntax.Model.FormulaSizes.{more_terms_of, more_factors_of};
ghost use Rattle.spv_grammar.specs.reading.Readers as reader;
ghost use Rattle.spv_grammar.specs.reading.FormulaReaders.{comparison_of, adding_of, multiplying_of, read_inner, read_factor, read_more_factors, read_term, read_more_terms, read_sum, read_simple, right_side_by, read_relation, read_conclusion, read_formula};
ghost use Rattle.spv_grammar.specs.reading.Readers.{Stop, Read, Halted};
ghost use Rattle.spv_formula_parser.specs.primitives.Faults.{IsStop};
ghost use Rattle.spv_formula_parser.specs.Formulas as spec;
ghost use Rattle.spv_formula_parser.specs.Formulas.{from_factor};

use crate::factors::factor;
use crate::primitives::constants::prefix;
use crate::primitives::fault::{Fault, out_of_levels};
use crate::primitives::front::{after, first_line, front, is_sign};
use crate::primitives::lists::push;
use spv_tree::syntax::{
    Adding, Comparison, Factor, Formula, FormulaForm, Implication, Multiplying, PlusOrMinus,
    Relation, Simple, Term,
};
use spv_tree::tokens::{Sign, Token, TokenKind, Word};
use std::alloc::{AllocError, Global};

// The operator of a relation at the front, where there is one.
#[inline(always)]
fn comparison(tokens: &[Token]) -> Option<Comparison>
    ensures { result ≡ comparison_of (reader.front tokens.now) }
{
    match front(tokens) {
        Some(TokenKind::Sign(Sign::Equal)) => Some(Comparison::Equal),
        Some(TokenKind::Sign(Sign::NotEqual)) => Some(Comparison::NotEqual),
        Some(TokenKind::Sign(Sign::Less)) => Some(Comparison::Less),
        Some(TokenKind::Sign(Sign::AtMost)) => Some(Comparison::AtMost),
        Some(TokenKind::Sign(Sign::Greater)) => Some(Comparison::Greater),
        Some(TokenKind::Sign(Sign::AtLeast)) => Some(Comparison::AtLeast),
        _ => None,
    }
}

// The operator between terms at the front, where there is one.
#[inline(always)]
fn adding(tokens: &[Token]) -> Option<Adding>
    ensures { result ≡ adding_of (reader.front tokens.now) }
{
    match front(tokens) {
        Some(TokenKind::Sign(Sign::Plus)) => Some(Adding::Plus),
        Some(TokenKind::Sign(Sign::Minus)) => Some(Adding::Minus),
        Some(TokenKind::Word(Word::Or)) => Some(Adding::Or),
        _ => None,
    }
}

// The operator between factors at the front, where there is one.
#[inline(always)]
fn multiplying(tokens: &[Token]) -> Option<Multiplying>
    ensures { result ≡ multiplying_of (reader.front tokens.now) }
{
    match front(tokens) {
        Some(TokenKind::Sign(Sign::Star)) => Some(Multiplying::Times),
        Some(TokenKind::Word(Word::Div)) => Some(Multiplying::Div),
        Some(TokenKind::Word(Word::Mod)) => Some(Multiplying::Mod),
        Some(TokenKind::Word(Word::And)) => Some(Multiplying::And),
        _ => None,
    }
}

// {("*" | DIV | MOD | AND) factor}, by a loop
#[cycle(formula)]
#[inline(never)]
fn further_factors(
    alloc: Global,
    levels: u32,
    tokens: &[Token],
) -> Result<(Vec<(Multiplying, Factor)>, &[Token]), Fault>
    ensures read { IfOk result (λ r. read_more_factors (read_factor levels) tokens.now ≡ Read (more_factors_of r.0.items, r.1.now)) }
    ensures absent { (s : Stop) → IsErrAnd result (IsStop s) → read_more_factors (read_factor levels) tokens.now ≡ Halted s }
{
    let mut more = Vec::new(alloc);
    let mut rest = tokens;
    for _ in 0..tokens.len() {
        let Some(operator) = multiplying(rest) else {
            return Ok((more, rest));
        };
        let (read, next) = factor(alloc, levels, after(rest))?;
        push(&mut more, (operator, read))?;
        rest = next;
    }
    Ok((more, rest))
}

// {("*" | DIV | MOD | AND) factor}
#[cycle(formula)]
#[inline(always)]
fn more_factors(
    alloc: Global,
    levels: u32,
    tokens: &[Token],
) -> Result<(Vec<(Multiplying, Factor)>, &[Token]), Fault>
    ensures read { IfOk result (λ r. read_more_factors (read_factor levels) tokens.now ≡ Read (more_factors_of r.0.items, r.1.now)) }
    ensures absent { (s : Stop) → IsErrAnd result (IsStop s) → read_more_factors (read_factor levels) tokens.now ≡ Halted s }
{
    if multiplying(tokens).is_none() {
        return Ok((Vec::new(alloc), tokens));
    }
    further_factors(alloc, levels, tokens)
}

// factor {("*" | DIV | MOD | AND) factor}
#[cycle(formula)]
#[inline(always)]
fn term(alloc: Global, levels: u32, tokens: &[Token]) -> Result<(Term, &[Token]), Fault>
    ensures read { IfOk result (λ r. read_term (read_factor levels) tokens.now ≡ Read (r.0, r.1.now)) }
    ensures absent { (s : Stop) → IsErrAnd result (IsStop s) → read_term (read_factor levels) tokens.now ≡ Halted s }
    ensures line { IfOk result (λ r. term_line r.0 ≡ first_line tokens.now) }
{
    let (first, rest) = factor(alloc, levels, tokens)?;
    let (more, rest) = more_factors(alloc, levels, rest)?;
    Ok((Term { first, more }, rest))
}

// {("+" | "-" | OR) term}, by a loop
#[cycle(formula)]
#[inline(never)]
fn further_terms(
    alloc: Global,
    levels: u32,
    tokens: &[Token],
) -> Result<(Vec<(Adding, Term)>, &[Token]), Fault>
    ensures read { IfOk result (λ r. read_more_terms (read_factor levels) tokens.now ≡ Read (more_terms_of r.0.items, r.1.now)) }
    ensures absent { (s : Stop) → IsErrAnd result (IsStop s) → read_more_terms (read_factor levels) tokens.now ≡ Halted s }
{
    let mut more = Vec::new(alloc);
    let mut rest = tokens;
    for _ in 0..tokens.len() {
        let Some(operator) = adding(rest) else {
            return Ok((more, rest));
        };
        let (read, next) = term(alloc, levels, after(rest))?;
        push(&mut more, (operator, read))?;
        rest = next;
    }
    Ok((more, rest))
}

// {("+" | "-" | OR) term}
#[cycle(formula)]
#[inline(always)]
fn more_terms(
    alloc: Global,
    levels: u32,
    tokens: &[Token],
) -> Result<(Vec<(Adding, Term)>, &[Token]), Fault>
    ensures read { IfOk result (λ r. read_more_terms (read_factor levels) tokens.now ≡ Read (more_terms_of r.0.items, r.1.now)) }
    ensures absent { (s : Stop) → IsErrAnd result (IsStop s) → read_more_terms (read_factor levels) tokens.now ≡ Halted s }
{
    if adding(tokens).is_none() {
        return Ok((Vec::new(alloc), tokens));
    }
    further_terms(alloc, levels, tokens)
}

// term {("+" | "-" | OR) term}, behind the sign on this line
#[cycle(formula)]
#[inline(always)]
fn sum(
    alloc: Global,
    levels: u32,
    line: u32,
    prefix: Option<PlusOrMinus>,
    tokens: &[Token],
) -> Result<(Simple, &[Token]), Fault>
    ensures read { IfOk result (λ r. read_sum (read_factor levels) line prefix tokens.now ≡ Read (r.0, r.1.now)) }
    ensures absent { (s : Stop) → IsErrAnd result (IsStop s) → read_sum (read_factor levels) line prefix tokens.now ≡ Halted s }
    ensures line { IfOk result (λ r. simple_line r.0 ≡ line) }
{
    let (first, rest) = term(alloc, levels, tokens)?;
    let (more, rest) = more_terms(alloc, levels, rest)?;
    let read = Simple {
        line,
        prefix,
        first,
        more,
    };
    Ok((read, rest))
}

// ["+" | "-"] term {("+" | "-" | OR) term}
#[cycle(formula)]
#[inline(always)]
fn simple(alloc: Global, levels: u32, tokens: &[Token]) -> Result<(Simple, &[Token]), Fault>
    ensures read { IfOk result (λ r. read_simple (read_factor levels) tokens.now ≡ Read (r.0, r.1.now)) }
    ensures absent { (s : Stop) → IsErrAnd result (IsStop s) → read_simple (read_factor levels) tokens.now ≡ Halted s }
    ensures line { IfOk result (λ r. simple_line r.0 ≡ first_line tokens.now) }
{
    let line = first_line(tokens);
    match prefix(tokens) {
        None => sum(alloc, levels, line, None, tokens),
        Some(sign) => sum(alloc, levels, line, Some(sign), after(tokens)),
    }
}

// simple, behind the operator
#[cycle(formula)]
#[inline(never)]
fn compared(
    alloc: Global,
    levels: u32,
    operator: Comparison,
    tokens: &[Token],
) -> Result<(Box<(Comparison, Simple)>, &[Token]), Fault>
    ensures operator { IfOk result (λ r. r.0.value.0 ≡ operator) }
    ensures read { IfOk result (λ r. read_simple (read_factor levels) tokens.now ≡ Read (r.0.value.1, r.1.now)) }
    ensures absent { (s : Stop) → IsErrAnd result (IsStop s) → read_simple (read_factor levels) tokens.now ≡ Halted s }
{
    let (right, rest) = simple(alloc, levels, tokens)?;
    Ok((Box::new(alloc, (operator, right))?, rest))
}

// [("=" | "<>" | "<" | "<=" | ">" | ">=") simple]
#[cycle(formula)]
fn right_side(
    alloc: Global,
    levels: u32,
    tokens: &[Token],
) -> Result<(Option<Box<(Comparison, Simple)>>, &[Token]), Fault>
    ensures read { IfOk result (λ r. right_side_by (read_factor levels) (comparison_of (reader.front tokens.now)) tokens.now ≡ Read (right_side_of r.0, r.1.now)) }
    ensures absent { (s : Stop) → IsErrAnd result (IsStop s) → right_side_by (read_factor levels) (comparison_of (reader.front tokens.now)) tokens.now ≡ Halted s }
{
    let Some(operator) = comparison(tokens) else {
        return Ok((None, tokens));
    };
    let (side, rest) = compared(alloc, levels, operator, after(tokens))?;
    Ok((Some(side), rest))
}

// simple [("=" | "<>" | "<" | "<=" | ">" | ">=") simple]
#[cycle(formula)]
fn relation(alloc: Global, levels: u32, tokens: &[Token]) -> Result<(Relation, &[Token]), Fault>
    ensures read { IfOk result (λ r. read_relation (read_factor levels) tokens.now ≡ Read (r.0, r.1.now)) }
    ensures absent { (s : Stop) → IsErrAnd result (IsStop s) → read_relation (read_factor levels) tokens.now ≡ Halted s }
    ensures line { IfOk result (λ r. relation_line r.0 ≡ first_line tokens.now) }
{
    let (left, rest) = simple(alloc, levels, tokens)?;
    let (right, rest) = right_side(alloc, levels, rest)?;
    Ok((Relation { left, right }, rest))
}

// ["->" formula]
#[cycle(formula)]
#[inline(always)]
fn conclusion(
    alloc: Global,
    levels: u32,
    tokens: &[Token],
) -> Result<(Option<Formula>, &[Token]), Fault>
    ensures read { IfOk result (λ r. read_conclusion (read_inner levels) tokens.now ≡ Read (conclusion_of r.0, r.1.now)) }
    ensures absent { (s : Stop) → IsErrAnd result (IsStop s) → read_conclusion (read_inner levels) tokens.now ≡ Halted s }
{
    if !is_sign(Sign::Arrow, tokens) {
        return Ok((None, tokens));
    }
    let (right, rest) = inner(alloc, levels, after(tokens))?;
    Ok((Some(right), rest))
}

// A formula of these sides.
fn implication(alloc: Global, left: Relation, right: Option<Formula>) -> Result<Formula, AllocError>
    ensures { IfOk result (λ f. f ≡ plain.formula (relation_line left) left (conclusion_of right)) }
{
    let whole = Box::new(alloc, Implication { left, right })?;
    Ok(Formula {
        form: FormulaForm::Implication(whole),
    })
}

// What stands behind this factor in a product, a sum, a relation and a formula.
#[cycle(formula)]
#[inline(never)]
fn behind_factor(
    alloc: Global,
    levels: u32,
    first: Factor,
    tokens: &[Token],
) -> Result<(Formula, &[Token]), Fault>
    ensures read { IfOk result (λ r. from_factor (read_factor levels) (read_inner levels) (factor_line first) first tokens.now ≡ Read (r.0, r.1.now)) }
    ensures absent { (s : Stop) → IsErrAnd result (IsStop s) → from_factor (read_factor levels) (read_inner levels) (factor_line first) first tokens.now ≡ Halted s }
{
    let line = first.line();
    let (more, rest) = more_factors(alloc, levels, tokens)?;
    let first = Term { first, more };
    let (more, rest) = more_terms(alloc, levels, rest)?;
    let left = Simple {
        line,
        prefix: None,
        first,
        more,
    };
    let (right, rest) = right_side(alloc, levels, rest)?;
    let left = Relation { left, right };
    let (right, rest) = conclusion(alloc, levels, rest)?;
    Ok((implication(alloc, left, right)?, rest))
}

// Whether an operator or an arrow stands at the front.
fn goes_on(tokens: &[Token]) -> bool
    ensures { result ≡ spec.goes_on (reader.front tokens.now) }
{
    match front(tokens) {
        Some(TokenKind::Sign(sign)) => matches!(
            sign,
            Sign::Star
                | Sign::Plus
                | Sign::Minus
                | Sign::Equal
                | Sign::NotEqual
                | Sign::Less
                | Sign::AtMost
                | Sign::Greater
                | Sign::AtLeast
                | Sign::Arrow
        ),
        Some(TokenKind::Word(word)) => {
            matches!(word, Word::Div | Word::Mod | Word::And | Word::Or)
        }
        _ => false,
    }
}

// A formula that no sign begins.
#[cycle(formula)]
fn plain_formula(alloc: Global, levels: u32, tokens: &[Token]) -> Result<(Formula, &[Token]), Fault>
    ensures read { IfOk result (λ r. spec.read_plain (read_factor levels) (read_inner levels) tokens.now ≡ Read (r.0, r.1.now)) }
    ensures absent { (s : Stop) → IsErrAnd result (IsStop s) → spec.read_plain (read_factor levels) (read_inner levels) tokens.now ≡ Halted s }
{
    let (first, rest) = factor(alloc, levels, tokens)?;
    if goes_on(rest) {
        return behind_factor(alloc, levels, first, rest);
    }
    let form = FormulaForm::Factor(Box::new(alloc, first)?);
    Ok((Formula { form }, rest))
}

// A formula that a sign begins.
#[cycle(formula)]
#[inline(never)]
fn signed_formula(
    alloc: Global,
    levels: u32,
    tokens: &[Token],
) -> Result<(Formula, &[Token]), Fault>
    ensures read { IfOk result (λ r. read_formula levels tokens.now ≡ Read (r.0, r.1.now)) }
    ensures absent { (s : Stop) → IsErrAnd result (IsStop s) → read_formula levels tokens.now ≡ Halted s }
{
    let (left, rest) = relation(alloc, levels, tokens)?;
    let (right, rest) = conclusion(alloc, levels, rest)?;
    Ok((implication(alloc, left, right)?, rest))
}

/// relation ["->" formula]
#[cycle(formula)]
pub fn formula(alloc: Global, levels: u32, tokens: &[Token]) -> Result<(Formula, &[Token]), Fault>
    ensures read { IfOk result (λ r. read_formula levels tokens.now ≡ Read (r.0, r.1.now)) }
    ensures absent { (s : Stop) → IsErrAnd result (IsStop s) → read_formula levels tokens.now ≡ Halted s }
{
    match prefix(tokens) {
        None => plain_formula(alloc, levels, tokens),
        Some(_) => signed_formula(alloc, levels, tokens),
    }
}

/// A formula one level down: with one level more it is a formula at that level.
#[cycle(formula)]
pub fn inner(alloc: Global, levels: u32, tokens: &[Token]) -> Result<(Formula, &[Token]), Fault>
    ensures read { IfOk result (λ r. read_inner levels tokens.now ≡ Read (r.0, r.1.now)) }
    ensures absent { (s : Stop) → IsErrAnd result (IsStop s) → read_inner levels tokens.now ≡ Halted s }
{
    if levels == 0 {
        return Err(out_of_levels(tokens));
    }
    formula(alloc, levels - 1, tokens)
}

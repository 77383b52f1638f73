// Statements.

ghost use Rattle.std.specs.Prelude.{◌≡◌, Some, None, IfOk, IsErrAnd};
ghost use Rattle.spv_tree.specs.syntax.Model.StatementSizes.{more_statements_of, more_arms_of};
ghost use Rattle.spv_tree.specs.syntax.StatementViews.{otherwise_of};
ghost use Rattle.spv_grammar.specs.reading.FormulaReaders.{read_formula};
ghost use Rattle.spv_grammar.specs.reading.StatementReaders.{read_more_statements, read_block_behind, read_arm, read_more_arms, read_otherwise, read_conditional, read_selection, read_lower, read_statement, read_block};
ghost use Rattle.spv_grammar.specs.reading.Readers.{Stop, Read, Halted};
ghost use Rattle.spv_formula_parser.specs.primitives.Faults.{IsStop};
ghost use Rattle.spv_parser.specs.statement_parser.Compound.{read_compound, read_with_invariant, read_assertion};

use crate::statement_parser::actions::{action, creation};
use crate::statement_parser::loops::repetition;
use spv_formula_parser::formulas::formula;
use spv_formula_parser::primitives::constants::{begins_constant, constants};
use spv_formula_parser::primitives::fault::{Fault, out_of_levels};
use spv_formula_parser::primitives::front::{
    after, first_line, front, is_sign, is_word, past_sign, past_word,
};
use spv_formula_parser::primitives::lists::push;
use spv_tree::syntax::{Arm, Block, Name, Statement, StatementForm};
use spv_tree::tokens::{Sign, Token, TokenKind, Word};
use std::alloc::Global;

// {";" statement}
#[cycle(statement)]
#[inline(never)]
pub fn more_statements(
    alloc: Global,
    levels: u32,
    tokens: &[Token],
) -> Result<(Vec<Statement>, &[Token]), Fault>
    ensures read { IfOk result (λ r. read_more_statements (read_lower levels) tokens.now ≡ Read (more_statements_of r.0.items, r.1.now)) }
    ensures absent { (s : Stop) → IsErrAnd result (IsStop s) → read_more_statements (read_lower levels) tokens.now ≡ Halted s }
{
    let mut more = Vec::new(alloc);
    let mut rest = tokens;
    for _ in 0..tokens.len() {
        if !is_sign(Sign::Semicolon, rest) {
            return Ok((more, rest));
        }
        let (read, next) = lower(alloc, levels, after(rest))?;
        push(&mut more, read)?;
        rest = next;
    }
    Ok((more, rest))
}

// BEGIN statement {";" statement} END, behind BEGIN on this line
#[cycle(statement)]
#[inline(never)]
fn block_behind(
    alloc: Global,
    levels: u32,
    line: u32,
    tokens: &[Token],
) -> Result<(Block, &[Token]), Fault>
    ensures read { IfOk result (λ r. read_block_behind (read_lower levels) line tokens.now ≡ Read (r.0, r.1.now)) }
    ensures absent { (s : Stop) → IsErrAnd result (IsStop s) → read_block_behind (read_lower levels) line tokens.now ≡ Halted s }
{
    let (first, rest) = boxed(alloc, levels, tokens)?;
    let (more, rest) = more_statements(alloc, levels, rest)?;
    let rest = past_word(Word::End, rest)?;
    Ok((Block { line, first, more }, rest))
}

/// BEGIN statement {";" statement} END
pub fn block(alloc: Global, levels: u32, tokens: &[Token]) -> Result<(Block, &[Token]), Fault>
    ensures read { IfOk result (λ r. read_block levels tokens.now ≡ Read (r.0, r.1.now)) }
    ensures absent { (s : Stop) → IsErrAnd result (IsStop s) → read_block levels tokens.now ≡ Halted s }
{
    let line = first_line(tokens);
    let rest = past_word(Word::Begin, tokens)?;
    block_behind(alloc, levels, line, rest)
}

// [constant {"," constant} ":" statement]
#[cycle(statement)]
#[inline(never)]
fn arm(alloc: Global, levels: u32, tokens: &[Token]) -> Result<(Arm, &[Token]), Fault>
    ensures read { IfOk result (λ r. read_arm (read_lower levels) tokens.now ≡ Read (r.0, r.1.now)) }
    ensures absent { (s : Stop) → IsErrAnd result (IsStop s) → read_arm (read_lower levels) tokens.now ≡ Halted s }
{
    let line = first_line(tokens);
    if !begins_constant(tokens) {
        return Ok((Arm { line, form: None }, tokens));
    }
    let (labels, rest) = constants(alloc, tokens)?;
    let rest = past_sign(Sign::Colon, rest)?;
    let (statement, rest) = boxed(alloc, levels, rest)?;
    let form = Some((labels, statement));
    Ok((Arm { line, form }, rest))
}

// {";" arm}
#[cycle(statement)]
#[inline(never)]
fn more_arms(alloc: Global, levels: u32, tokens: &[Token]) -> Result<(Vec<Arm>, &[Token]), Fault>
    ensures read { IfOk result (λ r. read_more_arms (read_lower levels) tokens.now ≡ Read (more_arms_of r.0.items, r.1.now)) }
    ensures absent { (s : Stop) → IsErrAnd result (IsStop s) → read_more_arms (read_lower levels) tokens.now ≡ Halted s }
{
    let mut more = Vec::new(alloc);
    let mut rest = tokens;
    for _ in 0..tokens.len() {
        if !is_sign(Sign::Semicolon, rest) {
            return Ok((more, rest));
        }
        let (read, next) = arm(alloc, levels, after(rest))?;
        push(&mut more, read)?;
        rest = next;
    }
    Ok((more, rest))
}

// The same in a box.
#[cycle(statement)]
#[inline(never)]
fn boxed_arms(
    alloc: Global,
    levels: u32,
    tokens: &[Token],
) -> Result<(Box<Vec<Arm>>, &[Token]), Fault>
    ensures read { IfOk result (λ r. read_more_arms (read_lower levels) tokens.now ≡ Read (more_arms_of r.0.value.items, r.1.now)) }
    ensures absent { (s : Stop) → IsErrAnd result (IsStop s) → read_more_arms (read_lower levels) tokens.now ≡ Halted s }
{
    let (read, rest) = more_arms(alloc, levels, tokens)?;
    Ok((Box::new(alloc, read)?, rest))
}

// [ELSE statement]
#[cycle(statement)]
#[inline(never)]
fn otherwise(
    alloc: Global,
    levels: u32,
    tokens: &[Token],
) -> Result<(Option<Box<Statement>>, &[Token]), Fault>
    ensures read { IfOk result (λ r. read_otherwise (read_lower levels) tokens.now ≡ Read (otherwise_of r.0, r.1.now)) }
    ensures absent { (s : Stop) → IsErrAnd result (IsStop s) → read_otherwise (read_lower levels) tokens.now ≡ Halted s }
{
    if !is_word(Word::Else, tokens) {
        return Ok((None, tokens));
    }
    let (statement, rest) = boxed(alloc, levels, after(tokens))?;
    Ok((Some(statement), rest))
}

// formula THEN statement [ELSE statement], behind IF on this line
#[cycle(statement)]
#[inline(never)]
fn conditional(
    alloc: Global,
    levels: u32,
    line: u32,
    tokens: &[Token],
) -> Result<(Statement, &[Token]), Fault>
    ensures read { IfOk result (λ r. read_conditional (read_lower levels) (read_formula levels) line tokens.now ≡ Read (r.0, r.1.now)) }
    ensures absent { (s : Stop) → IsErrAnd result (IsStop s) → read_conditional (read_lower levels) (read_formula levels) line tokens.now ≡ Halted s }
{
    let (test, rest) = formula(alloc, levels, tokens)?;
    let rest = past_word(Word::Then, rest)?;
    let (then, rest) = boxed(alloc, levels, rest)?;
    let (other, rest) = otherwise(alloc, levels, rest)?;
    let form = StatementForm::If(test, then, other);
    Ok((Statement { line, form }, rest))
}

// formula OF arm {";" arm} END, behind CASE on this line
#[cycle(statement)]
#[inline(never)]
fn selection(
    alloc: Global,
    levels: u32,
    line: u32,
    tokens: &[Token],
) -> Result<(Statement, &[Token]), Fault>
    ensures read { IfOk result (λ r. read_selection (read_lower levels) (read_formula levels) line tokens.now ≡ Read (r.0, r.1.now)) }
    ensures absent { (s : Stop) → IsErrAnd result (IsStop s) → read_selection (read_lower levels) (read_formula levels) line tokens.now ≡ Halted s }
{
    let (value, rest) = formula(alloc, levels, tokens)?;
    let rest = past_word(Word::Of, rest)?;
    let (first, rest) = arm(alloc, levels, rest)?;
    let first = Box::new(alloc, first)?;
    let (more, rest) = boxed_arms(alloc, levels, rest)?;
    let rest = past_word(Word::End, rest)?;
    let form = StatementForm::Case(value, first, more);
    Ok((Statement { line, form }, rest))
}

// BEGIN statement {";" statement} END as a statement, behind BEGIN on this line
#[cycle(statement)]
#[inline(never)]
fn compound(
    alloc: Global,
    levels: u32,
    line: u32,
    tokens: &[Token],
) -> Result<(Statement, &[Token]), Fault>
    ensures read { IfOk result (λ r. read_compound levels line tokens.now ≡ Read (r.0, r.1.now)) }
    ensures absent { (s : Stop) → IsErrAnd result (IsStop s) → read_compound levels line tokens.now ≡ Halted s }
{
    let (read, rest) = block_behind(alloc, levels, line, tokens)?;
    let form = StatementForm::Block(Box::new(alloc, read)?);
    Ok((Statement { line, form }, rest))
}

// INVARIANT formula loop, behind INVARIANT on this line
#[cycle(statement)]
#[inline(never)]
fn with_invariant(
    alloc: Global,
    levels: u32,
    line: u32,
    tokens: &[Token],
) -> Result<(Statement, &[Token]), Fault>
    ensures read { IfOk result (λ r. read_with_invariant levels line tokens.now ≡ Read (r.0, r.1.now)) }
    ensures absent { (s : Stop) → IsErrAnd result (IsStop s) → read_with_invariant levels line tokens.now ≡ Halted s }
{
    let (invariant, rest) = formula(alloc, levels, tokens)?;
    repetition(alloc, levels, line, Some(invariant), rest)
}

// ASSERT formula, behind ASSERT on this line
#[inline(never)]
fn assertion(
    alloc: Global,
    levels: u32,
    line: u32,
    tokens: &[Token],
) -> Result<(Statement, &[Token]), Fault>
    ensures read { IfOk result (λ r. read_assertion levels line tokens.now ≡ Read (r.0, r.1.now)) }
    ensures absent { (s : Stop) → IsErrAnd result (IsStop s) → read_assertion levels line tokens.now ≡ Halted s }
{
    let (read, rest) = formula(alloc, levels, tokens)?;
    let form = StatementForm::Assert(read);
    Ok((Statement { line, form }, rest))
}

// A statement, with this many levels inside it at most.
#[cycle(statement)]
fn statement(alloc: Global, levels: u32, tokens: &[Token]) -> Result<(Statement, &[Token]), Fault>
    ensures read { IfOk result (λ r. read_statement levels tokens.now ≡ Read (r.0, r.1.now)) }
    ensures absent { (s : Stop) → IsErrAnd result (IsStop s) → read_statement levels tokens.now ≡ Halted s }
{
    let line = first_line(tokens);
    let rest = after(tokens);
    match front(tokens) {
        Some(TokenKind::Name(symbol)) => action(alloc, levels, Name { line, symbol }, rest),
        Some(TokenKind::Word(Word::New)) => creation(alloc, levels, line, rest),
        Some(TokenKind::Word(Word::Begin)) => compound(alloc, levels, line, rest),
        Some(TokenKind::Word(Word::If)) => conditional(alloc, levels, line, rest),
        Some(TokenKind::Word(Word::Case)) => selection(alloc, levels, line, rest),
        Some(TokenKind::Word(Word::Invariant)) => with_invariant(alloc, levels, line, rest),
        Some(TokenKind::Word(Word::Assert)) => assertion(alloc, levels, line, rest),
        Some(TokenKind::Word(Word::While | Word::Repeat | Word::For)) => {
            repetition(alloc, levels, line, None, tokens)
        }
        _ => {
            let form = StatementForm::Empty;
            Ok((Statement { line, form }, tokens))
        }
    }
}

// A statement one level down: with one level more it is a statement at that level.
#[cycle(statement)]
pub fn lower(alloc: Global, levels: u32, tokens: &[Token]) -> Result<(Statement, &[Token]), Fault>
    ensures read { IfOk result (λ r. read_lower levels tokens.now ≡ Read (r.0, r.1.now)) }
    ensures absent { (s : Stop) → IsErrAnd result (IsStop s) → read_lower levels tokens.now ≡ Halted s }
{
    if levels == 0 {
        return Err(out_of_levels(tokens));
    }
    statement(alloc, levels - 1, tokens)
}

// The same in a box.
#[cycle(statement)]
pub fn boxed(
    alloc: Global,
    levels: u32,
    tokens: &[Token],
) -> Result<(Box<Statement>, &[Token]), Fault>
    ensures read { IfOk result (λ r. read_lower levels tokens.now ≡ Read (r.0.value, r.1.now)) }
    ensures absent { (s : Stop) → IsErrAnd result (IsStop s) → read_lower levels tokens.now ≡ Halted s }
{
    let (read, rest) = lower(alloc, levels, tokens)?;
    Ok((Box::new(alloc, read)?, rest))
}

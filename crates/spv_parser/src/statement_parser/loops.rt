// Loops.

ghost use Rattle.std.specs.Prelude.{◌≡◌, Some, None, IfOk, IsErrAnd};
ghost use Rattle.spv_grammar.specs.reading.Readers as reader;
ghost use Rattle.spv_grammar.specs.reading.FormulaReaders.{read_formula};
ghost use Rattle.spv_grammar.specs.reading.StatementReaders.{direction_of, read_to, read_while, read_repeat, read_for, loop_by, read_repetition, read_lower};
ghost use Rattle.spv_grammar.specs.reading.Readers.{Stop, Read, Halted};
ghost use Rattle.spv_formula_parser.specs.primitives.Faults.{IsStop};

use crate::statement_parser::statements::{boxed, more_statements};
use spv_formula_parser::formulas::formula;
use spv_formula_parser::primitives::fault::{Fault, unexpected};
use spv_formula_parser::primitives::front::{after, first_line, front, name, past_sign, past_word};
use spv_tree::syntax::{Direction, Formula, Loop, LoopForm, Name, Statement, StatementForm};
use spv_tree::tokens::{Sign, Token, TokenKind, Word};
use std::alloc::Global;

// TO or DOWNTO at the front, where it is there.
fn direction(tokens: &[Token]) -> Option<Direction>
    ensures { result ≡ direction_of (reader.front tokens.now) }
{
    match front(tokens) {
        Some(TokenKind::Word(Word::To)) => Some(Direction::Up),
        Some(TokenKind::Word(Word::Downto)) => Some(Direction::Down),
        _ => None,
    }
}

// formula DO statement, behind WHILE on this line
#[cycle(statement)]
#[inline(never)]
fn while_loop(
    alloc: Global,
    levels: u32,
    line: u32,
    tokens: &[Token],
) -> Result<(Loop, &[Token]), Fault>
    ensures read { IfOk result (λ r. read_while (read_lower levels) (read_formula levels) line tokens.now ≡ Read (r.0, r.1.now)) }
    ensures absent { (s : Stop) → IsErrAnd result (IsStop s) → read_while (read_lower levels) (read_formula levels) line tokens.now ≡ Halted s }
{
    let (test, rest) = formula(alloc, levels, tokens)?;
    let rest = past_word(Word::Do, rest)?;
    let (body, rest) = boxed(alloc, levels, rest)?;
    let form = LoopForm::While(test, body);
    Ok((Loop { line, form }, rest))
}

// statement {";" statement} UNTIL formula, behind REPEAT on this line
#[cycle(statement)]
#[inline(never)]
fn repeat_loop(
    alloc: Global,
    levels: u32,
    line: u32,
    tokens: &[Token],
) -> Result<(Loop, &[Token]), Fault>
    ensures read { IfOk result (λ r. read_repeat (read_lower levels) (read_formula levels) line tokens.now ≡ Read (r.0, r.1.now)) }
    ensures absent { (s : Stop) → IsErrAnd result (IsStop s) → read_repeat (read_lower levels) (read_formula levels) line tokens.now ≡ Halted s }
{
    let (first, rest) = boxed(alloc, levels, tokens)?;
    let (more, rest) = more_statements(alloc, levels, rest)?;
    let rest = past_word(Word::Until, rest)?;
    let (test, rest) = formula(alloc, levels, rest)?;
    let form = LoopForm::Repeat(first, more, test);
    Ok((Loop { line, form }, rest))
}

// (TO | DOWNTO) formula DO statement, behind the first bound of FOR on this line
#[cycle(statement)]
#[inline(never)]
fn for_behind(
    alloc: Global,
    levels: u32,
    line: u32,
    variable: Name,
    from: Formula,
    tokens: &[Token],
) -> Result<(Loop, &[Token]), Fault>
    ensures read { IfOk result (λ r. read_to (read_lower levels) (read_formula levels) line variable from (direction_of (reader.front tokens.now)) tokens.now ≡ Read (r.0, r.1.now)) }
    ensures absent { (s : Stop) → IsErrAnd result (IsStop s) → read_to (read_lower levels) (read_formula levels) line variable from (direction_of (reader.front tokens.now)) tokens.now ≡ Halted s }
{
    let Some(towards) = direction(tokens) else {
        return Err(unexpected(tokens));
    };
    let (to, rest) = formula(alloc, levels, after(tokens))?;
    let rest = past_word(Word::Do, rest)?;
    let (body, rest) = boxed(alloc, levels, rest)?;
    let form = LoopForm::For(variable, from, towards, to, body);
    Ok((Loop { line, form }, rest))
}

// name ":=" formula (TO | DOWNTO) formula DO statement, behind FOR on this line
#[cycle(statement)]
#[inline(never)]
fn for_loop(
    alloc: Global,
    levels: u32,
    line: u32,
    tokens: &[Token],
) -> Result<(Loop, &[Token]), Fault>
    ensures read { IfOk result (λ r. read_for (read_lower levels) (read_formula levels) line tokens.now ≡ Read (r.0, r.1.now)) }
    ensures absent { (s : Stop) → IsErrAnd result (IsStop s) → read_for (read_lower levels) (read_formula levels) line tokens.now ≡ Halted s }
{
    let (variable, rest) = name(tokens)?;
    let rest = past_sign(Sign::Becomes, rest)?;
    let (from, rest) = formula(alloc, levels, rest)?;
    for_behind(alloc, levels, line, variable, from, rest)
}

// The loop at the front.
#[cycle(statement)]
fn any_loop(alloc: Global, levels: u32, tokens: &[Token]) -> Result<(Loop, &[Token]), Fault>
    ensures read { IfOk result (λ r. loop_by (read_lower levels) (read_formula levels) (reader.front tokens.now) tokens.now ≡ Read (r.0, r.1.now)) }
    ensures absent { (s : Stop) → IsErrAnd result (IsStop s) → loop_by (read_lower levels) (read_formula levels) (reader.front tokens.now) tokens.now ≡ Halted s }
{
    let line = first_line(tokens);
    let rest = after(tokens);
    match front(tokens) {
        Some(TokenKind::Word(Word::While)) => while_loop(alloc, levels, line, rest),
        Some(TokenKind::Word(Word::Repeat)) => repeat_loop(alloc, levels, line, rest),
        Some(TokenKind::Word(Word::For)) => for_loop(alloc, levels, line, rest),
        _ => Err(unexpected(tokens)),
    }
}

// A loop behind its invariant, if it has one. The statement begins on this line.
#[cycle(statement)]
#[inline(never)]
pub fn repetition(
    alloc: Global,
    levels: u32,
    line: u32,
    invariant: Option<Formula>,
    tokens: &[Token],
) -> Result<(Statement, &[Token]), Fault>
    ensures read { IfOk result (λ r. read_repetition (read_lower levels) (read_formula levels) line invariant tokens.now ≡ Read (r.0, r.1.now)) }
    ensures absent { (s : Stop) → IsErrAnd result (IsStop s) → read_repetition (read_lower levels) (read_formula levels) line invariant tokens.now ≡ Halted s }
{
    let (read, rest) = any_loop(alloc, levels, tokens)?;
    let form = StatementForm::Loop(invariant, Box::new(alloc, read)?);
    Ok((Statement { line, form }, rest))
}

// Statements.

ghost use Rattle.std.specs.Prelude.{◌≡◌, OnOk};
ghost use Rattle.spv_tree.specs.syntax.Members.{in_kinds};
ghost use Rattle.spv_tree.specs.syntax.StatementSpelling.{arguments_spelling, arm_spelling, block_spelling, direction_kind, invariant_spelling, loop_spelling, more_arms_spelling, more_statements_spelling, otherwise_spelling, statement_spelling};
ghost use Rattle.spv_tree.specs.syntax.Model.StatementSizes.{more_statements_of, more_arms_of};
ghost use Rattle.spv_tree.specs.syntax.StatementViews.{given_of, otherwise_of};
ghost use Rattle.spv_tests.specs.flat.Flat.{Adds};

use crate::flat::formulas::{designator, formula};
use crate::flat::{lists, out};
use spv_tree::syntax::{
    Arm, Block, Direction, Formula, Loop, LoopForm, Several, Statement, StatementForm,
};
use spv_tree::tokens::{Sign, TokenKind, Word};
use std::alloc::AllocError;

// Adds the tokens of arguments, with their brackets, where there are any.
fn arguments(
    given: &Option<Box<Several<Formula>>>,
    out: &mut Vec<TokenKind>,
) -> Result<(), AllocError>
    ensures { OnOk result (Adds (arguments_spelling in_kinds (given_of given.now)) out.old.items out.new.items) }
{
    match given {
        None => Ok(()),
        Some(formulas) => {
            out::sign(Sign::OpenParenthesis, out)?;
            lists::several(Sign::Comma, formulas, out)?;
            out::sign(Sign::CloseParenthesis, out)?;
            Ok(())
        }
    }
}

// Adds the tokens of an invariant, where there is one.
fn invariant(invariant: &Option<Formula>, out: &mut Vec<TokenKind>) -> Result<(), AllocError>
    ensures { OnOk result (Adds (invariant_spelling in_kinds invariant.now) out.old.items out.new.items) }
{
    match invariant {
        None => Ok(()),
        Some(read) => {
            out::word(Word::Invariant, out)?;
            formula(read, out)?;
            Ok(())
        }
    }
}

// The token of a direction.
fn direction_token(direction: Direction) -> TokenKind
    ensures { result ≡ direction_kind direction }
{
    match direction {
        Direction::Up => TokenKind::Word(Word::To),
        Direction::Down => TokenKind::Word(Word::Downto),
    }
}

// Adds the tokens of a statement.
#[cycle(statements)]
fn statement(tree: &Statement, out: &mut Vec<TokenKind>) -> Result<(), AllocError>
    ensures { OnOk result (Adds (statement_spelling in_kinds tree.now) out.old.items out.new.items) }
{
    match &tree.form {
        StatementForm::Empty => Ok(()),
        StatementForm::Assignment(place, value) => {
            designator(place, out)?;
            out::sign(Sign::Becomes, out)?;
            formula(value, out)?;
            Ok(())
        }
        StatementForm::Call(x, formulas) => {
            out::token(TokenKind::Name(x.symbol), out)?;
            arguments(formulas, out)?;
            Ok(())
        }
        StatementForm::New(place) => {
            out::word(Word::New, out)?;
            out::sign(Sign::OpenParenthesis, out)?;
            designator(place, out)?;
            out::sign(Sign::CloseParenthesis, out)?;
            Ok(())
        }
        StatementForm::Block(inner) => block(inner, out),
        StatementForm::If(test, then, other) => {
            out::word(Word::If, out)?;
            formula(test, out)?;
            out::word(Word::Then, out)?;
            statement(then, out)?;
            otherwise(other, out)?;
            Ok(())
        }
        StatementForm::Case(value, first, more) => {
            out::word(Word::Case, out)?;
            formula(value, out)?;
            out::word(Word::Of, out)?;
            arm(first, out)?;
            more_arms(more, out)?;
            out::word(Word::End, out)?;
            Ok(())
        }
        StatementForm::Loop(always, inner) => {
            invariant(always, out)?;
            repetition(inner, out)?;
            Ok(())
        }
        StatementForm::Assert(asserted) => {
            out::word(Word::Assert, out)?;
            formula(asserted, out)?;
            Ok(())
        }
    }
}

// Adds the tokens of a block.
#[cycle(statements)]
pub fn block(tree: &Block, out: &mut Vec<TokenKind>) -> Result<(), AllocError>
    ensures { OnOk result (Adds (block_spelling in_kinds tree.now) out.old.items out.new.items) }
{
    out::word(Word::Begin, out)?;
    statement(&tree.first, out)?;
    more_statements(&tree.more, out)?;
    out::word(Word::End, out)?;
    Ok(())
}

// Adds the tokens of an arm.
#[cycle(statements)]
fn arm(tree: &Arm, out: &mut Vec<TokenKind>) -> Result<(), AllocError>
    ensures { OnOk result (Adds (arm_spelling in_kinds tree.now) out.old.items out.new.items) }
{
    match &tree.form {
        None => Ok(()),
        Some((constants, behind)) => {
            lists::several(Sign::Comma, constants, out)?;
            out::sign(Sign::Colon, out)?;
            statement(behind, out)?;
            Ok(())
        }
    }
}

// Adds the tokens of a loop.
#[cycle(statements)]
fn repetition(tree: &Loop, out: &mut Vec<TokenKind>) -> Result<(), AllocError>
    ensures { OnOk result (Adds (loop_spelling in_kinds tree.now) out.old.items out.new.items) }
{
    match &tree.form {
        LoopForm::While(test, body) => {
            out::word(Word::While, out)?;
            formula(test, out)?;
            out::word(Word::Do, out)?;
            statement(body, out)?;
            Ok(())
        }
        LoopForm::Repeat(first, more, test) => {
            out::word(Word::Repeat, out)?;
            statement(first, out)?;
            more_statements(more, out)?;
            out::word(Word::Until, out)?;
            formula(test, out)?;
            Ok(())
        }
        LoopForm::For(x, from, direction, to, body) => {
            out::word(Word::For, out)?;
            out::token(TokenKind::Name(x.symbol), out)?;
            out::sign(Sign::Becomes, out)?;
            formula(from, out)?;
            out::token(direction_token(*direction), out)?;
            formula(to, out)?;
            out::word(Word::Do, out)?;
            statement(body, out)?;
            Ok(())
        }
    }
}

// Adds the tokens of ELSE, where it is there.
#[cycle(statements)]
fn otherwise(other: &Option<Box<Statement>>, out: &mut Vec<TokenKind>) -> Result<(), AllocError>
    ensures { OnOk result (Adds (otherwise_spelling in_kinds (otherwise_of other.now)) out.old.items out.new.items) }
{
    match other {
        None => Ok(()),
        Some(behind) => {
            out::word(Word::Else, out)?;
            statement(behind, out)?;
            Ok(())
        }
    }
}

// Adds the tokens of statements, each behind a semicolon.
#[cycle(statements)]
fn more_statements(more: &[Statement], out: &mut Vec<TokenKind>) -> Result<(), AllocError>
    ensures { OnOk result (Adds (more_statements_spelling in_kinds (more_statements_of more.now)) out.old.items out.new.items) }
{
    for part in more {
        out::sign(Sign::Semicolon, out)?;
        statement(part, out)?;
    }
    Ok(())
}

// Adds the tokens of arms, each behind a semicolon.
#[cycle(statements)]
fn more_arms(more: &[Arm], out: &mut Vec<TokenKind>) -> Result<(), AllocError>
    ensures { OnOk result (Adds (more_arms_spelling in_kinds (more_arms_of more.now)) out.old.items out.new.items) }
{
    for part in more {
        out::sign(Sign::Semicolon, out)?;
        arm(part, out)?;
    }
    Ok(())
}

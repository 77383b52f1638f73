// Statements, with each name resolved.

use crate::Direction;
use crate::typed::expressions::{Call, Designator, Expression};
use crate::typed::formulas::Annotation;
use spv_logic::TypeId;
use spv_logic::list::List;
use spv_logic::names::Symbol;
use std::marker::Model;

/// A statement.
#[cycle(statements)]
#[derive(Drop)]
pub struct Statement {
    /// What it is.
    pub form: StatementForm,
}

/// What a statement is; a number in front is the line of its first token, where no part of it has that.
#[cycle(statements)]
#[derive(Drop)]
pub enum StatementForm {
    /// An assignment.
    Assign(Box<Designator>, Box<Expression>),
    /// A procedure's call.
    Perform(Call),
    /// NEW of a pointer to cells of this type.
    New(u32, Box<Designator>, TypeId),
    /// Statements one after the other; none is the empty statement.
    Block(Vec<Statement>),
    /// An IF; without ELSE the second statement is empty.
    If(u32, Box<Expression>, Box<Statement>, Box<Statement>),
    /// A CASE, with the arms that have labels.
    Case(u32, Box<Expression>, Box<Vec<Arm>>),
    /// A WHILE.
    While(u32, Box<Option<Annotation>>, Box<Expression>, Box<Statement>),
    /// A REPEAT.
    Repeat(u32, Box<Option<Annotation>>, Box<Statement>, Box<Expression>),
    /// A FOR.
    For(u32, Box<Option<Annotation>>, Box<Counting>, Box<Statement>),
    /// An ASSERT.
    Assert(Box<Annotation>),
}

impl Model for Statement {
    ghost use Rattle.spv_program.specs.Statements as plain;

    ghost Value = { plain.Statement };

    ghost use Rattle.spv_logic.specs.list.Ways.{coded_by};
    ghost use Rattle.spv_program.specs.typed.Model.StatementCodes.{way_statement};

    ghost coded = { coded_by way_statement };

    ghost use Rattle.spv_program.specs.typed.StatementViews.{statement_of};

    ghost view = { λ s. statement_of s.form };

    ghost use Rattle.spv_program.specs.typed.Model.StatementSizes.{statement_size};

    ghost size = { statement_size };

    ghost use Rattle.spv_program.specs.typed.Model.StatementFalls.{statement_falls};

    ghost size_decreases = { λ s h. statement_falls s };
}

/// An arm of a CASE.
#[cycle(statements)]
#[derive(Drop)]
pub struct Arm {
    /// Its labels, in order.
    pub labels: List<i64>,
    /// Its statement.
    pub body: Box<Statement>,
}

/// `FOR variable := first TO last`, or DOWNTO.
#[derive(Drop)]
pub struct Counting {
    /// The variable that counts.
    pub variable: Symbol,
    /// Which way it goes.
    pub direction: Direction,
    /// The value that it takes first.
    pub first: Expression,
    /// The last value that it may take.
    pub last: Expression,
}

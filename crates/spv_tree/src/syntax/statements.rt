// Statements.

use crate::syntax::formulas::{Designator, Formula};
use crate::syntax::lists::Several;
use crate::syntax::names::{Constant, Name};
use crate::syntax::operators::Direction;
use std::marker::Model;

/// An assignment, a call, a NEW, a block, an IF, a CASE, a loop, an ASSERT, or nothing.
#[cycle(statements)]
#[derive(Drop)]
pub struct Statement {
    /// The line of its first token, or of the token that follows.
    pub line: u32,
    /// What it is.
    pub form: StatementForm,
}

/// What a statement is.
#[cycle(statements)]
#[derive(Drop)]
pub enum StatementForm {
    /// Nothing.
    Empty,
    /// `designator ":=" formula`
    Assignment(Box<Designator>, Formula),
    /// `name ["(" formula {"," formula} ")"]`
    Call(Name, Option<Box<Several<Formula>>>),
    /// `NEW "(" designator ")"`
    New(Box<Designator>),
    /// `block`
    Block(Box<Block>),
    /// `IF formula THEN statement [ELSE statement]`
    If(Formula, Box<Statement>, Option<Box<Statement>>),
    /// `CASE formula OF arm {";" arm} END`
    Case(Formula, Box<Arm>, Box<Vec<Arm>>),
    /// `[INVARIANT formula] loop`
    Loop(Option<Formula>, Box<Loop>),
    /// `ASSERT formula`
    Assert(Formula),
}

impl Model for Statement {
    ghost use Rattle.spv_tree.specs.syntax.Statements as plain;

    ghost Value = { plain.Statement };

    ghost use Rattle.spv_logic.specs.list.Ways.{coded_by};
    ghost use Rattle.spv_tree.specs.syntax.Model.StatementCodes.{way_statement};

    ghost coded = { coded_by way_statement };

    ghost use Rattle.spv_tree.specs.syntax.StatementViews.{statement_of};

    ghost view = { λ a. statement_of a.line a.form };

    ghost use Rattle.spv_tree.specs.syntax.Model.StatementSizes.{statement_size};

    ghost size = { statement_size };

    ghost use Rattle.spv_tree.specs.syntax.Model.StatementFalls.{statement_falls};

    ghost size_decreases = { λ a h. statement_falls a };
}

/// `BEGIN statement {";" statement} END`
#[cycle(statements)]
#[derive(Drop)]
pub struct Block {
    /// The line of its first token.
    pub line: u32,
    /// The first statement.
    pub first: Box<Statement>,
    /// The other statements, in order.
    pub more: Vec<Statement>,
}

impl Model for Block {
    ghost use Rattle.spv_tree.specs.syntax.Statements as plain;

    ghost Value = { plain.Block };

    ghost use Rattle.spv_logic.specs.list.Ways.{coded_by};
    ghost use Rattle.spv_tree.specs.syntax.Model.StatementCodes.{way_block};

    ghost coded = { coded_by way_block };

    ghost use Rattle.spv_tree.specs.syntax.Model.StatementSizes.{more_statements_of};

    ghost view = { λ a. plain.block a.line a.first.value (more_statements_of a.more.items) };

    ghost use Rattle.spv_tree.specs.syntax.Model.StatementSizes.{block_size};

    ghost size = { block_size };

    ghost use Rattle.spv_tree.specs.syntax.Model.StatementFalls.{block_falls};

    ghost size_decreases = { λ a h. block_falls a };
}

/// `[constant {"," constant} ":" statement]`
#[cycle(statements)]
#[derive(Drop)]
pub struct Arm {
    /// The line of its first token, or of the token that follows.
    pub line: u32,
    /// The labels and the statement, where they are there.
    pub form: Option<(Several<Constant>, Box<Statement>)>,
}

impl Model for Arm {
    ghost use Rattle.spv_tree.specs.syntax.Statements as plain;

    ghost Value = { plain.Arm };

    ghost use Rattle.spv_logic.specs.list.Ways.{coded_by};
    ghost use Rattle.spv_tree.specs.syntax.Model.StatementCodes.{way_arm};

    ghost coded = { coded_by way_arm };

    ghost use Rattle.spv_tree.specs.syntax.StatementViews.{arm_of};

    ghost view = { λ a. arm_of a.line a.form };

    ghost use Rattle.spv_tree.specs.syntax.Model.StatementSizes.{arm_size};

    ghost size = { arm_size };

    ghost use Rattle.spv_tree.specs.syntax.Model.StatementFalls.{arm_falls};

    ghost size_decreases = { λ a h. arm_falls a };
}

/// A WHILE, a REPEAT or a FOR.
#[cycle(statements)]
#[derive(Drop)]
pub struct Loop {
    /// The line of its first token.
    pub line: u32,
    /// What it is.
    pub form: LoopForm,
}

/// What a loop is.
#[cycle(statements)]
#[derive(Drop)]
pub enum LoopForm {
    /// `WHILE formula DO statement`
    While(Formula, Box<Statement>),
    /// `REPEAT statement {";" statement} UNTIL formula`
    Repeat(Box<Statement>, Vec<Statement>, Formula),
    /// `FOR name ":=" formula (TO | DOWNTO) formula DO statement`
    For(Name, Formula, Direction, Formula, Box<Statement>),
}

impl Model for Loop {
    ghost use Rattle.spv_tree.specs.syntax.Statements as plain;

    ghost Value = { plain.Loop };

    ghost use Rattle.spv_logic.specs.list.Ways.{coded_by};
    ghost use Rattle.spv_tree.specs.syntax.Model.StatementCodes.{way_loop};

    ghost coded = { coded_by way_loop };

    ghost use Rattle.spv_tree.specs.syntax.StatementViews.{loop_of};

    ghost view = { λ a. loop_of a.line a.form };

    ghost use Rattle.spv_tree.specs.syntax.Model.StatementSizes.{loop_size};

    ghost size = { loop_size };

    ghost use Rattle.spv_tree.specs.syntax.Model.StatementFalls.{loop_falls};

    ghost size_decreases = { λ a h. loop_falls a };
}

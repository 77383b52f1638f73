// Expressions of a program's own text, with each name resolved.

use crate::{Arithmetic, Comparison, Connective};
use spv_logic::names::Symbol;
use spv_logic::{RoutineId, TypeId};
use std::marker::Model;

/// An expression.
#[cycle(expressions)]
#[derive(Drop)]
pub struct Expression {
    /// What it is.
    pub form: ExpressionForm,
}

/// What an expression is.
#[cycle(expressions)]
#[derive(Drop)]
pub enum ExpressionForm {
    /// A numeral with its sign, or a constant.
    Numeral(i64),
    /// TRUE or FALSE.
    Boolean(bool),
    /// NIL, as a pointer to cells of this type.
    Nil(TypeId),
    /// What a place holds.
    Read(Designator),
    /// A function's result.
    Result(Call),
    /// A function's result, followed by `^`.
    Through(Box<Through>),
    /// A sign `-` that does not belong to a numeral.
    Negative(Box<Expression>),
    /// Two numbers calculated to one.
    Calculated(Arithmetic, Box<Expression>, Box<Expression>),
    /// Two values compared.
    Compared(Comparison, Box<Expression>, Box<Expression>),
    /// NOT.
    Negated(Box<Expression>),
    /// Two truth values joined.
    Joined(Connective, Box<Expression>, Box<Expression>),
}

/// What stands behind the pointer that a function's call comes to.
#[cycle(expressions)]
#[derive(Drop)]
pub struct Through {
    /// The call.
    pub call: Call,
    /// The line of `^`.
    pub line: u32,
    /// The type of the cells.
    pub of: TypeId,
    /// The selectors behind `^`, in order.
    pub selectors: Vec<Selector>,
}

impl Model for Expression {
    ghost use Rattle.spv_program.specs.Expressions as plain;

    ghost Value = { plain.Expression };

    ghost use Rattle.spv_logic.specs.list.Ways.{coded_by};
    ghost use Rattle.spv_program.specs.typed.Model.ExpressionCodes.{way_expression};

    ghost coded = { coded_by way_expression };

    ghost use Rattle.spv_program.specs.typed.ExpressionViews.{expression_of};

    ghost view = { λ e. expression_of e.form };

    ghost use Rattle.spv_program.specs.typed.Model.ExpressionSizes.{expression_size};

    ghost size = { expression_size };

    ghost use Rattle.spv_program.specs.typed.Model.ExpressionFalls.{expression_falls};

    ghost size_decreases = { λ e h. expression_falls e };
}

/// A name with selectors.
#[cycle(expressions)]
#[derive(Drop)]
pub struct Designator {
    /// The line of the name.
    pub line: u32,
    /// The name.
    pub name: Symbol,
    /// The selectors, in order.
    pub selectors: Vec<Selector>,
}

impl Model for Designator {
    ghost use Rattle.spv_program.specs.Expressions as plain;

    ghost Value = { plain.Designator };

    ghost use Rattle.spv_logic.specs.list.Ways.{coded_by};
    ghost use Rattle.spv_program.specs.typed.Model.ExpressionCodes.{way_designator};

    ghost coded = { coded_by way_designator };

    ghost use Rattle.spv_program.specs.typed.ExpressionViews.{selectors_of};

    ghost view = { λ d. plain.designator d.line d.name (selectors_of d.selectors.items) };

    ghost use Rattle.spv_program.specs.typed.Model.ExpressionSizes.{designator_size};

    ghost size = { designator_size };

    ghost use Rattle.spv_program.specs.typed.Model.ExpressionFalls.{designator_falls};

    ghost size_decreases = { λ d h. designator_falls d };
}

/// A step from a structure to a part of it, or from a pointer to its cell.
#[cycle(expressions)]
#[derive(Drop)]
pub enum Selector {
    /// `[e]`, behind an array of this type.
    Index(TypeId, Box<Expression>),
    /// `.f`, behind a record of this type.
    Field(TypeId, Symbol),
    /// `^` on this line, behind a pointer to cells of this type.
    Cell(u32, TypeId),
}

/// A call of a routine.
#[cycle(expressions)]
#[derive(Drop)]
pub struct Call {
    /// The routine.
    pub routine: RoutineId,
    /// The line of its name.
    pub line: u32,
    /// The arguments, in order.
    pub arguments: Vec<Argument>,
}

impl Model for Call {
    ghost use Rattle.spv_program.specs.Expressions as plain;

    ghost Value = { plain.Call };

    ghost use Rattle.spv_logic.specs.list.Ways.{coded_by};
    ghost use Rattle.spv_program.specs.typed.Model.ExpressionCodes.{way_call};

    ghost coded = { coded_by way_call };

    ghost use Rattle.spv_program.specs.typed.ExpressionViews.{arguments_of};

    ghost view = { λ c. plain.call c.routine c.line (arguments_of c.arguments.items) };

    ghost use Rattle.spv_program.specs.typed.Model.ExpressionSizes.{call_size};

    ghost size = { call_size };

    ghost use Rattle.spv_program.specs.typed.Model.ExpressionFalls.{call_falls};

    ghost size_decreases = { λ c h. call_falls c };
}

/// An argument of a call.
#[cycle(expressions)]
#[derive(Drop)]
pub enum Argument {
    /// For a value parameter.
    Value(Box<Expression>),
    /// For a VAR parameter.
    Place(Designator),
}

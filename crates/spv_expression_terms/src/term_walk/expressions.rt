// The terms of expressions and places, head by head, with variables in the place of calls.

ghost use Rattle.std.specs.Prelude.{OnOk, drop};
ghost use Rattle.spv_logic.specs.declared.operators.Head.TheVariants as head;
ghost use Rattle.spv_program.specs.Expressions.{Selectors};
ghost use Rattle.spv_program.specs.Terms.{alone, unary, binary, comparing, name_in};
ghost use Rattle.spv_program.specs.typed.ExpressionViews.{selector_before, selectors_of};
ghost use Rattle.spv_expression_terms.specs.term_walk.OuterCalls.{filled, filled_behind, filled_place, first_variable};
ghost use Rattle.spv_expression_terms.specs.term_walk.Numerals.{ExpressionFits, PlaceFits, SelectorsFit};
ghost use Rattle.spv_expression_terms.specs.term_walk.Selectors.{step_of, steps_of};
ghost use Rattle.spv_expression_terms.specs.term_walk.Written.{Adds, Writes};

use crate::postfix::Piece;
use crate::sort_table::SortTable;
use crate::term_walk::classes::write_classes;
use crate::term_walk::heads::{
    arithmetic_head, connective_head, truth_head, variable_head, write, write_numeral,
};
use crate::term_walk::outer_calls::{
    behind_one, first_head, for_first, for_other_selectors, for_others, for_selector,
};
use spv_logic::Head;
use spv_program::Comparison;
use spv_program::typed::{Designator, Expression, ExpressionForm, Selector, Through};
use std::alloc::AllocError;

// An operand, with the variables for its calls.
#[derive(Clone, Copy)]
struct Operand<'v, 'e> {
    variables: &'v [Head],
    of: &'e Expression,
}

// Writes the term of an expression, with these variables in the place of its outermost calls.
#[cycle(expressions)]
pub(crate) fn expression(
    pieces: &mut Vec<Piece>,
    names: &SortTable<'_>,
    variables: &[Head],
    e: &Expression,
) -> Result<(), AllocError>
    ensures writes { OnOk result (Writes (filled (name_in names.now) variables.now e.now) pieces.old.items pieces.new.items) }
    ensures fits { OnOk result (ExpressionFits e.now) }
{
    match &e.form {
        ExpressionForm::Numeral(z) => write_numeral(pieces, z),
        ExpressionForm::Boolean(b) => write(pieces, truth_head(*b), 0),
        ExpressionForm::Nil(t) => write(pieces, Head::Nil(*t), 0),
        ExpressionForm::Read(d) => place(pieces, names, variables, d),
        ExpressionForm::Result(_) => write(pieces, first_head(variables), 0),
        ExpressionForm::Through(t) => through(pieces, names, variables, t),
        ExpressionForm::Negative(a) => {
            write_numeral(pieces, &0)?;
            expression(pieces, names, variables, a)?;
            write(pieces, Head::Sub, 2)
        }
        ExpressionForm::Calculated(o, a, b) => two(
            pieces,
            names,
            arithmetic_head(*o),
            Operand {
                variables: for_first(variables, a),
                of: a,
            },
            Operand {
                variables: for_others(variables, a),
                of: b,
            },
        ),
        ExpressionForm::Compared(o, a, b) => compared(
            pieces,
            names,
            *o,
            Operand {
                variables: for_first(variables, a),
                of: a,
            },
            Operand {
                variables: for_others(variables, a),
                of: b,
            },
        ),
        ExpressionForm::Negated(a) => {
            expression(pieces, names, variables, a)?;
            write(pieces, Head::Not, 1)
        }
        ExpressionForm::Joined(o, a, b) => two(
            pieces,
            names,
            connective_head(*o),
            Operand {
                variables: for_first(variables, a),
                of: a,
            },
            Operand {
                variables: for_others(variables, a),
                of: b,
            },
        ),
    }
}

// Writes the term of a head over those of two operands.
#[cycle(expressions)]
fn two(
    pieces: &mut Vec<Piece>,
    names: &SortTable<'_>,
    head: Head,
    a: Operand,
    b: Operand,
) -> Result<(), AllocError>
    ensures writes { OnOk result (Writes (binary head (filled (name_in names.now) a.entry.variables.now a.entry.of.now) (filled (name_in names.now) b.entry.variables.now b.entry.of.now))
        pieces.old.items pieces.new.items) }
    ensures left { OnOk result (ExpressionFits a.entry.of.now) }
    ensures right { OnOk result (ExpressionFits b.entry.of.now) }
{
    expression(pieces, names, a.variables, a.of)?;
    expression(pieces, names, b.variables, b.of)?;
    write(pieces, head, 2)
}

// Writes the term of "these two are not equal".
#[cycle(expressions)]
fn different(
    pieces: &mut Vec<Piece>,
    names: &SortTable<'_>,
    a: Operand,
    b: Operand,
) -> Result<(), AllocError>
    ensures writes { OnOk result (Writes (unary head.Not (binary head.Eq (filled (name_in names.now) a.entry.variables.now a.entry.of.now) (filled (name_in names.now) b.entry.variables.now b.entry.of.now)))
        pieces.old.items pieces.new.items) }
    ensures left { OnOk result (ExpressionFits a.entry.of.now) }
    ensures right { OnOk result (ExpressionFits b.entry.of.now) }
{
    two(pieces, names, Head::Eq, a, b)?;
    write(pieces, Head::Not, 1)
}

// Writes the term of a comparison; `>` and `>=` are turned round.
#[cycle(expressions)]
fn compared(
    pieces: &mut Vec<Piece>,
    names: &SortTable<'_>,
    operator: Comparison,
    a: Operand,
    b: Operand,
) -> Result<(), AllocError>
    ensures writes { OnOk result (Writes (comparing operator (filled (name_in names.now) a.entry.variables.now a.entry.of.now) (filled (name_in names.now) b.entry.variables.now b.entry.of.now))
        pieces.old.items pieces.new.items) }
    ensures left { OnOk result (ExpressionFits a.entry.of.now) }
    ensures right { OnOk result (ExpressionFits b.entry.of.now) }
{
    match operator {
        Comparison::Equal => two(pieces, names, Head::Eq, a, b),
        Comparison::NotEqual => different(pieces, names, a, b),
        Comparison::Less => two(pieces, names, Head::Lt, a, b),
        Comparison::AtMost => two(pieces, names, Head::Le, a, b),
        Comparison::Greater => two(pieces, names, Head::Lt, b, a),
        Comparison::AtLeast => two(pieces, names, Head::Le, b, a),
    }
}

// Writes the term of what stands at a place.
#[cycle(expressions)]
pub(crate) fn place(
    pieces: &mut Vec<Piece>,
    names: &SortTable<'_>,
    variables: &[Head],
    d: &Designator,
) -> Result<(), AllocError>
    ensures writes { OnOk result (Writes (filled_place (name_in names.now) variables.now d.now) pieces.old.items pieces.new.items) }
    ensures fits { OnOk result (PlaceFits d.now) }
{
    path(
        pieces,
        names,
        variables,
        variable_head(names, d.name),
        d.selectors.as_slice(),
    )
}

// Writes the term of a variable behind selectors: the classes of the `^` from the last to the first,
// the variable, and then one step after the other.
#[cycle(expressions)]
fn path(
    pieces: &mut Vec<Piece>,
    names: &SortTable<'_>,
    variables: &[Head],
    root: Head,
    selectors: &[Selector],
) -> Result<(), AllocError>
    ensures writes { OnOk result (Writes (filled_behind (name_in names.now) variables.now (alone root) (selectors_of selectors.now))
        pieces.old.items pieces.new.items) }
    ensures fits { OnOk result (SelectorsFit (selectors_of selectors.now)) }
{
    write_classes(pieces, selectors)?;
    write(pieces, root, 0)?;
    write_steps(pieces, names, variables, selectors)
}

// Writes the term of what stands behind the pointer that a call comes to.
#[cycle(expressions)]
fn through(
    pieces: &mut Vec<Piece>,
    names: &SortTable<'_>,
    variables: &[Head],
    t: &Through,
) -> Result<(), AllocError>
    ensures writes { OnOk result (Writes (filled_behind (name_in names.now) (drop 1 variables.now)
        (binary head.Cell (alone (head.ClassVar t.now.of 0)) (alone (first_variable variables.now))) (selectors_of t.now.selectors.items))
        pieces.old.items pieces.new.items) }
    ensures fits { OnOk result (SelectorsFit (selectors_of t.now.selectors.items)) }
{
    let selectors = t.selectors.as_slice();
    write_classes(pieces, selectors)?;
    write(pieces, Head::ClassVar(t.of, 0), 0)?;
    write(pieces, first_head(variables), 0)?;
    write(pieces, Head::Cell, 2)?;
    write_steps(pieces, names, behind_one(variables), selectors)
}

// Writes the step that a selector is.
#[cycle(expressions)]
fn write_step(
    pieces: &mut Vec<Piece>,
    names: &SortTable<'_>,
    variables: &[Head],
    selector: &Selector,
) -> Result<(), AllocError>
    ensures writes { OnOk result (Adds (step_of (name_in names.now) variables.now selector.now) pieces.old.items pieces.new.items) }
    ensures fits { OnOk result ((others : Selectors) → SelectorsFit others → SelectorsFit (selector_before selector.now others)) }
{
    match selector {
        Selector::Index(_, e) => {
            expression(pieces, names, variables, e)?;
            write(pieces, Head::Select, 2)
        }
        Selector::Field(_, f) => write(pieces, Head::Field(*f), 1),
        Selector::Cell(_, _) => write(pieces, Head::Cell, 2),
    }
}

// Writes the steps that selectors are.
#[cycle(expressions)]
fn write_steps(
    pieces: &mut Vec<Piece>,
    names: &SortTable<'_>,
    variables: &[Head],
    selectors: &[Selector],
) -> Result<(), AllocError>
    ensures writes { OnOk result (Adds (steps_of (name_in names.now) variables.now selectors.now) pieces.old.items pieces.new.items) }
    ensures fits { OnOk result (SelectorsFit (selectors_of selectors.now)) }
{
    let mut left = variables;
    for selector in selectors {
        write_step(pieces, names, for_selector(left, selector), selector)?;
        left = for_other_selectors(left, selector);
    }
    Ok(())
}

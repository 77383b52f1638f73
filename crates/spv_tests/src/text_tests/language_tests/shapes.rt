//! Which tree a text has, where its tokens alone could be those of another.

use crate::text_tests::language_tests::texts::program_of;
use spv_parser::language::LanguageFault;
use spv_tree::syntax::{
    Adding, Direction, Formula, FormulaForm, LoopForm, Program, RoutineMark, Statement,
    StatementForm,
};
use std::alloc::Global;
use std::test::Fail;

// What is looked for in a tree.
#[derive(Clone, Copy)]
enum Shape {
    // The asserted formula is `.. -> (.. -> ..)`, without the brackets.
    ArrowOnTheRight,
    // The asserted formula is one factor, OR, and two factors that AND joins.
    AndInsideOr,
    // The first statement is an IF without ELSE, whose THEN part is one with ELSE.
    InnerElse,
    // The first statement is a FOR that goes down.
    Down,
    // Three routines begin inside one another, two end, one is announced and one ends.
    Nested,
}

// What stands right of the arrow, where there is one.
fn conclusion(read: &Formula) -> Option<&Formula> {
    match &read.form {
        FormulaForm::Factor(_) => None,
        FormulaForm::Implication(whole) => match &whole.right {
            Some(behind) => Some(behind),
            None => None,
        },
    }
}

// Whether a formula is `.. -> (.. -> ..)`.
fn has_arrow_on_the_right(read: &Formula) -> bool {
    match conclusion(read) {
        Some(behind) => conclusion(behind).is_some(),
        None => false,
    }
}

// Whether a formula is one factor, OR, and two factors that AND joins.
fn has_and_inside_or(read: &Formula) -> bool {
    let FormulaForm::Implication(whole) = &read.form else {
        return false;
    };
    let sum = &whole.left.left;
    match sum.more.as_slice() {
        [(Adding::Or, term)] => sum.first.more.is_empty() && term.more.len() == 1,
        _ => false,
    }
}

// Whether a statement is an IF with an ELSE.
fn has_else(statement: &Statement) -> bool {
    match &statement.form {
        StatementForm::If(_, _, Some(_)) => true,
        _ => false,
    }
}

// Whether a statement is this.
fn is_shape(statement: &Statement, shape: Shape) -> bool {
    match (&statement.form, shape) {
        (StatementForm::Assert(read), Shape::ArrowOnTheRight) => has_arrow_on_the_right(read),
        (StatementForm::Assert(read), Shape::AndInsideOr) => has_and_inside_or(read),
        (StatementForm::If(_, then, None), Shape::InnerElse) => has_else(then),
        (StatementForm::Loop(_, repetition), Shape::Down) => match &repetition.form {
            LoopForm::For(_, _, Direction::Down, _, _) => true,
            _ => false,
        },
        _ => false,
    }
}

// Whether a program has this.
fn has_shape(tree: &Program, shape: Shape) -> bool {
    match shape {
        Shape::Nested => matches!(
            tree.routines.as_slice(),
            [
                RoutineMark::Begins(_, _, _),
                RoutineMark::Begins(_, _, _),
                RoutineMark::Begins(_, _, _),
                RoutineMark::Ends(_),
                RoutineMark::Ends(_),
                RoutineMark::Announced(_, _),
                RoutineMark::Ends(_),
            ]
        ),
        _ => is_shape(&tree.block.first, shape),
    }
}

// Whether a text is a program that has this.
fn found(alloc: Global, text: &str, shape: Shape) -> Result<bool, LanguageFault> {
    let tree = program_of(alloc, text)?;
    Ok(has_shape(&tree, shape))
}

#[test]
fn shapes(rt: HostRuntime) -> Result<(), Fail> {
    for (text, shape, there) in [
        (
            "PROGRAM a; BEGIN ASSERT a -> b -> c END.",
            Shape::ArrowOnTheRight,
            true,
        ),
        (
            "PROGRAM a; BEGIN ASSERT (a -> b) -> c END.",
            Shape::ArrowOnTheRight,
            false,
        ),
        (
            "PROGRAM a; BEGIN ASSERT a OR b AND c END.",
            Shape::AndInsideOr,
            true,
        ),
        (
            "PROGRAM a; BEGIN IF a THEN IF b THEN p ELSE q END.",
            Shape::InnerElse,
            true,
        ),
        (
            "PROGRAM a; BEGIN IF a THEN BEGIN IF b THEN p END ELSE q END.",
            Shape::InnerElse,
            false,
        ),
        (
            "PROGRAM a; BEGIN FOR i := 9 DOWNTO 1 DO p END.",
            Shape::Down,
            true,
        ),
        (
            "PROGRAM a; PROCEDURE p; VAR x: t; PROCEDURE q; FUNCTION f: t; BEGIN END; BEGIN END; \
             FUNCTION g: t; FORWARD; BEGIN END; BEGIN END.",
            Shape::Nested,
            true,
        ),
    ] {
        assert!(rt; found(rt.alloc(), text, shape)? == there, "at {text}");
    }
    Ok(())
}

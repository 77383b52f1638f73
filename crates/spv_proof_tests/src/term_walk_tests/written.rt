// Terms in postfix order.

use spv_expression_terms::postfix::Piece;
use spv_expression_terms::sort_table::SortTable;
use spv_expression_terms::term_walk::{has_no_calls, write_expression, write_formula};
use spv_logic::names::Symbol;
use spv_logic::{Head, Sort, TypeId};
use spv_program::Comparison;
use spv_program::ordered_map::Named;
use spv_program::typed::{Designator, Expression, ExpressionForm, Formula, FormulaForm, Selector};
use std::alloc::{AllocError, Global};
use std::test::Fail;

fn boxed(alloc: Global, form: FormulaForm) -> Result<Box<Formula>, AllocError> {
    Ok(Box::new(alloc, Formula { form })?)
}

// `2 > x`, where `x` is the name 0.
fn comparison(alloc: Global) -> Result<Formula, AllocError> {
    let left = boxed(alloc, FormulaForm::Numeral(2))?;
    let right = boxed(alloc, FormulaForm::Named(1, Symbol(0)))?;
    Ok(Formula {
        form: FormulaForm::Compared(Comparison::Greater, left, right),
    })
}

// The pieces of a formula.
fn formula_pieces(alloc: Global, formula: &Formula) -> Result<Vec<Piece>, AllocError> {
    let none: Named<Sort> = Named::new(alloc);
    let names = SortTable::of(alloc, &none);
    let mut pieces = Vec::new(alloc);
    write_formula(&mut pieces, &names, formula)?;
    Ok(pieces)
}

// Whether a piece is this head over so many terms.
fn is_piece(piece: &Piece, head: Head, count: usize) -> bool {
    piece.head == head && piece.count == count
}

// Whether pieces are those of `x < 2`.
fn is_turned(pieces: &[Piece]) -> bool {
    match pieces {
        [x, two, less] => {
            is_piece(x, Head::Var(Symbol(0), Sort::Int, 0), 0)
                && is_piece(two, Head::Num(2), 0)
                && is_piece(less, Head::Lt, 2)
        }
        _ => false,
    }
}

// `p^.f`, where `p` is the name 0 and points to cells of type 4, and `f` is the name 1.
fn field_of_cell(alloc: Global) -> Result<Expression, AllocError> {
    let mut selectors = Vec::new(alloc);
    selectors.push(Selector::Cell(1, TypeId(4)))?;
    selectors.push(Selector::Field(TypeId(4), Symbol(1)))?;
    Ok(Expression {
        form: ExpressionForm::Read(Designator {
            line: 1,
            name: Symbol(0),
            selectors,
        }),
    })
}

// The pieces of an expression, where it makes no call.
fn expression_pieces(alloc: Global, expression: &Expression) -> Result<Vec<Piece>, AllocError> {
    let none: Named<Sort> = Named::new(alloc);
    let names = SortTable::of(alloc, &none);
    let mut pieces = Vec::new(alloc);
    if has_no_calls(expression) {
        write_expression(&mut pieces, &names, expression)?;
    }
    Ok(pieces)
}

// Whether pieces are those of a field of a cell.
fn is_field_of_cell(pieces: &[Piece]) -> bool {
    match pieces {
        [class, p, cell, field] => {
            is_piece(class, Head::ClassVar(TypeId(4), 0), 0)
                && is_piece(p, Head::Var(Symbol(0), Sort::Int, 0), 0)
                && is_piece(cell, Head::Cell, 2)
                && is_piece(field, Head::Field(Symbol(1)), 1)
        }
        _ => false,
    }
}

#[test]
fn a_comparison_that_is_turned_round(rt: HostRuntime) -> Result<(), Fail> {
    let formula = comparison(rt.alloc())?;
    let pieces = formula_pieces(rt.alloc(), &formula)?;
    assert!(rt; is_turned(pieces.as_slice()));
    Ok(())
}

#[test]
fn a_field_behind_a_pointer(rt: HostRuntime) -> Result<(), Fail> {
    let expression = field_of_cell(rt.alloc())?;
    let pieces = expression_pieces(rt.alloc(), &expression)?;
    assert!(rt; is_field_of_cell(pieces.as_slice()));
    Ok(())
}

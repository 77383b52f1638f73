// Terms in the arena.

use spv_expression_terms::sort_table::SortTable;
use spv_expression_terms::term_walk::{exit_formula_term, expression_term, formula_term};
use spv_logic::list::List;
use spv_logic::{Decl, Sort};
use spv_program::ordered_map::Named;
use spv_program::typed::{Expression, ExpressionForm, Formula, FormulaForm};
use spv_term::{Shapes, TermFault, Terms};
use std::alloc::Global;
use std::test::Fail;

// An arena for ten terms.
fn arena(alloc: Global) -> Terms {
    let symbols: List<Decl> = List::new(alloc);
    Terms::new(alloc, Shapes::from_vec(Vec::new(alloc)), symbols, 10)
}

// The number of the term of TRUE.
fn truth(terms: &mut Terms, alloc: Global, names: &SortTable<'_>) -> Result<u32, TermFault> {
    let formula = Formula {
        form: FormulaForm::Boolean(true),
    };
    let term = formula_term(terms, alloc, names, &formula)?;
    Ok(term.0)
}

// The number of the term of FALSE in an EXIT.
fn exit_truth(
    terms: &mut Terms,
    alloc: Global,
    names: &SortTable<'_>,
    starts: &Named<()>,
) -> Result<u32, TermFault> {
    let formula = Formula {
        form: FormulaForm::Boolean(false),
    };
    let term = exit_formula_term(terms, alloc, names, starts, &formula)?;
    Ok(term.0)
}

// The number of the term of 7.
fn seven(terms: &mut Terms, alloc: Global, names: &SortTable<'_>) -> Result<u32, TermFault> {
    let expression = Expression {
        form: ExpressionForm::Numeral(7),
    };
    let term = expression_term(terms, alloc, names, &expression)?;
    Ok(term.0)
}

// Whether the terms of all three get numbers in order.
fn are_made(
    terms: &mut Terms,
    alloc: Global,
    names: &SortTable<'_>,
    starts: &Named<()>,
) -> Result<bool, TermFault> {
    let first = truth(terms, alloc, names)?;
    let second = exit_truth(terms, alloc, names, starts)?;
    let third = seven(terms, alloc, names)?;
    Ok(first == 0 && second == 1 && third == 2)
}

// The same in an arena of its own.
fn are_made_anew(alloc: Global) -> bool {
    let mut terms = arena(alloc);
    let none: Named<Sort> = Named::new(alloc);
    let names = SortTable::of(alloc, &none);
    let starts: Named<()> = Named::new(alloc);
    match are_made(&mut terms, alloc, &names, &starts) {
        Ok(made) => made,
        Err(_) => false,
    }
}

#[test]
fn three_calls(rt: HostRuntime) -> Result<(), Fail> {
    assert!(rt; are_made_anew(rt.alloc()));
    Ok(())
}

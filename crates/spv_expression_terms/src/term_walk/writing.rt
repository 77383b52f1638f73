// Terms written in postfix order.

ghost use Rattle.std.specs.Prelude.{◌≡◌, ◌++◌, OnOk};
ghost use Rattle.spv_program.specs.Terms.{formula_term, name_in};
ghost use Rattle.spv_expression_terms.specs.postfix.Postfix.{postfix};
ghost use Rattle.spv_expression_terms.specs.term_walk.ExpressionTerms.{expression_term, place_term};
ghost use Rattle.spv_expression_terms.specs.term_walk.Names.{head_in};
ghost use Rattle.spv_expression_terms.specs.term_walk.OuterCalls.{filled, filled_place};
ghost use Rattle.spv_expression_terms.specs.term_walk.Numerals.{FormulaFits, ExpressionFits, PlaceFits};

use crate::postfix::Piece;
use crate::sort_table::SortTable;
use crate::term_walk::expressions::{expression, place};
use crate::term_walk::formulas::formula;
use spv_logic::Head;
use spv_program::ordered_map::Named;
use spv_program::typed::{Designator, Expression, Formula};
use std::alloc::AllocError;

/// Writes the term of a formula behind what is there. Its names are variables, whose sorts the table has.
#[tactic(auto, using(crate::proofs::term_walk::Ends::ends_at))]
pub fn write_formula(
    pieces: &mut Vec<Piece>,
    names: &SortTable<'_>,
    f: &Formula,
) -> Result<(), AllocError>
    ensures written { OnOk result (pieces.new.items ≡ pieces.old.items ++ postfix (formula_term (name_in names.now) f.now)) }
    ensures numerals { OnOk result (FormulaFits f.now) }
{
    let starts: Named<()> = Named::new(*pieces.allocator());
    formula(pieces, names, &starts, f)
}

/// Writes the term of a formula behind what is there. Those of its names that `starts` has stand for
/// what they were at the entry, as value parameters do in EXIT.
#[tactic(auto, using(crate::proofs::term_walk::Ends::ends_at))]
pub fn write_exit_formula(
    pieces: &mut Vec<Piece>,
    names: &SortTable<'_>,
    starts: &Named<()>,
    f: &Formula,
) -> Result<(), AllocError>
    ensures written { OnOk result (pieces.new.items ≡ pieces.old.items ++ postfix (formula_term (head_in names.now starts.now) f.now)) }
    ensures numerals { OnOk result (FormulaFits f.now) }
{
    formula(pieces, names, starts, f)
}

/// Writes the term of an expression behind what is there, with these variables in the place of its outermost calls, in
/// the order in which they are made. The table has the sorts of its own variables.
#[tactic(auto, using(crate::proofs::term_walk::Ends::ends_at))]
pub fn write_filled(
    pieces: &mut Vec<Piece>,
    names: &SortTable<'_>,
    variables: &[Head],
    e: &Expression,
) -> Result<(), AllocError>
    ensures written { OnOk result (pieces.new.items ≡ pieces.old.items ++ postfix (filled (name_in names.now) variables.now e.now)) }
    ensures numerals { OnOk result (ExpressionFits e.now) }
{
    expression(pieces, names, variables, e)
}

/// Writes the term of an expression without calls behind what is there. The table has the sorts of its
/// variables. Where a call stood, it would write FALSE.
pub fn write_expression(
    pieces: &mut Vec<Piece>,
    names: &SortTable<'_>,
    e: &Expression,
) -> Result<(), AllocError>
    ensures written { OnOk result (pieces.new.items ≡ pieces.old.items ++ postfix (expression_term (name_in names.now) e.now)) }
    ensures numerals { OnOk result (ExpressionFits e.now) }
{
    write_filled(pieces, names, &[], e)
}

/// Writes the term of what stands at a place behind what is there, with these variables in the place of the outermost calls
/// in its selectors.
#[tactic(auto, using(crate::proofs::term_walk::Ends::ends_at))]
pub fn write_filled_place(
    pieces: &mut Vec<Piece>,
    names: &SortTable<'_>,
    variables: &[Head],
    d: &Designator,
) -> Result<(), AllocError>
    ensures written { OnOk result (pieces.new.items ≡ pieces.old.items ++ postfix (filled_place (name_in names.now) variables.now d.now)) }
    ensures numerals { OnOk result (PlaceFits d.now) }
{
    place(pieces, names, variables, d)
}

/// Writes the term of what stands at a place, whose selectors make no calls, behind what is there.
pub fn write_place(
    pieces: &mut Vec<Piece>,
    names: &SortTable<'_>,
    d: &Designator,
) -> Result<(), AllocError>
    ensures written { OnOk result (pieces.new.items ≡ pieces.old.items ++ postfix (place_term (name_in names.now) d.now)) }
    ensures numerals { OnOk result (PlaceFits d.now) }
{
    write_filled_place(pieces, names, &[], d)
}

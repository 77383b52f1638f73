// The terms of formulas, head by head.

ghost use Rattle.std.specs.Prelude.{OnOk};
ghost use Rattle.spv_logic.specs.Terms.{term};
ghost use Rattle.spv_logic.specs.declared.operators.Head.TheVariants as head;
ghost use Rattle.spv_program.specs.typed.FormulaViews.{formulas_of};
ghost use Rattle.spv_program.specs.Terms.{alone, unary, binary, comparing, formula_term, formula_terms};
ghost use Rattle.spv_expression_terms.specs.term_walk.Names.{head_in};
ghost use Rattle.spv_expression_terms.specs.term_walk.Numerals.{FormulaFits, FormulasFit};
ghost use Rattle.spv_expression_terms.specs.term_walk.Written.{Writes, WritesAll};

use crate::postfix::Piece;
use crate::sort_table::SortTable;
use crate::term_walk::heads::{
    arithmetic_head, connective_head, known_head, name_head, truth_head, write, write_numeral,
};
use spv_logic::Head;
use spv_program::Comparison;
use spv_program::ordered_map::Named;
use spv_program::typed::{Formula, FormulaForm};
use std::alloc::AllocError;

// Writes the term of a formula.
#[cycle(formulas)]
pub(crate) fn formula(
    pieces: &mut Vec<Piece>,
    names: &SortTable<'_>,
    starts: &Named<()>,
    f: &Formula,
) -> Result<(), AllocError>
    ensures writes { OnOk result (Writes (formula_term (head_in names.now starts.now) f.now) pieces.old.items pieces.new.items) }
    ensures fits { OnOk result (FormulaFits f.now) }
{
    match &f.form {
        FormulaForm::Numeral(z) => write_numeral(pieces, z),
        FormulaForm::Boolean(b) => write(pieces, truth_head(*b), 0),
        FormulaForm::Nil(t) => write(pieces, Head::Nil(*t), 0),
        FormulaForm::Named(_, x) => write(pieces, name_head(names, starts, *x), 0),
        FormulaForm::Class(_, t) => write(pieces, Head::ClassVar(*t, 0), 0),
        FormulaForm::Element(a, i) => two(pieces, names, starts, Head::Select, a, i),
        FormulaForm::Field(r, f) => one(pieces, names, starts, Head::Field(*f), r),
        FormulaForm::Content(_, t, q) => {
            write(pieces, Head::ClassVar(*t, 0), 0)?;
            formula(pieces, names, starts, q)?;
            write(pieces, Head::Cell, 2)
        }
        FormulaForm::Applied(f, fs) => all(pieces, names, starts, Head::App(*f), fs.as_slice()),
        FormulaForm::Known(b, fs) => all(pieces, names, starts, known_head(*b), fs.as_slice()),
        FormulaForm::Negative(f) => {
            write_numeral(pieces, &0)?;
            formula(pieces, names, starts, f)?;
            write(pieces, Head::Sub, 2)
        }
        FormulaForm::Calculated(o, f, g) => {
            two(pieces, names, starts, arithmetic_head(*o), f, g)
        }
        FormulaForm::Compared(o, f, g) => compared(pieces, names, starts, *o, f, g),
        FormulaForm::Negated(f) => one(pieces, names, starts, Head::Not, f),
        FormulaForm::Joined(o, f, g) => two(pieces, names, starts, connective_head(*o), f, g),
        FormulaForm::Implied(f, g) => two(pieces, names, starts, Head::Implies, f, g),
    }
}

// Writes the term of a head over that of a formula.
#[cycle(formulas)]
fn one(
    pieces: &mut Vec<Piece>,
    names: &SortTable<'_>,
    starts: &Named<()>,
    head: Head,
    f: &Formula,
) -> Result<(), AllocError>
    ensures writes { OnOk result (Writes (unary head (formula_term (head_in names.now starts.now) f.now)) pieces.old.items pieces.new.items) }
    ensures fits { OnOk result (FormulaFits f.now) }
{
    formula(pieces, names, starts, f)?;
    write(pieces, head, 1)
}

// Writes the term of a head over those of two formulas.
#[cycle(formulas)]
fn two(
    pieces: &mut Vec<Piece>,
    names: &SortTable<'_>,
    starts: &Named<()>,
    head: Head,
    f: &Formula,
    g: &Formula,
) -> Result<(), AllocError>
    ensures writes { OnOk result (Writes (binary head (formula_term (head_in names.now starts.now) f.now) (formula_term (head_in names.now starts.now) g.now))
        pieces.old.items pieces.new.items) }
    ensures left { OnOk result (FormulaFits f.now) }
    ensures right { OnOk result (FormulaFits g.now) }
{
    formula(pieces, names, starts, f)?;
    formula(pieces, names, starts, g)?;
    write(pieces, head, 2)
}

// Writes the term of "these two are not equal".
#[cycle(formulas)]
fn different(
    pieces: &mut Vec<Piece>,
    names: &SortTable<'_>,
    starts: &Named<()>,
    f: &Formula,
    g: &Formula,
) -> Result<(), AllocError>
    ensures writes { OnOk result (Writes (unary head.Not (binary head.Eq (formula_term (head_in names.now starts.now) f.now) (formula_term (head_in names.now starts.now) g.now)))
        pieces.old.items pieces.new.items) }
    ensures left { OnOk result (FormulaFits f.now) }
    ensures right { OnOk result (FormulaFits g.now) }
{
    two(pieces, names, starts, Head::Eq, f, g)?;
    write(pieces, Head::Not, 1)
}

// Writes the term of a comparison; `>` and `>=` are turned round.
#[cycle(formulas)]
fn compared(
    pieces: &mut Vec<Piece>,
    names: &SortTable<'_>,
    starts: &Named<()>,
    operator: Comparison,
    f: &Formula,
    g: &Formula,
) -> Result<(), AllocError>
    ensures writes { OnOk result (Writes (comparing operator (formula_term (head_in names.now starts.now) f.now) (formula_term (head_in names.now starts.now) g.now))
        pieces.old.items pieces.new.items) }
    ensures left { OnOk result (FormulaFits f.now) }
    ensures right { OnOk result (FormulaFits g.now) }
{
    match operator {
        Comparison::Equal => two(pieces, names, starts, Head::Eq, f, g),
        Comparison::NotEqual => different(pieces, names, starts, f, g),
        Comparison::Less => two(pieces, names, starts, Head::Lt, f, g),
        Comparison::AtMost => two(pieces, names, starts, Head::Le, f, g),
        Comparison::Greater => two(pieces, names, starts, Head::Lt, g, f),
        Comparison::AtLeast => two(pieces, names, starts, Head::Le, g, f),
    }
}

// Writes the terms of formulas.
#[cycle(formulas)]
fn operands(
    pieces: &mut Vec<Piece>,
    names: &SortTable<'_>,
    starts: &Named<()>,
    fs: &[Formula],
) -> Result<(), AllocError>
    ensures writes { OnOk result (WritesAll (formula_terms (head_in names.now starts.now) (formulas_of fs.now)) pieces.old.items pieces.new.items) }
    ensures fits { OnOk result (FormulasFit (formulas_of fs.now)) }
{
    for f in fs {
        formula(pieces, names, starts, f)?;
    }
    Ok(())
}

// Writes the term of a head over those of formulas.
#[cycle(formulas)]
fn all(
    pieces: &mut Vec<Piece>,
    names: &SortTable<'_>,
    starts: &Named<()>,
    head: Head,
    fs: &[Formula],
) -> Result<(), AllocError>
    ensures writes { OnOk result (Writes (term head (formula_terms (head_in names.now starts.now) (formulas_of fs.now))) pieces.old.items pieces.new.items) }
    ensures fits { OnOk result (FormulasFit (formulas_of fs.now)) }
{
    operands(pieces, names, starts, fs)?;
    write(pieces, head, fs.len())
}

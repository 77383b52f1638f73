// What rules say, head by head.

ghost use Rattle.std.specs.Prelude.{◌≡◌, ◌++◌, OnOk};
ghost use Rattle.spv_program.specs.declared.operators.Comparison.TheVariants as comparison;
ghost use Rattle.spv_program.specs.Formulas as plain;
ghost use Rattle.spv_program.specs.Terms.{formula_term, name_in};
ghost use Rattle.spv_expression_terms.specs.postfix.Postfix.{postfix};
ghost use Rattle.spv_expression_terms.specs.term_walk.Numerals.{FormulaFits};
ghost use Rattle.spv_rule_files.specs.Stated.{stated, unguarded};

use crate::{RuleForm, TypedRule};
use spv_expression_terms::postfix::{Piece, put};
use spv_expression_terms::sort_table::SortTable;
use spv_expression_terms::term_walk::write_formula;
use spv_logic::Head;
use spv_program::typed::Formula;
use std::alloc::{AllocError, Global};

// Writes the term of "these two are equal".
#[tactic(auto, using(spv_expression_terms::proofs::postfix::Postfixes::puts_binary))]
fn write_equal(
    pieces: &mut Vec<Piece>,
    names: &SortTable<'_>,
    left: &Formula,
    right: &Formula,
) -> Result<(), AllocError>
    ensures written { OnOk result (pieces.new.items ≡ pieces.old.items ++ postfix (formula_term (name_in names.now) (plain.Compared comparison.Equal left.now right.now))) }
    ensures left { OnOk result (FormulaFits left.now) }
    ensures right { OnOk result (FormulaFits right.now) }
{
    write_formula(pieces, names, left)?;
    write_formula(pieces, names, right)?;
    put(pieces, Head::Eq, 2)?;
    Ok(())
}

// Writes the term of what a rule says, without its condition.
fn write_unguarded(
    pieces: &mut Vec<Piece>,
    names: &SortTable<'_>,
    form: &RuleForm,
) -> Result<(), AllocError>
    ensures written { OnOk result (pieces.new.items ≡ pieces.old.items ++ postfix (formula_term (name_in names.now) (unguarded form.now))) }
    ensures numerals { OnOk result (FormulaFits (unguarded form.now)) }
{
    match form {
        RuleForm::Replace(left, right) => write_equal(pieces, names, left, right),
        RuleForm::Infer(inferred) => write_formula(pieces, names, inferred),
    }
}

// Writes the term of what a rule says under a condition.
#[tactic(auto, using(spv_expression_terms::proofs::postfix::Postfixes::puts_binary))]
fn write_implied(
    pieces: &mut Vec<Piece>,
    names: &SortTable<'_>,
    guard: &Formula,
    form: &RuleForm,
) -> Result<(), AllocError>
    ensures written { OnOk result (pieces.new.items ≡ pieces.old.items ++ postfix (formula_term (name_in names.now) (plain.Implied guard.now (unguarded form.now)))) }
    ensures guard { OnOk result (FormulaFits guard.now) }
    ensures form { OnOk result (FormulaFits (unguarded form.now)) }
{
    write_formula(pieces, names, guard)?;
    write_unguarded(pieces, names, form)?;
    put(pieces, Head::Implies, 2)?;
    Ok(())
}

// Writes the term of what a rule says.
pub(crate) fn write_stated(
    alloc: Global,
    pieces: &mut Vec<Piece>,
    rule: &TypedRule,
) -> Result<(), AllocError>
    ensures written { OnOk result (pieces.new.items ≡ pieces.old.items ++ postfix (formula_term (name_in rule.now.variables) (stated rule.now))) }
    ensures numerals { OnOk result (FormulaFits (stated rule.now)) }
{
    let names = SortTable::of(alloc, &rule.variables);
    match &rule.guard {
        None => write_unguarded(pieces, &names, &rule.form),
        Some(guard) => write_implied(pieces, &names, guard, &rule.form),
    }
}

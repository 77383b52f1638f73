// Formulas.

ghost use Rattle.std.specs.Prelude.{OnOk};
ghost use Rattle.spv_tree.specs.syntax.Members.{in_kinds};
ghost use Rattle.spv_tree.specs.syntax.FormulaSpelling.{conclusion_spelling, designator_spelling, factor_spelling, formula_spelling, more_formulas_spelling, relation_spelling, selector_spelling, selectors_spelling, simple_spelling, term_spelling};
ghost use Rattle.spv_tree.specs.syntax.FormulaViews.{conclusion_of};
ghost use Rattle.spv_tree.specs.syntax.Model.FormulaSizes.{more_formulas_of, selectors_of};
ghost use Rattle.spv_tests.specs.flat.Flat.{Adds};

use crate::flat::names::prefix;
use crate::flat::out;
use crate::flat::spelled::Spelled;
use spv_tree::syntax::{
    Designator, Factor, FactorForm, Formula, FormulaForm, Relation, Selector, SelectorForm, Simple,
    Term, items,
};
use spv_tree::tokens::{Sign, TokenKind, Word};
use std::alloc::AllocError;

// Adds the tokens of a formula.
#[cycle(formulas)]
pub fn formula(tree: &Formula, out: &mut Vec<TokenKind>) -> Result<(), AllocError>
    ensures { OnOk result (Adds (formula_spelling in_kinds tree.now) out.old.items out.new.items) }
{
    match &tree.form {
        FormulaForm::Factor(alone) => factor(alone, out),
        FormulaForm::Implication(whole) => {
            relation(&whole.left, out)?;
            conclusion(&whole.right, out)
        }
    }
}

// Adds the arrow and the tokens behind it, where they are there.
#[cycle(formulas)]
fn conclusion(tree: &Option<Formula>, out: &mut Vec<TokenKind>) -> Result<(), AllocError>
    ensures { OnOk result (Adds (conclusion_spelling in_kinds (conclusion_of tree.now)) out.old.items out.new.items) }
{
    match tree {
        None => Ok(()),
        Some(right) => {
            out::sign(Sign::Arrow, out)?;
            formula(right, out)?;
            Ok(())
        }
    }
}

// Adds the tokens of a relation.
#[cycle(formulas)]
fn relation(tree: &Relation, out: &mut Vec<TokenKind>) -> Result<(), AllocError>
    ensures { OnOk result (Adds (relation_spelling in_kinds tree.now) out.old.items out.new.items) }
{
    simple(&tree.left, out)?;
    match &tree.right {
        None => Ok(()),
        Some(side) => {
            out::token(out::comparison(side.0), out)?;
            simple(&side.1, out)?;
            Ok(())
        }
    }
}

// Adds the tokens of a sum.
#[cycle(formulas)]
fn simple(tree: &Simple, out: &mut Vec<TokenKind>) -> Result<(), AllocError>
    ensures { OnOk result (Adds (simple_spelling in_kinds tree.now) out.old.items out.new.items) }
{
    prefix(tree.prefix, out)?;
    term(&tree.first, out)?;
    for (operator, part) in &tree.more {
        out::token(out::adding(*operator), out)?;
        term(part, out)?;
    }
    Ok(())
}

// Adds the tokens of a product.
#[cycle(formulas)]
fn term(tree: &Term, out: &mut Vec<TokenKind>) -> Result<(), AllocError>
    ensures { OnOk result (Adds (term_spelling in_kinds tree.now) out.old.items out.new.items) }
{
    factor(&tree.first, out)?;
    for (operator, part) in &tree.more {
        out::token(out::multiplying(*operator), out)?;
        factor(part, out)?;
    }
    Ok(())
}

// Adds the tokens of a factor.
#[cycle(formulas)]
fn factor(tree: &Factor, out: &mut Vec<TokenKind>) -> Result<(), AllocError>
    ensures { OnOk result (Adds (factor_spelling in_kinds tree.now) out.old.items out.new.items) }
{
    match &tree.form {
        FactorForm::Number(_, n) => out::token(TokenKind::Number(*n), out),
        FactorForm::Truth(_, value) => out::token(out::truth(*value), out),
        FactorForm::Nil(_) => out::word(Word::Nil, out),
        FactorForm::Class(_, x) => {
            out::sign(Sign::Hash, out)?;
            out::token(TokenKind::Name(x.symbol), out)?;
            Ok(())
        }
        FactorForm::Place(place) => designator(place, out),
        FactorForm::Application(f, given) => {
            out::token(TokenKind::Name(f.symbol), out)?;
            out::sign(Sign::OpenParenthesis, out)?;
            formula(&given.first, out)?;
            more_formulas(&given.more, out)?;
            out::sign(Sign::CloseParenthesis, out)?;
            selectors(&given.behind, out)?;
            Ok(())
        }
        FactorForm::Bracketed(_, inside) => {
            out::sign(Sign::OpenParenthesis, out)?;
            formula(inside, out)?;
            out::sign(Sign::CloseParenthesis, out)?;
            Ok(())
        }
        FactorForm::Negation(_, negated) => {
            out::word(Word::Not, out)?;
            factor(negated, out)?;
            Ok(())
        }
    }
}

// Adds the tokens of a designator.
#[cycle(formulas)]
pub fn designator(tree: &Designator, out: &mut Vec<TokenKind>) -> Result<(), AllocError>
    ensures { OnOk result (Adds (designator_spelling in_kinds tree.now) out.old.items out.new.items) }
{
    out::token(TokenKind::Name(tree.name.symbol), out)?;
    selectors(&tree.behind, out)?;
    Ok(())
}

// Adds the tokens of a selector.
#[cycle(formulas)]
fn selector(tree: &Selector, out: &mut Vec<TokenKind>) -> Result<(), AllocError>
    ensures { OnOk result (Adds (selector_spelling in_kinds tree.now) out.old.items out.new.items) }
{
    match &tree.form {
        SelectorForm::Index(first, more) => {
            out::sign(Sign::OpenBracket, out)?;
            formula(first, out)?;
            more_formulas(items(more), out)?;
            out::sign(Sign::CloseBracket, out)?;
            Ok(())
        }
        SelectorForm::Field(x) => {
            out::sign(Sign::Period, out)?;
            out::token(TokenKind::Name(x.symbol), out)?;
            Ok(())
        }
        SelectorForm::Content => out::sign(Sign::Caret, out),
    }
}

// Adds the tokens of formulas, each behind a comma.
#[cycle(formulas)]
fn more_formulas(more: &[Formula], out: &mut Vec<TokenKind>) -> Result<(), AllocError>
    ensures { OnOk result (Adds (more_formulas_spelling in_kinds (more_formulas_of more.now)) out.old.items out.new.items) }
{
    for part in more {
        out::sign(Sign::Comma, out)?;
        formula(part, out)?;
    }
    Ok(())
}

// Adds the tokens of selectors.
#[cycle(formulas)]
fn selectors(behind: &[Selector], out: &mut Vec<TokenKind>) -> Result<(), AllocError>
    ensures { OnOk result (Adds (selectors_spelling in_kinds (selectors_of behind.now)) out.old.items out.new.items) }
{
    for part in behind {
        selector(part, out)?;
    }
    Ok(())
}

impl Spelled for Formula {
    ghost spelled = { formula_spelling in_kinds };

    fn append(&self, out: &mut Vec<TokenKind>) -> Result<(), AllocError> {
        formula(self, out)
    }
}

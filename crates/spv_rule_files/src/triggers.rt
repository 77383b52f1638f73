// Triggers of rules, and the names in formulas.

ghost use Rattle.std.specs.Prelude.{◌≡◌, [], IfOk, OnOk, option_copied};
ghost use Rattle.spv_program.specs.Lists.{first_of};
ghost use Rattle.spv_program.specs.Scopes.{sort_or_int};
ghost use Rattle.spv_program.specs.Lists.{found};
ghost use Rattle.spv_program.specs.Formulas as plain;
ghost use Rattle.spv_program.specs.typed.FormulaViews.{formulas_of};
ghost use Rattle.spv_rule_files.specs.Outcomes.{fold};
ghost use Rattle.spv_rule_files.specs.Triggers as spec;

use spv_logic::Sort;
use spv_logic::names::Symbol;
use spv_program::ordered_map::Named;
use spv_program::typed::{Formula, FormulaForm};
use spv_tree::syntax::Name;
use std::alloc::{AllocError, Global};

/// The leftmost outermost application of a declared symbol in a formula, in the order of the text, where there is one.
#[cycle(triggers)]
pub fn trigger(f: &Formula) -> Option<&Formula>
    ensures { option_copied result ≡ spec.trigger_in f.now }
{
    match &f.form {
        FormulaForm::Numeral(_) => None,
        FormulaForm::Boolean(_) => None,
        FormulaForm::Nil(_) => None,
        FormulaForm::Named(_, _) => None,
        FormulaForm::Class(_, _) => None,
        FormulaForm::Element(a, i) => first_trigger(a, i),
        FormulaForm::Field(r, _) => trigger(r),
        FormulaForm::Content(_, _, q) => trigger(q),
        FormulaForm::Applied(_, _) => Some(f),
        FormulaForm::Known(_, fs) => trigger_among(fs.as_slice()),
        FormulaForm::Negative(g) => trigger(g),
        FormulaForm::Calculated(_, g, h) => first_trigger(g, h),
        FormulaForm::Compared(_, g, h) => first_trigger(g, h),
        FormulaForm::Negated(g) => trigger(g),
        FormulaForm::Joined(_, g, h) => first_trigger(g, h),
        FormulaForm::Implied(g, h) => first_trigger(g, h),
    }
}

// That of the first of two formulas that has one.
#[cycle(triggers)]
fn first_trigger<'f>(f: &'f Formula, g: &'f Formula) -> Option<&'f Formula>
    ensures { option_copied result ≡ first_of (spec.trigger_in f.now) (spec.trigger_in g.now) }
{
    match trigger(f) {
        Some(found) => Some(found),
        None => trigger(g),
    }
}

// That of the first of several formulas that has one.
#[cycle(triggers)]
fn trigger_among(fs: &[Formula]) -> Option<&Formula>
    ensures { option_copied result ≡ spec.trigger_among (formulas_of fs.now) }
{
    for f in fs {
        if let Some(found) = trigger(f) {
            return Some(found);
        }
    }
    None
}

// Puts a name behind others.
fn put(names: &mut Vec<Name>, line: u32, symbol: Symbol) -> Result<(), AllocError>
    ensures { OnOk result (names.new.items ≡ spec.names_behind names.old.items (plain.Named line symbol)) }
{
    names.push(Name { line, symbol })?;
    Ok(())
}

/// Puts the names in a formula with their lines behind others, in the order of the text.
#[cycle(names)]
pub(crate) fn names_in(names: &mut Vec<Name>, f: &Formula) -> Result<(), AllocError>
    ensures { OnOk result (names.new.items ≡ spec.names_behind names.old.items f.now) }
{
    match &f.form {
        FormulaForm::Numeral(_) => Ok(()),
        FormulaForm::Boolean(_) => Ok(()),
        FormulaForm::Nil(_) => Ok(()),
        FormulaForm::Named(line, x) => put(names, *line, *x),
        FormulaForm::Class(_, _) => Ok(()),
        FormulaForm::Element(a, i) => both_names(names, a, i),
        FormulaForm::Field(r, _) => names_in(names, r),
        FormulaForm::Content(_, _, q) => names_in(names, q),
        FormulaForm::Applied(_, fs) => all_names(names, fs.as_slice()),
        FormulaForm::Known(_, fs) => all_names(names, fs.as_slice()),
        FormulaForm::Negative(g) => names_in(names, g),
        FormulaForm::Calculated(_, g, h) => both_names(names, g, h),
        FormulaForm::Compared(_, g, h) => both_names(names, g, h),
        FormulaForm::Negated(g) => names_in(names, g),
        FormulaForm::Joined(_, g, h) => both_names(names, g, h),
        FormulaForm::Implied(g, h) => both_names(names, g, h),
    }
}

#[cycle(names)]
fn both_names(names: &mut Vec<Name>, f: &Formula, g: &Formula) -> Result<(), AllocError>
    ensures { OnOk result (names.new.items ≡ spec.names_behind (spec.names_behind names.old.items f.now) g.now) }
{
    names_in(names, f)?;
    names_in(names, g)
}

#[cycle(names)]
fn all_names(names: &mut Vec<Name>, fs: &[Formula]) -> Result<(), AllocError>
    ensures { OnOk result (names.new.items ≡ spec.all_names_behind names.old.items (formulas_of fs.now)) }
{
    for f in fs {
        names_in(names, f)?;
    }
    Ok(())
}

// The sort of a variable, of one that is not there that of a number.
fn sort_of_name(vars: &Named<Sort>, x: Symbol) -> Sort
    ensures { result ≡ sort_or_int (found vars.now x) }
{
    match vars.get(x) {
        Some(sort) => *sort,
        None => Sort::Int,
    }
}

// The variables that were met, with one more where it is new.
fn meet(vars: &Named<Sort>, done: &mut Named<Sort>, x: Name) -> Result<(), AllocError>
    ensures { OnOk result (done.new ≡ spec.met vars.now done.old x) }
{
    if done.has(x.symbol) {
        return Ok(());
    }
    done.insert(x.symbol, sort_of_name(vars, x.symbol))?;
    Ok(())
}

fn meet_all(vars: &Named<Sort>, done: &mut Named<Sort>, names: &[Name]) -> Result<(), AllocError>
    ensures { OnOk result (done.new ≡ fold (spec.met vars.now) done.old names.now) }
{
    for x in names {
        meet(vars, done, *x)?;
    }
    Ok(())
}

// The variables of a formula with their sorts, each once, in the order in which its text first has them.
pub(crate) fn variables_of(
    alloc: Global,
    vars: &Named<Sort>,
    f: &Formula,
) -> Result<Named<Sort>, AllocError>
    ensures { IfOk result (λ v. v ≡ spec.variables_of vars.now f.now) }
{
    let mut names = Vec::new(alloc);
    names_in(&mut names, f)?;
    let mut done = Named::new(alloc);
    meet_all(vars, &mut done, names.as_slice())?;
    Ok(done)
}

// The first of some names that is none of the variables.
pub(crate) fn first_unbound(bound: &Named<Sort>, names: &[Name]) -> Option<Name>
    ensures { result ≡ spec.first_unbound bound.now names.now }
{
    for x in names {
        if !bound.has(x.symbol) {
            return Some(*x);
        }
    }
    None
}

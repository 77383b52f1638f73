// What expressions and formulas are made of.

ghost use Rattle.spv_effects.specs.frame_events.Names.{named};
ghost use Rattle.spv_effects.specs.frame_events.Works.{Opens};
ghost use Rattle.spv_effects.specs.declared.frame_events.works.Work.TheVariants as work;
ghost use Rattle.std.specs.Prelude.{◌≡◌};
ghost use Rattle.spv_program.specs.Uses.{has_cell};
ghost use Rattle.spv_program.specs.typed.ExpressionViews.{selectors_of};

use crate::frame_events::events::{Event, cell_use, name_use};
use crate::frame_events::names::NameSet;
use crate::frame_events::works::{Opened, Work, nothing, one, three, two};
use spv_program::typed::{
    Argument, Call, Designator, Expression, ExpressionForm, Formula, FormulaForm, Selector,
};

// Whether `^` stands among selectors.
fn has_cell(selectors: &[Selector]) -> bool
    ensures { result ≡ has_cell (selectors_of selectors.now) }
{
    for selector in selectors {
        if let Selector::Cell(_, _) = selector {
            return true;
        }
    }
    false
}

pub(crate) fn open_value<'a>(own: &NameSet, value: &'a Expression) -> Opened<'a>
    ensures { Opens (named own.now) (work.Value value.entry) result }
{
    match &value.form {
        ExpressionForm::Numeral(_) => nothing(),
        ExpressionForm::Boolean(_) => nothing(),
        ExpressionForm::Nil(_) => nothing(),
        ExpressionForm::Read(d) => one(Work::Place(d, false)),
        ExpressionForm::Result(c) => one(Work::Call(c)),
        ExpressionForm::Through(t) => three(
            Work::Call(&t.call),
            Work::Known(cell_use(t.of, false, t.line)),
            Work::Selectors(t.selectors.as_slice(), false),
        ),
        ExpressionForm::Negative(a) => one(Work::Value(a)),
        ExpressionForm::Calculated(_, a, b) => two(Work::Value(a), Work::Value(b)),
        ExpressionForm::Compared(_, a, b) => two(Work::Value(a), Work::Value(b)),
        ExpressionForm::Negated(a) => one(Work::Value(a)),
        ExpressionForm::Joined(_, a, b) => two(Work::Value(a), Work::Value(b)),
    }
}

pub(crate) fn open_place<'a>(own: &NameSet, place: &'a Designator, writes: bool) -> Opened<'a>
    ensures { Opens (named own.now) (work.Place place.entry writes) result }
{
    let behind = place.selectors.as_slice();
    let changes = writes && !has_cell(behind);
    two(
        Work::Known(name_use(own, place.name, changes, place.line)),
        Work::Selectors(behind, writes),
    )
}

pub(crate) fn open_selectors<'a>(
    own: &NameSet,
    selectors: &'a [Selector],
    writes: bool,
) -> Opened<'a>
    ensures { Opens (named own.now) (work.Selectors selectors.entry writes) result }
{
    match selectors {
        [] => nothing(),
        [first, rest @ ..] => match first {
            Selector::Index(_, e) => two(Work::Value(e), Work::Selectors(rest, writes)),
            Selector::Field(_, _) => one(Work::Selectors(rest, writes)),
            Selector::Cell(line, t) => two(
                Work::Known(cell_use(*t, writes && !has_cell(rest), *line)),
                Work::Selectors(rest, writes),
            ),
        },
    }
}

pub(crate) fn open_call<'a>(own: &NameSet, call: &'a Call) -> Opened<'a>
    ensures { Opens (named own.now) (work.Call call.entry) result }
{
    two(
        Work::Arguments(call.arguments.as_slice()),
        Work::Known(Event::Called(call)),
    )
}

pub(crate) fn open_arguments<'a>(own: &NameSet, arguments: &'a [Argument]) -> Opened<'a>
    ensures { Opens (named own.now) (work.Arguments arguments.entry) result }
{
    match arguments {
        [] => nothing(),
        [first, rest @ ..] => match first {
            Argument::Value(e) => two(Work::Value(e), Work::Arguments(rest)),
            Argument::Place(d) => two(Work::Place(d, true), Work::Arguments(rest)),
        },
    }
}

pub(crate) fn open_noted<'a>(own: &NameSet, noted: &'a Formula) -> Opened<'a>
    ensures { Opens (named own.now) (work.Noted noted.entry) result }
{
    match &noted.form {
        FormulaForm::Numeral(_) => nothing(),
        FormulaForm::Boolean(_) => nothing(),
        FormulaForm::Nil(_) => nothing(),
        FormulaForm::Named(line, x) => one(Work::Known(name_use(own, *x, false, *line))),
        FormulaForm::Class(line, t) => { one(Work::Known(cell_use(*t, false, *line))) }
        FormulaForm::Element(a, i) => two(Work::Noted(a), Work::Noted(i)),
        FormulaForm::Field(r, _) => one(Work::Noted(r)),
        FormulaForm::Content(line, t, q) => two(
            Work::Noted(q),
            Work::Known(cell_use(*t, false, *line)),
        ),
        FormulaForm::Applied(_, given) => one(Work::AllNoted(given.as_slice())),
        FormulaForm::Known(_, given) => one(Work::AllNoted(given.as_slice())),
        FormulaForm::Negative(f) => one(Work::Noted(f)),
        FormulaForm::Calculated(_, f, g) => two(Work::Noted(f), Work::Noted(g)),
        FormulaForm::Compared(_, f, g) => two(Work::Noted(f), Work::Noted(g)),
        FormulaForm::Negated(f) => one(Work::Noted(f)),
        FormulaForm::Joined(_, f, g) => two(Work::Noted(f), Work::Noted(g)),
        FormulaForm::Implied(f, g) => two(Work::Noted(f), Work::Noted(g)),
    }
}

pub(crate) fn open_all_noted<'a>(own: &NameSet, noted: &'a [Formula]) -> Opened<'a>
    ensures { Opens (named own.now) (work.AllNoted noted.entry) result }
{
    match noted {
        [] => nothing(),
        [f, rest @ ..] => two(Work::Noted(f), Work::AllNoted(rest)),
    }
}

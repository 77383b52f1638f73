// What is still to be looked at, so that programs of any depth can be gone through.

ghost use Rattle.std.specs.Prelude.{◌≡◌, OnOk};
ghost use Rattle.spv_effects.specs.frame_events.Works.{Pushed, PushedAll, is_nothing};
ghost use Rattle.spv_effects.specs.declared.frame_events.works.Work.TheVariants.{Nothing};

use crate::frame_events::events::Event;
use spv_program::typed::{
    Annotation, Argument, Arm, Call, Counting, Designator, Expression, Formula, Selector, Statement,
};
use std::alloc::AllocError;

/// What is still to be looked at.
#[derive(Clone, Copy)]
pub(crate) enum Work<'a> {
    /// A statement.
    Statement(&'a Statement),
    /// Statements.
    Statements(&'a [Statement]),
    /// Arms of a CASE.
    Arms(&'a [Arm]),
    /// An annotation, where there is one.
    Annotation(&'a Option<Annotation>),
    /// A formula.
    Noted(&'a Formula),
    /// Formulas.
    AllNoted(&'a [Formula]),
    /// An expression.
    Value(&'a Expression),
    /// A designator, and whether it is written.
    Place(&'a Designator, bool),
    /// Selectors, and whether the last place is written.
    Selectors(&'a [Selector], bool),
    /// A call.
    Call(&'a Call),
    /// Arguments.
    Arguments(&'a [Argument]),
    /// The variable of a FOR that begins on this line, and its ends.
    Head(u32, &'a Counting),
    /// Nothing but this.
    Known(Event<'a>),
    /// Nothing.
    Nothing,
}

/// What comes in place of one work, in order.
#[derive(Clone, Copy)]
pub(crate) struct Opened<'a> {
    /// The first.
    pub first: Work<'a>,
    /// The second.
    pub second: Work<'a>,
    /// The third.
    pub third: Work<'a>,
}

fn is_nothing(work: Work<'_>) -> bool
    ensures { result ≡ is_nothing work.entry }
{
    match work {
        Work::Nothing => true,
        Work::Statement(_) => false,
        Work::Statements(_) => false,
        Work::Arms(_) => false,
        Work::Annotation(_) => false,
        Work::Noted(_) => false,
        Work::AllNoted(_) => false,
        Work::Value(_) => false,
        Work::Place(_, _) => false,
        Work::Selectors(_, _) => false,
        Work::Call(_) => false,
        Work::Arguments(_) => false,
        Work::Head(_, _) => false,
        Work::Known(_) => false,
    }
}

// Puts a work on top, unless it is nothing.
fn push<'a>(works: &mut Vec<Work<'a>>, work: Work<'a>) -> Result<(), AllocError>
    ensures { OnOk result (Pushed work.entry works.old.items works.new.items) }
{
    if is_nothing(work) {
        return Ok(());
    }
    works.push(work)?;
    Ok(())
}

// Puts works on top, the first one last.
pub(crate) fn push_opened<'a>(
    works: &mut Vec<Work<'a>>,
    opened: Opened<'a>,
) -> Result<(), AllocError>
    ensures { OnOk result (PushedAll opened.entry works.old.items works.new.items) }
{
    push(works, opened.third)?;
    push(works, opened.second)?;
    push(works, opened.first)
}

pub(crate) fn nothing<'a>() -> Opened<'a>
    ensures { result ≡ record { first = Nothing; second = Nothing; third = Nothing } }
{
    Opened {
        first: Work::Nothing,
        second: Work::Nothing,
        third: Work::Nothing,
    }
}

pub(crate) fn one<'a>(first: Work<'a>) -> Opened<'a>
    ensures { result ≡ record { first = first.entry; second = Nothing; third = Nothing } }
{
    Opened {
        first,
        second: Work::Nothing,
        third: Work::Nothing,
    }
}

pub(crate) fn two<'a>(first: Work<'a>, second: Work<'a>) -> Opened<'a>
    ensures { result ≡ record { first = first.entry; second = second.entry; third = Nothing } }
{
    Opened {
        first,
        second,
        third: Work::Nothing,
    }
}

pub(crate) fn three<'a>(first: Work<'a>, second: Work<'a>, third: Work<'a>) -> Opened<'a>
    ensures { result ≡ record { first = first.entry; second = second.entry; third = third.entry } }
{
    Opened {
        first,
        second,
        third,
    }
}

// Gathering what is used and called, with a list of what waits.

ghost use Rattle.std.specs.Prelude.{◌≡◌, ◌++◌, ◌∷◌, [], OnOk, option_map};
ghost use Rattle.spv_program.specs.typed.FormulaViews.{annotation_of};
ghost use Rattle.spv_effects.specs.frame_walk.Events.{annotation_events, statement_events};
ghost use Rattle.spv_effects.specs.frame_events.EventViews.{events_of};
ghost use Rattle.spv_effects.specs.frame_events.Names.{named};
ghost use Rattle.spv_effects.specs.frame_events.Works.{IsStep, work_events};

use crate::frame_events::events::Event;
use crate::frame_events::names::NameSet;
use crate::frame_events::opening::{
    open_all_noted, open_arguments, open_call, open_noted, open_place, open_selectors, open_value,
};
use crate::frame_events::statements::{
    open_annotation, open_arms, open_head, open_statement, open_statements,
};
use crate::frame_events::works::{Work, push_opened};
use spv_program::typed::{Annotation, Statement};
use std::alloc::{AllocError, Global};

fn push<'a>(events: &mut Vec<Event<'a>>, event: Event<'a>) -> Result<(), AllocError>
    ensures { OnOk result (events.new.items ≡ events.old.items ++ event.entry ∷ []) }
{
    events.push(event)?;
    Ok(())
}

// Does one work: what is known goes out, and what is not is opened.
fn step<'a>(
    own: &NameSet,
    work: Work<'a>,
    works: &mut Vec<Work<'a>>,
    out: &mut Vec<Event<'a>>,
) -> Result<(), AllocError>
    ensures { OnOk result (IsStep (named own.now) work.entry works.old.items works.new.items out.old.items out.new.items) }
{
    match work {
        Work::Known(event) => push(out, event),
        Work::Statement(s) => push_opened(works, open_statement(own, s)),
        Work::Statements(ss) => push_opened(works, open_statements(own, ss)),
        Work::Arms(arms) => push_opened(works, open_arms(own, arms)),
        Work::Annotation(a) => push_opened(works, open_annotation(own, a)),
        Work::Noted(f) => push_opened(works, open_noted(own, f)),
        Work::AllNoted(fs) => push_opened(works, open_all_noted(own, fs)),
        Work::Value(e) => push_opened(works, open_value(own, e)),
        Work::Place(d, writes) => push_opened(works, open_place(own, d, writes)),
        Work::Selectors(ss, writes) => push_opened(works, open_selectors(own, ss, writes)),
        Work::Call(c) => push_opened(works, open_call(own, c)),
        Work::Head(line, head) => push_opened(works, open_head(own, line, head)),
        Work::Nothing => Ok(()),
        Work::Arguments(xs) => push_opened(works, open_arguments(own, xs)),
    }
}

// Puts what a work uses and calls behind what is there.
fn gather<'a>(
    own: &NameSet,
    alloc: Global,
    first: Work<'a>,
    out: &mut Vec<Event<'a>>,
) -> Result<(), AllocError>
    ensures { OnOk result (events_of out.new.items ≡ events_of out.old.items ++ work_events (named own.now) first.entry) }
{
    let mut works = Vec::new(alloc);
    works.push(first)?;
    while let Some(work) = works.pop() {
        step(own, work, &mut works, out)?;
    }
    Ok(())
}

/// Puts what an annotation names behind what is there.
pub fn gather_annotation<'a>(
    own: &NameSet,
    alloc: Global,
    annotation: &'a Option<Annotation>,
    out: &mut Vec<Event<'a>>,
) -> Result<(), AllocError>
    ensures { OnOk result (events_of out.new.items ≡ events_of out.old.items ++ annotation_events (named own.now) (option_map annotation_of annotation.now)) }
{
    gather(own, alloc, Work::Annotation(annotation), out)
}

/// Puts what a statement uses and calls behind what is there.
pub fn gather_statement<'a>(
    own: &NameSet,
    alloc: Global,
    statement: &'a Statement,
    out: &mut Vec<Event<'a>>,
) -> Result<(), AllocError>
    ensures { OnOk result (events_of out.new.items ≡ events_of out.old.items ++ statement_events (named own.now) statement.now) }
{
    gather(own, alloc, Work::Statement(statement), out)
}

// Uses and calls against the rules.

ghost use Rattle.std.specs.Prelude.{◌≡◌, IfOk, OnOk, map};
ghost use Rattle.spv_effects.specs.frame_walk.FrameWalk.{call_fault, event_fault, events_fault};
ghost use Rattle.spv_effects.specs.frame_events.EventViews.{event_of, events_of};
ghost use Rattle.spv_effects.specs.frame_events.Names.{named};
ghost use Rattle.spv_frame_check.specs.Allowed.{allows};
ghost use Rattle.spv_frame_check.specs.Tables.{IsCovered, tables_of};

use crate::aliases::meeting_fault;
use crate::allowed::Allowed;
use crate::callees::{CalleeSet, missing_at};
use spv_effects::frame_events::{Event, NameSet};
use spv_effects::frame_walk::FrameFault;
use spv_program::typed::{Call, Program};
use std::alloc::{AllocError, Global};

fn call_fault(
    program: &Program,
    tables: &[Allowed],
    own: &NameSet,
    allowed: &Allowed,
    covered: &mut CalleeSet,
    alloc: Global,
    call: &Call,
) -> Result<Option<FrameFault>, AllocError>
    requires covered { IsCovered program.now (allows allowed.now) covered.old }
    requires tables { map allows tables.now ≡ tables_of program.now.routines }
    ensures fault { IfOk result (λ o. o ≡ call_fault program.now (named own.now) (allows allowed.now) call.now) }
    ensures covered { OnOk result (IsCovered program.now (allows allowed.now) covered.new) }
{
    if let Some(item) = missing_at(program, allowed, covered, call.routine)? {
        return Ok(Some(FrameFault::GlobalMissing(call.line, item)));
    }
    meeting_fault(tables, own, alloc, call)
}

fn event_fault(
    program: &Program,
    tables: &[Allowed],
    own: &NameSet,
    allowed: &Allowed,
    covered: &mut CalleeSet,
    alloc: Global,
    event: Event<'_>,
) -> Result<Option<FrameFault>, AllocError>
    requires covered { IsCovered program.now (allows allowed.now) covered.old }
    requires tables { map allows tables.now ≡ tables_of program.now.routines }
    ensures fault { IfOk result (λ o. o ≡ event_fault program.now (named own.now) (allows allowed.now) (event_of event.entry)) }
    ensures covered { OnOk result (IsCovered program.now (allows allowed.now) covered.new) }
{
    match event {
        Event::Own(_, _, _) => Ok(None),
        Event::Shared(item, changes, line) => {
            if allowed.may(item, changes) {
                Ok(None)
            } else {
                Ok(Some(FrameFault::GlobalMissing(line, item)))
            }
        }
        Event::Called(call) => call_fault(program, tables, own, allowed, covered, alloc, call),
    }
}

// The first fault among uses and calls.
pub(crate) fn events_fault(
    program: &Program,
    tables: &[Allowed],
    own: &NameSet,
    allowed: &Allowed,
    alloc: Global,
    events: &[Event<'_>],
) -> Result<Option<FrameFault>, AllocError>
    requires tables { map allows tables.now ≡ tables_of program.now.routines }
    ensures { IfOk result (λ o. o ≡ events_fault program.now (named own.now) (allows allowed.now) (events_of events.now)) }
{
    let mut covered = CalleeSet::new(alloc);
    for event in events {
        if let Some(fault) = event_fault(
            program,
            tables,
            own,
            allowed,
            &mut covered,
            alloc,
            *event,
        )? {
            return Ok(Some(fault));
        }
    }
    Ok(None)
}

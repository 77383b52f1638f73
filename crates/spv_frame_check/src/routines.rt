// A routine against the rules, and what it reads and writes.

ghost use Rattle.std.specs.Prelude.{◌≡◌, ◌++◌, IfOk, OnOk, map};
ghost use Rattle.spv_program.specs.Lists.{first_of};
ghost use Rattle.spv_program.specs.Frames.{effects_of};
ghost use Rattle.spv_program.specs.typed.ProgramViews.{formal_of, global_of, routine_of};
ghost use Rattle.spv_effects.specs.frame_walk.Events.{body_events, clause_events};
ghost use Rattle.spv_effects.specs.frame_walk.FrameWalk.{earliest, events_fault, heading_fault, line_of, routine_fault, var_group, var_parameter};
ghost use Rattle.spv_effects.specs.frame_events.EventViews.{events_of};
ghost use Rattle.spv_effects.specs.frame_events.Names.{named};
ghost use Rattle.spv_frame_check.specs.Allowed.{allows};
ghost use Rattle.spv_frame_check.specs.Tables.{tables_of};

use crate::allowed::{Allowed, allowed_by};
use crate::calls::events_fault;
use crate::effects::{Effects, effects_in};
use crate::owned::{body_names, entry_names, exit_names, own_names};
use spv_effects::frame_events::{Event, NameSet, gather_annotation, gather_statement};
use spv_effects::frame_walk::FrameFault;
use spv_program::typed::{Formal, GlobalItem, Program, Routine};
use std::alloc::{AllocError, Global};

// The line of the first VAR group among the parameters.
fn var_parameter(formals: &[Formal]) -> Option<u32>
    ensures { result ≡ var_parameter (map formal_of formals.now) }
{
    for formal in formals {
        if formal.by_place {
            return Some(formal.line);
        }
    }
    None
}

// The line of the first VAR group of a GLOBAL list.
fn var_group(globals: &[GlobalItem]) -> Option<u32>
    ensures { result ≡ var_group (map global_of globals.now) }
{
    for g in globals {
        if g.is_var {
            return Some(g.line);
        }
    }
    None
}

// A function with a VAR group.
fn heading_fault(routine: &Routine) -> Option<FrameFault>
    ensures { result ≡ heading_fault (routine_of routine.now) }
{
    if routine.result.is_none() {
        return None;
    }
    if let Some(line) = var_parameter(routine.formals.as_slice()) {
        return Some(FrameFault::FunctionWrites(line, routine.name));
    }
    match var_group(routine.globals.as_slice()) {
        Some(line) => Some(FrameFault::FunctionWrites(line, routine.name)),
        None => None,
    }
}

// What its ENTRY and EXIT name.
fn clause_events<'a>(alloc: Global, routine: &'a Routine) -> Result<Vec<Event<'a>>, AllocError>
    ensures { IfOk result (λ events. events_of events.items ≡ clause_events (routine_of routine.now)) }
{
    let mut events = Vec::new(alloc);
    let at_entry = entry_names(alloc, routine)?;
    gather_annotation(&at_entry, alloc, &routine.entry, &mut events)?;
    let at_exit = exit_names(alloc, routine)?;
    gather_annotation(&at_exit, alloc, &routine.exit, &mut events)?;
    Ok(events)
}

// Puts what its body uses and calls behind what is there.
fn gather_body<'a>(
    alloc: Global,
    routine: &'a Routine,
    events: &mut Vec<Event<'a>>,
) -> Result<(), AllocError>
    ensures { OnOk result (events_of events.new.items ≡ events_of events.old.items ++ body_events (routine_of routine.now)) }
{
    let in_body = body_names(alloc, routine)?;
    gather_statement(&in_body, alloc, &routine.body, events)
}

// The fault of two that stands on the first line.
pub(crate) fn earliest(a: Option<FrameFault>, b: Option<FrameFault>) -> Option<FrameFault>
    ensures { result ≡ earliest a b }
{
    match a {
        None => b,
        Some(f) => match b {
            None => Some(f),
            Some(g) => {
                if line_of(g) < line_of(f) {
                    Some(g)
                } else {
                    Some(f)
                }
            }
        },
    }
}

fn line_of(fault: FrameFault) -> u32
    ensures { result ≡ line_of fault }
{
    match fault {
        FrameFault::Alias(line, _, _) => line,
        FrameFault::GlobalMissing(line, _) => line,
        FrameFault::FunctionWrites(line, _) => line,
        FrameFault::Memory => 0,
    }
}

// The first fault in the heading of a routine and in its clauses.
fn heading_part(
    program: &Program,
    tables: &[Allowed],
    alloc: Global,
    own: &NameSet,
    allowed: &Allowed,
    routine: &Routine,
) -> Result<Option<FrameFault>, AllocError>
    requires tables { map allows tables.now ≡ tables_of program.now.routines }
    ensures { IfOk result (λ o. o ≡ first_of (heading_fault (routine_of routine.now)) (events_fault program.now (named own.now) (allows allowed.now) (clause_events (routine_of routine.now)))) }
{
    if let Some(fault) = heading_fault(routine) {
        return Ok(Some(fault));
    }
    let events = clause_events(alloc, routine)?;
    events_fault(program, tables, own, allowed, alloc, events.as_slice())
}

// The first fault in the body of a routine.
fn body_part(
    program: &Program,
    tables: &[Allowed],
    alloc: Global,
    own: &NameSet,
    allowed: &Allowed,
    routine: &Routine,
) -> Result<Option<FrameFault>, AllocError>
    requires tables { map allows tables.now ≡ tables_of program.now.routines }
    ensures { IfOk result (λ o. o ≡ events_fault program.now (named own.now) (allows allowed.now) (body_events (routine_of routine.now))) }
{
    let mut events = Vec::new(alloc);
    gather_body(alloc, routine, &mut events)?;
    events_fault(program, tables, own, allowed, alloc, events.as_slice())
}

// The first fault in a routine.
pub(crate) fn routine_fault(
    program: &Program,
    tables: &[Allowed],
    alloc: Global,
    routine: &Routine,
) -> Result<Option<FrameFault>, AllocError>
    requires tables { map allows tables.now ≡ tables_of program.now.routines }
    ensures { IfOk result (λ o. o ≡ routine_fault program.now (routine_of routine.now)) }
{
    let own = own_names(alloc, routine)?;
    let allowed = allowed_by(alloc, routine.globals.as_slice())?;
    let in_heading = heading_part(program, tables, alloc, &own, &allowed, routine)?;
    let in_body = body_part(program, tables, alloc, &own, &allowed, routine)?;
    Ok(earliest(in_heading, in_body))
}

// What a routine reads and writes.
pub(crate) fn routine_effects(alloc: Global, routine: &Routine) -> Result<Effects, AllocError>
    ensures { IfOk result (λ e. e ≡ effects_of (routine_of routine.now)) }
{
    let mut events = clause_events(alloc, routine)?;
    gather_body(alloc, routine, &mut events)?;
    effects_in(alloc, events.as_slice())
}

// Programs against the rules of frames.

ghost use Rattle.std.specs.Prelude.{◌≡◌, IfOk, IfErr, None, map};
ghost use Rattle.spv_program.specs.Frames as plain;
ghost use Rattle.spv_program.specs.typed.ProgramViews.{routine_of};
ghost use Rattle.spv_effects.specs.frame_walk.FrameWalk.{frame_fault, main_fault, routines_fault};
ghost use Rattle.spv_frame_check.specs.Allowed.{allows};
ghost use Rattle.spv_frame_check.specs.Answers.{Stops};
ghost use Rattle.spv_frame_check.specs.Tables.{tables_of};

use crate::allowed::Allowed;
use crate::callees::tables;
use crate::calls::events_fault;
use crate::effects::Effects;
use crate::routines::{earliest, routine_effects, routine_fault};
use spv_effects::frame_events::{NameSet, gather_statement};
use spv_effects::frame_walk::FrameFault;
use spv_logic::list::List;
use spv_program::typed::{Program, Routine};
use std::alloc::{AllocError, Global};

// The first fault in these routines.
fn routines_fault(
    program: &Program,
    tables: &[Allowed],
    alloc: Global,
    routines: &[Routine],
) -> Result<Option<FrameFault>, AllocError>
    requires tables { map allows tables.now ≡ tables_of program.now.routines }
    ensures { IfOk result (λ o. o ≡ routines_fault program.now None (map routine_of routines.now)) }
{
    let mut found = None;
    for r in routines {
        found = earliest(found, routine_fault(program, tables, alloc, r)?);
    }
    Ok(found)
}

// The first fault in the main block.
fn main_fault(
    program: &Program,
    tables: &[Allowed],
    alloc: Global,
) -> Result<Option<FrameFault>, AllocError>
    requires tables { map allows tables.now ≡ tables_of program.now.routines }
    ensures { IfOk result (λ o. o ≡ main_fault program.now) }
{
    let own = NameSet::new(alloc);
    let mut events = Vec::new(alloc);
    gather_statement(&own, alloc, &program.main.body, &mut events)?;
    events_fault(
        program,
        tables,
        &own,
        &Allowed::Everything,
        alloc,
        events.as_slice(),
    )
}

// The first fault of a program.
fn frame_fault(program: &Program, alloc: Global) -> Result<Option<FrameFault>, AllocError>
    ensures { IfOk result (λ o. o ≡ frame_fault program.now) }
{
    let tables = tables(alloc, program.routines.as_slice())?;
    let in_routines = routines_fault(
        program,
        tables.as_slice(),
        alloc,
        program.routines.as_slice(),
    )?;
    let in_main = main_fault(program, tables.as_slice(), alloc)?;
    Ok(earliest(in_routines, in_main))
}

// What each routine reads and writes.
fn all_effects(alloc: Global, routines: &[Routine]) -> Result<List<Effects>, AllocError>
    ensures { IfOk result (λ es. es ≡ map plain.effects_of (map routine_of routines.now)) }
{
    let mut all = List::new(alloc);
    for r in routines {
        let effects = routine_effects(alloc, r)?;
        all.push(effects)?;
    }
    Ok(all)
}

/// What each routine reads and writes, where the walk over frames meets no fault; else the first fault of the walk.
pub fn checked(program: &Program, alloc: Global) -> Result<List<Effects>, FrameFault>
    ensures ok { IfOk result (λ es. frame_fault program.now ≡ None) }
    ensures effects { IfOk result (λ es. es ≡ map plain.effects_of program.now.routines) }
    ensures err { IfErr result (λ e. Stops e (frame_fault program.now)) }
{
    if let Some(fault) = frame_fault(program, alloc)? {
        return Err(fault);
    }
    Ok(all_effects(alloc, program.routines.as_slice())?)
}

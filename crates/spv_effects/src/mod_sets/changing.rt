// What a statement may change.

ghost use Rattle.std.specs.Prelude.{◌≡◌, ◌&&◌, IfOk, OnOk, filter, map};
ghost use Rattle.spv_program.specs.Changes.{all_roots, changed_heads, items_of_callee, var_items};
ghost use Rattle.spv_program.specs.Programs.{routine_at, routine_in};
ghost use Rattle.spv_program.specs.Uses.{same_root};
ghost use Rattle.spv_program.specs.typed.ProgramViews.{global_of};
ghost use Rattle.spv_effects.specs.frame_events.EventViews.{event_of, events_of};
ghost use Rattle.spv_effects.specs.mod_sets.Changing.{Follows, among, changed_in, of_callees, shared_roots};
ghost use Rattle.spv_effects.specs.mod_sets.Roots.{plain_root, rows_of};
ghost use Rattle.spv_effects.specs.mod_sets.Sets.{Adds, has_root};

use crate::frame_events::{Event, gather_statement};
use crate::mod_sets::roots::{AllRoots, Root, RootHead};
use crate::mod_sets::sets::{RootSet, RoutineSet};
use spv_logic::{Head, RoutineId};
use spv_program::Item;
use spv_program::typed::{GlobalItem, Program, Statement};
use std::alloc::{AllocError, Global};

// Puts a root into the set where it is changed.
fn add_if(roots: &mut RootSet, changes: bool, root: Root) -> Result<(), AllocError>
    ensures { OnOk result (Adds roots.old roots.new (λ q. changes && same_root q (plain_root root))) }
{
    if changes { roots.add(root) } else { Ok(()) }
}

// Takes one event: a root that is changed, or a routine that is called.
fn follow(roots: &mut RootSet, callees: &mut RoutineSet, event: Event<'_>) -> Result<(), AllocError>
    ensures { OnOk result (Follows (event_of event.entry) roots.old callees.old roots.new callees.new) }
{
    match event {
        Event::Own(x, changes, _) => add_if(roots, changes, Root::Own(x)),
        Event::Shared(item, changes, _) => add_if(roots, changes, Root::Shared(item)),
        Event::Called(call) => callees.add(call.routine),
    }
}

// The items of the VAR groups of a GLOBAL list.
fn add_var_items(roots: &mut RootSet, globals: &[GlobalItem]) -> Result<(), AllocError>
    ensures { OnOk result (Adds roots.old roots.new (among (shared_roots (var_items (map global_of globals.now))))) }
{
    for g in globals {
        add_if(roots, g.is_var, Root::Shared(g.item))?;
    }
    Ok(())
}

// The items that a call of this routine may change.
fn add_callee(program: &Program, roots: &mut RootSet, number: RoutineId) -> Result<(), AllocError>
    ensures { OnOk result (Adds roots.old roots.new (among (shared_roots (items_of_callee (routine_at program.now number))))) }
{
    match program.routines.as_slice().get(number.0 as usize) {
        Some(routine) => add_var_items(roots, routine.globals.as_slice()),
        None => Ok(()),
    }
}

fn add_callees(
    program: &Program,
    roots: &mut RootSet,
    callees: &[RoutineId],
) -> Result<(), AllocError>
    ensures { OnOk result (Adds roots.old roots.new (of_callees program.now callees.now)) }
{
    for number in callees {
        add_callee(program, roots, *number)?;
    }
    Ok(())
}

// The roots that these events change; a routine that is called often is looked at once.
fn changed_roots(
    alloc: Global,
    program: &Program,
    events: &[Event<'_>],
) -> Result<RootSet, AllocError>
    ensures { IfOk result (λ roots. has_root roots ≡ among (changed_in program.now (events_of events.now))) }
{
    let mut roots = RootSet::new(alloc);
    let mut callees = RoutineSet::new(alloc);
    for event in events {
        follow(&mut roots, &mut callees, *event)?;
    }
    add_callees(program, &mut roots, callees.as_slice())?;
    Ok(roots)
}

// The heads of those that are in the set, in order.
fn kept(alloc: Global, roots: &RootSet, rows: &[RootHead]) -> Result<Vec<Head>, AllocError>
    ensures { IfOk result (λ heads. heads.items ≡ map (λ r. r.head) (filter (λ r. has_root roots.now (plain_root r.root)) rows.now)) }
{
    rows.iter()
        .filter(|row| roots.has(row.root))
        .map(|row| row.head)
        .collect(alloc)
}

/// The variables and classes that a statement may change, calls and all, in the order of declaration. `roots` is what
/// `all_roots` made for the routine in which the statement stands, or for the main block.
pub fn changed(
    alloc: Global,
    program: &Program,
    here: Option<RoutineId>,
    roots: &AllRoots,
    statement: &Statement,
) -> Result<Vec<Head>, AllocError>
    requires { rows_of roots.now ≡ all_roots program.now (routine_in program.now here) }
    ensures { IfOk result (λ heads. heads.items ≡ changed_heads program.now (routine_in program.now here) statement.now) }
{
    let _ = here;
    let mut events = Vec::new(alloc);
    gather_statement(roots.own(), alloc, statement, &mut events)?;
    let changed = changed_roots(alloc, program, events.as_slice())?;
    kept(alloc, &changed, roots.as_slice())
}

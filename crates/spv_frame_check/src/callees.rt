// Callees: the lists of all routines, and which ones were looked through.

ghost use Rattle.std.specs.Prelude.{◌≡◌, ◌++◌, ◌∷◌, [], IfOk, OnOk, map};
ghost use Rattle.std.specs.List.{list_any};
ghost use Rattle.spv_program.specs.Frames.{globals_of};
ghost use Rattle.spv_program.specs.Lists.{item_at};
ghost use Rattle.spv_program.specs.Programs.{routine_at};
ghost use Rattle.spv_program.specs.typed.ProgramViews.{global_of, routine_of};
ghost use Rattle.spv_effects.specs.frame_walk.FrameWalk.{missing_item};
ghost use Rattle.spv_frame_check.specs.Allowed.{allows};
ghost use Rattle.spv_frame_check.specs.Tables.{IsCovered, has_item, same_routine, tables_of, with_routine};

use crate::allowed::{Allowed, allowed_by, missing_item};
use indexmap::IndexSet;
use spv_logic::RoutineId;
use spv_program::Item;
use spv_program::typed::{GlobalItem, Program, Routine};
use std::alloc::{AllocError, Global};
use std::marker::Model;

/// Callees whose items may all be used, each once. A look-up goes by a hash.
#[derive(Drop)]
pub(crate) struct CalleeSet {
    numbers: IndexSet<RoutineId>,
}

impl Model for CalleeSet {
    ghost use Rattle.std.specs.Prelude.{List};
    ghost use Rattle.spv_logic.specs.declared.conditions.RoutineId.{RoutineId};

    ghost Value = { List RoutineId };

    ghost view = { λ s. s.numbers.keys };
}

impl CalleeSet {
    // The empty set.
    pub fn new(alloc: Global) -> CalleeSet
        ensures { result ≡ [] }
    {
        CalleeSet {
            numbers: IndexSet::new(alloc),
        }
    }

    fn has(&self, number: RoutineId) -> bool
        ensures { result ≡ list_any (same_routine number) self.now }
    {
        self.numbers.contains(&number)
    }

    fn add(&mut self, number: RoutineId) -> Result<(), AllocError>
        ensures { OnOk result (self.new ≡ with_routine self.old number) }
    {
        self.numbers.insert_full(number)?;
        Ok(())
    }
}

// The list of the routine with this number.
fn globals_of(program: &Program, number: RoutineId) -> &[GlobalItem]
    ensures { map global_of result.now ≡ globals_of (routine_at program.now number) }
{
    match program.routines.as_slice().get(number.0 as usize) {
        Some(routine) => routine.globals.as_slice(),
        None => &[],
    }
}

// The first item of a callee's list that may not be used so; a callee that had none is not looked through again.
pub(crate) fn missing_at(
    program: &Program,
    allowed: &Allowed,
    covered: &mut CalleeSet,
    number: RoutineId,
) -> Result<Option<Item>, AllocError>
    requires covered { IsCovered program.now (allows allowed.now) covered.old }
    ensures item { IfOk result (λ o. o ≡ missing_item (allows allowed.now) (globals_of (routine_at program.now number))) }
    ensures covered { OnOk result (IsCovered program.now (allows allowed.now) covered.new) }
{
    if covered.has(number) {
        return Ok(None);
    }
    if let Some(item) = missing_item(allowed, globals_of(program, number)) {
        return Ok(Some(item));
    }
    covered.add(number)?;
    Ok(None)
}

// Whether an item is in the list of the routine with this number.
pub(crate) fn in_list_of(tables: &[Allowed], number: RoutineId, item: Item) -> bool
    ensures { result ≡ has_item (item_at (map allows tables.now) number.0) item }
{
    match tables.get(number.0 as usize) {
        Some(allowed) => allowed.may(item, false),
        None => false,
    }
}

fn push(tables: &mut Vec<Allowed>, allowed: Allowed) -> Result<(), AllocError>
    ensures { OnOk result (tables.new.items ≡ tables.old.items ++ allowed ∷ []) }
{
    tables.push(allowed)?;
    Ok(())
}

// What each of these routines may use.
pub(crate) fn tables(alloc: Global, routines: &[Routine]) -> Result<Vec<Allowed>, AllocError>
    ensures { IfOk result (λ tables. map allows tables.items ≡ tables_of (map routine_of routines.now)) }
{
    let mut tables = Vec::new(alloc);
    for r in routines {
        let allowed = allowed_by(alloc, r.globals.as_slice())?;
        push(&mut tables, allowed)?;
    }
    Ok(tables)
}

// The names that a routine has of its own, by the part of it where they stand.

ghost use Rattle.std.specs.Prelude.{◌≡◌, ◌++◌, IfOk, OnOk, Some, map};
ghost use Rattle.spv_program.specs.Frames.{is_formal};
ghost use Rattle.spv_program.specs.Scopes.{is_own, result_name};
ghost use Rattle.spv_program.specs.typed.ProgramViews.{formal_of, routine_of};
ghost use Rattle.spv_effects.specs.frame_walk.Events.{own_at_exit, own_in_body};
ghost use Rattle.spv_effects.specs.frame_events.Names.{named};
ghost use Rattle.spv_frame_check.specs.Sets.{with_names};
ghost use Rattle.spv_frame_check.specs.Owned.{formal_names, initial_names, typed_names};

use spv_effects::frame_events::NameSet;
use spv_logic::TypeId;
use spv_logic::names::Symbol;
use spv_program::Item;
use spv_program::typed::{Formal, Routine};
use std::alloc::{AllocError, Global};

fn add_formals(set: &mut NameSet, formals: &[Formal]) -> Result<(), AllocError>
    ensures { OnOk result (set.new ≡ with_names set.old (formal_names (map formal_of formals.now))) }
{
    for formal in formals {
        set.add(formal.name)?;
    }
    Ok(())
}

fn add_starts(set: &mut NameSet, starts: &[(Symbol, Item)]) -> Result<(), AllocError>
    ensures { OnOk result (set.new ≡ with_names set.old (initial_names starts.now)) }
{
    for (name, _) in starts {
        set.add(*name)?;
    }
    Ok(())
}

fn add_locals(set: &mut NameSet, locals: &[(Symbol, TypeId)]) -> Result<(), AllocError>
    ensures { OnOk result (set.new ≡ with_names set.old (typed_names locals.now)) }
{
    for (name, _) in locals {
        set.add(*name)?;
    }
    Ok(())
}

fn add_result(
    set: &mut NameSet,
    name: Symbol,
    result_type: Option<TypeId>,
) -> Result<(), AllocError>
    ensures { OnOk result (set.new ≡ with_names set.old (typed_names (result_name name result_type))) }
{
    match result_type {
        Some(_) => set.add(name),
        None => Ok(()),
    }
}

// The names that ENTRY has of its own.
pub(crate) fn entry_names(alloc: Global, routine: &Routine) -> Result<NameSet, AllocError>
    ensures { IfOk result (λ names. named names ≡ is_formal (routine_of routine.now)) }
{
    let mut names = NameSet::new(alloc);
    add_formals(&mut names, routine.formals.as_slice())?;
    Ok(names)
}

// The names that EXIT has of its own.
pub(crate) fn exit_names(alloc: Global, routine: &Routine) -> Result<NameSet, AllocError>
    ensures { IfOk result (λ names. named names ≡ own_at_exit (routine_of routine.now)) }
{
    let mut names = NameSet::new(alloc);
    add_formals(&mut names, routine.formals.as_slice())?;
    add_result(&mut names, routine.name, routine.result)?;
    add_starts(&mut names, routine.initial.as_slice())?;
    Ok(names)
}

// The names that a routine has of its own.
pub(crate) fn own_names(alloc: Global, routine: &Routine) -> Result<NameSet, AllocError>
    ensures { IfOk result (λ names. named names ≡ is_own (Some (routine_of routine.now))) }
{
    let mut names = NameSet::new(alloc);
    add_formals(&mut names, routine.formals.as_slice())?;
    add_result(&mut names, routine.name, routine.result)?;
    add_locals(&mut names, routine.locals.as_slice())?;
    Ok(names)
}

// The names that its body has of its own.
pub(crate) fn body_names(alloc: Global, routine: &Routine) -> Result<NameSet, AllocError>
    ensures { IfOk result (λ names. named names ≡ own_in_body (routine_of routine.now)) }
{
    let mut names = own_names(alloc, routine)?;
    add_starts(&mut names, routine.initial.as_slice())?;
    Ok(names)
}

// The names that a routine has of its own, with their types.

ghost use Rattle.std.specs.Prelude.{◌≡◌, ◌++◌, [], ◌∷◌, IfOk, OnOk, map};
ghost use Rattle.spv_program.specs.Programs.{routine_in};
ghost use Rattle.spv_program.specs.Scopes.{own_names, own_names_in, result_name};
ghost use Rattle.spv_program.specs.typed.ProgramViews.{formal_of, routine_of};
ghost use Rattle.spv_effects.specs.mod_sets.Roots.{formal_name, typed_name};

use spv_logic::names::Symbol;
use spv_logic::{RoutineId, TypeId};
use spv_program::typed::{Formal, Program, Routine};
use std::alloc::{AllocError, Global};

fn push(names: &mut Vec<(Symbol, TypeId)>, x: Symbol, t: TypeId) -> Result<(), AllocError>
    ensures { OnOk result (names.new.items ≡ names.old.items ++ typed_name x t ∷ []) }
{
    names.push((x, t))?;
    Ok(())
}

fn add_formals(names: &mut Vec<(Symbol, TypeId)>, formals: &[Formal]) -> Result<(), AllocError>
    ensures { OnOk result (names.new.items ≡ names.old.items ++ map formal_name (map formal_of formals.now)) }
{
    for formal in formals {
        push(names, formal.name, formal.of)?;
    }
    Ok(())
}

fn add_result(
    names: &mut Vec<(Symbol, TypeId)>,
    name: Symbol,
    result_type: Option<TypeId>,
) -> Result<(), AllocError>
    ensures { OnOk result (names.new.items ≡ names.old.items ++ result_name name result_type) }
{
    match result_type {
        Some(t) => push(names, name, t),
        None => Ok(()),
    }
}

fn add_locals(
    names: &mut Vec<(Symbol, TypeId)>,
    locals: &[(Symbol, TypeId)],
) -> Result<(), AllocError>
    ensures { OnOk result (names.new.items ≡ names.old.items ++ locals.now) }
{
    for (name, t) in locals {
        push(names, *name, *t)?;
    }
    Ok(())
}

// The parameters, the function's name and the local variables.
fn own_names(alloc: Global, routine: &Routine) -> Result<Vec<(Symbol, TypeId)>, AllocError>
    ensures { IfOk result (λ names. names.items ≡ own_names (routine_of routine.now)) }
{
    let mut names = Vec::new(alloc);
    add_formals(&mut names, routine.formals.as_slice())?;
    add_result(&mut names, routine.name, routine.result)?;
    add_locals(&mut names, routine.locals.as_slice())?;
    Ok(names)
}

// The names of the routine with this number; the main block has none.
pub(crate) fn own_names_in(
    alloc: Global,
    program: &Program,
    here: Option<RoutineId>,
) -> Result<Vec<(Symbol, TypeId)>, AllocError>
    ensures { IfOk result (λ names. names.items ≡ own_names_in (routine_in program.now here)) }
{
    match here {
        None => Ok(Vec::new(alloc)),
        Some(number) => match program.routines.as_slice().get(number.0 as usize) {
            Some(routine) => own_names(alloc, routine),
            None => Ok(Vec::new(alloc)),
        },
    }
}

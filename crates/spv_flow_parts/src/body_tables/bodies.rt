// Bodies of routines, and the main block.

ghost use Rattle.std.specs.Prelude.{◌≡◌, IfOk, OnOk};
ghost use Rattle.spv_program.specs.Programs.{routine_in};
ghost use Rattle.spv_program.specs.Scopes.{body_scope};
ghost use Rattle.spv_expression_terms.specs.term_walk.Laws.{HasNamesOf, variable_scope};
ghost use Rattle.spv_flow_parts.specs.Standing.{IsBody};
ghost use Rattle.spv_flow_parts.specs.body_tables.Tables.{Puts, initial_in};

use crate::body_tables::tables::{add_initial, add_own};
use crate::{Body, IndexedProgram};
use spv_expression_terms::sort_table::SortTable;
use spv_logic::{RoutineId, Sort};
use spv_program::ordered_map::Named;
use spv_program::typed::Program;
use std::alloc::{AllocError, Global};

// The variables that expressions of a body see.
pub(crate) fn variables_of<'i>(
    alloc: Global,
    program: &'i IndexedProgram<'_>,
    here: Option<RoutineId>,
) -> Result<SortTable<'i>, AllocError>
    ensures { IfOk result (λ table. HasNamesOf table (variable_scope program.now (routine_in program.now here))) }
{
    let mut own = Named::new(alloc);
    add_own(&mut own, program.program(), here)?;
    Ok(SortTable::in_front(own, program.sorts()))
}

// Puts the INITIAL names of the routine with this number; the main block has none.
fn add_initial_in(
    table: &mut Named<Sort>,
    program: &Program,
    here: Option<RoutineId>,
    variables: &SortTable<'_>,
) -> Result<(), AllocError>
    ensures { OnOk result (Puts table.old table.new (initial_in variables.now (routine_in program.now here))) }
{
    match here {
        None => Ok(()),
        Some(number) => match program.routines.as_slice().get(number.0 as usize) {
            Some(routine) => add_initial(table, variables, routine.initial.as_slice()),
            None => Ok(()),
        },
    }
}

// The names that annotations of a body see.
fn names_of<'i>(
    alloc: Global,
    program: &'i IndexedProgram<'_>,
    here: Option<RoutineId>,
    variables: &SortTable<'_>,
) -> Result<SortTable<'i>, AllocError>
    requires variables { HasNamesOf variables.now (variable_scope program.now (routine_in program.now here)) }
    ensures { IfOk result (λ table. HasNamesOf table (body_scope program.now (routine_in program.now here))) }
{
    let mut own = Named::new(alloc);
    add_own(&mut own, program.program(), here)?;
    add_initial_in(&mut own, program.program(), here, variables)?;
    Ok(SortTable::in_front(own, program.sorts()))
}

/// What is looked up for the body of the routine with this number, or for the main block: the names that its annotations
/// see, and the variables that its expressions see. A number that no routine has counts as the main block.
pub fn body_of<'i>(
    alloc: Global,
    program: &'i IndexedProgram<'_>,
    here: Option<RoutineId>,
) -> Result<Body<'i>, AllocError>
    ensures body { IfOk result (λ b. IsBody program.now b) }
    ensures here { IfOk result (λ b. b.here ≡ here) }
{
    let variables = variables_of(alloc, program, here)?;
    let names = names_of(alloc, program, here, &variables)?;
    Ok(Body {
        alloc,
        here,
        names,
        variables,
    })
}

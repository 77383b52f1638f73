// Tables of names with the sorts of what they stand for.

ghost use Rattle.std.specs.Prelude.{◌≡◌, [], ◌∷◌, map, OnOk};
ghost use Rattle.spv_program.specs.Programs.{routine_in};
ghost use Rattle.spv_program.specs.Scopes.{own_names_in, result_name, own_names};
ghost use Rattle.spv_program.specs.typed.ProgramViews.{formal_of, routine_of};
ghost use Rattle.spv_flow_parts.specs.body_tables.Tables.{Puts, formal_name, initial_sorts, item_sort_in, sorted_name, sorts_of};

use spv_effects::mod_sets::sort_of;
use spv_expression_terms::sort_table::SortTable;
use spv_logic::names::Symbol;
use spv_logic::{RoutineId, Sort, TypeId};
use spv_program::ordered_map::Named;
use spv_program::typed::{Formal, Program, Routine};
use spv_program::{Item, TypeForm};
use std::alloc::AllocError;

// Puts a sort under a name, where nothing stands there.
fn put(table: &mut Named<Sort>, x: Symbol, s: Sort) -> Result<(), AllocError>
    ensures { OnOk result (Puts table.old table.new (sorted_name x s ∷ [])) }
{
    if table.has(x) {
        Ok(())
    } else {
        table.insert(x, s)
    }
}

// Puts names with the sorts of their types, where nothing stands there.
pub(crate) fn add_names(
    table: &mut Named<Sort>,
    forms: &[TypeForm],
    names: &[(Symbol, TypeId)],
) -> Result<(), AllocError>
    ensures { OnOk result (Puts table.old table.new (sorts_of forms.now names.now)) }
{
    for (x, t) in names {
        put(table, *x, sort_of(forms, *t))?;
    }
    Ok(())
}

pub(crate) fn add_formals(
    table: &mut Named<Sort>,
    forms: &[TypeForm],
    formals: &[Formal],
) -> Result<(), AllocError>
    ensures { OnOk result (Puts table.old table.new (sorts_of forms.now (map formal_name (map formal_of formals.now)))) }
{
    for formal in formals {
        put(table, formal.name, sort_of(forms, formal.of))?;
    }
    Ok(())
}

// A function's name stands for its result.
pub(crate) fn add_result(
    table: &mut Named<Sort>,
    forms: &[TypeForm],
    name: Symbol,
    of: Option<TypeId>,
) -> Result<(), AllocError>
    ensures { OnOk result (Puts table.old table.new (sorts_of forms.now (result_name name of))) }
{
    match of {
        Some(t) => put(table, name, sort_of(forms, t)),
        None => Ok(()),
    }
}

// The parameters, the function's name and the local variables.
fn add_routine(
    table: &mut Named<Sort>,
    forms: &[TypeForm],
    routine: &Routine,
) -> Result<(), AllocError>
    ensures { OnOk result (Puts table.old table.new (sorts_of forms.now (own_names (routine_of routine.now)))) }
{
    add_formals(table, forms, routine.formals.as_slice())?;
    add_result(table, forms, routine.name, routine.result)?;
    add_names(table, forms, routine.locals.as_slice())
}

/// Puts the names that a routine has of its own, where nothing stands there; the main block has none.
pub(crate) fn add_own(
    table: &mut Named<Sort>,
    program: &Program,
    here: Option<RoutineId>,
) -> Result<(), AllocError>
    ensures { OnOk result (Puts table.old table.new (sorts_of program.now.forms (own_names_in (routine_in program.now here)))) }
{
    match here {
        None => Ok(()),
        Some(number) => match program.routines.as_slice().get(number.0 as usize) {
            Some(routine) => add_routine(table, program.forms.as_slice(), routine),
            None => Ok(()),
        },
    }
}

/// The sort of what an INITIAL name stands for.
pub fn item_sort(variables: &SortTable<'_>, item: Item) -> Sort
    ensures { result ≡ item_sort_in variables.now item }
{
    match item {
        Item::Variable(x) => match variables.get(x) {
            Some(s) => s,
            None => Sort::Int,
        },
        Item::Class(t) => Sort::Class(t),
    }
}

/// Puts INITIAL names, where nothing stands there.
pub(crate) fn add_initial(
    table: &mut Named<Sort>,
    variables: &SortTable<'_>,
    items: &[(Symbol, Item)],
) -> Result<(), AllocError>
    ensures { OnOk result (Puts table.old table.new (initial_sorts variables.now items.now)) }
{
    for (x, item) in items {
        put(table, *x, item_sort(variables, *item))?;
    }
    Ok(())
}

// What ENTRY and EXIT of a routine see, and their terms.

ghost use Rattle.std.specs.Prelude.{◌≡◌, ◌&&◌, ◌||◌, not, IfOk, IsTrue, OnOk, Some, is_some};
ghost use Rattle.spv_logic.specs.declared.names.names.Symbol.{Symbol};
ghost use Rattle.spv_program.specs.Lists.{found, same_name};
ghost use Rattle.spv_program.specs.Scopes.{entry_scope, exit_scope, is_value_parameter};
ghost use Rattle.spv_program.specs.Terms.{entry_term, exit_term};
ghost use Rattle.spv_program.specs.Typing.{routine_ok};
ghost use Rattle.spv_program.specs.typed.FormulaViews.{annotation_of};
ghost use Rattle.spv_program.specs.typed.ProgramViews.{routine_of};
ghost use Rattle.spv_expression_terms.specs.term_walk.Laws.{HasNamesOf, variable_scope};
ghost use Rattle.spv_flow_parts.specs.Walks.{MakesTerm};
ghost use Rattle.spv_flow_parts.specs.calls.Arguments.{IsOver};

use crate::IndexedProgram;
use crate::body_tables::{add_formals, add_initial, add_result};
use spv_assign::creation_trace::GenFault;
use spv_assign::limited_steps::limited;
use spv_expression_terms::sort_table::SortTable;
use spv_expression_terms::term_walk::{exit_formula_term, formula_term};
use spv_logic::Sort;
use spv_program::ordered_map::Named;
use spv_program::typed::{Annotation, Formal, Routine};
use spv_term::{TermId, Terms};
use std::alloc::{AllocError, Global};

// The names that ENTRY sees, with the sorts of what they stand for.
fn entry_names<'i>(
    alloc: Global,
    program: &'i IndexedProgram<'_>,
    routine: &Routine,
) -> Result<SortTable<'i>, AllocError>
    ensures { IfOk result (λ table. HasNamesOf table (entry_scope program.now (routine_of routine.now))) }
{
    let mut own = Named::new(alloc);
    let forms = program.program().forms.as_slice();
    add_formals(&mut own, forms, routine.formals.as_slice())?;
    Ok(SortTable::in_front(own, program.sorts()))
}

// The names that EXIT sees, where these are the variables of the routine's body.
fn exit_names<'i>(
    alloc: Global,
    program: &'i IndexedProgram<'_>,
    routine: &Routine,
    variables: &SortTable<'_>,
) -> Result<SortTable<'i>, AllocError>
    requires { HasNamesOf variables.now (variable_scope program.now (Some (routine_of routine.now))) }
    ensures { IfOk result (λ table. HasNamesOf table (exit_scope program.now (routine_of routine.now))) }
{
    let mut own = Named::new(alloc);
    let forms = program.program().forms.as_slice();
    add_formals(&mut own, forms, routine.formals.as_slice())?;
    add_result(&mut own, forms, routine.name, routine.result)?;
    add_initial(&mut own, variables, routine.initial.as_slice())?;
    Ok(SortTable::in_front(own, program.sorts()))
}

// Puts a parameter, where it is a value parameter and nothing stands under its name.
fn put_start(table: &mut Named<()>, formal: &Formal) -> Result<(), AllocError>
    ensures { OnOk result ((x : Symbol) → is_some (found table.new x) ≡ (is_some (found table.old x) || (same_name formal.now.name x && not formal.now.by_place))) }
{
    if formal.by_place || table.has(formal.name) {
        return Ok(());
    }
    table.insert(formal.name, ())
}

// The value parameters of a routine.
fn start_names(alloc: Global, routine: &Routine) -> Result<Named<()>, AllocError>
    ensures { IfOk result (λ table. (x : Symbol) → is_some (found table x) ≡ is_value_parameter (routine_of routine.now) x) }
{
    let mut table = Named::new(alloc);
    let formals = routine.formals.as_slice();
    for formal in formals {
        put_start(&mut table, formal)?;
    }
    Ok(table)
}

/// The term of a routine's ENTRY.
pub fn entry_formula(
    program: &IndexedProgram<'_>,
    alloc: Global,
    terms: &mut Terms,
    routine: &Routine,
    entry: &Annotation,
) -> Result<TermId, GenFault>
    requires over { IsOver program.now terms.old }
    requires right { IsTrue (routine_ok program.now (routine_of routine.now)) }
    requires entry { (routine_of routine.now).entry ≡ Some (annotation_of entry.now) }
    ensures { MakesTerm result (entry_term program.now (routine_of routine.now) (annotation_of entry.now)) terms.old terms.new }
{
    let names = entry_names(alloc, program, routine)?;
    let f = formula_term(terms, alloc, &names, &entry.formula);
    limited(terms, f)
}

/// The term of a routine's EXIT, with the value parameters as they were at the beginning, where these are the variables of its body.
pub fn exit_formula(
    program: &IndexedProgram<'_>,
    alloc: Global,
    terms: &mut Terms,
    routine: &Routine,
    variables: &SortTable<'_>,
    exit: &Annotation,
) -> Result<TermId, GenFault>
    requires over { IsOver program.now terms.old }
    requires right { IsTrue (routine_ok program.now (routine_of routine.now)) }
    requires variables { HasNamesOf variables.now (variable_scope program.now (Some (routine_of routine.now))) }
    requires exit { (routine_of routine.now).exit ≡ Some (annotation_of exit.now) }
    ensures { MakesTerm result (exit_term program.now (routine_of routine.now) (annotation_of exit.now)) terms.old terms.new }
{
    let names = exit_names(alloc, program, routine, variables)?;
    let starts = start_names(alloc, routine)?;
    let f = exit_formula_term(terms, alloc, &names, &starts, &exit.formula);
    limited(terms, f)
}

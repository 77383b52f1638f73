// The conditions of a routine.

ghost use Rattle.std.specs.Prelude.{◌≡◌, [], ◌∷◌, map, IsTrue, Some, option_map};
ghost use Rattle.spv_logic.specs.Sorts.{head_in_range, sort_in_range, variable_sort};
ghost use Rattle.spv_logic.specs.Substitution.{is_variable};
ghost use Rattle.spv_program.specs.Programs as programs;
ghost use Rattle.spv_program.specs.Terms.{alone, entry_term, item_head};
ghost use Rattle.spv_program.specs.Types.{sort_of};
ghost use Rattle.spv_program.specs.Typing.{routine_ok};
ghost use Rattle.spv_program.specs.typed.ProgramViews.{formal_of, routine_of};
ghost use Rattle.spv_meaning.specs.Before as meaning;
ghost use Rattle.spv_meaning.specs.ProgramConditions as whole;
ghost use Rattle.spv_meaning.specs.ProgramConditions.{initial_pairs, start_pairs, wanted_exit};
ghost use Rattle.spv_expression_terms.specs.term_walk.Laws.{HasNamesOf, variable_scope};
ghost use Rattle.spv_assign.specs.Conditions.{AreIn, conditions_of};
ghost use Rattle.spv_assign.specs.creation_trace.StatementEvents.{in_order, replacing_events};
ghost use Rattle.spv_assign.specs.supply.Numbers.{supply_of};
ghost use Rattle.spv_flow_parts.specs.Standing.{IsBody};
ghost use Rattle.spv_flow_parts.specs.Walks.{Comes, ComesTo};
ghost use Rattle.spv_flow_parts.specs.calls.Arguments.{AddsPairs, IsOver};
ghost use Rattle.spv_conditions.specs.Making.{beginning_pairs, behind_routine, entered_made, entered_parts, entry_events, exit_events, initial_pair, inside_parts, routine_events, start_pairs_of};
ghost use Rattle.spv_conditions.specs.Steps.{GivesEntry, Heading, IsRoutine, MakesPairs, MayBegin};

use crate::blocks::before_body;
use spv_assign::Pending;
use spv_assign::creation_trace::GenFault;
use spv_assign::limited_steps::{made, replaced};
use spv_assign::supply::Supply;
use spv_effects::mod_sets::sort_of;
use spv_expression_terms::sort_table::SortTable;
use spv_flow_parts::body_tables::{body_of, item_sort};
use spv_flow_parts::calls::{add_pair, entry_formula, exit_formula, item_head};
use spv_flow_parts::{Body, IndexedProgram, known, wanted};
use spv_logic::names::Symbol;
use spv_logic::{Head, Kind, RoutineId, Sort};
use spv_program::ordered_map::Named;
use spv_program::typed::{Formal, Routine};
use spv_program::{Item, TypeForm};
use spv_term::{TermId, Terms};
use std::alloc::Global;

// The condition that EXIT of a routine is true, where there is one.
fn exit_condition(
    program: &IndexedProgram<'_>,
    body: &Body<'_>,
    terms: &mut Terms,
    number: RoutineId,
    routine: &Routine,
) -> Result<Pending, GenFault>
    requires over { IsOver program.now terms.old }
    requires routine { IsRoutine program.now number (routine_of routine.now) }
    requires body { IsBody program.now body.now }
    requires here { body.now.here ≡ Some number }
    ensures { ComesTo result (wanted_exit program.now number (routine_of routine.now) (routine_of routine.now).exit) (exit_events program.now (routine_of routine.now)) terms.old terms.new }
{
    match &routine.exit {
        None => Ok(Pending::new(body.alloc)),
        Some(exit) => {
            let variables = &body.variables;
            let term = exit_formula(program, body.alloc, terms, routine, variables, exit)?;
            wanted(body.alloc, Some(number), Kind::Exit, term, exit.line)
        }
    }
}

// ENTRY of a routine, where there is one.
fn entry_if_there(
    program: &IndexedProgram<'_>,
    alloc: Global,
    terms: &mut Terms,
    number: RoutineId,
    routine: &Routine,
) -> Result<Option<TermId>, GenFault>
    requires over { IsOver program.now terms.old }
    requires routine { IsRoutine program.now number (routine_of routine.now) }
    ensures { GivesEntry result (option_map (entry_term program.now (routine_of routine.now)) (routine_of routine.now).entry) terms.old terms.new }
{
    match &routine.entry {
        None => Ok(None),
        Some(entry) => Ok(Some(entry_formula(program, alloc, terms, routine, entry)?)),
    }
}

// EXIT brought in front of the body.
fn inside(
    program: &IndexedProgram<'_>,
    body: &Body<'_>,
    terms: &mut Terms,
    supply: &mut Supply,
    number: RoutineId,
    routine: &Routine,
) -> Result<Pending, GenFault>
    requires may { MayBegin program.now terms.old (supply_of supply.old) }
    requires routine { IsRoutine program.now number (routine_of routine.now) }
    requires body { IsBody program.now body.now }
    requires here { body.now.here ≡ Some number }
    ensures { Comes result (meaning.before program.now (Some number) (routine_of routine.now).body (behind_routine program.now number (routine_of routine.now) (supply_of supply.old)))
        (in_order (inside_parts program.now number (routine_of routine.now) (supply_of supply.old))) terms.old terms.new (supply_of supply.new) }
{
    let exit = exit_condition(program, body, terms, number, routine)?;
    before_body(program, body, terms, supply, &routine.body, exit)
}

// Conditions under ENTRY of a routine.
fn under(
    program: &IndexedProgram<'_>,
    alloc: Global,
    terms: &mut Terms,
    number: RoutineId,
    routine: &Routine,
    conditions: Pending,
) -> Result<Pending, GenFault>
    requires over { IsOver program.now terms.old }
    requires routine { IsRoutine program.now number (routine_of routine.now) }
    requires conditions { AreIn terms.old conditions.items }
    ensures { ComesTo result (meaning.assuming_if_there (option_map (entry_term program.now (routine_of routine.now)) (routine_of routine.now).entry) (conditions_of terms.old conditions.items))
        (entry_events program.now (routine_of routine.now)) terms.old terms.new }
{
    let entry = entry_if_there(program, alloc, terms, number, routine)?;
    known(entry, conditions)
}

// A pair of two variables or classes of one sort, behind those that are there.
fn add_names(
    terms: &mut Terms,
    pairs: &mut Vec<(TermId, TermId)>,
    from: Head,
    to: Head,
) -> Result<(), GenFault>
    requires from { IsTrue (is_variable from) }
    requires from_types { IsTrue (head_in_range terms.old.shapes from) }
    requires to { IsTrue (is_variable to) }
    requires to_types { IsTrue (head_in_range terms.old.shapes to) }
    requires sorts { variable_sort to ≡ variable_sort from }
    ensures { AddsPairs result ((from, alone to) ∷ []) terms.old terms.new pairs.old.items pairs.new.items }
{
    let now = made(terms, to, &[])?;
    add_pair(terms, pairs, from, now)
}

// An INITIAL name, and its item.
fn add_item(
    terms: &mut Terms,
    variables: &SortTable<'_>,
    name: Symbol,
    item: Item,
    pairs: &mut Vec<(TermId, TermId)>,
) -> Result<(), GenFault>
    ghost of: { Heading }
    requires variables { HasNamesOf variables.now (variable_scope of.program (Some of.routine)) }
    requires types { IsTrue (head_in_range terms.old.shapes (item_head of.program (Some of.routine) item)) }
    ensures { AddsPairs result (initial_pair of.program of.routine (name, item) ∷ []) terms.old terms.new pairs.old.items pairs.new.items }
{
    let head = Head::Var(name, item_sort(variables, item), 0);
    add_names(terms, pairs, head, item_head(variables, item))
}

// Each INITIAL name, and its item.
fn add_items(
    terms: &mut Terms,
    variables: &SortTable<'_>,
    initial: &[(Symbol, Item)],
    pairs: &mut Vec<(TermId, TermId)>,
) -> Result<(), GenFault>
    ghost of: { Heading }
    requires over { IsOver of.program terms.old }
    requires there { IsTrue (routine_ok of.program of.routine) }
    requires variables { HasNamesOf variables.now (variable_scope of.program (Some of.routine)) }
    requires initial { initial.now ≡ of.routine.initial }
    ensures { AddsPairs result (initial_pairs of.program of.routine) terms.old terms.new pairs.old.items pairs.new.items }
{
    for (x, item) in initial {
        add_item(terms, variables, *x, *item, pairs)?;
    }
    Ok(())
}

// The start of a value parameter, and the parameter; nothing for a VAR parameter.
fn add_start(
    terms: &mut Terms,
    forms: &[TypeForm],
    formal: Formal,
    pairs: &mut Vec<(TermId, TermId)>,
) -> Result<(), GenFault>
    ghost whole: { programs.Program }
    requires forms { forms.now ≡ whole.forms }
    requires types { IsTrue (sort_in_range terms.old.shapes (sort_of whole.forms formal.of)) }
    ensures { AddsPairs result (start_pairs_of whole (formal_of formal ∷ [])) terms.old terms.new pairs.old.items pairs.new.items }
{
    if formal.by_place {
        return Ok(());
    }
    let sort = sort_of(forms, formal.of);
    add_names(
        terms,
        pairs,
        Head::Start(formal.name, sort),
        Head::Var(formal.name, sort, 0),
    )
}

// The start of each value parameter, and the parameter.
fn add_starts(
    terms: &mut Terms,
    forms: &[TypeForm],
    formals: &[Formal],
    pairs: &mut Vec<(TermId, TermId)>,
) -> Result<(), GenFault>
    ghost of: { Heading }
    requires over { IsOver of.program terms.old }
    requires there { IsTrue (routine_ok of.program of.routine) }
    requires forms { forms.now ≡ of.program.forms }
    requires formals { map formal_of formals.now ≡ of.routine.formals }
    ensures { AddsPairs result (start_pairs of.program of.routine) terms.old terms.new pairs.old.items pairs.new.items }
{
    for formal in formals {
        add_start(terms, forms, *formal, pairs)?;
    }
    Ok(())
}

// INITIAL names and their items, and the starts of value parameters and these.
fn add_beginning(
    program: &IndexedProgram<'_>,
    terms: &mut Terms,
    variables: &SortTable<'_>,
    routine: &Routine,
    pairs: &mut Vec<(TermId, TermId)>,
) -> Result<(), GenFault>
    ghost of: { Heading }
    requires program { of.program ≡ program.now }
    requires routine { of.routine ≡ routine_of routine.now }
    requires over { IsOver of.program terms.old }
    requires there { IsTrue (routine_ok of.program of.routine) }
    requires variables { HasNamesOf variables.now (variable_scope of.program (Some of.routine)) }
    ensures { AddsPairs result (beginning_pairs of.program of.routine) terms.old terms.new pairs.old.items pairs.new.items }
{
    let initial = routine.initial.as_slice();
    add_items(terms, variables, initial, pairs)?;
    let forms = program.program().forms.as_slice();
    let formals = routine.formals.as_slice();
    add_starts(terms, forms, formals, pairs)
}

// What is replaced where a routine begins.
fn pairs_at_beginning(
    program: &IndexedProgram<'_>,
    body: &Body<'_>,
    terms: &mut Terms,
    number: RoutineId,
    routine: &Routine,
) -> Result<Vec<(TermId, TermId)>, GenFault>
    requires over { IsOver program.now terms.old }
    requires routine { IsRoutine program.now number (routine_of routine.now) }
    requires body { IsBody program.now body.now }
    requires here { body.now.here ≡ Some number }
    ensures { MakesPairs result (beginning_pairs program.now (routine_of routine.now)) terms.old terms.new }
{
    let mut pairs = Vec::new(body.alloc);
    add_beginning(program, terms, &body.variables, routine, &mut pairs)?;
    Ok(pairs)
}

// Conditions with the names as they are where the routine begins.
fn at_beginning(
    program: &IndexedProgram<'_>,
    body: &Body<'_>,
    terms: &mut Terms,
    number: RoutineId,
    routine: &Routine,
    conditions: Pending,
) -> Result<Pending, GenFault>
    requires over { IsOver program.now terms.old }
    requires routine { IsRoutine program.now number (routine_of routine.now) }
    requires body { IsBody program.now body.now }
    requires here { body.now.here ≡ Some number }
    requires conditions { AreIn terms.old conditions.items }
    ensures { ComesTo result (meaning.replaced (beginning_pairs program.now (routine_of routine.now)) (conditions_of terms.old conditions.items))
        (replacing_events (beginning_pairs program.now (routine_of routine.now)) (conditions_of terms.old conditions.items)) terms.old terms.new }
{
    let pairs = pairs_at_beginning(program, body, terms, number, routine)?;
    replaced(terms, body.alloc, pairs.as_slice(), &conditions)
}

// EXIT brought in front of the body, under ENTRY.
fn entered(
    program: &IndexedProgram<'_>,
    body: &Body<'_>,
    terms: &mut Terms,
    supply: &mut Supply,
    number: RoutineId,
    routine: &Routine,
) -> Result<Pending, GenFault>
    requires may { MayBegin program.now terms.old (supply_of supply.old) }
    requires routine { IsRoutine program.now number (routine_of routine.now) }
    requires body { IsBody program.now body.now }
    requires here { body.now.here ≡ Some number }
    ensures { Comes result (entered_made program.now number (routine_of routine.now) (supply_of supply.old))
        (in_order (entered_parts program.now number (routine_of routine.now) (supply_of supply.old))) terms.old terms.new (supply_of supply.new) }
{
    let conditions = inside(program, body, terms, supply, number, routine)?;
    under(program, body.alloc, terms, number, routine, conditions)
}

/// The conditions of the routine with this number: its EXIT brought in front of its body, under its ENTRY, with all names as
/// they are at the beginning.
pub(crate) fn routine_conditions(
    program: &IndexedProgram<'_>,
    alloc: Global,
    terms: &mut Terms,
    supply: &mut Supply,
    number: RoutineId,
    routine: &Routine,
) -> Result<Pending, GenFault>
    requires may { MayBegin program.now terms.old (supply_of supply.old) }
    requires routine { IsRoutine program.now number (routine_of routine.now) }
    ensures { Comes result (whole.routine_conditions program.now number (routine_of routine.now) (supply_of supply.old))
        (routine_events program.now number (routine_of routine.now) (supply_of supply.old)) terms.old terms.new (supply_of supply.new) }
{
    let body = body_of(alloc, program, Some(number))?;
    let conditions = entered(program, &body, terms, supply, number, routine)?;
    at_beginning(program, &body, terms, number, routine, conditions)
}

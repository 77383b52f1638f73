// The conditions before a call of a procedure.

ghost use Rattle.std.specs.Prelude.{◌≡◌, ◌++◌, [], ◌∷◌, length, map, IfOk, IsTrue, List, OnOk, Some};
ghost use Rattle.spv_logic.specs.declared.conditions.RoutineId.{RoutineId};
ghost use Rattle.spv_logic.specs.Sorts.{head_in_range, sort_in_range, term_sort};
ghost use Rattle.spv_term.specs.Arena.{Extends};
ghost use Rattle.spv_term.specs.substitution.Images.{ArePairs};
ghost use Rattle.spv_program.specs.Programs.{routine_in, shapes};
ghost use Rattle.spv_program.specs.Calls as plain;
ghost use Rattle.spv_program.specs.Changes.{var_items};
ghost use Rattle.spv_program.specs.Places.{present};
ghost use Rattle.spv_program.specs.Terms.{item_head};
ghost use Rattle.spv_program.specs.Types.{sort_of};
ghost use Rattle.spv_program.specs.Statements.{Perform};
ghost use Rattle.spv_program.specs.Typing.{statement_ok};
ghost use Rattle.spv_program.specs.typed.ProgramViews.{formal_of, global_of};
ghost use Rattle.spv_meaning.specs.Before as meaning;
ghost use Rattle.spv_meaning.specs.Before.{before, before_entering, changed_items, changed_places};
ghost use Rattle.spv_expression_terms.specs.term_walk.Laws.{HasNamesOf, variable_scope};
ghost use Rattle.spv_assign.specs.Conditions.{AreIn, all_terms_in, conditions_of, pairs_of};
ghost use Rattle.spv_assign.specs.structures.Targets.{IsTarget, target_in};
ghost use Rattle.spv_assign.specs.creation_trace.Events.{Answers};
ghost use Rattle.spv_assign.specs.creation_trace.StatementEvents.{pair_terms, several};
ghost use Rattle.spv_assign.specs.supply.Numbers.{AreThere, supply_of};
ghost use Rattle.spv_flow_parts.specs.Walks.{Comes, ComesTo, made_of};
ghost use Rattle.spv_flow_parts.specs.calls.Arguments.{Calling, AddsChanged, AreArguments, AreChanged, IsArgument, IsAtCall, MayMake, argument_in, call_line, called_routine, changed_by_places, argued_at};
ghost use Rattle.spv_flow_parts.specs.calls.Events.{entering_events, perform_events};

use crate::body_tables::variables_of;
use crate::calls::at_call::{called, item_head};
use crate::calls::passed::{Argued, Argument};
use crate::calls::values::arguments;
use crate::leaves::in_front;
use crate::{Body, IndexedProgram};
use spv_assign::Pending;
use spv_assign::creation_trace::GenFault;
use spv_assign::limited_steps::{fresh_pair, limited, replaced};
use spv_assign::structures::{Target, whole_with};
use spv_assign::supply::Supply;
use spv_effects::mod_sets::sort_of;
use spv_expression_terms::sort_table::SortTable;
use spv_logic::{Head, RoutineId, Sort};
use spv_program::ordered_map::Named;
use spv_program::typed::{Call, Formal, GlobalItem};
use spv_term::{TermId, Terms};
use std::alloc::{AllocError, Global};

// Fresh variables for what a call changes: in EXIT, and in what is wanted after the call.
#[derive(Drop)]
pub(crate) struct Changed {
    pub(crate) in_exit: Vec<(Head, TermId)>,
    pub(crate) after: Vec<(TermId, TermId)>,
}

fn push(
    changed: &mut Changed,
    head: Head,
    y: TermId,
    from: TermId,
    to: TermId,
) -> Result<(), AllocError>
    ensures in_exit { OnOk result (changed.new.in_exit.items ≡ changed.old.in_exit.items ++ (head, y) ∷ []) }
    ensures after { OnOk result (changed.new.after.items ≡ changed.old.after.items ++ (from, to) ∷ []) }
{
    changed.in_exit.push((head, y))?;
    changed.after.push((from, to))?;
    Ok(())
}

// A VAR parameter is a fresh variable, and the root of its argument is its whole with that variable at the argument's place.
fn add_place(
    program: &IndexedProgram<'_>,
    alloc: Global,
    terms: &mut Terms,
    supply: &mut Supply,
    formal: &Formal,
    d: &Target,
    changed: &mut Changed,
) -> Result<(), GenFault>
    requires types { IsTrue (sort_in_range terms.old.shapes (sort_of program.now.forms formal.now.of)) }
    requires target { IsTarget terms.old d.now }
    requires sorts { term_sort terms.old.shapes terms.old.decls (present (target_in terms.old d.now)) ≡ Some (sort_of program.now.forms formal.now.of) }
    requires there { AreThere terms.old (supply_of supply.old) }
    ensures { AddsChanged result (changed_by_places program.now (formal_of formal.now ∷ []) (plain.AtPlace (target_in terms.old d.now) ∷ []) (supply_of supply.old)) terms.old terms.new changed.old changed.new (supply_of supply.new) }
{
    terms.law_arena();
    let sort = sort_of(program.program().forms.as_slice(), formal.of);
    let fresh = supply.fresh_variable(terms, formal.name, sort);
    let y = limited(terms, fresh)?;
    let whole = whole_with(terms, alloc, d, y);
    let whole = limited(terms, whole)?;
    push(changed, Head::Var(formal.name, sort, 0), y, d.root, whole)?;
    Ok(())
}

fn add_argument(
    program: &IndexedProgram<'_>,
    alloc: Global,
    terms: &mut Terms,
    supply: &mut Supply,
    formal: &Formal,
    given: &Argument,
    changed: &mut Changed,
) -> Result<(), GenFault>
    requires types { IsTrue (sort_in_range terms.old.shapes (sort_of program.now.forms formal.now.of)) }
    requires given { IsArgument terms.old given.now (argument_in terms.old given.now) }
    requires sorts { term_sort terms.old.shapes terms.old.decls (plain.present_argument (argument_in terms.old given.now)) ≡ Some (sort_of program.now.forms formal.now.of) }
    requires there { AreThere terms.old (supply_of supply.old) }
    ensures { AddsChanged result (changed_by_places program.now (formal_of formal.now ∷ []) (argument_in terms.old given.now ∷ []) (supply_of supply.old)) terms.old terms.new changed.old changed.new (supply_of supply.new) }
{
    match given {
        Argument::Given(_) => Ok(()),
        Argument::AtPlace(d) => add_place(program, alloc, terms, supply, formal, d, changed),
    }
}

fn add_places(
    program: &IndexedProgram<'_>,
    alloc: Global,
    terms: &mut Terms,
    supply: &mut Supply,
    formals: &[Formal],
    given: &[Argument],
    changed: &mut Changed,
) -> Result<(), GenFault>
    ghost at: { Calling }
    requires at { IsAtCall program.now terms.old at.number at.routine at.arguments }
    requires formals { map formal_of formals.now ≡ at.routine.formals }
    requires long { length given.now ≡ length formals.now }
    requires given { AreArguments terms.old given.now at.arguments }
    requires there { AreThere terms.old (supply_of supply.old) }
    ensures { AddsChanged result (changed_by_places program.now at.routine.formals at.arguments (supply_of supply.old)) terms.old terms.new changed.old changed.new (supply_of supply.new) }
{
    for place in 0..formals.len() {
        add_argument(
            program,
            alloc,
            terms,
            supply,
            &formals[place],
            &given[place],
            changed,
        )?;
    }
    Ok(())
}

// An item of a VAR group is a fresh one.
fn add_item(
    terms: &mut Terms,
    supply: &mut Supply,
    variables: &SortTable<'_>,
    global: &GlobalItem,
    changed: &mut Changed,
) -> Result<(), GenFault>
    ghost at: { Calling }
    requires variables { HasNamesOf variables.now (variable_scope at.program (Some at.routine)) }
    requires types { IsTrue (head_in_range terms.old.shapes (item_head at.program (Some at.routine) global.now.item)) }
    requires there { AreThere terms.old (supply_of supply.old) }
    ensures { AddsChanged result (changed_items at.program at.routine (var_items (global_of global.now ∷ [])) (supply_of supply.old)) terms.old terms.new changed.old changed.new (supply_of supply.new) }
{
    if !global.is_var {
        return Ok(());
    }
    let head = item_head(variables, global.item);
    let (name, y) = fresh_pair(terms, supply, head)?;
    push(changed, head, y, name, y)?;
    Ok(())
}

fn add_items(
    terms: &mut Terms,
    supply: &mut Supply,
    variables: &SortTable<'_>,
    globals: &[GlobalItem],
    changed: &mut Changed,
) -> Result<(), GenFault>
    ghost at: { Calling }
    requires at { IsAtCall at.program terms.old at.number at.routine at.arguments }
    requires variables { HasNamesOf variables.now (variable_scope at.program (Some at.routine)) }
    requires globals { map global_of globals.now ≡ at.routine.globals }
    requires there { AreThere terms.old (supply_of supply.old) }
    ensures { AddsChanged result (changed_items at.program at.routine (var_items at.routine.globals) (supply_of supply.old)) terms.old terms.new changed.old changed.new (supply_of supply.new) }
{
    for global in globals {
        add_item(terms, supply, variables, global, changed)?;
    }
    Ok(())
}

// What a call changes: its VAR parameters, and the items of its VAR groups.
fn changes(
    program: &IndexedProgram<'_>,
    alloc: Global,
    terms: &mut Terms,
    supply: &mut Supply,
    number: RoutineId,
    given: &[Argument],
) -> Result<Changed, GenFault>
    ghost at: { Calling }
    requires program { at.program ≡ program.now }
    requires number { at.number ≡ number }
    requires at { IsAtCall program.now terms.old number at.routine at.arguments }
    requires given { AreArguments terms.old given.now at.arguments }
    requires there { AreThere terms.old (supply_of supply.old) }
    ensures grows { Extends terms.old terms.new }
    ensures walk { Answers result (several (pair_terms (changed_places program.now at.routine at.routine.formals at.arguments (supply_of supply.old)).after)) terms.old terms.new }
    ensures changed { IfOk result (λ c. AreChanged terms.new (supply_of supply.new) c.in_exit.items c.after.items (changed_places program.now at.routine at.routine.formals at.arguments (supply_of supply.old))) }
{
    let routine = program.program().routines.get(number.0 as usize);
    let mut changed = Changed {
        in_exit: Vec::new(alloc),
        after: Vec::new(alloc),
    };
    add_places(
        program,
        alloc,
        terms,
        supply,
        routine.formals.as_slice(),
        given,
        &mut changed,
    )?;
    let variables = variables_of(alloc, program, Some(number))?;
    add_items(
        terms,
        supply,
        &variables,
        routine.globals.as_slice(),
        &mut changed,
    )?;
    Ok(changed)
}

// What is wanted after a call, with what it changes in place of what stood there.
fn with_changes(
    terms: &mut Terms,
    alloc: Global,
    after: &[(TermId, TermId)],
    rest: Pending,
) -> Result<Pending, GenFault>
    requires rest { AreIn terms.old rest.items }
    requires after { ArePairs terms.old after.now }
    ensures { ComesTo result (meaning.replaced (pairs_of terms.old after.now) (conditions_of terms.old rest.items))
        (several (all_terms_in (meaning.replaced (pairs_of terms.old after.now) (conditions_of terms.old rest.items)))) terms.old terms.new }
{
    if after.is_empty() {
        return Ok(rest);
    }
    replaced(terms, alloc, after, &rest)
}

/// The conditions before a call whose arguments were made.
pub fn before_entered(
    program: &IndexedProgram<'_>,
    body: &Body<'_>,
    terms: &mut Terms,
    supply: &mut Supply,
    call: &Call,
    argued: &Argued,
    rest: Pending,
) -> Result<Pending, GenFault>
    ghost at: { Calling }
    requires at { IsAtCall program.now terms.old (called_routine call.now) at.routine at.arguments }
    requires given { AreArguments terms.old argued.now.arguments at.arguments }
    requires there { AreThere terms.old (supply_of supply.old) }
    requires rest { AreIn terms.old rest.items }
    ensures { Comes result (before_entering program.now body.now.here (call_line call.now) (Some at.routine) (argued_at at.arguments (supply_of supply.old)) (conditions_of terms.old rest.items))
        (entering_events program.now body.now.here (call_line call.now) (Some at.routine) (argued_at at.arguments (supply_of supply.old)) (conditions_of terms.old rest.items)) terms.old terms.new (supply_of supply.new) }
{
    let given = argued.arguments.as_slice();
    let fresh = changes(program, body.alloc, terms, supply, call.routine, given)?;
    let one = called(
        program,
        body.alloc,
        terms,
        call.routine,
        call.line,
        given,
        fresh.in_exit.as_slice(),
    )?;
    let behind = with_changes(terms, body.alloc, fresh.after.as_slice(), rest)?;
    in_front(body.alloc, body.here, &[one], behind)
}

/// The conditions before a call, with the calls in its arguments in front.
pub fn before_call(
    program: &IndexedProgram<'_>,
    body: &Body<'_>,
    terms: &mut Terms,
    supply: &mut Supply,
    call: &Call,
    rest: Pending,
) -> Result<Pending, GenFault>
    requires may { MayMake program.now body.now terms.old (supply_of supply.old) }
    requires typed { IsTrue (statement_ok program.now (routine_in program.now body.now.here) (Perform call.now)) }
    requires rest { AreIn terms.old rest.items }
    ensures { Comes result (before program.now body.now.here (Perform call.now) (made_of terms.old rest.items (supply_of supply.old)))
        (perform_events program.now body.now.here call.now (made_of terms.old rest.items (supply_of supply.old))) terms.old terms.new (supply_of supply.new) }
{
    let argued = arguments(program, body, terms, supply, call)?;
    let entered = before_entered(program, body, terms, supply, call, &argued, rest)?;
    in_front(body.alloc, body.here, argued.calls.as_slice(), entered)
}

// The conditions of a program.

ghost use Rattle.std.specs.Prelude.{◌≡◌, length, None, IfOk, IfErr, IfSome, IsTrue};
ghost use Rattle.spv_logic.specs.declared.conditions.Kind.TheVariants.{Exit};
ghost use Rattle.spv_term.specs.Arena.{Extends};
ghost use Rattle.spv_program.specs.Typing.{well_typed};
ghost use Rattle.spv_program.specs.typed.ProgramViews.{routine_of};
ghost use Rattle.spv_meaning.specs.Before as meaning;
ghost use Rattle.spv_meaning.specs.Before.{annotation_term, assuming_if_there, wanted_if_there};
ghost use Rattle.spv_meaning.specs.ProgramConditions as whole;
ghost use Rattle.spv_assign.specs.Conditions.{AreIn, conditions_of};
ghost use Rattle.spv_assign.specs.creation_trace.Events.{Walked};
ghost use Rattle.spv_assign.specs.creation_trace.StatementEvents.{in_order, one_if_there};
ghost use Rattle.spv_assign.specs.supply.Numbers.{supply_of};
ghost use Rattle.spv_flow_parts.specs.Standing.{IsBody};
ghost use Rattle.spv_flow_parts.specs.Walks.{Comes, ComesTo, made_of};
ghost use Rattle.spv_flow_parts.specs.calls.Arguments.{IsOver};
ghost use Rattle.spv_conditions.specs.Making as making;
ghost use Rattle.spv_conditions.specs.Making.{IsLimit, after_main, after_routine, all_made, behind_main, events_from, inside_main, last_main, main_events, main_made, one_routine, program_events};
ghost use Rattle.spv_conditions.specs.Steps.{IsRoutine, MayBegin};

use crate::blocks::before_body;
use crate::opening::empty_arena;
use crate::routines::routine_conditions;
use spv_assign::Pending;
use spv_assign::creation_trace::GenFault;
use spv_assign::limited_steps::joined;
use spv_assign::supply::Supply;
use spv_flow_parts::body_tables::body_of;
use spv_flow_parts::{Body, IndexedProgram, known, noted, wanted_note};
use spv_logic::{Kind, RoutineId};
use spv_program::typed::{Program, Routine};
use spv_term::{Condition, Terms};
use std::alloc::Global;

/// The conditions of a program, and the arena that has their terms.
#[derive(Drop)]
pub struct ProgramConditions {
    /// The terms.
    pub terms: Terms,
    /// The conditions, in order.
    pub list: Vec<Condition>,
}

// EXIT brought in front of the main block.
fn inside(
    program: &IndexedProgram<'_>,
    body: &Body<'_>,
    terms: &mut Terms,
    supply: &mut Supply,
) -> Result<Pending, GenFault>
    requires may { MayBegin program.now terms.old (supply_of supply.old) }
    requires body { IsBody program.now body.now }
    requires here { body.now.here ≡ None }
    ensures { Comes result (meaning.before program.now None program.now.main.body (behind_main program.now (supply_of supply.old)))
        (in_order (inside_main program.now (supply_of supply.old))) terms.old terms.new (supply_of supply.new) }
{
    let exit = exit_condition(program, body, terms)?;
    let main = &program.program().main;
    before_body(program, body, terms, supply, &main.body, exit)
}

// The condition that EXIT of the main block is true, where there is one.
fn exit_condition(
    program: &IndexedProgram<'_>,
    body: &Body<'_>,
    terms: &mut Terms,
) -> Result<Pending, GenFault>
    requires over { IsOver program.now terms.old }
    requires body { IsBody program.now body.now }
    requires here { body.now.here ≡ None }
    ensures { ComesTo result (wanted_if_there program.now None Exit program.now.main.exit) (one_if_there (annotation_term program.now None program.now.main.exit)) terms.old terms.new }
{
    let main = &program.program().main;
    let note = noted(program, body, terms, &main.exit)?;
    wanted_note(body.alloc, None, Kind::Exit, &main.exit, note)
}

// Conditions under ENTRY of the main block.
fn under(
    program: &IndexedProgram<'_>,
    body: &Body<'_>,
    terms: &mut Terms,
    conditions: Pending,
) -> Result<Pending, GenFault>
    requires over { IsOver program.now terms.old }
    requires body { IsBody program.now body.now }
    requires here { body.now.here ≡ None }
    requires conditions { AreIn terms.old conditions.items }
    ensures { ComesTo result (assuming_if_there (annotation_term program.now None program.now.main.entry) (conditions_of terms.old conditions.items))
        (one_if_there (annotation_term program.now None program.now.main.entry)) terms.old terms.new }
{
    let main = &program.program().main;
    let entry = noted(program, body, terms, &main.entry)?;
    known(entry, conditions)
}

// The conditions of the main block, under its ENTRY.
fn main_conditions(
    program: &IndexedProgram<'_>,
    alloc: Global,
    terms: &mut Terms,
    supply: &mut Supply,
) -> Result<Pending, GenFault>
    requires may { MayBegin program.now terms.old (supply_of supply.old) }
    ensures { Comes result (main_made program.now (supply_of supply.old)) (main_events program.now (supply_of supply.old)) terms.old terms.new (supply_of supply.new) }
{
    let body = body_of(alloc, program, None)?;
    let conditions = inside(program, &body, terms, supply)?;
    under(program, &body, terms, conditions)
}

// The conditions of a routine behind those of the routines before it.
fn with_routine(
    program: &IndexedProgram<'_>,
    alloc: Global,
    terms: &mut Terms,
    supply: &mut Supply,
    number: RoutineId,
    routine: &Routine,
    so_far: Pending,
) -> Result<Pending, GenFault>
    requires may { MayBegin program.now terms.old (supply_of supply.old) }
    requires routine { IsRoutine program.now number (routine_of routine.now) }
    requires so_far { AreIn terms.old so_far.items }
    ensures { Comes result (after_routine program.now number (routine_of routine.now) (made_of terms.old so_far.items (supply_of supply.old)))
        (in_order (one_routine program.now number (routine_of routine.now) (length so_far.items) (supply_of supply.old))) terms.old terms.new (supply_of supply.new) }
{
    let one = routine_conditions(program, alloc, terms, supply, number, routine)?;
    joined(so_far, one)
}

// The conditions of the main block behind those of all routines.
fn with_main(
    program: &IndexedProgram<'_>,
    alloc: Global,
    terms: &mut Terms,
    supply: &mut Supply,
    so_far: Pending,
) -> Result<Pending, GenFault>
    requires may { MayBegin program.now terms.old (supply_of supply.old) }
    requires so_far { AreIn terms.old so_far.items }
    ensures { Comes result (after_main program.now (made_of terms.old so_far.items (supply_of supply.old)))
        (in_order (last_main program.now (length so_far.items) (supply_of supply.old))) terms.old terms.new (supply_of supply.new) }
{
    let last = main_conditions(program, alloc, terms, supply)?;
    joined(so_far, last)
}

// The routine at a place of the list; none where no such number can be.
fn routine_id(place: usize) -> Option<RoutineId>
    ensures { IfSome result (λ id. id.0 ≡ place) }
{
    match u32::try_from(place) {
        Ok(number) => Some(RoutineId(number)),
        Err(_) => None,
    }
}

// The conditions of all routines, in order, and of the main block.
fn all_conditions(
    program: &IndexedProgram<'_>,
    alloc: Global,
    terms: &mut Terms,
    supply: &mut Supply,
) -> Result<Pending, GenFault>
    requires may { MayBegin program.now terms.old (supply_of supply.old) }
    ensures { Comes result (all_made program.now (supply_of supply.old)) (events_from program.now 0 program.now.routines 0 (supply_of supply.old)) terms.old terms.new (supply_of supply.new) }
{
    let mut all = Pending::new(alloc);
    let routines = program.program().routines.as_slice();
    for number in 0..routines.len() {
        let Some(id) = routine_id(number) else {
            return Err(GenFault::Memory);
        };
        all = with_routine(program, alloc, terms, supply, id, &routines[number], all)?;
    }
    with_main(program, alloc, terms, supply, all)
}

// The conditions of a program whose variables have their sorts at hand, in an arena that is empty so far.
fn conditions_in(
    alloc: Global,
    program: &IndexedProgram<'_>,
    empty: Terms,
) -> Result<ProgramConditions, GenFault>
    requires typed { IsTrue (well_typed program.now) }
    requires empty { empty ≡ making.empty_arena program.now }
    ensures conditions { IfOk result (λ c. conditions_of c.terms c.list.items ≡ whole.conditions_of program.now) }
    ensures in_range { IfOk result (λ c. AreIn c.terms c.list.items) }
    ensures arena { IfOk result (λ c. Extends (making.empty_arena program.now) c.terms) }
    ensures within { IfOk result (λ c. Walked (program_events program.now) (making.empty_arena program.now) c.terms) }
    ensures limit { IfErr result (λ e. IsLimit e program.now) }
{
    let mut terms = empty;
    let mut supply = Supply::new(alloc);
    let made = all_conditions(program, alloc, &mut terms, &mut supply);
    terms.law_arena();
    match made {
        Ok(made) => {
            let list = made.conditions(alloc)?;
            Ok(ProgramConditions { terms, list })
        }
        Err(fault) => Err(fault),
    }
}

/// The conditions of a program: those of the definition, in its order. `Conditions`: a list of conditions on the way has more than
/// 20000, or those of the routines so far have together. `Terms`: they need more than 200000 different terms. Where both hold, the
/// one that comes first on the way is answered.
pub fn conditions(alloc: Global, program: &Program) -> Result<ProgramConditions, GenFault>
    requires typed { IsTrue (well_typed program.now) }
    ensures conditions { IfOk result (λ c. conditions_of c.terms c.list.items ≡ whole.conditions_of program.now) }
    ensures in_range { IfOk result (λ c. AreIn c.terms c.list.items) }
    ensures arena { IfOk result (λ c. Extends (making.empty_arena program.now) c.terms) }
    ensures within { IfOk result (λ c. Walked (program_events program.now) (making.empty_arena program.now) c.terms) }
    ensures limit { IfErr result (λ e. IsLimit e program.now) }
{
    let empty = empty_arena(alloc, program)?;
    let indexed = IndexedProgram::new(alloc, program)?;
    conditions_in(alloc, &indexed, empty)
}

// Loops with a test.

ghost use Rattle.std.specs.Prelude.{option_map};
ghost use Rattle.spv_logic.specs.declared.conditions.Kind.TheVariants as kind;
ghost use Rattle.spv_program.specs.ExpressionTerms as plain;
ghost use Rattle.spv_program.specs.ExpressionTerms.{valued};
ghost use Rattle.spv_program.specs.Programs.{routine_in};
ghost use Rattle.spv_program.specs.typed.FormulaViews.{annotation_of};
ghost use Rattle.spv_assign.specs.supply.Numbers.{AreThere, supply_of};
ghost use Rattle.spv_assign.specs.Conditions.{AreIn, conditions_of};
ghost use Rattle.spv_meaning.specs.Before.{before_calls, wanted_if_there};
ghost use Rattle.spv_assign.specs.creation_trace.StatementEvents.{in_order, loop_events, loop_names};
ghost use Rattle.spv_flow_parts.specs.Standing.{Stands};
ghost use Rattle.spv_flow_parts.specs.Walks.{Comes, IsNoted, loop_made};
ghost use Rattle.spv_flow.specs.statement_rules.Rules.{Begins, HasValue, IsTested, IsValueOf, repeat_begin, repeat_uses, tested_made, while_begin, while_end};

use crate::statement_rules::ways::{tested_ways, turned_ways};
use spv_assign::Pending;
use spv_assign::creation_trace::GenFault;
use spv_assign::supply::Supply;
use spv_flow_parts::leaves::{Leaves, Valued, noted};
use spv_flow_parts::{Body, IndexedProgram, end_of_loop, wanted_note};
use spv_logic::{Kind, Sort};
use spv_program::typed::{Annotation, Expression, Statement};
use spv_term::{TermId, Terms};

/// The terms of a loop with a test.
#[derive(Debug, Drop)]
pub struct LoopTerms {
    /// Its test.
    pub test: Valued,
    /// Its annotation, where it has one.
    pub note: Option<TermId>,
}

/// What is made of a loop with a test before its body is walked.
#[derive(Drop)]
pub struct Begun {
    /// Its terms.
    pub terms: LoopTerms,
    /// The conditions behind its body.
    pub behind: Pending,
}

/// What is made of a WHILE before its body is walked: the terms of its test and of its annotation, which is wanted behind
/// the body.
pub fn begin_while<L: Leaves>(
    leaves: &mut L,
    program: &IndexedProgram<'_>,
    body: &Body<'_>,
    terms: &mut Terms,
    supply: &mut Supply,
    f: &Option<Annotation>,
    e: &Expression,
) -> Result<Begun, GenFault>
    requires fits { L.fits leaves.old program.now body.now.here }
    requires stands { Stands program.now body.now terms.old }
    requires tested { IsTested (L.takes program.now body.now.here) program.now body.now.here e.now (option_map annotation_of f.now) }
    requires there { AreThere terms.old (supply_of supply.old) }
    ensures fits { L.fits leaves.new program.now body.now.here }
    ensures begun { Begins result program.now body.now.here (option_map annotation_of f.now) (valued program.now (routine_in program.now body.now.here) (supply_of supply.old) e.now)
        (wanted_if_there program.now body.now.here kind.Preserved (option_map annotation_of f.now))
        (while_begin program.now body.now.here (option_map annotation_of f.now) ((L.making program.now body.now.here).test e.now (supply_of supply.old))) terms.old terms.new (supply_of supply.new) }
{
    let test = leaves.test(program, body, terms, supply, e)?;
    let note = noted(leaves, program, body, terms, f)?;
    let behind = wanted_note(body.alloc, body.here, Kind::Preserved, f, note)?;
    Ok(Begun {
        terms: LoopTerms { test, note },
        behind,
    })
}

/// What is made of a REPEAT before its body is walked: the terms of its test and of its annotation, and the conditions
/// behind the body, where it goes on or ends, with the calls of the test in front.
pub fn begin_repeat<L: Leaves>(
    leaves: &mut L,
    program: &IndexedProgram<'_>,
    body: &Body<'_>,
    terms: &mut Terms,
    supply: &mut Supply,
    f: &Option<Annotation>,
    e: &Expression,
    rest: Pending,
) -> Result<Begun, GenFault>
    requires fits { L.fits leaves.old program.now body.now.here }
    requires stands { Stands program.now body.now terms.old }
    requires tested { IsTested (L.takes program.now body.now.here) program.now body.now.here e.now (option_map annotation_of f.now) }
    requires there { AreThere terms.old (supply_of supply.old) }
    requires rest { AreIn terms.old rest.items }
    ensures fits { L.fits leaves.new program.now body.now.here }
    ensures begun { let w : plain.Valued = valued program.now (routine_in program.now body.now.here) (supply_of supply.old) e.now in
        Begins result program.now body.now.here (option_map annotation_of f.now) w
        (before_calls body.now.here w.calls (repeat_uses program.now body.now.here (option_map annotation_of f.now) w.term (conditions_of terms.old rest.items)))
        (repeat_begin program.now body.now.here (option_map annotation_of f.now) ((L.making program.now body.now.here).test e.now (supply_of supply.old)) w (conditions_of terms.old rest.items)) terms.old terms.new (supply_of supply.new) }
{
    let Begun {
        terms: known,
        behind: again,
    } = begin_while(leaves, program, body, terms, supply, f, e)?;
    let uses = turned_ways(terms, known.test.term, again, rest)?;
    let behind = leaves.before_test(program, body, &known.test, uses)?;
    Ok(Begun {
        terms: known,
        behind,
    })
}

/// The conditions of a REPEAT, or of a WHILE with both of its ways: those under its annotation, with what the loop
/// changes renamed, behind the one of its beginning.
pub fn end_repeat<L: Leaves>(
    leaves: &mut L,
    program: &IndexedProgram<'_>,
    body: &Body<'_>,
    terms: &mut Terms,
    supply: &mut Supply,
    whole: &Statement,
    f: &Option<Annotation>,
    note: Option<TermId>,
    uses: Pending,
) -> Result<Pending, GenFault>
    requires fits { L.fits leaves.old program.now body.now.here }
    requires stands { Stands program.now body.now terms.old }
    requires there { AreThere terms.old (supply_of supply.old) }
    requires note { IsNoted terms.old program.now body.now.here note (option_map annotation_of f.now) }
    requires uses { AreIn terms.old uses.items }
    ensures fits { L.fits leaves.new program.now body.now.here }
    ensures made { Comes result
        (loop_made program.now body.now.here (option_map annotation_of f.now) (loop_names program.now body.now.here whole.now (supply_of supply.old)) (conditions_of terms.old uses.items))
        (loop_events program.now body.now.here (option_map annotation_of f.now) (loop_names program.now body.now.here whole.now (supply_of supply.old)) (conditions_of terms.old uses.items))
        terms.old terms.new (supply_of supply.new) }
{
    let heads = leaves.changed(program, body, whole)?;
    end_of_loop(
        program,
        body,
        terms,
        supply,
        heads.as_slice(),
        f,
        note,
        uses,
    )
}

/// The conditions of a WHILE, where those before its body are made: these under its test, and those behind the loop under
/// the negated test, with the calls of the test in front of both.
pub fn end_while<L: Leaves>(
    leaves: &mut L,
    program: &IndexedProgram<'_>,
    body: &Body<'_>,
    terms: &mut Terms,
    supply: &mut Supply,
    whole: &Statement,
    f: &Option<Annotation>,
    t: &LoopTerms,
    turn: Pending,
    rest: Pending,
) -> Result<Pending, GenFault>
    requires fits { L.fits leaves.old program.now body.now.here }
    requires stands { Stands program.now body.now terms.old }
    requires there { AreThere terms.old (supply_of supply.old) }
    requires tested { HasValue terms.old t.now.test Sort.Bool }
    requires note { IsNoted terms.old program.now body.now.here t.now.note (option_map annotation_of f.now) }
    requires turn { AreIn terms.old turn.items }
    requires rest { AreIn terms.old rest.items }
    ensures fits { L.fits leaves.new program.now body.now.here }
    ensures made { (w : plain.Valued) → IsValueOf terms.old t.now.test w Sort.Bool → Comes result
        (loop_made program.now body.now.here (option_map annotation_of f.now) (loop_names program.now body.now.here whole.now (supply_of supply.old))
        (tested_made body.now.here w (conditions_of terms.old turn.items) (conditions_of terms.old rest.items)))
        (in_order (while_end program.now body.now.here (option_map annotation_of f.now) (loop_names program.now body.now.here whole.now (supply_of supply.old)) w
        (conditions_of terms.old turn.items) (conditions_of terms.old rest.items)))
        terms.old terms.new (supply_of supply.new) }
{
    let uses = tested_ways(leaves, program, body, terms, &t.test, turn, rest)?;
    end_repeat(leaves, program, body, terms, supply, whole, f, t.note, uses)
}

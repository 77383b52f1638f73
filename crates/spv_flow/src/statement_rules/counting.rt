// FOR loops.

ghost use Rattle.std.specs.Prelude.{◌++◌, ◌∷◌, [], List, option_map};
ghost use Rattle.spv_logic.specs.Conditions as logic;
ghost use Rattle.spv_term.specs.Arena.{Arena};
ghost use Rattle.spv_program.specs.ExpressionTerms as plain;
ghost use Rattle.spv_program.specs.ExpressionTerms.{valued};
ghost use Rattle.spv_program.specs.Programs.{routine_in};
ghost use Rattle.spv_program.specs.typed.FormulaViews.{annotation_of};
ghost use Rattle.spv_program.specs.typed.StatementViews.{counting_of};
ghost use Rattle.spv_assign.specs.supply.Numbers.{AreThere, supply_of};
ghost use Rattle.spv_assign.specs.Conditions.{AreIn, conditions_of};
ghost use Rattle.spv_meaning.specs.Before.{before_calls};
ghost use Rattle.spv_assign.specs.creation_trace.StatementEvents.{in_order, loop_names};
ghost use Rattle.spv_flow_parts.specs.Standing.{AreNotes, Stands};
ghost use Rattle.spv_flow_parts.specs.Walks.{AreThese, ComesTo};
ghost use Rattle.spv_flow_parts.specs.leaves.Values.{AreCalls};
ghost use Rattle.spv_flow.specs.statement_rules.Events.{end_call_events};
ghost use Rattle.spv_flow.specs.statement_rules.Rules.{BeginsFor, EndsBegin, EndsFor, IsCounted, IsValueOf, MayEndFor, for_begin, next_wanted};

use spv_assign::Pending;
use spv_assign::creation_trace::GenFault;
use spv_assign::supply::Supply;
use spv_flow_parts::for_loops::{counter, end_of_for, wanted_put};
use spv_flow_parts::leaves::{Leaves, Valued, noted};
use spv_flow_parts::{Body, IndexedProgram};
use spv_logic::{Kind, Sort};
use spv_program::typed::{Annotation, Counting, Statement};
use spv_term::{TermId, Terms};

/// The terms of a FOR.
#[derive(Debug, Drop)]
pub struct ForTerms {
    /// The first value of its variable.
    pub first: Valued,
    /// The last value that the variable may take.
    pub last: Valued,
    /// Its annotation, where it has one.
    pub note: Option<TermId>,
    /// Its variable.
    pub variable: TermId,
}

/// What is made of a FOR before its body is walked.
#[derive(Drop)]
pub struct BegunFor {
    /// Its terms.
    pub terms: ForTerms,
    /// The conditions behind its body.
    pub behind: Pending,
}

/// The terms of the two ends of a FOR.
#[derive(Debug, Drop)]
pub(crate) struct ForEnds {
    pub(crate) first: Valued,
    pub(crate) last: Valued,
}

fn for_ends<L: Leaves>(
    leaves: &mut L,
    program: &IndexedProgram<'_>,
    body: &Body<'_>,
    terms: &mut Terms,
    supply: &mut Supply,
    count: &Counting,
) -> Result<ForEnds, GenFault>
    requires fits { L.fits leaves.old program.now body.now.here }
    requires stands { Stands program.now body.now terms.old }
    requires counted { IsCounted (L.takes program.now body.now.here) program.now body.now.here (counting_of count.now) }
    requires there { AreThere terms.old (supply_of supply.old) }
    ensures fits { L.fits leaves.new program.now body.now.here }
    ensures ends { let w : plain.Valued = valued program.now (routine_in program.now body.now.here) (supply_of supply.old) count.now.first in
        EndsBegin result w (valued program.now (routine_in program.now body.now.here) w.supply count.now.last)
        ((L.making program.now body.now.here).test count.now.first (supply_of supply.old) ∷ (L.making program.now body.now.here).test count.now.last w.supply ∷ []) terms.old terms.new (supply_of supply.new) }
{
    let first = leaves.test(program, body, terms, supply, &count.first)?;
    let last = leaves.test(program, body, terms, supply, &count.last)?;
    Ok(ForEnds { first, last })
}

/// What is made of a FOR before its body is walked: the terms of its ends, its annotation and its variable, and the
/// annotation, with the next value in the place of the variable, as what is wanted behind the body.
pub fn begin_for<L: Leaves>(
    leaves: &mut L,
    program: &IndexedProgram<'_>,
    body: &Body<'_>,
    terms: &mut Terms,
    supply: &mut Supply,
    f: &Option<Annotation>,
    count: &Counting,
) -> Result<BegunFor, GenFault>
    requires fits { L.fits leaves.old program.now body.now.here }
    requires stands { Stands program.now body.now terms.old }
    requires counted { IsCounted (L.takes program.now body.now.here) program.now body.now.here (counting_of count.now) }
    requires notes { AreNotes program.now body.now.here (option_map annotation_of f.now) }
    requires there { AreThere terms.old (supply_of supply.old) }
    ensures fits { L.fits leaves.new program.now body.now.here }
    ensures begun { let w : plain.Valued = valued program.now (routine_in program.now body.now.here) (supply_of supply.old) count.now.first in
        BeginsFor result program.now body.now.here (option_map annotation_of f.now) (counting_of count.now) w (valued program.now (routine_in program.now body.now.here) w.supply count.now.last)
        (next_wanted program.now body.now.here (option_map annotation_of f.now) (counting_of count.now))
        (for_begin program.now body.now.here (option_map annotation_of f.now) (counting_of count.now)
        ((L.making program.now body.now.here).test count.now.first (supply_of supply.old)) ((L.making program.now body.now.here).test count.now.last w.supply)) terms.old terms.new (supply_of supply.new) }
{
    let ForEnds { first, last } = for_ends(leaves, program, body, terms, supply, count)?;
    let note = noted(leaves, program, body, terms, f)?;
    let made = counter(terms, count.variable, count.direction)?;
    let behind = wanted_put(
        program,
        body,
        terms,
        Kind::Preserved,
        f,
        note,
        made.variable,
        made.next,
    )?;
    let known = ForTerms {
        first,
        last,
        note,
        variable: made.variable,
    };
    Ok(BegunFor {
        terms: known,
        behind,
    })
}

// The calls of both ends in front of conditions, those of the first end in front of all.
fn behind_ends<L: Leaves>(
    leaves: &mut L,
    program: &IndexedProgram<'_>,
    body: &Body<'_>,
    t: &ForTerms,
    rest: Pending,
) -> Result<Pending, GenFault>
    requires fits { L.fits leaves.old program.now body.now.here }
    ensures fits { L.fits leaves.new program.now body.now.here }
    ensures made { (a : Arena) (first last : List plain.Called) (cs : List logic.Condition) → AreCalls a t.now.first.calls first → AreCalls a t.now.last.calls last → AreThese a rest.items cs
        → ComesTo result (before_calls body.now.here (first ++ last) cs) (in_order (end_call_events body.now.here first last cs)) a a }
{
    let behind = leaves.before_test(program, body, &t.last, rest)?;
    leaves.before_test(program, body, &t.first, behind)
}

/// The conditions of a FOR, where those before its body are made: those of its beginning, of its turns, and of what is
/// behind it, with the calls of its ends in front.
pub fn end_for<L: Leaves>(
    leaves: &mut L,
    program: &IndexedProgram<'_>,
    body: &Body<'_>,
    terms: &mut Terms,
    supply: &mut Supply,
    whole: &Statement,
    f: &Option<Annotation>,
    count: &Counting,
    t: &ForTerms,
    turn: &Pending,
    rest: &Pending,
) -> Result<Pending, GenFault>
    requires fits { L.fits leaves.old program.now body.now.here }
    requires stands { Stands program.now body.now terms.old }
    requires there { AreThere terms.old (supply_of supply.old) }
    requires known { MayEndFor terms.old program.now body.now.here t.now (option_map annotation_of f.now) (counting_of count.now) }
    requires turn { AreIn terms.old turn.now.items }
    requires rest { AreIn terms.old rest.now.items }
    ensures fits { L.fits leaves.new program.now body.now.here }
    ensures made { (w u : plain.Valued) → IsValueOf terms.old t.now.first w Sort.Int → IsValueOf terms.old t.now.last u Sort.Int → EndsFor result program.now body.now.here
        (option_map annotation_of f.now) (counting_of count.now) w u (loop_names program.now body.now.here whole.now (supply_of supply.old)) (conditions_of terms.old turn.now.items) (conditions_of terms.old rest.now.items)
        terms.old terms.new (supply_of supply.new) }
{
    let heads = leaves.changed(program, body, whole)?;
    let made = end_of_for(
        program,
        body,
        terms,
        supply,
        heads.as_slice(),
        f,
        t.note,
        count.variable,
        count.direction,
        t.variable,
        t.first.term,
        t.last.term,
        turn,
        rest,
    )?;
    behind_ends(leaves, program, body, t, made)
}

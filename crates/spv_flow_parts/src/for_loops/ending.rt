// The conditions behind the body of a FOR.

ghost use Rattle.std.specs.Prelude.{◌≡◌, ◌<◌, [], ◌∷◌, length, option_map};
ghost use Rattle.spv_logic.specs.declared.types.Sort.TheVariants as sort;
ghost use Rattle.spv_term.specs.Arena.{sort_at, tree};
ghost use Rattle.spv_term.specs.substitution.Images.{ArePairs, head_at};
ghost use Rattle.spv_program.specs.Supplies.{fresh_like};
ghost use Rattle.spv_program.specs.Terms.{alone};
ghost use Rattle.spv_program.specs.typed.FormulaViews.{annotation_of};
ghost use Rattle.spv_assign.specs.supply.Numbers.{AreThere, supply_of};
ghost use Rattle.spv_assign.specs.Conditions.{AreIn, all_terms_in, conditions_of, pairs_of};
ghost use Rattle.spv_meaning.specs.Before as before;
ghost use Rattle.spv_meaning.specs.Before.{wanted_with};
ghost use Rattle.spv_assign.specs.creation_trace.StatementEvents.{several};
ghost use Rattle.spv_assign.specs.limited_steps.Makes.{IsTerm};
ghost use Rattle.spv_flow_parts.specs.Standing.{AllRenamed};
ghost use Rattle.spv_flow_parts.specs.Walks.{Comes, ComesTo, IsNoted};
ghost use Rattle.spv_flow_parts.specs.for_loops.Counting.{ended_events, ended_made, left_events, left_made, number_head};

use crate::for_loops::closing::close;
use crate::{Body, IndexedProgram, renamed, replaced_in, wanted_note};
use spv_assign::Pending;
use spv_assign::creation_trace::GenFault;
use spv_assign::limited_steps::fresh_pair;
use spv_assign::supply::Supply;
use spv_logic::names::Symbol;
use spv_logic::{Head, Kind, Sort};
use spv_program::Direction;
use spv_program::typed::Annotation;
use spv_term::{TermId, Terms};
use std::alloc::Global;

/// The condition that an annotation is true, with a term in the place of a variable; none where there is no annotation.
pub fn wanted_put(
    program: &IndexedProgram<'_>,
    body: &Body<'_>,
    terms: &mut Terms,
    kind: Kind,
    f: &Option<Annotation>,
    note: Option<TermId>,
    variable: TermId,
    t: TermId,
) -> Result<Pending, GenFault>
    requires note { IsNoted terms.old program.now body.now.here note (option_map annotation_of f.now) }
    requires pair { ArePairs terms.old ((variable, t) ∷ []) }
    ensures { ComesTo result (wanted_with program.now body.now.here kind (head_at terms.old variable) (tree terms.old t) (option_map annotation_of f.now))
        (several (all_terms_in (wanted_with program.now body.now.here kind (head_at terms.old variable) (tree terms.old t) (option_map annotation_of f.now)))) terms.old terms.new }
{
    let _ = program;
    let first = wanted_note(body.alloc, body.here, kind, f, note)?;
    replaced_in(body.alloc, terms, &[(variable, t)], &first)
}

// Conditions behind a loop, whose variable they see as a fresh one, with what the loop changes renamed.
fn left_behind(
    alloc: Global,
    terms: &mut Terms,
    supply: &mut Supply,
    x: Symbol,
    pairs: &[(TermId, TermId)],
    rest: &Pending,
) -> Result<Pending, GenFault>
    requires there { AreThere terms.old (supply_of supply.old) }
    requires pairs { ArePairs terms.old pairs.now }
    requires rest { AreIn terms.old rest.now.items }
    ensures { Comes result (left_made (pairs_of terms.old pairs.now) (fresh_like (number_head x) (supply_of supply.old)) (number_head x) (conditions_of terms.old rest.now.items))
        (left_events (pairs_of terms.old pairs.now) (fresh_like (number_head x) (supply_of supply.old)) (number_head x) (conditions_of terms.old rest.now.items))
        terms.old terms.new (supply_of supply.new) }
{
    let last = fresh_pair(terms, supply, Head::Var(x, Sort::Int, 0))?;
    let behind = replaced_in(alloc, terms, &[last], rest)?;
    replaced_in(alloc, terms, pairs, &behind)
}

/// The conditions of a FOR, where the terms of its ends, of its variable and of its annotation are there, and the
/// conditions before its body are made.
pub fn end_of_for(
    program: &IndexedProgram<'_>,
    body: &Body<'_>,
    terms: &mut Terms,
    supply: &mut Supply,
    heads: &[Head],
    f: &Option<Annotation>,
    note: Option<TermId>,
    x: Symbol,
    direction: Direction,
    variable: TermId,
    first: TermId,
    end: TermId,
    turn: &Pending,
    rest: &Pending,
) -> Result<Pending, GenFault>
    requires heads { AllRenamed terms.old.shapes heads.now }
    requires there { AreThere terms.old (supply_of supply.old) }
    requires note { IsNoted terms.old program.now body.now.here note (option_map annotation_of f.now) }
    requires variable { IsTerm terms.old variable (alone (number_head x)) }
    requires number { sort_at terms.old variable ≡ sort.Int }
    requires first { first.0 < length terms.old.nodes }
    requires first_sort { sort_at terms.old first ≡ sort.Int }
    requires end { end.0 < length terms.old.nodes }
    requires end_sort { sort_at terms.old end ≡ sort.Int }
    requires turn { AreIn terms.old turn.now.items }
    requires rest { AreIn terms.old rest.now.items }
    ensures { Comes result
        (ended_made program.now body.now.here (option_map annotation_of f.now) direction (number_head x) (tree terms.old first) (tree terms.old end) (before.renamed heads.now (supply_of supply.old)) (conditions_of terms.old turn.now.items) (conditions_of terms.old rest.now.items))
        (ended_events program.now body.now.here (option_map annotation_of f.now) direction (number_head x) (tree terms.old first) (tree terms.old end) (before.renamed heads.now (supply_of supply.old)) (conditions_of terms.old turn.now.items) (conditions_of terms.old rest.now.items))
        terms.old terms.new (supply_of supply.new) }
{
    let begun = wanted_put(
        program,
        body,
        terms,
        Kind::Invariant,
        f,
        note,
        variable,
        first,
    )?;
    let made = renamed(body.alloc, terms, supply, heads)?;
    let pairs = made.as_slice();
    let inside = replaced_in(body.alloc, terms, pairs, turn)?;
    let outside = left_behind(body.alloc, terms, supply, x, pairs, rest)?;
    close(
        body.alloc, terms, pairs, note, direction, variable, end, begun, inside, outside,
    )
}

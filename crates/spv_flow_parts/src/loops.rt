// The conditions of a loop.

ghost use Rattle.std.specs.Prelude.{option_map};
ghost use Rattle.spv_term.specs.Arena.{tree};
ghost use Rattle.spv_program.specs.typed.FormulaViews.{annotation_of};
ghost use Rattle.spv_assign.specs.supply.Numbers.{AreThere, supply_of};
ghost use Rattle.spv_assign.specs.Conditions.{AreIn, conditions_of};
ghost use Rattle.spv_meaning.specs.Before as before;
ghost use Rattle.spv_meaning.specs.Before.{assuming_if_there};
ghost use Rattle.spv_assign.specs.creation_trace.StatementEvents.{loop_events, replacing_events};
ghost use Rattle.spv_flow_parts.specs.Standing.{AllRenamed};
ghost use Rattle.spv_flow_parts.specs.Walks.{Comes, IsNoted, IsThere, loop_made, renamed_made};

use crate::IndexedProgram;
use crate::bodies::Body;
use crate::lists::known;
use crate::notes::wanted_note;
use crate::renaming::{renamed, replaced_in};
use spv_assign::Pending;
use spv_assign::creation_trace::GenFault;
use spv_assign::limited_steps::joined;
use spv_assign::supply::Supply;
use spv_logic::{Head, Kind};
use spv_program::typed::Annotation;
use spv_term::{TermId, Terms};
use std::alloc::Global;

// Conditions under what is known, with what a loop changes renamed.
fn renamed_uses(
    alloc: Global,
    terms: &mut Terms,
    supply: &mut Supply,
    heads: &[Head],
    h: Option<TermId>,
    uses: Pending,
) -> Result<Pending, GenFault>
    requires heads { AllRenamed terms.old.shapes heads.now }
    requires there { AreThere terms.old (supply_of supply.old) }
    requires known { IsThere terms.old h }
    requires uses { AreIn terms.old uses.items }
    ensures { Comes result
        (renamed_made (option_map (tree terms.old) h) (before.renamed heads.now (supply_of supply.old)) (conditions_of terms.old uses.items))
        (replacing_events (before.renamed heads.now (supply_of supply.old)).pairs (assuming_if_there (option_map (tree terms.old) h) (conditions_of terms.old uses.items)))
        terms.old terms.new (supply_of supply.new) }
{
    let pairs = renamed(alloc, terms, supply, heads)?;
    let under = known(h, uses)?;
    replaced_in(alloc, terms, pairs.as_slice(), &under)
}

/// The conditions of a loop with this annotation, whose term is there: those under it, with what the loop changes
/// renamed, behind the one of its beginning.
pub fn end_of_loop(
    program: &IndexedProgram<'_>,
    body: &Body<'_>,
    terms: &mut Terms,
    supply: &mut Supply,
    heads: &[Head],
    f: &Option<Annotation>,
    note: Option<TermId>,
    uses: Pending,
) -> Result<Pending, GenFault>
    requires heads { AllRenamed terms.old.shapes heads.now }
    requires there { AreThere terms.old (supply_of supply.old) }
    requires note { IsNoted terms.old program.now body.now.here note (option_map annotation_of f.now) }
    requires uses { AreIn terms.old uses.items }
    ensures { Comes result (loop_made program.now body.now.here (option_map annotation_of f.now) (before.renamed heads.now (supply_of supply.old)) (conditions_of terms.old uses.items))
        (loop_events program.now body.now.here (option_map annotation_of f.now) (before.renamed heads.now (supply_of supply.old)) (conditions_of terms.old uses.items))
        terms.old terms.new (supply_of supply.new) }
{
    let _ = program;
    let made = renamed_uses(body.alloc, terms, supply, heads, note, uses)?;
    let first = wanted_note(body.alloc, body.here, Kind::Invariant, f, note)?;
    joined(first, made)
}

// Annotations that may be there, and ASSERTs.

ghost use Rattle.std.specs.Prelude.{◌≡◌, IfOk, IsTrue, Some, option_map};
ghost use Rattle.spv_term.specs.Arena.{Extends};
ghost use Rattle.spv_program.specs.Statements as statement;
ghost use Rattle.spv_program.specs.Supplies.{Supply};
ghost use Rattle.spv_program.specs.typed.FormulaViews.{annotation_of};
ghost use Rattle.spv_assign.specs.supply.Numbers.{AreThere};
ghost use Rattle.spv_assign.specs.Conditions.{AreIn};
ghost use Rattle.spv_meaning.specs.Before.{annotation_term, before};
ghost use Rattle.spv_assign.specs.creation_trace.Events.{Answers};
ghost use Rattle.spv_assign.specs.creation_trace.StatementEvents.{events, one_if_there};
ghost use Rattle.spv_flow_parts.specs.Standing.{AreNotes, Stands};
ghost use Rattle.spv_flow_parts.specs.Walks.{Comes, IsNoted, made_of};

use crate::leaves::leaves::Leaves;
use crate::{Body, IndexedProgram, wanted};
use spv_assign::Pending;
use spv_assign::creation_trace::GenFault;
use spv_assign::limited_steps::{assumed, joined};
use spv_logic::Kind;
use spv_program::typed::Annotation;
use spv_term::{TermId, Terms};

/// The term of an annotation of a body, where there is one.
pub fn noted<L: Leaves>(
    leaves: &mut L,
    program: &IndexedProgram<'_>,
    body: &Body<'_>,
    terms: &mut Terms,
    f: &Option<Annotation>,
) -> Result<Option<TermId>, GenFault>
    requires fits { L.fits leaves.old program.now body.now.here }
    requires stands { Stands program.now body.now terms.old }
    requires typed { AreNotes program.now body.now.here (option_map annotation_of f.now) }
    ensures fits { L.fits leaves.new program.now body.now.here }
    ensures note { IfOk result (λ n. IsNoted terms.new program.now body.now.here n (option_map annotation_of f.now)) }
    ensures grows { Extends terms.old terms.new }
    ensures walk { Answers result (one_if_there (annotation_term program.now body.now.here (option_map annotation_of f.now))) terms.old terms.new }
{
    match f {
        None => Ok(None),
        Some(a) => Ok(Some(leaves.note(program, body, terms, a)?)),
    }
}

/// The conditions before an ASSERT: its own first, and it is known in those behind it.
pub fn before_assert<L: Leaves>(
    leaves: &mut L,
    program: &IndexedProgram<'_>,
    body: &Body<'_>,
    terms: &mut Terms,
    a: &Annotation,
    rest: Pending,
) -> Result<Pending, GenFault>
    requires fits { L.fits leaves.old program.now body.now.here }
    requires stands { Stands program.now body.now terms.old }
    requires typed { AreNotes program.now body.now.here (Some (annotation_of a.now)) }
    requires rest { AreIn terms.old rest.items }
    ensures fits { L.fits leaves.new program.now body.now.here }
    ensures made { (n : Supply) → AreThere terms.old n → Comes result (before program.now body.now.here (statement.Assert (annotation_of a.now)) (made_of terms.old rest.items n))
        (events program.now body.now.here (statement.Assert (annotation_of a.now)) (made_of terms.old rest.items n)) terms.old terms.new n }
{
    let term = leaves.note(program, body, terms, a)?;
    let under = assumed(term, rest)?;
    let first = wanted(body.alloc, body.here, Kind::Assert, term, a.line)?;
    joined(first, under)
}

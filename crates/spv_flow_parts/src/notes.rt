// Annotations.

ghost use Rattle.std.specs.Prelude.{◌≡◌, [], ◌∷◌, IfOk, IfErr, Some, option_map};
ghost use Rattle.spv_term.specs.Arena.{Arena, Extends};
ghost use Rattle.spv_program.specs.Programs as plain;
ghost use Rattle.spv_program.specs.Programs.{routine_in};
ghost use Rattle.spv_program.specs.Terms.{body_term};
ghost use Rattle.spv_program.specs.typed.FormulaViews.{annotation_of};
ghost use Rattle.spv_meaning.specs.Before.{annotation_term, wanted_if_there};
ghost use Rattle.spv_assign.specs.declared.creation_trace.faults.GenFault.TheVariants.{Memory};
ghost use Rattle.spv_assign.specs.creation_trace.Events.{Answers};
ghost use Rattle.spv_assign.specs.creation_trace.StatementEvents.{one_if_there};
ghost use Rattle.spv_flow_parts.specs.Standing.{AreNotes, Stands};
ghost use Rattle.spv_flow_parts.specs.Walks.{AreThese, IsNoted, MakesTerm, wanted_item};

use crate::IndexedProgram;
use crate::bodies::Body;
use spv_assign::Pending;
use spv_assign::creation_trace::GenFault;
use spv_assign::limited_steps::limited;
use spv_expression_terms::term_walk::formula_term;
use spv_logic::{Kind, Origin, RoutineId};
use spv_program::typed::Annotation;
use spv_term::{TermId, Terms};
use std::alloc::{AllocError, Global};

/// The term of an annotation of a body.
pub fn note(
    program: &IndexedProgram<'_>,
    body: &Body<'_>,
    terms: &mut Terms,
    a: &Annotation,
) -> Result<TermId, GenFault>
    requires stands { Stands program.now body.now terms.old }
    requires typed { AreNotes program.now body.now.here (Some (annotation_of a.now)) }
    ensures { MakesTerm result (body_term program.now (routine_in program.now body.now.here) (annotation_of a.now)) terms.old terms.new }
{
    let _ = program;
    let made = formula_term(terms, body.alloc, &body.names, &a.formula);
    limited(terms, made)
}

/// The term of an annotation of a body, where there is one.
pub fn noted(
    program: &IndexedProgram<'_>,
    body: &Body<'_>,
    terms: &mut Terms,
    f: &Option<Annotation>,
) -> Result<Option<TermId>, GenFault>
    requires stands { Stands program.now body.now terms.old }
    requires typed { AreNotes program.now body.now.here (option_map annotation_of f.now) }
    ensures note { IfOk result (λ n. IsNoted terms.new program.now body.now.here n (option_map annotation_of f.now)) }
    ensures grows { Extends terms.old terms.new }
    ensures walk { Answers result (one_if_there (annotation_term program.now body.now.here (option_map annotation_of f.now))) terms.old terms.new }
{
    match f {
        None => Ok(None),
        Some(a) => Ok(Some(note(program, body, terms, a)?)),
    }
}

fn wanted_one(
    alloc: Global,
    here: Option<RoutineId>,
    kind: Kind,
    goal: TermId,
    line: u32,
) -> Result<Pending, AllocError>
    ensures { IfOk result (λ cs. cs.items ≡ wanted_item here kind goal line ∷ []) }
{
    let origin = Origin {
        routine: here,
        kind,
        line,
    };
    Pending::one(alloc, goal, origin)
}

/// The condition that a formula of this line is true.
pub fn wanted(
    alloc: Global,
    here: Option<RoutineId>,
    kind: Kind,
    goal: TermId,
    line: u32,
) -> Result<Pending, GenFault>
    ensures item { IfOk result (λ cs. cs.items ≡ wanted_item here kind goal line ∷ []) }
    ensures err { IfErr result (λ e. e ≡ Memory) }
{
    Ok(wanted_one(alloc, here, kind, goal, line)?)
}

/// The condition that an annotation with this term is true; none where there is no annotation.
pub fn wanted_note(
    alloc: Global,
    here: Option<RoutineId>,
    kind: Kind,
    f: &Option<Annotation>,
    note: Option<TermId>,
) -> Result<Pending, GenFault>
    ensures conditions { (a : Arena) (p : plain.Program) → IsNoted a p here note (option_map annotation_of f.now)
        → IfOk result (λ cs. AreThese a cs.items (wanted_if_there p here kind (option_map annotation_of f.now))) }
    ensures err { IfErr result (λ e. e ≡ Memory) }
{
    match (f, note) {
        (Some(a), Some(term)) => wanted(alloc, here, kind, term, a.line),
        _ => Ok(Pending::new(alloc)),
    }
}

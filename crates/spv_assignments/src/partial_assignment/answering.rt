// Whether the truth of a question follows from facts.

ghost use Rattle.std.specs.Prelude.{◌≡◌, ◌<◌, is_some, length, List, IfOk};
ghost use Rattle.spv_logic.specs.Terms.{Term};
ghost use Rattle.spv_assignments.specs.kleene.Passes.{AreConnectives, ArePlain, AreQuiet, AreStarted, at, MarksArguments, PassesListed};
ghost use Rattle.spv_assignments.specs.partial_assignment.Following.{AreListed, IsKnowledge};
ghost use Rattle.spv_assignments.specs.partial_assignment.Answers.{IsSupposition, Say, TellsClash};

use crate::kleene::{Connectives, clash, value_at};
use crate::partial_assignment::lists::Listed;
use spv_proof_steps::candidates::negated;
use spv_term::{TermId, Terms};
use std::alloc::{AllocError, Global};

/// A term, and the value that it is supposed to have.
#[derive(Clone, Copy, Debug)]
pub(crate) struct Supposition {
    pub(crate) term: TermId,
    pub(crate) value: bool,
}

// The term that has a value where a term is supposed to be false, and this value.
fn denied(terms: &Terms, t: TermId) -> Supposition
    requires { t.0 < length terms.now.nodes }
    ensures { IsSupposition terms.now t result }
{
    match negated(terms, t) {
        Some(u) => Supposition {
            term: u,
            value: true,
        },
        None => Supposition {
            term: t,
            value: false,
        },
    }
}

// Whether a term clashes where this is supposed.
fn clashes(
    alloc: Global,
    terms: &Terms,
    connectives: &Connectives,
    arguments: &[bool],
    own: &[Option<bool>],
    start: &[Option<bool>],
    s: &Supposition,
) -> Result<bool, AllocError>
    requires ids { AreConnectives terms.now connectives.now.ids.items }
    requires plain { ArePlain terms.now connectives.now.plain.items }
    requires arguments { MarksArguments terms.now arguments.now }
    requires quiet { AreQuiet terms.now own.now }
    requires start { AreStarted terms.now own.now start.now }
    requires passed { PassesListed terms.now own.now connectives.now.ids.items }
    requires s { s.now.term.0 < length terms.now.nodes }
    ensures { IfOk result (TellsClash terms.now own.now s.now) }
{
    let found = clash(
        alloc,
        terms,
        connectives,
        arguments,
        own,
        start,
        s.term,
        s.value,
    )?;
    match found {
        Some(_) => Ok(true),
        None => Ok(false),
    }
}

// Whether a value is listed for a term.
fn has_value(values: &[Option<bool>], t: TermId) -> bool
    ensures { result ≡ is_some (at values.now t.0) }
{
    match value_at(values, t) {
        Some(_) => true,
        None => false,
    }
}

/// The truth of a question that has no value, where one follows.
pub(crate) fn answer(
    alloc: Global,
    terms: &Terms,
    connectives: &Connectives,
    arguments: &[bool],
    lists: &Listed,
    start: &[Option<bool>],
    t: TermId,
) -> Result<Option<bool>, AllocError>
    requires ids { AreConnectives terms.now connectives.now.ids.items }
    requires plain { ArePlain terms.now connectives.now.plain.items }
    requires arguments { MarksArguments terms.now arguments.now }
    requires quiet { AreQuiet terms.now lists.now.cores.items }
    requires start { AreStarted terms.now lists.now.cores.items start.now }
    requires passed { PassesListed terms.now lists.now.cores.items connectives.now.ids.items }
    requires t { t.0 < length terms.now.nodes }
    ensures { IfOk result (λ o. (facts : List Term) → IsKnowledge terms.now facts
        → AreListed terms.now facts lists.now.direct.items lists.now.cores.items lists.now.all.items
        → AreQuiet terms.now lists.now.direct.items → Say terms.now facts t o) }
{
    terms.law_arena();
    if has_value(lists.all.as_slice(), t) {
        return Ok(None);
    }
    let cores = lists.cores.as_slice();
    let supposed = denied(terms, t);
    if clashes(
        alloc,
        terms,
        connectives,
        arguments,
        cores,
        start,
        &supposed,
    )? {
        return Ok(Some(true));
    }
    let affirmed = Supposition {
        term: t,
        value: true,
    };
    if clashes(
        alloc,
        terms,
        connectives,
        arguments,
        cores,
        start,
        &affirmed,
    )? {
        return Ok(Some(false));
    }
    Ok(None)
}

// What follows from facts by evaluation.

ghost use Rattle.std.specs.Prelude.{◌≡◌, ◌<◌, length, List, None, IfOk};
ghost use Rattle.spv_logic.specs.Terms.{Term};
ghost use Rattle.spv_term.specs.Arena.{AllBelow};
ghost use Rattle.spv_assignments.specs.kleene.Passes.{AreConnectives, ArePlain, AreQuiet, AreStarted, at, MarksArguments, PassesListed};
ghost use Rattle.spv_assignments.specs.partial_assignment.Following.{AreListed, IsKnowledge};
ghost use Rattle.spv_assignments.specs.partial_assignment.Facts.{facts_of};
ghost use Rattle.spv_assignments.specs.partial_assignment.Says.{FollowsAmong, IsClash, Says};

use crate::kleene::{Connectives, arguments_of, listed_clash, loud, started, value_at};
use crate::partial_assignment::answering::answer;
use crate::partial_assignment::facts::Known;
use crate::partial_assignment::lists::Listed;
use spv_term::{TermId, Terms};
use std::alloc::{AllocError, Global};

/// What follows from facts by evaluation.
#[derive(Clone, Copy, Debug)]
pub enum Following {
    /// Nothing.
    Nothing,
    /// A question that has no value has this truth.
    Question(TermId, bool),
    /// The facts contradict each other: a term has this truth by a fact, and the opposite one follows.
    Clash(TermId, bool),
}

// The first question whose truth follows.
fn first_question(
    alloc: Global,
    terms: &Terms,
    connectives: &Connectives,
    arguments: &[bool],
    lists: &Listed,
    start: &[Option<bool>],
    questions: &[TermId],
) -> Result<Following, AllocError>
    requires ids { AreConnectives terms.now connectives.now.ids.items }
    requires plain { ArePlain terms.now connectives.now.plain.items }
    requires arguments { MarksArguments terms.now arguments.now }
    requires quiet { AreQuiet terms.now lists.now.cores.items }
    requires start { AreStarted terms.now lists.now.cores.items start.now }
    requires passed { PassesListed terms.now lists.now.cores.items connectives.now.ids.items }
    requires questions { AllBelow (length terms.now.nodes) questions.now }
    ensures { IfOk result (λ f. (facts : List Term) → IsKnowledge terms.now facts
        → AreListed terms.now facts lists.now.direct.items lists.now.cores.items lists.now.all.items
        → AreQuiet terms.now lists.now.direct.items → FollowsAmong terms.now facts questions.now f) }
{
    for t in questions {
        let found = answer(alloc, terms, connectives, arguments, lists, start, *t)?;
        if let Some(truth) = found {
            return Ok(Following::Question(*t, truth));
        }
    }
    Ok(Following::Nothing)
}

// A question whose truth follows, looked for from a place on, and then before it.
fn question_from(
    alloc: Global,
    terms: &Terms,
    connectives: &Connectives,
    arguments: &[bool],
    lists: &Listed,
    start: &[Option<bool>],
    questions: &[TermId],
    place: usize,
) -> Result<Following, AllocError>
    requires ids { AreConnectives terms.now connectives.now.ids.items }
    requires plain { ArePlain terms.now connectives.now.plain.items }
    requires arguments { MarksArguments terms.now arguments.now }
    requires quiet { AreQuiet terms.now lists.now.cores.items }
    requires start { AreStarted terms.now lists.now.cores.items start.now }
    requires passed { PassesListed terms.now lists.now.cores.items connectives.now.ids.items }
    requires questions { AllBelow (length terms.now.nodes) questions.now }
    ensures { IfOk result (λ f. (facts : List Term) → IsKnowledge terms.now facts
        → AreListed terms.now facts lists.now.direct.items lists.now.cores.items lists.now.all.items
        → AreQuiet terms.now lists.now.direct.items → FollowsAmong terms.now facts questions.now f) }
{
    let count = questions.len();
    let middle = if place < count { place } else { 0 };
    let behind = &questions[middle..];
    let found = first_question(alloc, terms, connectives, arguments, lists, start, behind)?;
    match found {
        Following::Nothing => {
            let before = &questions[..middle];
            first_question(alloc, terms, connectives, arguments, lists, start, before)
        }
        _ => Ok(found),
    }
}

// A term clashes that has a truth by a fact.
fn contradiction(direct: &[Option<bool>], t: TermId) -> Following
    requires { at direct.now t.0 ≡ None → ⊥ }
    ensures { IsClash direct.now t result }
{
    match value_at(direct, t) {
        Some(truth) => Following::Clash(t, truth),
        None => unreachable!(),
    }
}

/// What follows from facts by evaluation: the truth of a question that has no value, a contradiction, or nothing. All facts are cited. Questions are
/// looked at from a place on, and then those before it: which of several that follow is told is a free choice.
pub fn next(
    alloc: Global,
    terms: &Terms,
    connectives: &Connectives,
    known: &[Known],
    lists: &Listed,
    questions: &[TermId],
    place: usize,
) -> Result<Following, AllocError>
    requires ids { AreConnectives terms.now connectives.now.ids.items }
    requires plain { ArePlain terms.now connectives.now.plain.items }
    requires known { IsKnowledge terms.now (facts_of terms.now known.now) }
    requires lists { AreListed terms.now (facts_of terms.now known.now) lists.now.direct.items lists.now.cores.items lists.now.all.items }
    requires questions { AllBelow (length terms.now.nodes) questions.now }
    ensures { IfOk result (Says terms.now (facts_of terms.now known.now) questions.now) }
{
    terms.law_arena();
    let _ = known;
    let direct = lists.direct.as_slice();
    let cores = lists.cores.as_slice();
    let plain = connectives.plain.as_slice();
    if let Some(t) = loud(terms, direct, plain) {
        return Ok(contradiction(direct, t));
    }
    let start = started(alloc, terms, cores, plain)?;
    let found = listed_clash(alloc, terms, connectives, cores, start.as_slice())?;
    if let Some(t) = found {
        return Ok(contradiction(direct, t));
    }
    let arguments = arguments_of(alloc, terms, connectives.ids.as_slice())?;
    question_from(
        alloc,
        terms,
        connectives,
        arguments.as_slice(),
        lists,
        start.as_slice(),
        questions,
        place,
    )
}

// Questions that are negations of other terms.

ghost use Rattle.std.specs.Prelude.{◌≡◌, ◌<◌, length, map, OnOk, IfOk};
ghost use Rattle.spv_term.specs.Arena.{AllBelow};
ghost use Rattle.spv_trail.specs.followers.Followers.{Puts, Adds, AreBeside, IsQuestion, IsNegation};

use crate::followers::lists::empty_lists;
use spv_assignments::polarity::core;
use spv_term::{TermId, Terms};
use std::alloc::{AllocError, Global};

// Puts a question behind those beside a term.
fn put(
    lists: &mut [Vec<(TermId, bool)>],
    t: TermId,
    question: TermId,
    same: bool,
) -> Result<(), AllocError>
    requires { t.0 < length lists.old }
    ensures { OnOk result (Puts t question same (map (λ v. v.items) lists.old) (map (λ v. v.items) lists.new)) }
{
    lists[t.0 as usize].push((question, same))?;
    Ok(())
}

// Puts a question beside its core, if that is another term.
fn add_negation(
    terms: &Terms,
    lists: &mut [Vec<(TermId, bool)>],
    question: TermId,
) -> Result<(), AllocError>
    requires question { question.0 < length terms.now.nodes }
    requires lists { length lists.old ≡ length terms.now.nodes }
    ensures { OnOk result (Adds terms.now (IsNegation terms.now) question (map (λ v. v.items) lists.old) (map (λ v. v.items) lists.new)) }
{
    terms.law_arena();
    let (inside, same) = core(terms, question);
    if inside == question {
        return Ok(());
    }
    put(lists, inside, question, same)?;
    Ok(())
}

/// Beside each term the questions that are negations of it.
pub(crate) fn find_negations(
    alloc: Global,
    terms: &Terms,
    questions: &[TermId],
) -> Result<Vec<Vec<(TermId, bool)>>, AllocError>
    requires { AllBelow (length terms.now.nodes) questions.now }
    ensures { IfOk result (λ lists. AreBeside terms.now (IsQuestion questions.now) (IsNegation terms.now) (map (λ v. v.items) lists.items)) }
{
    let mut lists = empty_lists(alloc, terms.len() as usize)?;
    for place in 0..questions.len() {
        add_negation(terms, &mut lists, questions[place])?;
    }
    Ok(lists)
}

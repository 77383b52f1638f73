// The applications for which variables stand in a stage.

ghost use Rattle.std.specs.Prelude.{◌<◌, length};
ghost use Rattle.spv_term.specs.Arena.{AllBelow};

use crate::enlarging::used_terms;
use spv_search_terms::subterms::listed;
use spv_term::{Condition, Sort, TermId, Terms};
use std::alloc::{AllocError, Global};

// How many pairs of applications of one head a search may have at once: where there are more, it begins with a part of them.
const MOST_PAIRS: usize = 1_000;

// Of how many applications a part is looked for at most.
const MOST_APPLICATIONS: usize = 20_000;

// Whether a term is an application of a head to terms.
fn is_application(terms: &Terms, t: TermId) -> bool {
    t.0 < terms.len() && !terms.node(t).args.as_slice().is_empty()
}

// Whether a term is a number or a truth.
fn is_number_or_truth(terms: &Terms, t: TermId) -> bool {
    t.0 < terms.len() && matches!(terms.sort(t), Sort::Int | Sort::Bool)
}

// Whether two terms have one head.
fn have_one_head(terms: &Terms, t: TermId, u: TermId) -> bool {
    t.0 < terms.len() && u.0 < terms.len() && terms.node(t).head == terms.node(u).head
}

/// The applications of a condition that a table lists.
pub(crate) fn applications(
    alloc: Global,
    terms: &Terms,
    condition: &Condition,
) -> Result<Vec<TermId>, AllocError>
    requires given { AllBelow (length terms.now.nodes) condition.now.given }
    requires goal { condition.now.goal.0 < length terms.now.nodes }
{
    let used = used_terms(alloc, terms, condition)?;
    let flags = listed(alloc, terms, &used)?;
    let mut list = Vec::new(alloc);
    for (place, t) in used.as_slice().iter().enumerate() {
        let is_listed = flags.get(place).copied().unwrap_or(false);
        if is_listed && is_application(terms, *t) {
            list.push(*t)?;
        }
    }
    Ok(list)
}

/// Whether many pairs of these terms have one head, and they are not too many to go through all pairs.
pub(crate) fn are_many(terms: &Terms, list: &[TermId]) -> bool {
    if list.len() > MOST_APPLICATIONS {
        return false;
    }
    let mut count: usize = 0;
    for (place, t) in list.iter().enumerate() {
        for u in list.iter().take(place) {
            if have_one_head(terms, *t, *u) {
                count = count.saturating_add(1);
            }
        }
        if count > MOST_PAIRS {
            return true;
        }
    }
    false
}

/// Those of these terms that are numbers or truths.
pub(crate) fn numbers_and_truths(
    alloc: Global,
    terms: &Terms,
    list: &[TermId],
) -> Result<Vec<TermId>, AllocError> {
    let mut chosen = Vec::new(alloc);
    for t in list {
        if is_number_or_truth(terms, *t) {
            chosen.push(*t)?;
        }
    }
    Ok(chosen)
}

/// Those of these terms that are not among others.
pub(crate) fn without(
    alloc: Global,
    list: &[TermId],
    others: &[TermId],
) -> Result<Vec<TermId>, AllocError> {
    let mut left = Vec::new(alloc);
    for t in list {
        if !others.contains(t) {
            left.push(*t)?;
        }
    }
    Ok(left)
}

/// Those of these terms that are among others.
pub(crate) fn among(
    alloc: Global,
    list: &[TermId],
    others: &[TermId],
) -> Result<Vec<TermId>, AllocError> {
    let mut found = Vec::new(alloc);
    for t in list {
        if others.contains(t) {
            found.push(*t)?;
        }
    }
    Ok(found)
}

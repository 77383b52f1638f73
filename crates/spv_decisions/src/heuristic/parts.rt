// The formulas of a condition, each conjunction in its parts.

ghost use Rattle.std.specs.Prelude.{◌<◌, length, IfOk, OnOk};
ghost use Rattle.spv_term.specs.Arena.{AllBelow};

use spv_atoms::{TermSet, connected};
use spv_term::{Condition, Head, TermId, Terms};
use std::alloc::{AllocError, Global};

// Whether a term is a conjunction.
fn is_conjunction(terms: &Terms, t: TermId) -> bool
    requires { t.0 < length terms.now.nodes }
{
    matches!(terms.node(t).head, Head::And)
}

// Marks a term.
fn mark(order: &TermSet, marks: &mut Vec<bool>, t: TermId) {
    if let Some(place) = order.place(t) {
        if let Some(is_marked) = marks.get_mut(place) {
            *is_marked = true;
        }
    }
}

// Marks these terms.
fn mark_all(order: &TermSet, marks: &mut Vec<bool>, ids: &[TermId]) {
    for t in ids {
        mark(order, marks, *t);
    }
}

// Marks the sides of a term that is marked and a conjunction.
fn mark_sides(terms: &Terms, order: &TermSet, marks: &mut Vec<bool>, t: TermId)
    requires { t.0 < length terms.now.nodes }
{
    let is_marked = order
        .place(t)
        .is_some_and(|place| marks.get(place) == Some(&true));
    if is_marked && is_conjunction(terms, t) {
        mark_all(order, marks, terms.node(t).args.as_slice());
    }
}

// Marks the sides of each of these terms that is marked and a conjunction, the last one first: each stands behind its arguments.
fn spread_marks(terms: &Terms, order: &TermSet, marks: &mut Vec<bool>, ids: &[TermId])
    requires { AllBelow (length terms.now.nodes) ids.now }
{
    let count = ids.len();
    for k in 0..count {
        mark_sides(terms, order, marks, ids[count - 1 - k]);
    }
}

// So many terms without a mark.
fn no_marks(alloc: Global, count: usize) -> Result<Vec<bool>, AllocError> {
    let mut marks = Vec::new(alloc);
    for _ in 0..count {
        marks.push(false)?;
    }
    Ok(marks)
}

// Puts a term behind others, where it is wanted.
fn push_if(terms: &Terms, list: &mut Vec<TermId>, wanted: bool, t: TermId) -> Result<(), AllocError>
    requires { t.0 < length terms.now.nodes }
    ensures { OnOk result (AllBelow (length terms.now.nodes) list.old.items → AllBelow (length terms.now.nodes) list.new.items) }
{
    let _ = terms;
    if !wanted {
        return Ok(());
    }
    list.push(t)?;
    Ok(())
}

// The goal, and behind it those of these terms that are marked and no conjunctions.
fn with_marked(
    alloc: Global,
    terms: &Terms,
    goal: TermId,
    ids: &[TermId],
    marks: &[bool],
) -> Result<Vec<TermId>, AllocError>
    requires goal { goal.0 < length terms.now.nodes }
    requires ids { AllBelow (length terms.now.nodes) ids.now }
    ensures { IfOk result (λ fs. AllBelow (length terms.now.nodes) fs.items) }
{
    let mut formulas = Vec::new(alloc);
    push_if(terms, &mut formulas, true, goal)?;
    for place in 0..ids.len() {
        let is_marked = marks.get(place) == Some(&true);
        let wanted = is_marked && !is_conjunction(terms, ids[place]);
        push_if(terms, &mut formulas, wanted, ids[place])?;
    }
    Ok(formulas)
}

/// The goal of a condition, and behind it its hypotheses, each conjunction in its parts.
pub(crate) fn formulas_of(
    alloc: Global,
    terms: &Terms,
    condition: &Condition,
) -> Result<Vec<TermId>, AllocError>
    requires given { AllBelow (length terms.now.nodes) condition.now.given }
    requires goal { condition.now.goal.0 < length terms.now.nodes }
    ensures { IfOk result (λ fs. AllBelow (length terms.now.nodes) fs.items) }
{
    let order = connected(alloc, terms, condition.given.as_slice())?;
    let mut marks = no_marks(alloc, order.as_slice().len())?;
    mark_all(&order, &mut marks, condition.given.as_slice());
    spread_marks(terms, &order, &mut marks, order.as_slice());
    with_marked(
        alloc,
        terms,
        condition.goal,
        order.as_slice(),
        marks.as_slice(),
    )
}

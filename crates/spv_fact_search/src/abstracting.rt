// Terms with others in their places. Nothing is said of what comes of it but that it is there: what is found of it is tested.

ghost use Rattle.std.specs.Prelude.{◌≡◌, ◌<◌, length, IsTrue};
ghost use Rattle.spv_term.specs.Arena.{Extends};
ghost use Rattle.spv_fact_search.specs.Asking.{AreTruthsThere, HasSortOf, HaveSortsOf, IsAsked, IsNumberThere, IsTruthThere};

use crate::images::Images;
use spv_logic::names::Symbol;
use spv_search_terms::head_index::is_truth;
use spv_search_terms::subterms::made;
use spv_term::{Condition, Head, Sort, TermFault, TermId, Terms};
use spv_trimming::testing::is_there;
use std::alloc::{AllocError, Global};

// A variable for a number or a truth; of other sorts none is made.
fn variable(terms: &mut Terms, sort: Sort, number: u32) -> Result<Option<TermId>, TermFault>
    ensures grows { Extends terms.old terms.new }
{
    match sort {
        Sort::Int => {
            let t = made(terms, Head::Var(Symbol(0), Sort::Int, number), &[])?;
            Ok(Some(t))
        }
        Sort::Bool => {
            let t = made(terms, Head::Var(Symbol(0), Sort::Bool, number), &[])?;
            Ok(Some(t))
        }
        _ => Ok(None),
    }
}

// A variable for a term; the term itself where none is made.
fn variable_for(terms: &mut Terms, t: TermId, number: u32) -> Result<TermId, TermFault>
    ensures grows { Extends terms.old terms.new }
{
    if !is_there(terms, t) {
        return Ok(t);
    }
    let sort = terms.sort(t);
    let found = variable(terms, sort, number)?;
    Ok(found.unwrap_or(t))
}

// One more term.
fn push(list: &mut Vec<TermId>, t: TermId) -> Result<(), AllocError> {
    list.push(t)?;
    Ok(())
}

/// A variable for each of these terms, beside it. They have the highest numbers that variables may have.
#[tactic(auto, using(spv_term::proofs::ArenaLemmas::growth))]
pub(crate) fn variables_for(
    alloc: Global,
    terms: &mut Terms,
    list: &[TermId],
) -> Result<Vec<TermId>, TermFault>
    ensures grows { Extends terms.old terms.new }
{
    let mut variables = Vec::new(alloc);
    let mut number = u32::MAX;
    for t in list {
        let variable = variable_for(terms, *t, number)?;
        push(&mut variables, variable)?;
        number = number.saturating_sub(1);
    }
    Ok(variables)
}

// Whether two sorts are the same.
fn are_one(first: Sort, second: Sort) -> bool
    ensures { IsTrue result → first ≡ second }
{
    first == second
}

/// Whether two terms are there, and of one sort.
pub(crate) fn has_sort_of(terms: &Terms, t: TermId, own: TermId) -> bool
    ensures { IsTrue result → HasSortOf terms.now t own }
{
    if !is_there(terms, t) || !is_there(terms, own) {
        return false;
    }
    are_one(terms.sort(t), terms.sort(own))
}

/// Whether a term is there, and a number.
pub(crate) fn is_number_there(terms: &Terms, t: TermId) -> bool
    ensures { IsTrue result → IsNumberThere terms.now t }
{
    is_there(terms, t) && are_one(terms.sort(t), Sort::Int)
}

// Whether terms are there, each of the sort of the one in its place.
fn have_sorts_of(terms: &Terms, list: &[TermId], own: &[TermId]) -> bool
    ensures { IsTrue result → HaveSortsOf terms.now list.now own.now }
{
    if list.len() != own.len() {
        return false;
    }
    for place in 0..list.len() {
        if !has_sort_of(terms, list[place], own[place]) {
            return false;
        }
    }
    true
}

// A term over other arguments, if these are of the sorts of its own; else the term itself.
fn remade(terms: &mut Terms, t: TermId, args: &[TermId]) -> Result<TermId, TermFault>
    requires { t.0 < length terms.old.nodes }
    ensures grows { Extends terms.old terms.new }
{
    terms.law_arena();
    let node = terms.node(t);
    let head = node.head;
    if !have_sorts_of(terms, args, node.args.as_slice()) {
        return Ok(t);
    }
    terms.make(head, args)
}

// What a term becomes, whose arguments have become others.
fn image(alloc: Global, terms: &mut Terms, images: &Images, t: TermId) -> Result<TermId, TermFault>
    ensures grows { Extends terms.old terms.new }
{
    if !is_there(terms, t) {
        return Ok(t);
    }
    let args = images.all(alloc, terms.node(t).args.as_slice())?;
    remade(terms, t, args.as_slice())
}

// So many terms stay what they are, but those of a list become the ones beside them.
fn beside(
    alloc: Global,
    count: u32,
    list: &[TermId],
    others: &[TermId],
) -> Result<Images, AllocError> {
    let mut images = Images::same(alloc, count)?;
    for place in 0..list.len() {
        if let Some(other) = others.get(place) {
            images.put(list[place], *other);
        }
    }
    Ok(images)
}

/// What all terms of an arena become where those of a list become the ones beside them.
#[tactic(auto, using(spv_term::proofs::ArenaLemmas::growth))]
pub(crate) fn exchanged(
    alloc: Global,
    terms: &mut Terms,
    list: &[TermId],
    others: &[TermId],
) -> Result<Images, TermFault>
    ensures grows { Extends terms.old terms.new }
{
    let count = terms.len();
    let mut images = beside(alloc, count, list, others)?;
    for number in 0..count {
        let t = TermId(number);
        if images.at(t).0 == number {
            let found = image(alloc, terms, &images, t)?;
            images.put(t, found);
        }
    }
    Ok(images)
}

/// What was made, if there was room.
pub(crate) fn fitting<T>(made: Result<T, TermFault>) -> Result<Option<T>, AllocError> {
    match made {
        Ok(made) => Ok(Some(made)),
        Err(TermFault::Size) => Ok(None),
        Err(TermFault::Memory) => Err(AllocError),
    }
}

/// A condition with what its formulas become.
pub(crate) fn abstracted(
    alloc: Global,
    condition: &Condition,
    images: &Images,
) -> Result<Condition, AllocError> {
    Ok(Condition {
        given: images.list(alloc, condition.given.as_slice())?,
        goal: images.at(condition.goal),
        origin: condition.origin,
    })
}

/// Whether a term is there, and a truth.
pub(crate) fn is_truth_there(terms: &Terms, t: TermId) -> bool
    ensures { IsTrue result → IsTruthThere terms.now t }
{
    is_there(terms, t) && is_truth(terms, t)
}

fn are_truths_there(terms: &Terms, ts: &[TermId]) -> bool
    ensures { IsTrue result → AreTruthsThere terms.now ts.now }
{
    for t in ts {
        if !is_truth_there(terms, *t) {
            return false;
        }
    }
    true
}

/// Whether the formulas of a condition are there, and truths.
pub(crate) fn is_asked(terms: &Terms, condition: &Condition) -> bool
    ensures { IsTrue result → IsAsked terms.now condition.now }
{
    are_truths_there(terms, condition.given.as_slice()) && is_truth_there(terms, condition.goal)
}

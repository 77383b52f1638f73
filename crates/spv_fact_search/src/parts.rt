// Parts of a condition that are searched through by themselves, and the formulas that they are made of.

ghost use Rattle.std.specs.Prelude.{◌≡◌, ◌<◌, length, IfOk, IfSome};
ghost use Rattle.spv_logic.specs.declared.types.Sort.TheVariants.{Int};
ghost use Rattle.spv_term.specs.Arena.{Extends, sort_at};
ghost use Rattle.spv_fact_search.specs.Asking.{IsTruthThere};

use crate::abstracting::{fitting, has_sort_of, is_asked, is_number_there, is_truth_there};
use crate::claims::Claim;
use crate::images::Images;
use crate::numbers::Numbers;
use crate::returning::Return;
use crate::stages::{all_terms, limits_of, numbers_of, searched};
use spv_atoms::ProofNode;
use spv_search_terms::condition_copy::copy_all;
use spv_search_terms::subterms::{made, subterms};
use spv_term::{Condition, Head, TermFault, TermId, Terms};
use spv_trimming::testing::{are_there, is_there};
use spv_verdicts::answers::{Decided, Limits, Verdict};
use std::alloc::{AllocError, Global};

// The equation of two terms of one sort.
fn equation(terms: &mut Terms, s: TermId, t: TermId) -> Result<TermId, TermFault>
    requires s { s.0 < length terms.old.nodes }
    requires t { t.0 < length terms.old.nodes }
    requires sorts { sort_at terms.old s ≡ sort_at terms.old t }
    ensures grows { Extends terms.old terms.new }
{
    made(terms, Head::Eq, &[s, t])
}

/// The equation of two terms, if they are of one sort and there is room.
pub(crate) fn equation_of(
    terms: &mut Terms,
    s: TermId,
    t: TermId,
) -> Result<Option<TermId>, AllocError>
    ensures grows { Extends terms.old terms.new }
{
    if !is_there(terms, t) || !has_sort_of(terms, s, t) {
        return Ok(None);
    }
    fitting(equation(terms, s, t))
}

// That the first of two numbers is below the second.
fn order(terms: &mut Terms, low: TermId, high: TermId) -> Result<TermId, TermFault>
    requires low { low.0 < length terms.old.nodes }
    requires high { high.0 < length terms.old.nodes }
    requires low_sort { sort_at terms.old low ≡ Int }
    requires high_sort { sort_at terms.old high ≡ Int }
    ensures grows { Extends terms.old terms.new }
{
    made(terms, Head::Lt, &[low, high])
}

/// That the first of two terms is below the second, if they are numbers and there is room.
pub(crate) fn order_of(
    terms: &mut Terms,
    low: TermId,
    high: TermId,
) -> Result<Option<TermId>, AllocError>
    ensures grows { Extends terms.old terms.new }
{
    if !is_number_there(terms, low) || !is_number_there(terms, high) {
        return Ok(None);
    }
    fitting(order(terms, low, high))
}

// The negation of a truth.
fn negation(terms: &mut Terms, t: TermId) -> Result<TermId, TermFault>
    requires { IsTruthThere terms.old t }
    ensures grows { Extends terms.old terms.new }
{
    terms.law_arena();
    made(terms, Head::Not, &[t])
}

/// The formula that a claim is, if there is room.
pub(crate) fn formula_of(terms: &mut Terms, claim: Claim) -> Result<Option<TermId>, AllocError>
    ensures grows { Extends terms.old terms.new }
{
    if claim.truth {
        return Ok(Some(claim.term));
    }
    if !is_truth_there(terms, claim.term) {
        return Ok(None);
    }
    fitting(negation(terms, claim.term))
}

/// What comes of an attempt to prove something.
#[derive(Drop)]
pub(crate) enum Attempt<T> {
    /// This.
    Done(T),
    /// A table in which it is false: numbers of terms.
    Table(Numbers),
    /// Nothing.
    Nothing,
}

// The way from another arena to this one: what its terms are there.
fn way_back(alloc: Global, terms: &mut Terms, from: &Terms) -> Result<Option<Return>, AllocError>
    requires shapes { terms.old.shapes ≡ from.now.shapes }
    requires decls { terms.old.decls ≡ from.now.decls }
    ensures grows { Extends terms.old terms.new }
{
    let list = all_terms(alloc, from)?;
    if !are_there(from, list.as_slice()) {
        return Ok(None);
    }
    let order = subterms(alloc, from, list.as_slice())?;
    let Some(images) = fitting(copy_all(alloc, from, &order, terms))? else {
        return Ok(None);
    };
    Ok(Some(Return::new(Images::new(images), Vec::new(alloc))))
}

// A verdict on a part, told over the terms that its terms are.
fn told(
    alloc: Global,
    terms: &Terms,
    back: &Return,
    verdict: &Verdict,
) -> Result<Attempt<Vec<ProofNode>>, AllocError> {
    match verdict {
        Verdict::Proved(proof) => Ok(Attempt::Done(back.nodes(alloc, proof.nodes())?)),
        Verdict::Unproved(found) => match numbers_of(alloc, terms, &found.table, back)? {
            Some(numbers) => Ok(Attempt::Table(numbers)),
            None => Ok(Attempt::Nothing),
        },
        _ => Ok(Attempt::Nothing),
    }
}

/// What a search finds of a part that makes so many splits at most: the nodes of a proof, or a table.
pub(crate) fn search_part(
    alloc: Global,
    terms: &mut Terms,
    part: &Condition,
    limits: &Limits,
    splits: u64,
) -> Result<Attempt<Vec<ProofNode>>, AllocError>
    ensures grows { Extends terms.old terms.new }
{
    if !is_asked(terms, part) {
        return Ok(Attempt::Nothing);
    }
    let few = limits_of(limits, splits);
    let Decided {
        terms: from,
        condition: _,
        verdict,
    } = searched(alloc, terms, part, &few, 0)?;
    let Some(back) = way_back(alloc, terms, &from)? else {
        return Ok(Attempt::Nothing);
    };
    told(alloc, terms, &back, &verdict)
}

// Terms with others in the place of variables, where those that stay are left out.

ghost use Rattle.std.specs.Prelude.{◌≡◌, ◌+◌, ◌<◌, ◌++◌, length, map, drop, Err, IfOk, OnOk, IsTrue};
ghost use Rattle.spv_term.specs.declared.nodes.TermFault.TheVariants.{Size};
ghost use Rattle.spv_term.specs.Arena.{AllBelow, tree, sorts_at, Extends};
ghost use Rattle.spv_term.specs.substitution.Images.{substituted, ArePairs};
ghost use Rattle.spv_term.specs.substitution.Parts.{AddsParts, LacksPart};
ghost use Rattle.spv_assign.specs.pending.Staying.{if_marked, marked, one_if, one_put_back, put_back};

use crate::pending::staying::marks;
use spv_term::substitution::substitute_all;
use spv_term::{TermFault, TermId, Terms};
use std::alloc::{AllocError, Global};

// How many pairs there may be for terms to be looked through.
const MOST_PAIRS: usize = 32;

// Puts a term behind others if it is marked.
fn push_if(all: &mut Vec<TermId>, mark: bool, t: TermId) -> Result<(), AllocError>
    ensures { OnOk result (all.new.items ≡ all.old.items ++ if_marked mark t) }
{
    if mark {
        all.push(t)?;
    }
    Ok(())
}

// The marked terms of a list.
fn marked(alloc: Global, marks: &[bool], list: &[TermId]) -> Result<Vec<TermId>, AllocError>
    requires { length marks.now ≡ length list.now }
    ensures { IfOk result (λ ts. ts.items ≡ marked marks.now list.now) }
{
    let mut all = Vec::new(alloc);
    for place in 0..list.len() {
        push_if(&mut all, marks[place], list[place])?;
    }
    Ok(all)
}

// Puts a term behind others, or the next of these in the place of a marked one. The answer is where the one behind it is.
fn push_one(
    all: &mut Vec<TermId>,
    mark: bool,
    t: TermId,
    others: &[TermId],
    next: usize,
) -> Result<usize, AllocError>
    requires { IsTrue mark → next < length others.now }
    ensures next { IfOk result (λ after. after ≡ next + one_if mark) }
    ensures put { OnOk result (all.new.items ≡ all.old.items ++ one_put_back mark t (drop next others.now)) }
{
    if mark {
        all.push(others[next])?;
        return Ok(next + 1);
    }
    all.push(t)?;
    Ok(next)
}

// A list with others in the places of its marked terms.
fn put_back(
    alloc: Global,
    marks: &[bool],
    list: &[TermId],
    others: &[TermId],
) -> Result<Vec<TermId>, AllocError>
    requires marks { length marks.now ≡ length list.now }
    requires others { length others.now ≡ length (marked marks.now list.now) }
    ensures { IfOk result (λ ts. ts.items ≡ put_back marks.now list.now others.now) }
{
    let mut all = Vec::with_capacity(alloc, list.len())?;
    let mut next = 0;
    for place in 0..list.len() {
        next = push_one(&mut all, marks[place], list[place], others, next)?;
    }
    Ok(all)
}

// What `substitute_all` answers. Terms that stay, as a short look tells, are not gone through.
fn without_those_that_stay(
    terms: &mut Terms,
    alloc: Global,
    list: &[TermId],
    pairs: &[(TermId, TermId)],
) -> Result<Vec<TermId>, TermFault>
    requires list { AllBelow (length terms.old.nodes) list.now }
    requires pairs { ArePairs terms.old pairs.now }
    ensures trees { IfOk result (λ us. map (tree terms.new) us.items ≡ substituted terms.old pairs.now list.now) }
    ensures sorts { IfOk result (λ us. sorts_at terms.new us.items ≡ sorts_at terms.old list.now) }
    ensures in_range { IfOk result (λ us. AllBelow (length terms.new.nodes) us.items) }
    ensures grows { Extends terms.old terms.new }
    ensures only { AddsParts terms.old terms.new (substituted terms.old pairs.now list.now) }
    ensures size { result ≡ Err Size → LacksPart terms.new (substituted terms.old pairs.now list.now) }
{
    let marks = marks(terms, alloc, pairs, list)?;
    let changing = marked(alloc, marks.as_slice(), list)?;
    let made = substitute_all(terms, alloc, changing.as_slice(), pairs)?;
    let all = put_back(alloc, marks.as_slice(), list, made.as_slice())?;
    Ok(all)
}

/// What `substitute_all` answers. Where there are few pairs, terms that stay, as a short look tells, are not gone through.
pub(crate) fn images_of(
    terms: &mut Terms,
    alloc: Global,
    list: &[TermId],
    pairs: &[(TermId, TermId)],
) -> Result<Vec<TermId>, TermFault>
    requires list { AllBelow (length terms.old.nodes) list.now }
    requires pairs { ArePairs terms.old pairs.now }
    ensures trees { IfOk result (λ us. map (tree terms.new) us.items ≡ substituted terms.old pairs.now list.now) }
    ensures sorts { IfOk result (λ us. sorts_at terms.new us.items ≡ sorts_at terms.old list.now) }
    ensures in_range { IfOk result (λ us. AllBelow (length terms.new.nodes) us.items) }
    ensures grows { Extends terms.old terms.new }
    ensures only { AddsParts terms.old terms.new (substituted terms.old pairs.now list.now) }
    ensures size { result ≡ Err Size → LacksPart terms.new (substituted terms.old pairs.now list.now) }
{
    if pairs.len() > MOST_PAIRS {
        return substitute_all(terms, alloc, list, pairs);
    }
    without_those_that_stay(terms, alloc, list, pairs)
}

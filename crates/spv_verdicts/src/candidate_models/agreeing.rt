// Whether a list of terms with numbers is a table: applications of one head to equal numbers have equal numbers.

ghost use Rattle.std.specs.Prelude.{◌≡◌, ◌<◌, true, length, IfNone, IfOk, IfSome};
ghost use Rattle.spv_logic.specs.Terms.{head_eq};
ghost use Rattle.spv_table.specs.Kept.{PairsIn, listed_over};
ghost use Rattle.spv_table.specs.Values as values;
ghost use Rattle.spv_verdicts.specs.candidate_models.Trying as spec;
ghost use Rattle.spv_verdicts.specs.candidate_models.Trying.{AreKeys, AreNotApart, AreTruthful, IsAgreement, IsApartFromNone};

use crate::candidate_models::keys::keys;
use spv_frac::Frac;
use spv_logic::list::List;
use spv_search_terms::head_index::is_truth;
use spv_table::Table;
use spv_term::{Head, TermId, Terms};
use std::alloc::{AllocError, Global};

/// What is found of a list of terms with numbers.
#[derive(Clone, Copy, Debug)]
pub(crate) enum Agreement {
    /// It is a table.
    Whole,
    /// These two of its terms are of one head, and of arguments that are worth the same, but have two numbers.
    Apart(TermId, TermId),
    /// It is not known whether it is one.
    Unknown,
}

// Whether two heads are the same.
fn same_head(left: Head, right: Head) -> bool
    ensures { result ≡ head_eq left right }
{
    left == right
}

// Whether two numbers are the same.
fn is_same(x: Frac, y: Frac) -> bool
    ensures { result ≡ values.is_same x y }
{
    x.num == y.num && x.den == y.den
}

// Whether two lists of numbers are the same.
fn same_numbers(left: &[Frac], right: &[Frac]) -> bool
    ensures { result ≡ spec.numbers_eq left.now right.now }
{
    let mut rest = left;
    let mut others = right;
    while let [x, after @ ..] = rest {
        let [y, more @ ..] = others else {
            return false;
        };
        if !is_same(*x, *y) {
            return false;
        }
        rest = after;
        others = more;
    }
    others.is_empty()
}

// Whether the terms of two entries have one head.
fn have_one_head(terms: &Terms, t: TermId, u: TermId) -> bool
    requires t { t.0 < length terms.now.nodes }
    requires u { u.0 < length terms.now.nodes }
    ensures { result ≡ spec.have_one_head terms.now t u }
{
    terms.law_arena();
    let left = terms.node(t);
    let right = terms.node(u);
    same_head(left.head, right.head)
}

// Whether the entries at two places are of one head and of arguments that are worth the same, and have two numbers.
fn are_apart(
    terms: &Terms,
    pairs: &[(TermId, Frac)],
    keys: &[List<Frac>],
    i: usize,
    j: usize,
) -> bool
    requires pairs { PairsIn terms.now pairs.now }
    requires keys { length keys.now ≡ length pairs.now }
    requires i { i < length pairs.now }
    requires j { j < length pairs.now }
    ensures { result ≡ spec.are_apart terms.now (spec.entry_at pairs.now keys.now i) (spec.entry_at pairs.now keys.now j) }
{
    have_one_head(terms, pairs[i].0, pairs[j].0)
        && (same_numbers(keys[i].as_slice(), keys[j].as_slice())
            && !is_same(pairs[i].1, pairs[j].1))
}

// The first entry before a place from which that at the place is apart.
fn apart_before(
    terms: &Terms,
    pairs: &[(TermId, Frac)],
    keys: &[List<Frac>],
    place: usize,
) -> Option<usize>
    requires pairs { PairsIn terms.now pairs.now }
    requires keys { length keys.now ≡ length pairs.now }
    requires place { place < length pairs.now }
    ensures within { IfSome result (λ j. j < length pairs.now) }
    ensures none { IfNone result (IsApartFromNone terms.now pairs.now keys.now place place) }
{
    for j in 0..place {
        if are_apart(terms, pairs, keys, place, j) {
            return Some(j);
        }
    }
    None
}

// Two entries that are apart.
fn find_apart(
    terms: &Terms,
    pairs: &[(TermId, Frac)],
    keys: &[List<Frac>],
) -> Option<(usize, usize)>
    requires pairs { PairsIn terms.now pairs.now }
    requires keys { length keys.now ≡ length pairs.now }
    ensures within { IfSome result (λ p. (p.0 < length pairs.now) × (p.1 < length pairs.now)) }
    ensures none { IfNone result (AreNotApart terms.now pairs.now keys.now (length pairs.now)) }
{
    for place in 0..pairs.len() {
        let found = apart_before(terms, pairs, keys, place);
        match found {
            Some(j) => return Some((j, place)),
            None => {}
        }
    }
    None
}

// Whether a number is 0 or 1.
fn is_truth_number(x: Frac) -> bool
    ensures { result ≡ spec.is_truth_number x }
{
    is_same(x, Frac::whole(0)) || is_same(x, Frac::whole(1))
}

// Whether an entry that is of sort Bool has 0 or 1.
fn is_truthful(terms: &Terms, pair: (TermId, Frac)) -> bool
    requires { pair.0.0 < length terms.now.nodes }
    ensures { result ≡ spec.is_truthful terms.now pair }
{
    !is_truth(terms, pair.0) || is_truth_number(pair.1)
}

// Whether each entry that is of sort Bool has 0 or 1.
fn are_truthful(terms: &Terms, pairs: &[(TermId, Frac)]) -> bool
    requires { PairsIn terms.now pairs.now }
    ensures { result ≡ true → AreTruthful terms.now pairs.now (length pairs.now) }
{
    for place in 0..pairs.len() {
        if !is_truthful(terms, pairs[place]) {
            return false;
        }
    }
    true
}

// What is found of these entries, which are those of a table, where beside each stands what the arguments of its term are worth.
fn compared(
    terms: &Terms,
    table: &Table,
    pairs: &[(TermId, Frac)],
    keys: &[List<Frac>],
) -> Agreement
    requires values { PairsIn terms.now table.now.values }
    requires pairs { pairs.now ≡ table.now.values }
    requires truthful { AreTruthful terms.now pairs.now (length pairs.now) }
    requires keys { AreKeys terms.now (listed_over terms.now table.now.values) pairs.now keys.now }
    ensures { IsAgreement terms.now table.now.values result }
{
    let _ = table;
    let found = find_apart(terms, pairs, keys);
    match found {
        Some((i, j)) => Agreement::Apart(pairs[i].0, pairs[j].0),
        None => Agreement::Whole,
    }
}

/// Whether a list of terms with numbers is a table.
pub(crate) fn find_agreement(
    alloc: Global,
    terms: &Terms,
    table: &Table,
) -> Result<Agreement, AllocError>
    requires { PairsIn terms.now table.now.values }
    ensures { IfOk result (IsAgreement terms.now table.now.values) }
{
    let pairs = table.values.as_slice();
    let truthful = are_truthful(terms, pairs);
    if !truthful {
        return Ok(Agreement::Unknown);
    }
    let found = keys(alloc, terms, table)?;
    match found {
        Some(keys) => Ok(compared(terms, table, pairs, keys.as_slice())),
        None => Ok(Agreement::Unknown),
    }
}

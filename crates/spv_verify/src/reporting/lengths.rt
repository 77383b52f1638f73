// How long a page is at least by the conditions that it prints, reckoned over terms that an arena has once.

use spv_term::{Condition, TermId, Terms};
use std::alloc::{AllocError, Global};

// The most bytes that a page has: 4 GiB.
const MOST: u64 = 1 << 32;

// The length of terms that are printed one after the other, each behind a blank.
fn length_of(lengths: &[u64], ts: &[TermId]) -> u64 {
    let mut sum: u64 = 0;
    for t in ts {
        let own = lengths.get(t.0 as usize).copied().unwrap_or(0);
        sum = sum.saturating_add(own).saturating_add(1);
    }
    sum
}

// How many bytes each term of an arena takes at least where it is printed, by its number: one for its word, and where it has arguments two
// brackets, and a blank and the argument for each. As many as there are numbers stand for more.
fn lengths_of(alloc: Global, terms: &Terms) -> Result<Vec<u64>, AllocError> {
    let mut lengths = Vec::with_capacity(alloc, terms.len() as usize)?;
    for number in 0..terms.len() {
        let args = terms.node(TermId(number)).args.as_slice();
        let inner = length_of(lengths.as_slice(), args);
        let own = if args.is_empty() { 1 } else { 3 };
        lengths.push(inner.saturating_add(own))?;
    }
    Ok(lengths)
}

/// Whether the hypotheses and the goals of conditions have by themselves more bytes than a page has. Then no report on these conditions
/// has a page that prints them, whatever its verdicts are.
pub(crate) fn are_claims_too_long(
    alloc: Global,
    terms: &Terms,
    conditions: &[Condition],
) -> Result<bool, AllocError> {
    let lengths = lengths_of(alloc, terms)?;
    let mut sum: u64 = 0;
    for condition in conditions {
        let given = length_of(lengths.as_slice(), condition.given.as_slice());
        let goal = length_of(lengths.as_slice(), &[condition.goal]);
        sum = sum.saturating_add(given).saturating_add(goal);
    }
    Ok(sum > MOST)
}

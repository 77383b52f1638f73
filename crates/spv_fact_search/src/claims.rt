// What the hypotheses of a condition say of the formulas that they are made of.

use spv_term::{Condition, Head, TermId, Terms};
use spv_trimming::testing::is_there;
use std::alloc::{AllocError, Global};

// How many formulas of one hypothesis are looked at, and how many claims are taken of all.
const MOST_FORMULAS: usize = 20_000;

const MOST_CLAIMS: usize = 20_000;

/// That a formula is true, or false.
#[derive(Clone, Copy, Debug)]
pub(crate) struct Claim {
    /// The formula.
    pub(crate) term: TermId,
    /// Whether it is true.
    pub(crate) truth: bool,
}

/// A claim that follows from the hypothesis at a place alone.
#[derive(Clone, Copy, Debug)]
pub(crate) struct Said {
    /// The claim.
    pub(crate) claim: Claim,
    /// The place of the hypothesis.
    pub(crate) place: usize,
}

// What a claim comes to.
#[derive(Clone, Copy)]
enum Parts {
    // These two claims together.
    Both(Claim, Claim),
    // One of these two.
    Either(Claim, Claim),
    // This one.
    Same(Claim),
    // Itself alone.
    Literal,
}

/// Which claims are taken apart.
#[derive(Clone, Copy, Debug)]
pub(crate) enum Taking {
    /// Those that come to two claims together.
    Both,
    /// Those that come to one of two.
    Either,
}

fn is_true(term: TermId) -> Claim {
    Claim { term, truth: true }
}

fn is_false(term: TermId) -> Claim {
    Claim { term, truth: false }
}

// What comes of a truth of a formula of this head over two others.
fn parts_of_two(head: Head, first: TermId, second: TermId, truth: bool) -> Parts {
    match head {
        Head::And => {
            if truth {
                Parts::Both(is_true(first), is_true(second))
            } else {
                Parts::Either(is_false(first), is_false(second))
            }
        }
        Head::Or => {
            if truth {
                Parts::Either(is_true(first), is_true(second))
            } else {
                Parts::Both(is_false(first), is_false(second))
            }
        }
        Head::Implies => {
            if truth {
                Parts::Either(is_false(first), is_true(second))
            } else {
                Parts::Both(is_true(first), is_false(second))
            }
        }
        _ => Parts::Literal,
    }
}

// What a claim comes to.
fn what_comes_of(terms: &Terms, claim: Claim) -> Parts {
    if !is_there(terms, claim.term) {
        return Parts::Literal;
    }
    let node = terms.node(claim.term);
    match node.args.as_slice() {
        [only] => match node.head {
            Head::Not => Parts::Same(Claim {
                term: *only,
                truth: !claim.truth,
            }),
            _ => Parts::Literal,
        },
        [first, second] => parts_of_two(node.head, *first, *second, claim.truth),
        _ => Parts::Literal,
    }
}

/// Whether a claim comes to one of two others.
pub(crate) fn is_choice(terms: &Terms, claim: Claim) -> bool {
    match what_comes_of(terms, claim) {
        Parts::Either(_, _) => true,
        _ => false,
    }
}

/// The claims that a claim comes to where those of one kind are taken apart, in order; none where these are too many.
pub(crate) fn taken_apart(
    alloc: Global,
    terms: &Terms,
    whole: Claim,
    taking: Taking,
) -> Result<Vec<Claim>, AllocError> {
    let mut open = Vec::new(alloc);
    let mut found = Vec::new(alloc);
    open.push(whole)?;
    for _ in 0..MOST_FORMULAS {
        let Some(claim) = open.pop() else {
            return Ok(found);
        };
        match (what_comes_of(terms, claim), taking) {
            (Parts::Same(inner), _) => open.push(inner)?,
            (Parts::Both(first, second), Taking::Both) => {
                open.push(second)?;
                open.push(first)?;
            }
            (Parts::Either(first, second), Taking::Either) => {
                open.push(second)?;
                open.push(first)?;
            }
            _ => found.push(claim)?,
        }
    }
    Ok(Vec::new(alloc))
}

/// What the hypotheses of a condition say, in order: claims that do not come to two together. Where these are too many, those of the first hypotheses.
pub(crate) fn all_said(
    alloc: Global,
    terms: &Terms,
    condition: &Condition,
) -> Result<Vec<Said>, AllocError> {
    let mut all = Vec::new(alloc);
    for (place, f) in condition.given.as_slice().iter().enumerate() {
        if all.len() > MOST_CLAIMS {
            break;
        }
        let found = taken_apart(alloc, terms, is_true(*f), Taking::Both)?;
        for claim in found.as_slice() {
            all.push(Said {
                claim: *claim,
                place,
            })?;
        }
    }
    Ok(all)
}

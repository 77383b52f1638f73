// Which terms stay as they are where others are put in the place of variables, as far as a short look tells.

ghost use Rattle.std.specs.Prelude.{◌≡◌, ◌<◌, length, false, is_some, IfOk, IfSome};
ghost use Rattle.spv_term.specs.Arena.{AllBelow};
ghost use Rattle.spv_term.specs.substitution.Images.{image_of, ArePairs};
ghost use Rattle.spv_assign.specs.pending.Staying.{AreMarked, Stays};

use spv_term::{TermId, Terms};
use std::alloc::{AllocError, Global};

// How many nodes of a term are looked at.
const MOST_NODES: usize = 64;

// Whether a term is the first one of a pair.
fn is_first(pairs: &[(TermId, TermId)], t: TermId) -> bool
    ensures { result ≡ is_some (image_of pairs.now t) }
{
    for pair in pairs {
        if t == pair.0 {
            return true;
        }
    }
    false
}

// How many more nodes may be looked at behind those of a term that stays; none where it may not stay, or has too many.
fn left_behind(terms: &Terms, pairs: &[(TermId, TermId)], t: TermId, most: usize) -> Option<usize>
    requires t { t.0 < length terms.now.nodes }
    requires pairs { ArePairs terms.now pairs.now }
    ensures fewer { IfSome result (λ left. left < most) }
    ensures stays { IfSome result (λ left. Stays terms.now pairs.now t) }
{
    terms.law_arena();
    if most == 0 || is_first(pairs, t) {
        return None;
    }
    let mut left = most - 1;
    let args = terms.node(t).args.as_slice();
    for arg in args {
        left = left_behind(terms, pairs, *arg, left)?;
    }
    Some(left)
}

// Whether a term may change.
fn may_change(terms: &Terms, pairs: &[(TermId, TermId)], t: TermId) -> bool
    requires t { t.0 < length terms.now.nodes }
    requires pairs { ArePairs terms.now pairs.now }
    ensures { result ≡ false → Stays terms.now pairs.now t }
{
    match left_behind(terms, pairs, t, MOST_NODES) {
        Some(_) => false,
        None => true,
    }
}

// A mark for each term of a list that may change.
pub(crate) fn marks(
    terms: &Terms,
    alloc: Global,
    pairs: &[(TermId, TermId)],
    list: &[TermId],
) -> Result<Vec<bool>, AllocError>
    requires list { AllBelow (length terms.now.nodes) list.now }
    requires pairs { ArePairs terms.now pairs.now }
    ensures { IfOk result (λ marks. AreMarked terms.now pairs.now marks.items list.now) }
{
    let mut marks = Vec::with_capacity(alloc, list.len())?;
    for t in list {
        marks.push(may_change(terms, pairs, *t))?;
    }
    Ok(marks)
}

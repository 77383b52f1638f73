// Cases of a path, and the parts that wait beside it.

ghost use Rattle.std.specs.Prelude.{◌≡◌, ◌<◌, ◌++◌, [], ◌∷◌, length, IfOk, OnOk};
ghost use Rattle.spv_search.specs.branches.Growth.{has_three, pending_of, pending_parts, parts_of, Moves};

use spv_derivations::derivation::Part;
use spv_proof::sums::is_number;
use spv_proof_steps::sides;
use spv_term::{TermId, Terms};
use std::alloc::AllocError;

/// A case: an atom, and how it is told.
#[derive(Clone, Copy, Debug)]
pub struct Case {
    pub atom: TermId,
    pub part: Part,
}

/// A part that waits beside a path: so many of the path's cases stand before its own.
#[derive(Clone, Copy, Debug)]
pub(crate) struct Pending {
    pub(crate) cases: u32,
    pub(crate) case: Case,
}

// Whether an atom splits into three parts: an equation of two whole numbers.
pub(crate) fn is_comparison(terms: &Terms, t: TermId) -> bool
    requires { t.0 < length terms.now.nodes }
    ensures { result ≡ has_three terms.now t }
{
    match sides(terms, t) {
        Some((left, right)) => is_number(terms, left) && is_number(terms, right),
        None => false,
    }
}

// Puts a part in front of all others that wait.
fn push_pending(
    pending: &mut Vec<Pending>,
    cases: u32,
    atom: TermId,
    part: Part,
) -> Result<(), AllocError>
    ensures { OnOk result (pending.new.items ≡ pending.old.items ++ pending_of cases atom part ∷ []) }
{
    pending.push(Pending {
        cases,
        case: Case { atom, part },
    })?;
    Ok(())
}

// Puts the parts of a split behind its first one in front of all others that wait, and answers how many parts the split has.
pub(crate) fn push_others(
    pending: &mut Vec<Pending>,
    cases: u32,
    atom: TermId,
    three: bool,
) -> Result<u32, AllocError>
    ensures pending { OnOk result (pending.new.items ≡ pending.old.items ++ pending_parts cases atom three) }
    ensures count { IfOk result (λ n. n ≡ length (parts_of three)) }
{
    if three {
        push_pending(pending, cases, atom, Part::Above)?;
        push_pending(pending, cases, atom, Part::Below)?;
        Ok(3)
    } else {
        push_pending(pending, cases, atom, Part::False)?;
        Ok(2)
    }
}

// Takes the part that comes next, if one waits, and gives the path its cases.
pub(crate) fn take_next(
    cases: &mut Vec<Case>,
    pending: &mut Vec<Pending>,
) -> Result<bool, AllocError>
    ensures { IfOk result (Moves cases.old.items pending.old.items cases.new.items pending.new.items) }
{
    match pending.pop() {
        Some(part) => {
            cases.truncate(part.cases as usize);
            cases.push(part.case)?;
            Ok(true)
        }
        None => Ok(false),
    }
}

// How many cases these are; want of memory where a number of 32 bits does not hold it.
pub(crate) fn count_of(cases: &[Case]) -> Result<u32, AllocError>
    ensures { IfOk result (λ n. n ≡ length cases.now) }
{
    let count = cases.len();
    if count > u32::MAX as usize {
        return Err(AllocError);
    }
    Ok(count as u32)
}

// Lists of questions, one beside each term.

ghost use Rattle.std.specs.Prelude.{IfOk, map};
ghost use Rattle.spv_trail.specs.followers.Followers.{AreEmpty};

use spv_term::TermId;
use std::alloc::{AllocError, Global};

/// For each of so many terms a list without a question.
pub(crate) fn empty_lists<T: Copy>(
    alloc: Global,
    count: usize,
) -> Result<Vec<Vec<(TermId, T)>>, AllocError>
    ensures { IfOk result (λ lists. AreEmpty count (map (λ v. v.items) lists.items)) }
{
    let mut lists = Vec::new(alloc);
    for _place in 0..count {
        lists.push(Vec::new(alloc))?;
    }
    Ok(lists)
}

// Terms of one head, each with the next one behind it.

ghost use Rattle.std.specs.Prelude.{◌≡◌, ◌<◌, length, IfOk};
ghost use Rattle.spv_term.specs.Arena.{AllBelow};
ghost use Rattle.spv_search_terms.specs.head_index.Chains.{heads, AreChained};

use crate::head_index::places::Places;
use spv_term::{TermId, Terms};
use std::alloc::{AllocError, Global};

/// For each of these terms the place of the next one behind it that has its head; how many terms
/// there are, where none has.
pub fn chains(alloc: Global, terms: &Terms, found: &[TermId]) -> Result<Vec<usize>, AllocError>
    requires { AllBelow (length terms.now.nodes) found.now }
    ensures { IfOk result (λ next. AreChained (heads terms.now found.now) next.items) }
{
    terms.law_arena();
    let count = found.len();
    let mut next = vec![in alloc; count; count]?;
    let mut places = Places::new(alloc);
    let mut left = count;
    while left > 0 {
        left -= 1;
        let head = terms.node(found[left]).head;
        next[left] = places.get(head).unwrap_or(count);
        places.put(head, left)?;
    }
    Ok(next)
}

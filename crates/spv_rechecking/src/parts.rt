// The places of the cases of a proof's nodes.

ghost use Rattle.std.specs.Prelude.{◌≡◌, ◌≤◌, ◌-◌, ◌^◌, ◌<◌, ◌++◌, [], ◌∷◌, true, IfOk, OnOk, length, take, drop, reverse};
ghost use Rattle.spv_rechecking.specs.Parts as spec;
ghost use Rattle.spv_rechecking.specs.Parts.{are_placed, are_trees, counts};

use spv_listing_values::data::{ProofNode, Split};
use spv_listing_values::texts::Text;
use spv_logic::list::List;
use std::alloc::{AllocError, Global};

// How many cases a split has; none where there is none.
fn cases_of(split: &Option<Split<Text>>) -> u32
    ensures { result ≡ spec.cases_of split.now }
{
    match split {
        Some(split) => split.cases,
        None => 0,
    }
}

// Takes so many places off the end, the last one first.
fn take_last(alloc: Global, roots: &mut Vec<u32>, count: u32) -> Result<List<u32>, AllocError>
    requires { count ≤ length roots.old.items }
    ensures parts { IfOk result (λ parts. parts ≡ reverse (drop (length roots.old.items - count) roots.old.items)) }
    ensures left { OnOk result (roots.new.items ≡ take (length roots.old.items - count) roots.old.items) }
{
    let from = roots.len() - count as usize;
    let mut parts = Vec::from_slice(alloc, &roots.as_slice()[from..])?;
    parts.reverse();
    roots.truncate(from);
    Ok(List::from_vec(parts))
}

// Adds the places of the cases of a node, whose own place is behind those that are left.
fn push_parts(
    alloc: Global,
    roots: &mut Vec<u32>,
    parts: &mut Vec<List<u32>>,
    place: u32,
    count: u32,
) -> Result<(), AllocError>
    requires { count ≤ length roots.old.items }
    ensures parts { OnOk result (parts.new.items ≡ parts.old.items ++ reverse (drop (length roots.old.items - count) roots.old.items) ∷ []) }
    ensures roots { OnOk result (roots.new.items ≡ take (length roots.old.items - count) roots.old.items ++ place ∷ []) }
{
    let own = take_last(alloc, roots, count)?;
    parts.push(own)?;
    roots.push(place)?;
    Ok(())
}

/// For each node of a tree the places of its cases, where each node is followed by its cases.
pub(crate) fn parts_of(
    alloc: Global,
    nodes: &[ProofNode<Text>],
) -> Result<Vec<List<u32>>, AllocError>
    requires tree { are_trees 1 (counts nodes.now) ≡ true }
    requires few { length nodes.now < 2 ^ 32 }
    ensures { IfOk result (λ parts. are_placed 0 (0 ∷ []) (counts nodes.now) parts.items ≡ true) }
{
    let mut roots = Vec::new(alloc);
    let mut parts = Vec::new(alloc);
    let mut place = nodes.len();
    while place > 0 {
        place -= 1;
        let count = cases_of(&nodes[place].split);
        push_parts(alloc, &mut roots, &mut parts, place as u32, count)?;
    }
    parts.reverse();
    Ok(parts)
}

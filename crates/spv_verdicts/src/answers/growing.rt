// A tree as it grows, and the list that it is in the end.

ghost use Rattle.std.specs.Prelude.{◌≡◌, ◌≤◌, ◌++◌, [], ◌∷◌, length, reverse, IfOk, OnOk, IsTrue};
ghost use Rattle.spv_logic.specs.declared.conditions.TermId.{TermId};
ghost use Rattle.spv_logic.specs.Terms.{Term};
ghost use Rattle.spv_verdicts.specs.answers.Nodes.{tree_at};
ghost use Rattle.spv_verdicts.specs.answers.Growing.{grown_at, is_whole, IsNodePlaced, IsTaken, parts_count, placed};

use crate::answers::trees::{SplitNode, SplitTree};
use spv_atoms::Step;
use spv_logic::list::List;
use spv_term::TermId;
use std::alloc::{AllocError, Global};

/// A node of a tree as it grows.
#[derive(Debug, Drop)]
pub enum Grown {
    /// The path to it is open.
    Open,
    /// These steps close the path to it, from the cases on it.
    Closed(List<Step>),
    /// The path to it is split on this atom, and has so many parts, which stand behind it, the first one first.
    Split(TermId, u32),
}

// Takes the places of a split's parts from those of the trees behind it, of which the next one stands last.
fn take_parts(alloc: Global, roots: &mut Vec<u32>, count: u32) -> Result<List<u32>, AllocError>
    requires { count ≤ length roots.old.items }
    ensures { IfOk result (λ parts. IsTaken roots.old.items roots.new.items parts count) }
{
    let mut parts = List::new(alloc);
    for _ in 0..count {
        parts.push(roots.pop().unwrap())?;
    }
    Ok(parts)
}

fn push_root(roots: &mut Vec<u32>, place: u32) -> Result<(), AllocError>
    ensures { OnOk result (roots.new.items ≡ roots.old.items ++ place ∷ []) }
{
    roots.push(place)?;
    Ok(())
}

// A node with the places of its parts; its own place is then that of the next tree.
fn place_node(
    alloc: Global,
    node: Grown,
    place: u32,
    roots: &mut Vec<u32>,
) -> Result<SplitNode, AllocError>
    requires { parts_count node ≤ length roots.old.items }
    ensures { IfOk result (IsNodePlaced node place roots.old.items roots.new.items) }
{
    match node {
        Grown::Open => {
            push_root(roots, place)?;
            Ok(SplitNode::Open)
        }
        Grown::Closed(steps) => {
            push_root(roots, place)?;
            Ok(SplitNode::Closed(steps))
        }
        Grown::Split(t, count) => {
            let parts = take_parts(alloc, roots, count)?;
            push_root(roots, place)?;
            Ok(SplitNode::Split(t, parts))
        }
    }
}

// A number of 32 bits; want of memory where it has more.
pub(crate) fn number_of(place: usize) -> Result<u32, AllocError>
    ensures { IfOk result (λ n. n ≡ place) }
{
    if place > u32::MAX as usize {
        return Err(AllocError);
    }
    Ok(place as u32)
}

// The same nodes in the other order.
fn turn(alloc: Global, nodes: Vec<SplitNode>) -> Result<Vec<SplitNode>, AllocError>
    ensures { IfOk result (λ v. v.items ≡ reverse nodes.items) }
{
    let mut left = nodes;
    let mut other = Vec::new(alloc);
    while let Some(node) = left.pop() {
        other.push(node)?;
    }
    Ok(other)
}

// The nodes with the places of their parts, the last one first.
fn place_all(alloc: Global, nodes: Vec<Grown>) -> Result<Vec<SplitNode>, AllocError>
    requires { IsTrue (is_whole nodes.items) }
    ensures { IfOk result (λ v. reverse v.items ≡ placed 0 nodes.items) }
{
    let mut left = nodes;
    let mut roots = Vec::new(alloc);
    let mut other = Vec::new(alloc);
    while let Some(node) = left.pop() {
        let place = number_of(left.as_slice().len())?;
        let node = place_node(alloc, node, place, &mut roots)?;
        other.push(node)?;
    }
    Ok(other)
}

/// The tree of these nodes, the root first and each split followed by its parts. Where a place would be too large the answer is want of
/// memory.
pub fn grown_tree(alloc: Global, nodes: Vec<Grown>) -> Result<SplitTree, AllocError>
    requires { IsTrue (is_whole nodes.items) }
    ensures nodes { IfOk result (λ tree. tree ≡ placed 0 nodes.items) }
    ensures tree { IfOk result (λ tree. (at : TermId → Term) → tree_at at tree ≡ grown_at at nodes.items) }
{
    let other = place_all(alloc, nodes)?;
    let placed = turn(alloc, other)?;
    Ok(SplitTree::new(placed))
}

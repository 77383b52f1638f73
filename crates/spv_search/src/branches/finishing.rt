// What comes of a tree that is whole.

ghost use Rattle.std.specs.Prelude.{◌≡◌, IfOk, IsTrue};
ghost use Rattle.spv_verdicts.specs.answers.Growing.{is_whole};
ghost use Rattle.spv_search.specs.branches.Ends.{EndsAs, IsProofOf, IsTreeOf};

use crate::branches::copying::nodes_of;
use spv_atoms::Proof;
use spv_verdicts::answers::{Grown, SplitTree, grown_tree, law_closed};
use std::alloc::{AllocError, Global};

/// What came of a tree.
#[derive(Drop)]
pub enum Finished {
    /// Each path is closed: the tree is a proof.
    Proved(Proof),
    /// A path is open.
    Open(SplitTree),
}

// The tree of these nodes.
fn tree_of(alloc: Global, nodes: Vec<Grown>) -> Result<SplitTree, AllocError>
    requires { IsTrue (is_whole nodes.items) }
    ensures { IfOk result (IsTreeOf nodes.items) }
{
    let tree = grown_tree(alloc, nodes)?;
    let _nodes = tree.nodes();
    Ok(tree)
}

// The proof of these nodes.
fn proof_of(alloc: Global, nodes: Vec<Grown>) -> Result<Proof, AllocError>
    requires { IsTrue (is_whole nodes.items) }
    ensures { IfOk result (IsProofOf nodes.items) }
{
    law_closed();
    let tree = tree_of(alloc, nodes)?;
    let nodes = nodes_of(alloc, tree.nodes())?;
    Ok(Proof::new(nodes))
}

/// The tree of these nodes, where one of them is open; else their proof.
pub(crate) fn outcome_of(
    alloc: Global,
    nodes: Vec<Grown>,
    is_open: bool,
) -> Result<Finished, AllocError>
    requires { IsTrue (is_whole nodes.items) }
    ensures { IfOk result (EndsAs nodes.items is_open) }
{
    if is_open {
        let tree = tree_of(alloc, nodes)?;
        Ok(Finished::Open(tree))
    } else {
        let proof = proof_of(alloc, nodes)?;
        Ok(Finished::Proved(proof))
    }
}

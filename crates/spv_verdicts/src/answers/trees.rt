// The tree of a search, kept as a list.

ghost use Rattle.std.specs.Prelude.{◌≡◌, IsTrue};
ghost use Rattle.spv_verdicts.specs.answers.Nodes.{is_split_tree};

use spv_atoms::Step;
use spv_logic::list::List;
use spv_term::TermId;
use std::marker::Model;

/// A node of a search's tree.
#[derive(Debug, Drop)]
pub enum SplitNode {
    /// The path to it is open.
    Open,
    /// These steps close the path to it, from the cases on it.
    Closed(List<Step>),
    /// The path to it is split on this atom; the nodes of its parts stand at these places.
    Split(TermId, List<u32>),
}

/// The tree of a search. Its nodes stand in one list, as those of a proof do: the list begins with the
/// root, each split is followed by its parts, and each other node is a part of exactly one split.
#[derive(Debug, Drop)]
pub struct SplitTree {
    nodes: Vec<SplitNode>,
}

impl Model for SplitTree {
    ghost use Rattle.std.specs.Prelude.{List, IsTrue};
    ghost use Rattle.spv_verdicts.specs.declared.answers.trees.SplitNode.{SplitNode};
    ghost use Rattle.spv_verdicts.specs.answers.Nodes.{is_split_tree};

    ghost Value = { List SplitNode };

    ghost view = { λ t. t.nodes.items };

    ghost invariant = { λ t. IsTrue (is_split_tree t.nodes.items) };
}

impl SplitTree {
    /// The tree of these nodes, the root first and each split followed by its parts.
    pub fn new(nodes: Vec<SplitNode>) -> SplitTree
        requires { IsTrue (is_split_tree nodes.items) }
        ensures { result ≡ nodes.items }
    {
        SplitTree { nodes }
    }

    /// The nodes, the root first.
    pub fn nodes(&self) -> &[SplitNode]
        ensures nodes { result.now ≡ self.now }
        ensures tree { IsTrue (is_split_tree result.now) }
    {
        self.nodes.as_slice()
    }
}

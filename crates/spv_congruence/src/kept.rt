// What is kept for a graph.

ghost use Rattle.std.specs.Prelude.{◌≡◌, ◌<◌, ◌≤◌, false, IsTrue, length};
ghost use Rattle.spv_term.specs.declared.nodes.Node.{Node};
ghost use Rattle.spv_union_find.specs.classes.Classes.{AreJoins};
ghost use Rattle.spv_union_find.specs.signatures.Signatures.{cells_of};
ghost use Rattle.spv_congruence.specs.Graph.{HasNode, label_of};
ghost use Rattle.spv_congruence.specs.Keep.{IsNode};

use crate::facts::{Fact, Level};
use spv_term::{Node, TermId};
use spv_union_find::classes::Classes;
use spv_union_find::signatures::Signatures;
use std::marker::Model;

/// The terms by their ids, with all that is known of them.
#[derive(Drop)]
pub(crate) struct Kept {
    pub(crate) nodes: Vec<Option<Node>>,
    pub(crate) added: Vec<TermId>,
    pub(crate) told: Vec<Fact>,
    pub(crate) levels: Vec<Level>,
    pub(crate) classes: Classes,
    pub(crate) table: Signatures,
    // For each term the terms that have it as an argument.
    pub(crate) uses: Vec<Vec<TermId>>,
    // The labels of one term's arguments.
    pub(crate) labels: Vec<usize>,
}

impl Model for Kept {
    ghost use Rattle.std.specs.Prelude.{map};
    ghost use Rattle.std.specs.Vec.{vec_capacity};
    ghost use Rattle.spv_congruence.specs.Keep as spec;

    ghost Value = { spec.Kept };

    ghost view = { λ k. record {
      nodes = k.nodes.items;
      added = k.added.items;
      told = k.told.items;
      levels = k.levels.items;
      classes = k.classes;
      table = k.table;
      uses = map (λ v. v.items) k.uses.items;
      room = vec_capacity k.labels;
    } };
}

// The node of a term.
pub(crate) fn node_of(nodes: &[Option<Node>], t: TermId) -> &Node
    requires { IsNode nodes.now t }
    ensures { HasNode nodes.now t result.now }
{
    match &nodes[t.0 as usize] {
        Some(node) => node,
        None => unreachable!(),
    }
}

// Whether a term has a node.
pub(crate) fn is_node(nodes: &[Option<Node>], t: TermId) -> bool
    ensures there { IsTrue result → IsNode nodes.now t }
    ensures missing { result ≡ false → (n : Node) → HasNode nodes.now t n → ⊥ }
{
    match nodes.get(t.0 as usize) {
        Some(Some(_)) => true,
        _ => false,
    }
}

impl Kept {
    // The label of a term's class.
    pub(crate) fn label(&self, t: TermId) -> usize
        requires { t.0 < self.now.classes.count }
        ensures { result ≡ label_of self.now.classes.joins t }
    {
        self.classes.label(t.0 as usize)
    }

    // What is true of the joins.
    pub(crate) fn law_joins(&self)
        ensures { AreJoins self.now.classes.count self.now.classes.joins }
    {
        self.classes.law_joins();
    }

    // There is memory for the signatures that there are.
    pub(crate) fn law_room(&self)
        ensures { cells_of self.now.table.rows ≤ self.now.table.room }
    {
        self.table.law_room();
    }
}

// Entering the signature of a term.

ghost use Rattle.std.specs.Prelude.{◌≡◌, ◌<◌, ◌≤◌, ◌+◌, suc, [], IsOk, IfOk, OnOk, OnErr, length};
ghost use Rattle.std.specs.Vec.{vec_capacity};
ghost use Rattle.spv_term.specs.declared.nodes.Node.{Node};
ghost use Rattle.spv_term.specs.Arena.{AllBelow};
ghost use Rattle.spv_union_find.specs.signatures.Signatures.{cells_of};
ghost use Rattle.spv_congruence.specs.Graph.{HasNode, labels};
ghost use Rattle.spv_congruence.specs.Keep.{IsNode, Fits, Enters, OtherTable, first_for};

use crate::kept::{Kept, node_of};
use spv_term::{Node, TermId};
use spv_union_find::classes::Classes;
use std::alloc::AllocError;

// Writes the labels of a term's arguments into a list that has memory for them.
fn write_labels(out: &mut Vec<usize>, classes: &Classes, node: &Node)
    requires args { AllBelow classes.now.count node.now.args }
    requires room { length node.now.args ≤ vec_capacity out.old }
    ensures items { out.new.items ≡ labels classes.now.joins node.now }
    ensures room { vec_capacity out.old ≤ vec_capacity out.new }
{
    out.clear();
    for t in node.args.as_slice() {
        out.push(classes.label(t.0 as usize)).unwrap();
    }
}

fn first_for(found: Option<TermId>, t: TermId) -> TermId
    ensures { result ≡ first_for found t }
{
    match found {
        Some(first) => first,
        None => t,
    }
}

impl Kept {
    // Enters the signature of a term, and answers the term that was entered with it first.
    pub(crate) fn enter(&mut self, t: TermId) -> Result<TermId, AllocError>
        requires node { IsNode self.old.nodes t }
        requires fits { Fits self.old }
        ensures ok { IfOk result (λ q. Enters self.old self.new t q) }
        ensures err { OnErr result (self.new.table.rows ≡ self.old.table.rows) }
        ensures same { OtherTable self.old self.new }
        ensures succeeds { (n : Node) → HasNode self.old.nodes t n → cells_of self.old.table.rows + suc (length n.args) ≤ self.old.table.room → IsOk result }
    {
        let node = node_of(self.nodes.as_slice(), t);
        write_labels(&mut self.labels, &self.classes, node);
        let labels = self.labels.as_slice();
        let first = first_for(self.table.find(node.head, labels), t);
        self.table.push(node.head, labels, first)?;
        Ok(first)
    }
}

// Copies of the steps of a proof, and the nodes of a proof from those of a tree.

ghost use Rattle.std.specs.Prelude.{◌≡◌, IfOk};
ghost use Rattle.spv_verdicts.specs.answers.Nodes.{proof_node, proof_nodes};

use spv_atoms::{ProofNode, Split, Step, same_step};
use spv_logic::list::List;
use spv_verdicts::answers::SplitNode;
use std::alloc::{AllocError, Global};

fn same_numbers(alloc: Global, numbers: &[u32]) -> Result<List<u32>, AllocError>
    ensures { IfOk result (λ v. v ≡ numbers.now) }
{
    let mut list = List::new(alloc);
    for number in numbers {
        list.push(*number)?;
    }
    Ok(list)
}

fn same_steps(alloc: Global, steps: &[Step]) -> Result<List<Step>, AllocError>
    ensures { IfOk result (λ v. v ≡ steps.now) }
{
    let mut list = List::new(alloc);
    for step in steps {
        list.push(same_step(alloc, step)?)?;
    }
    Ok(list)
}

// A node of a tree as one of a proof.
fn node_of(alloc: Global, node: &SplitNode) -> Result<ProofNode, AllocError>
    ensures { IfOk result (λ n. n ≡ proof_node node.now) }
{
    match node {
        SplitNode::Open => Ok(ProofNode {
            steps: List::new(alloc),
            split: None,
        }),
        SplitNode::Closed(steps) => Ok(ProofNode {
            steps: same_steps(alloc, steps.as_slice())?,
            split: None,
        }),
        SplitNode::Split(atom, parts) => Ok(ProofNode {
            steps: List::new(alloc),
            split: Some(Split {
                atom: *atom,
                parts: same_numbers(alloc, parts.as_slice())?,
            }),
        }),
    }
}

/// The nodes of a tree as those of a proof.
pub(crate) fn nodes_of(alloc: Global, nodes: &[SplitNode]) -> Result<Vec<ProofNode>, AllocError>
    ensures { IfOk result (λ v. v.items ≡ proof_nodes nodes.now) }
{
    let mut list = Vec::new(alloc);
    for node in nodes {
        list.push(node_of(alloc, node)?)?;
    }
    Ok(list)
}

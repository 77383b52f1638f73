// Proofs and trees in which other steps stand where hypotheses were cited.

ghost use Rattle.std.specs.Prelude.{◌≡◌, IfOk};
ghost use Rattle.spv_logic.specs.declared.conditions.TermId.{TermId};
ghost use Rattle.spv_logic.specs.Terms.{Term};
ghost use Rattle.spv_term.specs.Arena.{Arena};
ghost use Rattle.spv_proof_rules.specs.Stand.{NodesIn, StepsIn};
ghost use Rattle.spv_verdicts.specs.answers.Nodes.{tree_at};
ghost use Rattle.spv_verdicts.specs.answers.Views.{SplitNodesIn};
ghost use Rattle.spv_verdicts.specs.translation.Exchanged.{exchanged_node, exchanged_nodes, exchanged_step, exchanged_steps};
ghost use Rattle.spv_verdicts.specs.translation.ExchangedTrees.{exchanged_split_node, exchanged_split_nodes, exchanged_tree};

use crate::answers::{SplitNode, SplitTree};
use spv_atoms::{Proof, ProofNode, Split, Step, same_step};
use spv_logic::list::List;
use std::alloc::{AllocError, Global};

// A copy of the step that takes a step's place.
fn exchanged_step(alloc: Global, replacements: &[Step], step: &Step) -> Result<Step, AllocError>
    ensures { IfOk result (λ s. s ≡ exchanged_step replacements.now step.now) }
{
    if let Step::Given(k) = step {
        if let Some(other) = replacements.get(*k as usize) {
            return same_step(alloc, other);
        }
    }
    same_step(alloc, step)
}

fn exchanged_steps(
    alloc: Global,
    replacements: &[Step],
    steps: &[Step],
) -> Result<List<Step>, AllocError>
    ensures { IfOk result (λ v. v ≡ exchanged_steps replacements.now steps.now) }
{
    let mut list = List::new(alloc);
    for step in steps {
        list.push(exchanged_step(alloc, replacements, step)?)?;
    }
    Ok(list)
}

fn same_split(alloc: Global, split: &Option<Split>) -> Result<Option<Split>, AllocError>
    ensures { IfOk result (λ s. s ≡ split.now) }
{
    match split {
        None => Ok(None),
        Some(Split { atom, parts }) => Ok(Some(Split {
            atom: *atom,
            parts: List::from_vec(parts.as_slice().to_vec(alloc)?),
        })),
    }
}

fn exchanged_node(
    alloc: Global,
    replacements: &[Step],
    node: &ProofNode,
) -> Result<ProofNode, AllocError>
    ensures { IfOk result (λ n. n ≡ exchanged_node replacements.now node.now) }
{
    Ok(ProofNode {
        steps: exchanged_steps(alloc, replacements, node.steps.as_slice())?,
        split: same_split(alloc, &node.split)?,
    })
}

fn exchanged_nodes(
    alloc: Global,
    replacements: &[Step],
    nodes: &[ProofNode],
) -> Result<Vec<ProofNode>, AllocError>
    ensures { IfOk result (λ v. v.items ≡ exchanged_nodes replacements.now nodes.now) }
{
    let mut list = Vec::new(alloc);
    for node in nodes {
        list.push(exchanged_node(alloc, replacements, node)?)?;
    }
    Ok(list)
}

/// A proof in which other steps stand where hypotheses were cited: the hypothesis of each number has the
/// step at that place of the list, where there is one. Where these steps do the same, it is accepted where the first one is.
pub fn exchanged_proof(
    alloc: Global,
    replacements: &[Step],
    proof: &Proof,
) -> Result<Proof, AllocError>
    ensures nodes { IfOk result (λ p. p ≡ exchanged_nodes replacements.now proof.now) }
    ensures terms { IfOk result (λ p. (a : Arena) → StepsIn a replacements.now → NodesIn a proof.now → NodesIn a p) }
{
    let nodes = exchanged_nodes(alloc, replacements, proof.nodes())?;
    Ok(Proof::new(nodes))
}

fn exchanged_split_node(
    alloc: Global,
    replacements: &[Step],
    node: &SplitNode,
) -> Result<SplitNode, AllocError>
    ensures { IfOk result (λ n. n ≡ exchanged_split_node replacements.now node.now) }
{
    match node {
        SplitNode::Open => Ok(SplitNode::Open),
        SplitNode::Closed(steps) => Ok(SplitNode::Closed(exchanged_steps(
            alloc,
            replacements,
            steps.as_slice(),
        )?)),
        SplitNode::Split(atom, parts) => {
            let parts = parts.as_slice().to_vec(alloc)?;
            Ok(SplitNode::Split(*atom, List::from_vec(parts)))
        }
    }
}

fn exchanged_split_nodes(
    alloc: Global,
    replacements: &[Step],
    nodes: &[SplitNode],
) -> Result<Vec<SplitNode>, AllocError>
    ensures { IfOk result (λ v. v.items ≡ exchanged_split_nodes replacements.now nodes.now) }
{
    let mut list = Vec::new(alloc);
    for node in nodes {
        list.push(exchanged_split_node(alloc, replacements, node)?)?;
    }
    Ok(list)
}

/// A tree whose closed paths have steps in which others stand where hypotheses were cited, as in `exchanged_proof`.
pub fn exchanged_tree(
    alloc: Global,
    replacements: &[Step],
    tree: &SplitTree,
) -> Result<SplitTree, AllocError>
    ensures nodes { IfOk result (λ t. t ≡ exchanged_split_nodes replacements.now tree.now) }
    ensures tree { IfOk result
        (λ t. (at : TermId → Term) → tree_at at t ≡ exchanged_tree replacements.now (tree_at at tree.now)) }
    ensures terms { IfOk result
        (λ t. (a : Arena) → StepsIn a replacements.now → SplitNodesIn a tree.now → SplitNodesIn a t) }
{
    let nodes = exchanged_split_nodes(alloc, replacements, tree.nodes())?;
    Ok(SplitTree::new(nodes))
}

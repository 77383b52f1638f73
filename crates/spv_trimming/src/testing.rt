//! Nodes are tested: whether they are a proof of a condition, and whether the check accepts it.

ghost use Rattle.std.specs.Prelude.{◌≡◌, ◌<◌, ◌++◌, [], ◌∷◌, true, length, reverse, IsTrue, IfOk, OnOk, IfSome};
ghost use Rattle.spv_atoms.specs.Shape.{has_cases, is_tree, parts_of};
ghost use Rattle.spv_term.specs.Arena.{AllBelow, Extends, IsArena};
ghost use Rattle.spv_proof_rules.specs.Accepted.{accepts};
ghost use Rattle.spv_proof_rules.specs.Stand.{question, In, NodesIn, RelationIn, SplitIn, StatedIn, StepIn, StepsIn, IsProof};
ghost use Rattle.spv_proof_steps.specs.Candidates.{AllFormulas, IsBool};
ghost use Rattle.spv_proof.specs.checker.Ends.{ConditionIn};
ghost use Rattle.spv_trimming.specs.Waiting.{Takes};

use spv_atoms::{Proof, ProofNode, Relation, Split, Stated, Step};
use spv_proof::checker::{CheckStop, check};
use spv_proof_steps::is_truth;
use spv_term::{Condition, TermId, Terms};
use std::alloc::{AllocError, Global};
use std::collections::VecDeque;

/// Whether a term is in the arena.
pub fn is_there(terms: &Terms, t: TermId) -> bool
    ensures there { IsTrue result → In terms.now t }
{
    t.0 < terms.len()
}

/// Whether all of these terms are in the arena.
pub fn are_there(terms: &Terms, ts: &[TermId]) -> bool
    ensures there { IsTrue result → AllBelow (length terms.now.nodes) ts.now }
{
    for t in ts {
        if !is_there(terms, *t) {
            return false;
        }
    }
    true
}

fn is_relation_there(terms: &Terms, relation: Relation) -> bool
    ensures { IsTrue result → RelationIn terms.now relation }
{
    match relation {
        Relation::AtMost(s, t) | Relation::Equal(s, t) => is_there(terms, s) && is_there(terms, t),
    }
}

fn is_claim_there(terms: &Terms, claim: Stated) -> bool
    ensures { IsTrue result → StatedIn terms.now claim }
{
    match claim {
        Stated::Is(t, _) => is_there(terms, t),
        Stated::Same(s, t) => is_there(terms, s) && is_there(terms, t),
    }
}

// Whether the terms that a step names are in the arena.
fn is_step_there(terms: &Terms, step: &Step) -> bool
    ensures { IsTrue result → StepIn terms.now step.now }
{
    match step {
        Step::Given(_) | Step::Symm(_) | Step::Trans(_, _) | Step::Contra(_, _) => true,
        Step::Refl(t) => is_there(terms, *t),
        Step::Cong(t, u, _) => is_there(terms, *t) && is_there(terms, *u),
        Step::Linear(relation, _, _) => is_relation_there(terms, *relation),
        Step::Schema(_, ts, _) | Step::Rule(_, ts) => are_there(terms, ts.as_slice()),
        Step::Eval(claim, _) => is_claim_there(terms, *claim),
    }
}

fn are_steps_there(terms: &Terms, steps: &[Step]) -> bool
    ensures { IsTrue result → StepsIn terms.now steps.now }
{
    for step in steps {
        if !is_step_there(terms, step) {
            return false;
        }
    }
    true
}

fn is_split_there(terms: &Terms, split: &Option<Split>) -> bool
    ensures { IsTrue result → SplitIn terms.now split.now }
{
    match split {
        None => true,
        Some(split) => is_there(terms, split.atom),
    }
}

fn are_nodes_there(terms: &Terms, nodes: &[ProofNode]) -> bool
    ensures { IsTrue result → NodesIn terms.now nodes.now }
{
    for node in nodes {
        if !are_steps_there(terms, node.steps.as_slice()) || !is_split_there(terms, &node.split) {
            return false;
        }
    }
    true
}

fn are_formulas(terms: &Terms, ts: &[TermId]) -> bool
    ensures { IsTrue result → AllFormulas terms.now ts.now }
{
    for t in ts {
        if !is_there(terms, *t) || !is_truth(terms, *t) {
            return false;
        }
    }
    true
}

// Whether the formulas of a condition are in the arena.
fn is_condition_there(terms: &Terms, condition: &Condition) -> bool
    ensures { IsTrue result → ConditionIn terms.now condition.now }
{
    are_formulas(terms, condition.given.as_slice())
        && is_there(terms, condition.goal)
        && is_truth(terms, condition.goal)
}

// Puts the places of a split's parts in front of others.
fn push_parts(waiting: &mut VecDeque<u32>, parts: &[u32]) -> Result<(), AllocError>
    ensures { OnOk result (waiting.new.items ≡ parts.now ++ waiting.old.items) }
{
    for place in (0..parts.len()).rev() {
        waiting.push_front(parts[place])?;
    }
    Ok(())
}

// Whether a split, where there is one, has a case; the places of its cases then wait in front of others.
fn open(waiting: &mut VecDeque<u32>, split: &Option<Split>) -> Result<bool, AllocError>
    ensures cases { IfOk result (λ b. b ≡ has_cases split.now) }
    ensures waiting { OnOk result (waiting.new.items ≡ parts_of split.now ++ waiting.old.items) }
{
    match split {
        None => Ok(true),
        Some(split) => {
            push_parts(waiting, split.parts.as_slice())?;
            Ok(!split.parts.as_slice().is_empty())
        }
    }
}

// Whether a node stands at the place that comes next; the places of its cases then wait in front of the others.
fn takes(
    waiting: &mut VecDeque<u32>,
    place: usize,
    split: &Option<Split>,
) -> Result<bool, AllocError>
    ensures { IfOk result (λ b. IsTrue b → Takes waiting.old.items place split.now waiting.new.items) }
{
    let Some(next) = waiting.pop_front() else {
        return Ok(false);
    };
    if next as usize != place {
        return Ok(false);
    }
    open(waiting, split)
}

// Whether nodes are a tree, the root first and each one followed by its cases.
fn is_tree(alloc: Global, nodes: &[ProofNode]) -> Result<bool, AllocError>
    ensures { IfOk result (λ b. IsTrue b → IsTrue (is_tree nodes.now)) }
{
    let mut waiting = VecDeque::new(alloc);
    waiting.push_back(0)?;
    for (place, node) in nodes.iter().enumerate() {
        if !takes(&mut waiting, place, &node.split)? {
            return Ok(false);
        }
    }
    Ok(waiting.is_empty())
}

// Whether the check accepts a proof; not where anything stops it but want of memory.
fn is_accepted(
    alloc: Global,
    terms: &mut Terms,
    condition: &Condition,
    proof: &Proof,
) -> Result<bool, AllocError>
    requires condition { ConditionIn terms.old condition.now }
    requires proof { NodesIn terms.old proof.now }
    ensures accepted { IfOk result (λ b. IsTrue b → accepts (question terms.old condition.now) proof.now ≡ true) }
    ensures grows { Extends terms.old terms.new }
{
    match check(alloc, terms, condition, proof) {
        Ok(accepted) => Ok(accepted),
        Err(CheckStop::Memory) => Err(AllocError),
        Err(_) => Ok(false),
    }
}

/// The proof of a condition that these nodes are: only if they are a tree, over terms of the arena, and the check accepts it.
pub fn proof_of(
    alloc: Global,
    terms: &mut Terms,
    condition: &Condition,
    nodes: Vec<ProofNode>,
) -> Result<Option<Proof>, AllocError>
    ensures proof { IfOk result (λ proof. IfSome proof (IsProof terms.old condition.now)) }
    ensures grows { Extends terms.old terms.new }
{
    if !is_condition_there(terms, condition) || !are_nodes_there(terms, nodes.as_slice()) {
        return Ok(None);
    }
    if !is_tree(alloc, nodes.as_slice())? {
        return Ok(None);
    }
    let proof = Proof::new(nodes);
    if is_accepted(alloc, terms, condition, &proof)? {
        Ok(Some(proof))
    } else {
        Ok(None)
    }
}

//! The checker: whether the nodes of a proof close every path.

ghost use Rattle.std.specs.Prelude.{◌≡◌, ◌<◌, ◌≤◌, map, length, IfOk, OnOk, IfErr};
ghost use Rattle.spv_logic.specs.Conditions.{Sequent};
ghost use Rattle.spv_term.specs.Arena.{Extends, AllBelow, tree, trees_of, IsArena};
ghost use Rattle.spv_proof_rules.specs.Stand.{question, question_under, StepsIn, SplitIn, NodesIn};
ghost use Rattle.spv_proof_rules.specs.Outcomes as outcomes;
ghost use Rattle.spv_proof_rules.specs.Accepted as accepted;
ghost use Rattle.spv_proof_steps.specs.Steps.{asked};
ghost use Rattle.spv_rules.specs.RuleSets.{rules_in};
ghost use Rattle.spv_proof.specs.checker.Ends.{ConditionIn, EndsAs, comes_in};
ghost use Rattle.spv_proof.specs.checker.Tasks.{TaskIn, asks};
ghost use Rattle.spv_proof.specs.checker.Walks.{path_of};
ghost use Rattle.spv_proof.specs.checker.Stacks.{branch_in, stacked, BranchIn, IsPending, Leaves, Checked};

use crate::checker::branches::{Branch, begin, push_cases, root};
use crate::checker::casing::{cases_of, count};
use crate::checker::stops::CheckStop;
use crate::checker::tasks::Task;
use crate::checker::walking::{Path, walk};
use spv_atoms::{Proof, ProofNode, Split, is_atom};
use spv_rules::Rules;
use spv_term::{Condition, TermId, Terms};
use std::alloc::{AllocError, Global};

// Opens the cases of a split, where its atom is one and it has a part for each of them.
fn open(
    terms: &Terms,
    facts: &[TermId],
    pending: &mut Vec<Branch>,
    split: &Split,
) -> Result<bool, AllocError>
    requires split { split.now.atom.0 < length terms.now.nodes }
    requires facts { AllBelow (length terms.now.nodes) facts.now }
    requires pending { IsPending terms.now (length facts.now) pending.old.items }
    ensures { IfOk result (λ b. (c : Sequent) → Leaves terms.now facts.now pending.old.items pending.new.items b
        (outcomes.branches (asked terms.now c) (map (tree terms.now) facts.now) split.now)) }
{
    terms.law_arena();
    if !is_atom(terms, split.atom) {
        return Ok(false);
    }
    let cases = cases_of(terms, split.atom);
    if split.parts.len() != count(cases) {
        return Ok(false);
    }
    push_cases(pending, facts.len(), cases)?;
    Ok(true)
}

// What a node leaves, where its steps lead there: nothing, or the cases of its split.
fn leave(
    terms: &Terms,
    path: Path,
    facts: &[TermId],
    pending: &mut Vec<Branch>,
    split: &Option<Split>,
) -> Result<bool, AllocError>
    requires split { SplitIn terms.now split.now }
    requires facts { AllBelow (length terms.now.nodes) facts.now }
    requires pending { IsPending terms.now (length facts.now) pending.old.items }
    ensures { IfOk result (λ b. (c : Sequent) → Leaves terms.now facts.now pending.old.items pending.new.items b
        (outcomes.branches_after (asked terms.now c) (path_of (map (tree terms.now) facts.now) path) split.now)) }
{
    match path {
        Path::Closed => Ok(split.is_none()),
        Path::Open => match split {
            Some(split) => open(terms, facts, pending, split),
            None => Ok(false),
        },
        Path::Broken => Ok(false),
    }
}

// Checks the node of a path: whether it closes it, its cases aside, which are put behind those that wait.
fn check_node(
    alloc: Global,
    terms: &mut Terms,
    task: &Task<'_>,
    facts: &mut Vec<TermId>,
    pending: &mut Vec<Branch>,
    branch: Branch,
    node: &ProofNode,
) -> Result<bool, CheckStop>
    requires task { TaskIn terms.old task.now }
    requires facts { AllBelow (length terms.old.nodes) facts.old.items }
    requires branch { BranchIn terms.old branch }
    requires mark { branch.mark ≤ length facts.old.items }
    requires pending { IsPending terms.old branch.mark pending.old.items }
    requires steps { StepsIn terms.old node.now.steps }
    requires split { SplitIn terms.old node.now.split }
    ensures checked { IfOk result (Checked terms.old task.now facts.old.items pending.old.items branch node.now
        terms.new facts.new.items pending.new.items) }
    ensures stop { IfErr result (λ e. EndsAs terms.new e (outcomes.node_outcome terms.old.most
        (asks terms.old task.now) (trees_of terms.old.nodes) (branch_in terms.old facts.old.items branch) node.now)) }
    ensures grows { Extends terms.old terms.new }
{
    begin(terms, facts, branch)?;
    let path = walk(alloc, terms, task, facts, node.steps.as_slice())?;
    match leave(terms, path, facts.as_slice(), pending, &node.split) {
        Ok(closes) => Ok(closes),
        Err(_) => Err(CheckStop::Memory),
    }
}

// Whether nodes, each with its cases behind it, close every path, of which there is one in the beginning.
fn check_nodes(
    alloc: Global,
    terms: &mut Terms,
    task: &Task<'_>,
    nodes: &[ProofNode],
) -> Result<bool, CheckStop>
    requires task { TaskIn terms.old task.now }
    requires nodes { NodesIn terms.old nodes.now }
    ensures outcome { IfOk result (λ b. outcomes.outcome terms.old.most (asks terms.old task.now)
        (trees_of terms.old.nodes) nodes.now ≡ comes_in terms.new b) }
    ensures stop { IfErr result (λ e. EndsAs terms.new e (outcomes.outcome terms.old.most
        (asks terms.old task.now) (trees_of terms.old.nodes) nodes.now)) }
    ensures grows { Extends terms.old terms.new }
{
    let mut facts = Vec::new(alloc);
    let Ok(mut pending) = root(alloc) else {
        return Err(CheckStop::Memory);
    };
    for node in nodes {
        let Some(branch) = pending.pop() else {
            return Ok(false);
        };
        if !check_node(alloc, terms, task, &mut facts, &mut pending, branch, node)? {
            return Ok(false);
        }
    }
    Ok(pending.as_slice().is_empty())
}

/// Whether a proof of a condition is accepted under rules, which its steps may cite. Its facts are made, one after the other, those of
/// schemas and instances of rules behind their subterms, and no other term, but that a relation that is named for its form is made too.
///
/// An error says what ends the check first, in the order of the proof: `Wide` for the first operation
/// of a sum that does not fit, `Form` for the first relation that a sum reads or shows whose form does
/// not fit, `Size` for the first fact, or subterm of a fact of a schema or of an instance of a rule, that is new where there may be no more
/// terms; or `Memory`, where the arena has some of the terms that come first.
pub fn check_under(
    alloc: Global,
    terms: &mut Terms,
    condition: &Condition,
    rules: &Rules,
    proof: &Proof,
) -> Result<bool, CheckStop>
    requires condition { ConditionIn terms.old condition.now }
    requires shapes { rules.now.arena.shapes ≡ terms.old.shapes }
    requires decls { rules.now.arena.decls ≡ terms.old.decls }
    requires proof { NodesIn terms.old proof.now }
    ensures accepted { IfOk result (λ b. b ≡ accepted.accepts (question_under (rules_in rules.now) terms.old condition.now) proof.now) }
    ensures outcome { IfOk result (λ b. outcomes.outcome terms.old.most (question_under (rules_in rules.now) terms.old condition.now)
        (trees_of terms.old.nodes) proof.now ≡ comes_in terms.new b) }
    ensures stop { IfErr result (λ e. EndsAs terms.new e (outcomes.outcome terms.old.most
        (question_under (rules_in rules.now) terms.old condition.now) (trees_of terms.old.nodes) proof.now)) }
    ensures grows { Extends terms.old terms.new }
{
    let task = Task {
        condition,
        rules: Some(rules),
    };
    check_nodes(alloc, terms, &task, proof.nodes())
}

/// Whether a proof of a condition is accepted under no rules: what `check_under` says, where a step that cites a rule does not follow.
pub fn check(
    alloc: Global,
    terms: &mut Terms,
    condition: &Condition,
    proof: &Proof,
) -> Result<bool, CheckStop>
    requires condition { ConditionIn terms.old condition.now }
    requires proof { NodesIn terms.old proof.now }
    ensures accepted { IfOk result (λ b. b ≡ accepted.accepts (question terms.old condition.now) proof.now) }
    ensures outcome { IfOk result (λ b. outcomes.outcome terms.old.most (question terms.old condition.now)
        (trees_of terms.old.nodes) proof.now ≡ comes_in terms.new b) }
    ensures stop { IfErr result (λ e. EndsAs terms.new e (outcomes.outcome terms.old.most
        (question terms.old condition.now) (trees_of terms.old.nodes) proof.now)) }
    ensures grows { Extends terms.old terms.new }
{
    let task = Task {
        condition,
        rules: None,
    };
    check_nodes(alloc, terms, &task, proof.nodes())
}

// The nodes of a proof, in the order of its text.

ghost use Rattle.std.specs.Prelude.{◌≡◌, ◌<◌, ◌++◌, [], ◌∷◌, All, IfOk, OnOk, length, map, option_map, reverse};
ghost use Rattle.spv_listing_values.specs.Page.{split_lines, node_lines, case_lines, cases_lines, proof_lines};
ghost use Rattle.spv_listing_values.specs.Lines.{step_line};
ghost use Rattle.spv_listing_values.specs.Blanks.{lines_bytes, numbers_down, case_count};
ghost use Rattle.spv_listing_values.specs.Mapped.{step_at, step_terms, split_at, split_terms, node_at};
ghost use Rattle.spv_listing_values.specs.Places.{tree};
ghost use Rattle.spv_listing_values.specs.Waiting.{AreIn, NodeIn};

use crate::claims::{push_case, push_split};
use crate::data::{ProofNode, Split, Step};
use crate::lines::push_step;
use crate::texts::{Text, Texts};
use std::alloc::{AllocError, Global};

// Steps, each on a line of its own.
fn push_steps(out: &mut Vec<u8>, texts: &Texts, steps: &[Step<Text>]) -> Result<(), AllocError>
    requires { All (λ s. AreIn texts.now (step_terms s)) steps.now }
    ensures { OnOk result (out.new.items ≡ out.old.items ++ lines_bytes (map step_line (map (step_at (tree texts.now)) steps.now))) }
{
    for step in steps {
        push_step(out, texts, step)?;
    }
    Ok(())
}

// The line of a split, where there is one.
fn push_split_line(
    out: &mut Vec<u8>,
    texts: &Texts,
    split: &Option<Split<Text>>,
) -> Result<(), AllocError>
    requires { AreIn texts.now (split_terms split.now) }
    ensures { OnOk result (out.new.items ≡ out.old.items ++ lines_bytes (split_lines (option_map (split_at (tree texts.now)) split.now))) }
{
    match split {
        None => Ok(()),
        Some(cases) => push_split(out, texts, cases),
    }
}

// The lines of a node: its steps, and its split.
fn push_node(out: &mut Vec<u8>, texts: &Texts, node: &ProofNode<Text>) -> Result<(), AllocError>
    requires { NodeIn texts.now node.now }
    ensures { OnOk result (out.new.items ≡ out.old.items ++ lines_bytes (node_lines (node_at (tree texts.now) node.now))) }
{
    push_steps(out, texts, node.steps.as_slice())?;
    push_split_line(out, texts, &node.split)
}

// How many cases the split of a node has.
pub(crate) fn count_cases(split: &Option<Split<Text>>) -> u32
    ensures { result ≡ case_count split.now }
{
    match split {
        None => 0,
        Some(cases) => cases.cases,
    }
}

// So many cases wait, the first one last.
fn put_cases(waiting: &mut Vec<u32>, count: u32) -> Result<(), AllocError>
    ensures { OnOk result (waiting.new.items ≡ waiting.old.items ++ numbers_down count) }
{
    for place in 0..count {
        waiting.push(count - place)?;
    }
    Ok(())
}

// The line in front of a case and its lines.
fn push_numbered(
    out: &mut Vec<u8>,
    texts: &Texts,
    number: u32,
    node: &ProofNode<Text>,
) -> Result<(), AllocError>
    requires { NodeIn texts.now node.now }
    ensures { OnOk result (out.new.items ≡ out.old.items ++ (lines_bytes (case_lines number) ++ lines_bytes (node_lines (node_at (tree texts.now) node.now)))) }
{
    push_case(out, number)?;
    push_node(out, texts, node)
}

// The lines of nodes, where these cases are still to come, the next one last.
fn push_cases(
    out: &mut Vec<u8>,
    waiting: &mut Vec<u32>,
    texts: &Texts,
    nodes: &[ProofNode<Text>],
) -> Result<(), AllocError>
    requires { All (λ n. NodeIn texts.now n) nodes.now }
    ensures { OnOk result (out.new.items ≡ out.old.items ++ lines_bytes (cases_lines (reverse waiting.old.items) (map (node_at (tree texts.now)) nodes.now))) }
{
    for node in nodes {
        match waiting.pop() {
            None => return Ok(()),
            Some(number) => {
                push_numbered(out, texts, number, node)?;
                put_cases(waiting, count_cases(&node.split))?;
            }
        }
    }
    Ok(())
}

// The root waits: it is no case, and has the number 0.
fn root_waits(alloc: Global) -> Result<Vec<u32>, AllocError>
    ensures { IfOk result (λ v. v.items ≡ 0 ∷ []) }
{
    let mut waiting = Vec::new(alloc);
    waiting.push(0)?;
    Ok(waiting)
}

// The lines of a proof.
#[tactic(auto, using(crate::proofs::Cases::from_root))]
pub(crate) fn push_nodes(
    out: &mut Vec<u8>,
    texts: &Texts,
    nodes: &[ProofNode<Text>],
) -> Result<(), AllocError>
    requires { All (λ n. NodeIn texts.now n) nodes.now }
    ensures { OnOk result (out.new.items ≡ out.old.items ++ lines_bytes (proof_lines (map (node_at (tree texts.now)) nodes.now))) }
{
    let mut waiting = root_waits(*out.allocator())?;
    push_cases(out, &mut waiting, texts, nodes)
}

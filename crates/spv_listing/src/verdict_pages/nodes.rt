// The nodes of a proof, in the order of its text.

ghost use Rattle.std.specs.Prelude.{◌≡◌, ◌++◌, [], ◌∷◌, All, IfOk, OnOk, length, reverse};
ghost use Rattle.spv_term.specs.Arena.{tree};
ghost use Rattle.spv_atoms.specs.Shape.{parts_of};
ghost use Rattle.spv_proof_rules.specs.Stand.{NodesIn, SplitIn, StepsIn};
ghost use Rattle.spv_listing.specs.verdict_pages.Counting.{NodeIn, numbers_down};
ghost use Rattle.spv_listing.specs.verdict_pages.ProofLines.{split_line, node_lines, case_line, case_numbers, cases_lines, proof_lines};

use crate::verdict_pages::steps::{push_blank_term, push_number, push_steps};
use spv_atoms::{ProofNode, Split};
use spv_logic::names::{Names, Symbol};
use spv_term::Terms;
use std::alloc::{AllocError, Global};

// The line of a split, where there is one.
fn push_split(
    out: &mut Vec<u8>,
    names: &Names,
    titles: &[Option<Symbol>],
    terms: &Terms,
    split: &Option<Split>,
) -> Result<(), AllocError>
    requires { SplitIn terms.now split.now }
    ensures { OnOk result (out.new.items ≡ out.old.items ++ split_line names.now titles.now (tree terms.now) split.now) }
{
    match split {
        None => Ok(()),
        Some(cases) => {
            out.extend_from_slice(b"SPLIT")?;
            push_number(out, cases.parts.len() as u64)?;
            push_blank_term(out, names, titles, terms, cases.atom)?;
            out.push(b'\n')?;
            Ok(())
        }
    }
}

// The lines of a node: its steps, and its split.
#[tactic(auto, using(crate::proofs::verdict_pages::Reach::all_steps))]
fn push_node(
    out: &mut Vec<u8>,
    names: &Names,
    titles: &[Option<Symbol>],
    terms: &Terms,
    node: &ProofNode,
) -> Result<(), AllocError>
    requires { NodeIn terms.now node.now }
    ensures { OnOk result (out.new.items ≡ out.old.items ++ node_lines names.now titles.now (tree terms.now) node.now) }
{
    push_steps(out, names, titles, terms, node.steps.as_slice())?;
    push_split(out, names, titles, terms, &node.split)
}

// The line in front of a case; nothing in front of the root.
fn push_case_line(out: &mut Vec<u8>, number: usize) -> Result<(), AllocError>
    ensures { OnOk result (out.new.items ≡ out.old.items ++ case_line number) }
{
    if number > 0 {
        out.extend_from_slice(b"CASE")?;
        push_number(out, number as u64)?;
        out.push(b'\n')?;
    }
    Ok(())
}

// How many cases the split of a node has.
fn count_cases(split: &Option<Split>) -> usize
    ensures { result ≡ length (parts_of split.now) }
{
    match split {
        None => 0,
        Some(cases) => cases.parts.len(),
    }
}

// So many cases wait, the first one last.
fn put_cases(waiting: &mut Vec<usize>, count: usize) -> Result<(), AllocError>
    ensures { OnOk result (waiting.new.items ≡ waiting.old.items ++ numbers_down count) }
{
    for place in 0..count {
        waiting.push(count - place)?;
    }
    Ok(())
}

// The line in front of a case and its lines.
fn push_case(
    out: &mut Vec<u8>,
    names: &Names,
    titles: &[Option<Symbol>],
    terms: &Terms,
    number: usize,
    node: &ProofNode,
) -> Result<(), AllocError>
    requires { NodeIn terms.now node.now }
    ensures { OnOk result (out.new.items ≡ out.old.items ++ (case_line number ++ node_lines names.now titles.now (tree terms.now) node.now)) }
{
    push_case_line(out, number)?;
    push_node(out, names, titles, terms, node)
}

// The lines of nodes, where these cases are still to come, the next one last.
fn push_cases(
    out: &mut Vec<u8>,
    waiting: &mut Vec<usize>,
    names: &Names,
    titles: &[Option<Symbol>],
    terms: &Terms,
    nodes: &[ProofNode],
) -> Result<(), AllocError>
    requires { All (λ n. NodeIn terms.now n) nodes.now }
    ensures { OnOk result (out.new.items ≡ out.old.items ++ cases_lines names.now titles.now (tree terms.now) (reverse waiting.old.items) nodes.now) }
{
    for node in nodes {
        match waiting.pop() {
            None => return Ok(()),
            Some(number) => {
                push_case(out, names, titles, terms, number, node)?;
                put_cases(waiting, count_cases(&node.split))?;
            }
        }
    }
    Ok(())
}

// The root waits: it is no case, and has the number 0.
fn root_waits(alloc: Global) -> Result<Vec<usize>, AllocError>
    ensures { IfOk result (λ v. v.items ≡ 0 ∷ []) }
{
    let mut waiting = Vec::new(alloc);
    waiting.push(0)?;
    Ok(waiting)
}

// The lines of a proof.
#[tactic(auto, using(crate::proofs::verdict_pages::Reach::all_nodes, crate::proofs::verdict_pages::Waiting::from_root))]
pub(crate) fn push_nodes(
    out: &mut Vec<u8>,
    names: &Names,
    titles: &[Option<Symbol>],
    terms: &Terms,
    nodes: &[ProofNode],
) -> Result<(), AllocError>
    requires { NodesIn terms.now nodes.now }
    ensures { OnOk result (out.new.items ≡ out.old.items ++ proof_lines names.now titles.now (tree terms.now) nodes.now) }
{
    let mut waiting = root_waits(*out.allocator())?;
    push_cases(out, &mut waiting, names, titles, terms, nodes)
}

// The limits at which a search gave up.

ghost use Rattle.std.specs.Prelude.{◌≡◌, ◌<◌, ◌++◌, OnOk, codes, decimal, length};
ghost use Rattle.std.specs.List.{count_by};
ghost use Rattle.spv_logic.specs.declared.conditions.TermId.{TermId};
ghost use Rattle.spv_logic.specs.Terms.{Term};
ghost use Rattle.spv_term.specs.Arena.{tree};
ghost use Rattle.spv_listing.specs.printed.Printed.{term_text};
ghost use Rattle.spv_models.specs.split_trees.Trees.{splits};
ghost use Rattle.spv_verdicts.specs.answers.Nodes.{tree_at};
ghost use Rattle.spv_verdicts.specs.answers.Views.{LimitIn, WideIn, limit_in, rounds_in, wide_in};
ghost use Rattle.spv_listing.specs.verdict_pages.Counting.{split_count};
ghost use Rattle.spv_listing.specs.verdict_pages.Counting as counting;
ghost use Rattle.spv_listing.specs.verdict_pages.VerdictLines.{limit_text, operation_text, wide_text};
ghost use Rattle.spv_listing.specs.verdict_pages.VerdictLines as spec;

use crate::printed::{push_decimal, push_fraction, push_term};
use crate::verdict_pages::instances::push_most_instances;
use crate::verdict_pages::tallies::one_if;
use spv_frac::{Frac, Op, law_frac};
use spv_logic::names::{Names, Symbol};
use spv_simplex::Evidence;
use spv_term::{TermId, Terms};
use spv_verdicts::answers::{Limit, Round, SplitNode, SplitTree, Wide};
use std::alloc::AllocError;

// The word for an operation.
fn operation_word(op: Op) -> &'static [u8]
    ensures { result.now ≡ spec.operation_word op }
{
    match op {
        Op::Add => b"ADD",
        Op::Sub => b"SUB",
        Op::Mul => b"MUL",
        Op::Div => b"DIV",
        Op::Cmp => b"CMP",
    }
}

// An operation on two fractions that does not fit.
fn push_operation(out: &mut Vec<u8>, op: Op, left: Frac, right: Frac) -> Result<(), AllocError>
    ensures { OnOk result (out.new.items ≡ out.old.items ++ operation_text op left right) }
{
    out.extend_from_slice(b"NUMBER ")?;
    out.extend_from_slice(operation_word(op))?;
    out.push(b' ')?;
    push_fraction(out, left)?;
    out.push(b' ')?;
    push_fraction(out, right)
}

// The left operand of a check's operation.
#[tactic(auto, using(crate::proofs::verdict_pages::Operands::operand))]
fn left_of(evidence: &Evidence) -> Frac
    ensures { result ≡ evidence.now.operation.left.fraction }
{
    let left = evidence.left();
    law_frac(&left);
    left
}

// The right operand of a check's operation.
#[tactic(auto, using(crate::proofs::verdict_pages::Operands::operand))]
fn right_of(evidence: &Evidence) -> Frac
    ensures { result ≡ evidence.now.operation.right.fraction }
{
    let right = evidence.right();
    law_frac(&right);
    right
}

// The operation of a check.
fn push_check(out: &mut Vec<u8>, evidence: &Evidence) -> Result<(), AllocError>
    ensures { OnOk result (out.new.items ≡ out.old.items ++ operation_text evidence.now.operation.op evidence.now.operation.left.fraction evidence.now.operation.right.fraction) }
{
    push_operation(out, evidence.op(), left_of(evidence), right_of(evidence))
}

// A relation whose forms do not fit.
fn push_form(
    out: &mut Vec<u8>,
    names: &Names,
    titles: &[Option<Symbol>],
    terms: &Terms,
    t: TermId,
) -> Result<(), AllocError>
    requires { t.0 < length terms.now.nodes }
    ensures { OnOk result (out.new.items ≡ out.old.items ++ (codes "NUMBER FORM " ++ term_text names.now titles.now (tree terms.now t))) }
{
    out.extend_from_slice(b"NUMBER FORM ")?;
    push_term(out, names, titles, terms, t)
}

// A number that does not fit.
fn push_wide(
    out: &mut Vec<u8>,
    names: &Names,
    titles: &[Option<Symbol>],
    terms: &Terms,
    wide: &Wide,
) -> Result<(), AllocError>
    requires { WideIn terms.now wide.now }
    ensures { OnOk result (out.new.items ≡ out.old.items ++ wide_text names.now titles.now (wide_in terms.now wide.now)) }
{
    match wide {
        Wide::Form(t) => push_form(out, names, titles, terms, *t),
        Wide::Pivot(evidence) => push_check(out, evidence),
        Wide::Sum(_, op, left, right) => push_operation(out, *op, *left, *right),
        Wide::Value(_, _, op, left, right) => push_operation(out, *op, *left, *right),
    }
}

// Whether a node is a split.
fn is_split(node: &SplitNode) -> bool
    ensures { result ≡ counting.is_split node.now }
{
    matches!(node, SplitNode::Split(_, _))
}

// How many splits there are among nodes.
fn count_splits(nodes: &[SplitNode]) -> usize
    ensures { result ≡ split_count nodes.now }
{
    let mut number = 0;
    for node in nodes {
        number += one_if(is_split(node));
    }
    number
}

// How many splits a tree has.
fn splits_of(kept: &SplitTree) -> usize
    ensures { (at : TermId → Term) → result ≡ splits (tree_at at kept.now) }
{
    let nodes = kept.nodes();
    count_splits(nodes)
}

// A number of splits.
fn push_split_count(out: &mut Vec<u8>, number: u64) -> Result<(), AllocError>
    ensures { OnOk result (out.new.items ≡ out.old.items ++ (codes "SPLITS " ++ decimal number)) }
{
    out.extend_from_slice(b"SPLITS ")?;
    push_decimal(out, number)
}

// The splits of a tree.
fn push_splits(out: &mut Vec<u8>, kept: &SplitTree) -> Result<(), AllocError>
    ensures { (at : TermId → Term) → OnOk result (out.new.items ≡ out.old.items ++ (codes "SPLITS " ++ decimal (splits (tree_at at kept.now)))) }
{
    let number = splits_of(kept);
    push_split_count(out, number as u64)
}

// How many steps a check made.
fn count_steps(evidence: &Evidence) -> usize
    ensures { result ≡ length evidence.now.steps }
{
    evidence.steps().len()
}

// The steps of a check.
fn push_pivots(out: &mut Vec<u8>, evidence: &Evidence) -> Result<(), AllocError>
    ensures { OnOk result (out.new.items ≡ out.old.items ++ (codes "PIVOTS " ++ decimal (length evidence.now.steps))) }
{
    out.extend_from_slice(b"PIVOTS ")?;
    push_decimal(out, count_steps(evidence) as u64)
}

// The terms that there may be.
fn push_most(out: &mut Vec<u8>, number: &u64) -> Result<(), AllocError>
    ensures { OnOk result (out.new.items ≡ out.old.items ++ (codes "TERMS " ++ decimal number.now)) }
{
    out.extend_from_slice(b"TERMS ")?;
    push_decimal(out, *number)
}

// A limit, and how much was done, behind these rounds.
#[tactic(auto, using(crate::proofs::verdict_pages::Splits::split_limit, crate::proofs::verdict_pages::Rounds::instances_limit, crate::proofs::verdict_pages::Rounds::number_limit))]
pub(crate) fn push_limit(
    out: &mut Vec<u8>,
    names: &Names,
    titles: &[Option<Symbol>],
    terms: &Terms,
    rounds: &[Round],
    limit: &Limit,
) -> Result<(), AllocError>
    requires { LimitIn terms.now limit.now }
    ensures { OnOk result (out.new.items ≡ out.old.items ++ limit_text names.now titles.now (rounds_in terms.now rounds.now) (limit_in terms.now limit.now)) }
{
    match limit {
        Limit::Splits(kept) => push_splits(out, kept),
        Limit::Instances => push_most_instances(out, rounds),
        Limit::Number(wide) => push_wide(out, names, titles, terms, wide),
        Limit::Pivots(evidence) => push_pivots(out, evidence),
        Limit::Terms(number) => push_most(out, number),
    }
}

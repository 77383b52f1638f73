// The lines of conditions and verdicts. Each function adds text at the end of `out`, or answers for want of memory.

ghost use Rattle.std.specs.Prelude.{◌≡◌, ◌++◌, ◌<◌, All, length, map, OnOk};
ghost use Rattle.spv_listing_values.specs.Written.{line_bytes};
ghost use Rattle.spv_listing_values.specs.Lines.{heading, given_line, goal_line, branch_line, instance_line, value_line, limit_items, limit_line, split_line};
ghost use Rattle.spv_listing_values.specs.Lines as spec;
ghost use Rattle.spv_listing_values.specs.Page.{case_lines};
ghost use Rattle.spv_listing_values.specs.Blanks.{blanks, lines_bytes};
ghost use Rattle.spv_listing_values.specs.Mapped.{instance_at, limit_at, limit_terms, row_at};
ghost use Rattle.spv_listing_values.specs.Places.{tree};
ghost use Rattle.spv_listing_values.specs.Waiting.{AreIn};

use crate::data::{Header, Instance, Limit, Split};
use crate::lines::{push_fact, push_texts};
use crate::push::{push_fraction, push_number, push_text, push_word};
use crate::texts::{Text, Texts};
use spv_frac::{Frac, Op};
use spv_logic::Kind;
use std::alloc::AllocError;

fn kind_word(kind: Kind) -> &'static [u8]
    ensures { result.now ≡ spec.kind_word kind }
{
    match kind {
        Kind::Exit => b"EXIT",
        Kind::Assert => b"ASSERT",
        Kind::Invariant => b"INVARIANT",
        Kind::Preserved => b"PRESERVED",
        Kind::Entry => b"ENTRY",
    }
}

// The heading of the condition of this number.
pub(crate) fn push_heading(
    out: &mut Vec<u8>,
    number: u64,
    header: &Header,
) -> Result<(), AllocError>
    ensures { OnOk result (out.new.items ≡ out.old.items ++ line_bytes (heading number header.now)) }
{
    out.extend_from_slice(b"CONDITION")?;
    push_number(out, number)?;
    push_word(out, header.routine.as_slice())?;
    push_word(out, kind_word(header.kind))?;
    out.extend_from_slice(b" LINE")?;
    push_fact(out, &header.line)?;
    out.push(b'\n')?;
    Ok(())
}

// A hypothesis.
fn push_given(out: &mut Vec<u8>, texts: &Texts, t: Text) -> Result<(), AllocError>
    requires { t.0 < length texts.now }
    ensures { OnOk result (out.new.items ≡ out.old.items ++ line_bytes (given_line (tree texts.now t))) }
{
    out.extend_from_slice(b"GIVEN")?;
    push_text(out, texts, t)?;
    out.push(b'\n')?;
    Ok(())
}

// Hypotheses.
pub(crate) fn push_givens(out: &mut Vec<u8>, texts: &Texts, ts: &[Text]) -> Result<(), AllocError>
    requires { All (λ t. t.0 < length texts.now) ts.now }
    ensures { OnOk result (out.new.items ≡ out.old.items ++ lines_bytes (map given_line (map (tree texts.now) ts.now))) }
{
    for t in ts {
        push_given(out, texts, *t)?;
    }
    Ok(())
}

// The goal.
pub(crate) fn push_goal(out: &mut Vec<u8>, texts: &Texts, t: Text) -> Result<(), AllocError>
    requires { t.0 < length texts.now }
    ensures { OnOk result (out.new.items ≡ out.old.items ++ line_bytes (goal_line (tree texts.now t))) }
{
    out.extend_from_slice(b"GOAL")?;
    push_text(out, texts, t)?;
    out.push(b'\n')?;
    Ok(())
}

// ---- a table

fn push_branch(out: &mut Vec<u8>, texts: &Texts, t: Text) -> Result<(), AllocError>
    requires { t.0 < length texts.now }
    ensures { OnOk result (out.new.items ≡ out.old.items ++ line_bytes (branch_line (tree texts.now t))) }
{
    out.extend_from_slice(b"BRANCH")?;
    push_text(out, texts, t)?;
    out.push(b'\n')?;
    Ok(())
}

pub(crate) fn push_branches(out: &mut Vec<u8>, texts: &Texts, ts: &[Text]) -> Result<(), AllocError>
    requires { All (λ t. t.0 < length texts.now) ts.now }
    ensures { OnOk result (out.new.items ≡ out.old.items ++ lines_bytes (map branch_line (map (tree texts.now) ts.now))) }
{
    for t in ts {
        push_branch(out, texts, *t)?;
    }
    Ok(())
}

#[tactic(auto, using(crate::proofs::Blanks::line_is))]
pub(crate) fn push_instance(
    out: &mut Vec<u8>,
    texts: &Texts,
    instance: &Instance<Text>,
) -> Result<(), AllocError>
    requires { All (λ t. t.0 < length texts.now) instance.now.values }
    ensures { OnOk result (out.new.items ≡ out.old.items ++ line_bytes (instance_line (instance_at (tree texts.now) instance.now))) }
{
    out.extend_from_slice(b"INSTANCE")?;
    push_fact(out, &instance.rule)?;
    push_texts(out, texts, instance.values.as_slice())?;
    out.push(b'\n')?;
    Ok(())
}

pub(crate) fn push_row(
    out: &mut Vec<u8>,
    texts: &Texts,
    row: &(Text, Frac),
) -> Result<(), AllocError>
    requires { row.now.0.0 < length texts.now }
    ensures { OnOk result (out.new.items ≡ out.old.items ++ line_bytes (value_line (row_at (tree texts.now) row.now))) }
{
    out.extend_from_slice(b"VALUE")?;
    push_text(out, texts, row.0)?;
    push_fraction(out, row.1)?;
    out.push(b'\n')?;
    Ok(())
}

// ---- limits

fn operation_word(op: Op) -> &'static [u8]
    ensures { result.now ≡ spec.operation_word op }
{
    match op {
        Op::Add => b"ADD",
        Op::Sub => b"SUB",
        Op::Mul => b"MUL",
        Op::Div => b"DIV",
        Op::Cmp => b"CMP",
    }
}

// What a limit says, behind a blank.
fn push_limit_items(out: &mut Vec<u8>, texts: &Texts, limit: &Limit<Text>) -> Result<(), AllocError>
    requires { AreIn texts.now (limit_terms limit.now) }
    ensures { OnOk result (out.new.items ≡ out.old.items ++ blanks (limit_items (limit_at (tree texts.now) limit.now))) }
{
    match limit {
        Limit::Splits(n) => {
            out.extend_from_slice(b" SPLITS")?;
            push_number(out, *n)
        }
        Limit::Instances(n) => {
            out.extend_from_slice(b" INSTANCES")?;
            push_number(out, *n)
        }
        Limit::Pivots(n) => {
            out.extend_from_slice(b" PIVOTS")?;
            push_number(out, *n)
        }
        Limit::Terms => {
            out.extend_from_slice(b" TERMS")?;
            push_number(out, 1000000)
        }
        Limit::Form(t) => {
            out.extend_from_slice(b" NUMBER FORM")?;
            push_text(out, texts, *t)
        }
        Limit::Wide(op, left, right) => {
            out.extend_from_slice(b" NUMBER")?;
            push_word(out, operation_word(*op))?;
            push_fraction(out, *left)?;
            push_fraction(out, *right)
        }
    }
}

#[tactic(auto, using(crate::proofs::Blanks::line_is))]
pub(crate) fn push_limit(
    out: &mut Vec<u8>,
    texts: &Texts,
    limit: &Limit<Text>,
) -> Result<(), AllocError>
    requires { AreIn texts.now (limit_terms limit.now) }
    ensures { OnOk result (out.new.items ≡ out.old.items ++ line_bytes (limit_line (limit_at (tree texts.now) limit.now))) }
{
    out.extend_from_slice(b"GAVE UP")?;
    push_limit_items(out, texts, limit)?;
    out.push(b'\n')?;
    Ok(())
}

// ---- proofs

pub(crate) fn push_split(
    out: &mut Vec<u8>,
    texts: &Texts,
    split: &Split<Text>,
) -> Result<(), AllocError>
    requires { split.now.atom.0 < length texts.now }
    ensures { OnOk result (out.new.items ≡ out.old.items ++ line_bytes (split_line split.now.cases (tree texts.now split.now.atom))) }
{
    out.extend_from_slice(b"SPLIT")?;
    push_fact(out, &split.cases)?;
    push_text(out, texts, split.atom)?;
    out.push(b'\n')?;
    Ok(())
}

pub(crate) fn push_case(out: &mut Vec<u8>, number: u32) -> Result<(), AllocError>
    ensures { OnOk result (out.new.items ≡ out.old.items ++ lines_bytes (case_lines number)) }
{
    if number > 0 {
        out.extend_from_slice(b"CASE")?;
        push_number(out, u64::from(number))?;
        out.push(b'\n')?;
    }
    Ok(())
}

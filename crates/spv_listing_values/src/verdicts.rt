// Verdicts with what shows them, and conditions.

ghost use Rattle.std.specs.Prelude.{◌≡◌, ◌<◌, ◌++◌, All, OnOk, length, map};
ghost use Rattle.spv_listing_values.specs.Lines.{instance_line, value_line};
ghost use Rattle.spv_listing_values.specs.Page.{verdict_lines, claim_lines};
ghost use Rattle.spv_listing_values.specs.Blanks.{lines_bytes};
ghost use Rattle.spv_listing_values.specs.Mapped.{instance_at, row_at, verdict_at, claim_at};
ghost use Rattle.spv_listing_values.specs.Places.{tree};
ghost use Rattle.spv_listing_values.specs.Waiting.{VerdictIn, ClaimIn};

use crate::claims::{
    push_branches, push_givens, push_goal, push_heading, push_instance, push_limit, push_row,
};
use crate::data::{Claim, Instance, Verdict};
use crate::nodes::push_nodes;
use crate::texts::{Text, Texts};
use spv_frac::Frac;
use std::alloc::AllocError;

// Instances of rules.
fn push_instances(
    out: &mut Vec<u8>,
    texts: &Texts,
    instances: &[Instance<Text>],
) -> Result<(), AllocError>
    requires { All (λ i. All (λ t. t.0 < length texts.now) i.values) instances.now }
    ensures { OnOk result (out.new.items ≡ out.old.items ++ lines_bytes (map instance_line (map (instance_at (tree texts.now)) instances.now))) }
{
    for instance in instances {
        push_instance(out, texts, instance)?;
    }
    Ok(())
}

// Terms with their numbers.
fn push_rows(out: &mut Vec<u8>, texts: &Texts, rows: &[(Text, Frac)]) -> Result<(), AllocError>
    requires { All (λ row. row.0.0 < length texts.now) rows.now }
    ensures { OnOk result (out.new.items ≡ out.old.items ++ lines_bytes (map value_line (map (row_at (tree texts.now)) rows.now))) }
{
    for row in rows {
        push_row(out, texts, row)?;
    }
    Ok(())
}

// A verdict, and what shows it.
fn push_verdict(out: &mut Vec<u8>, texts: &Texts, verdict: &Verdict<Text>) -> Result<(), AllocError>
    requires { VerdictIn texts.now verdict.now }
    ensures { OnOk result (out.new.items ≡ out.old.items ++ lines_bytes (verdict_lines (verdict_at (tree texts.now) verdict.now))) }
{
    match verdict {
        Verdict::Proved(nodes) => {
            out.extend_from_slice(b"PROVED\n")?;
            push_nodes(out, texts, nodes.as_slice())
        }
        Verdict::Unproved(branch, instances, table) => {
            out.extend_from_slice(b"UNPROVED\n")?;
            push_branches(out, texts, branch.as_slice())?;
            push_instances(out, texts, instances.as_slice())?;
            push_rows(out, texts, table.as_slice())
        }
        Verdict::GaveUp(limit) => push_limit(out, texts, limit),
    }
}

// A condition: its heading, its hypotheses, its goal and its verdict.
pub(crate) fn push_claim(
    out: &mut Vec<u8>,
    texts: &Texts,
    number: u64,
    claim: &Claim<Text>,
) -> Result<(), AllocError>
    requires { ClaimIn texts.now claim.now }
    ensures { OnOk result (out.new.items ≡ out.old.items ++ lines_bytes (claim_lines number (claim_at (tree texts.now) claim.now))) }
{
    push_heading(out, number, &claim.header)?;
    push_givens(out, texts, claim.given.as_slice())?;
    push_goal(out, texts, claim.goal)?;
    push_verdict(out, texts, &claim.verdict)
}

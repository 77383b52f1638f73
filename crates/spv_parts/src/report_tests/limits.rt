//! Worked searches within limits.

use spv_reports::{Decided, Limit, Limits, Report, Verdict, all_proved, none_fails};
use spv_verdicts::answers::SplitNode;
use spv_verify::refused::VerifyFault;
use spv_verify::verify;
use std::alloc::Global;
use std::test::Fail;

// The report of a text where no search may split.
fn unsplit(alloc: Global, text: &[u8]) -> Result<Report, VerifyFault> {
    verify(alloc, text, None, Limits::new(0, 400, 5000))
}

// Whether a search gave up where no split was left, with one node, which is open.
fn is_one_open_node(decided: &Decided) -> bool {
    let Verdict::GaveUp(_, Limit::Splits(tree)) = &decided.verdict else {
        return false;
    };
    matches!(tree.nodes(), [SplitNode::Open])
}

// Whether a search gave up at the first step of a check.
fn has_no_step(decided: &Decided) -> bool {
    let Verdict::GaveUp(_, Limit::Pivots(evidence)) = &decided.verdict else {
        return false;
    };
    evidence.steps().is_empty()
}

#[test]
fn a_choice_wants_a_split(rt: HostRuntime) -> Result<(), Fail> {
    let report = unsplit(
        rt.alloc(),
        b"PROGRAM shared; VAR x, y: INTEGER; DECLARE F(INTEGER): INTEGER;\nENTRY (x = 1) OR (x = 2); EXIT x <= 2; BEGIN END.",
    )?;
    assert!(rt; matches!(report.verdicts(), [decided] if is_one_open_node(decided)));
    assert!(rt; none_fails(report.mode(), report.verdicts()));
    Ok(())
}

#[test]
fn shared_equalities_want_no_split(rt: HostRuntime) -> Result<(), Fail> {
    let report = unsplit(
        rt.alloc(),
        b"PROGRAM shared; VAR x, y: INTEGER; DECLARE F(INTEGER): INTEGER;\nENTRY (x <= y) AND (y <= x); EXIT F(x) = F(y); BEGIN END.",
    )?;
    assert!(rt; all_proved(report.verdicts()));
    Ok(())
}

#[test]
fn equalities_of_whole_numbers_want_no_split(rt: HostRuntime) -> Result<(), Fail> {
    let report = unsplit(
        rt.alloc(),
        b"PROGRAM shared; VAR x, y: INTEGER; DECLARE F(INTEGER): INTEGER;\nENTRY (x <= y) AND (2 * y <= 2 * x + 1); EXIT F(x) = F(y); BEGIN END.",
    )?;
    assert!(rt; all_proved(report.verdicts()));
    Ok(())
}

#[test]
fn a_check_without_steps(rt: HostRuntime) -> Result<(), Fail> {
    let report = verify(
        rt.alloc(),
        b"PROGRAM v; VAR x, y: INTEGER; ENTRY x + y >= 1; EXIT FALSE; BEGIN END.",
        None,
        Limits::new(20000, 400, 0),
    )?;
    assert!(rt; matches!(report.verdicts(), [decided] if has_no_step(decided)));
    Ok(())
}

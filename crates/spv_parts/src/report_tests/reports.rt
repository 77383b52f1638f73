//! What a report holds.

use spv_reports::{
    Decided, Load, Mode, Report, Verdict, all_proved, default_limits, is_proved, is_unproved,
    law_report,
};
use spv_term::{Kind, PlainWorld};
use spv_verify::{VerifyFault, list, report_of, verify};
use std::alloc::{AllocError, Global};
use std::test::Fail;

// Whether a report holds the three names of its text, and its EXIT on line 3 as a condition.
fn holds_its_parts(report: &Report) -> bool {
    let [condition] = report.conditions() else {
        return false;
    };
    let origin = condition.origin;
    let given = condition.given.len();
    matches!(
        (origin.kind, origin.line, origin.routine),
        (Kind::Exit, 3, None)
    ) && (given, report.named().names.len()) == (0, 3)
}

// The law of a report.
fn is_correct_if_proved(report: &Report) {
    law_report(report, &PlainWorld);
}

#[test]
fn an_assigned_variable(rt: HostRuntime) -> Result<(), Fail> {
    let report = verify(
        rt.alloc(),
        b"PROGRAM one;\nVAR x: INTEGER;\nEXIT x = 1;\nBEGIN x := 1 END.",
        None,
        default_limits(),
    )?;
    is_correct_if_proved(&report);
    assert!(rt; holds_its_parts(&report));
    assert!(rt; matches!(report.verdicts(), [decided] if is_proved(&decided.verdict)));
    Ok(())
}

// Whether a table falsifies a condition, where the one atom is false.
fn has_one_false_atom(decided: &Decided) -> bool {
    let Verdict::Unproved(unproved) = &decided.verdict else {
        return false;
    };
    matches!(unproved.branch.as_slice(), [(_, false)])
}

#[test]
fn a_variable_that_is_not_set(rt: HostRuntime) -> Result<(), Fail> {
    let report = verify(
        rt.alloc(),
        b"PROGRAM one; VAR x: INTEGER; EXIT x = 1; BEGIN END.",
        None,
        default_limits(),
    )?;
    assert!(rt; matches!(report.verdicts(), [decided] if has_one_false_atom(decided)));
    assert!(rt; matches!(report.verdicts(), [decided] if is_unproved(&decided.verdict)));
    Ok(())
}

#[test]
fn no_claim(rt: HostRuntime) -> Result<(), Fail> {
    let report = verify(
        rt.alloc(),
        b"PROGRAM one; BEGIN END.",
        None,
        default_limits(),
    )?;
    assert!(rt; report.conditions().is_empty());
    assert!(rt; all_proved(report.verdicts()));
    Ok(())
}

#[test]
fn conditions_alone(rt: HostRuntime) -> Result<(), Fail> {
    let report = list(
        rt.alloc(),
        b"PROGRAM one; VAR x: INTEGER; EXIT x < 1; BEGIN END.",
    )?;
    assert!(rt; report.verdicts().is_empty());
    assert_eq!(rt; report.conditions().len(), 1);
    Ok(())
}

// A program that doubles a variable so many times.
fn doubling(alloc: Global, times: usize) -> Result<Vec<u8>, AllocError> {
    let mut text = Vec::new(alloc);
    text.extend_from_slice(b"PROGRAM twice; VAR x: INTEGER; ENTRY x = 0; EXIT x = 0; BEGIN\n")?;
    for _ in 0..times {
        text.extend_from_slice(b"x := x + x;\n")?;
    }
    text.extend_from_slice(b"END.")?;
    Ok(text)
}

// The report of a text whose page counts the conditions and prints none.
fn counted(alloc: Global, text: &[u8]) -> Result<Report, VerifyFault> {
    let load = Load { number: 1, size: 1 };
    report_of(alloc, text, None, None, Mode::Drill(load, default_limits()))
}

#[test]
fn a_shared_term_is_one(rt: HostRuntime) -> Result<(), Fail> {
    let text = doubling(rt.alloc(), 40)?;
    let report = counted(rt.alloc(), text.as_slice())?;
    assert!(rt; report.terms().len() <= 200);
    assert!(rt; all_proved(report.verdicts()));
    Ok(())
}

// Whether the conditions of a text are not decided, since no memory holds a page that prints them.
fn has_no_page(alloc: Global, text: &[u8]) -> bool {
    matches!(
        verify(alloc, text, None, default_limits()),
        Err(VerifyFault::Memory)
    )
}

// Doubled 29 times, the goal has 3 GiB where it is printed, and doubled once more 6 GiB.
#[test]
fn what_no_page_holds_is_not_decided(rt: HostRuntime) -> Result<(), Fail> {
    let most = doubling(rt.alloc(), 29)?;
    let report = verify(rt.alloc(), most.as_slice(), None, default_limits())?;
    assert!(rt; all_proved(report.verdicts()));
    let more = doubling(rt.alloc(), 30)?;
    assert!(rt; has_no_page(rt.alloc(), more.as_slice()));
    assert_eq!(rt; list(rt.alloc(), more.as_slice())?.conditions().len(), 1);
    Ok(())
}

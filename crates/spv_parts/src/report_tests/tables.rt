//! Tables whose numbers are a free choice, but for what the condition asks of them.

use spv_frac::Frac;
use spv_reports::{Decided, Verdict, default_limits};
use spv_term::TermId;
use spv_verify::verify;
use std::cmp::Ordering;
use std::test::Fail;

// The terms of the table that falsifies a condition, with their numbers.
fn table_of(decided: &Decided) -> &[(TermId, Frac)] {
    match &decided.verdict {
        Verdict::Unproved(unproved) => unproved.table.values.as_slice(),
        _ => &[],
    }
}

// Whether two numbers are at least 1 together.
fn are_positive(x: Frac, y: Frac) -> bool {
    let Ok(sum) = x.add(y) else {
        return false;
    };
    matches!(
        sum.cmp(Frac::whole(1)),
        Ok(Ordering::Greater | Ordering::Equal)
    )
}

// Whether a table has two numbers that are at least 1 together.
fn has_positive_sum(decided: &Decided) -> bool {
    matches!(table_of(decided), [(_, x), (_, y)] if are_positive(*x, *y))
}

#[test]
fn a_sum_is_positive(rt: HostRuntime) -> Result<(), Fail> {
    let report = verify(
        rt.alloc(),
        b"PROGRAM v; VAR x, y: INTEGER; ENTRY x + y >= 1; EXIT FALSE; BEGIN END.",
        None,
        default_limits(),
    )?;
    assert!(rt; matches!(report.verdicts(), [decided] if has_positive_sum(decided)));
    Ok(())
}

// Whether of four numbers some two are the same and the others are not.
fn is_not_injective(decided: &Decided) -> bool {
    let [(_, x), (_, fx), (_, y), (_, fy)] = table_of(decided) else {
        return false;
    };
    *x != *y && *fx == *fy
}

#[test]
fn a_symbol_need_not_be_injective(rt: HostRuntime) -> Result<(), Fail> {
    let report = verify(
        rt.alloc(),
        b"PROGRAM d; VAR x, y: INTEGER; DECLARE F(INTEGER): INTEGER; ENTRY F(x) = F(y); EXIT x = y; BEGIN END.",
        None,
        default_limits(),
    )?;
    assert!(rt; matches!(report.verdicts(), [decided] if is_not_injective(decided)));
    Ok(())
}

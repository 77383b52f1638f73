// The last lines of a page of verdicts.

ghost use Rattle.std.specs.Prelude.{◌≡◌, ◌++◌, OnOk};
ghost use Rattle.std.specs.List.{count_by};
ghost use Rattle.spv_listing.specs.printed.Printed.{line};
ghost use Rattle.spv_listing.specs.verdict_pages.Totals as spec;
ghost use Rattle.spv_listing.specs.verdict_pages.Totals.{counted, counts_line, result_text, last_lines, total_lines, checked_total_lines};

use crate::printed::push_decimal;
use crate::verdict_pages::tallies::one_if;
use spv_verdicts::answers::{Decided, Verdict};
use std::alloc::AllocError;

// Whether a verdict is Proved.
fn is_proved(decided: &Decided) -> bool
    ensures { result ≡ spec.is_proved decided.now }
{
    matches!(&decided.verdict, Verdict::Proved(_))
}

// How many verdicts are Proved.
fn count_proved(verdicts: &[Decided]) -> usize
    ensures { result ≡ count_by spec.is_proved verdicts.now }
{
    let mut number = 0;
    for decided in verdicts {
        number += one_if(is_proved(decided));
    }
    number
}

// Whether a verdict is Unproved.
fn is_unproved(decided: &Decided) -> bool
    ensures { result ≡ spec.is_unproved decided.now }
{
    matches!(&decided.verdict, Verdict::Unproved(_))
}

// How many verdicts are Unproved.
fn count_unproved(verdicts: &[Decided]) -> usize
    ensures { result ≡ count_by spec.is_unproved verdicts.now }
{
    let mut number = 0;
    for decided in verdicts {
        number += one_if(is_unproved(decided));
    }
    number
}

// Whether a verdict is NotAccepted.
fn is_not_accepted(decided: &Decided) -> bool
    ensures { result ≡ spec.is_not_accepted decided.now }
{
    matches!(&decided.verdict, Verdict::NotAccepted)
}

// How many verdicts are NotAccepted.
fn count_not_accepted(verdicts: &[Decided]) -> usize
    ensures { result ≡ count_by spec.is_not_accepted verdicts.now }
{
    let mut number = 0;
    for decided in verdicts {
        number += one_if(is_not_accepted(decided));
    }
    number
}

// Whether a verdict is GaveUp.
fn is_given_up(decided: &Decided) -> bool
    ensures { result ≡ spec.is_given_up decided.now }
{
    matches!(&decided.verdict, Verdict::GaveUp(_, _))
}

// How many verdicts are GaveUp.
fn count_given_up(verdicts: &[Decided]) -> usize
    ensures { result ≡ count_by spec.is_given_up verdicts.now }
{
    let mut number = 0;
    for decided in verdicts {
        number += one_if(is_given_up(decided));
    }
    number
}

// A number, and behind it what it counts.
fn push_counted(out: &mut Vec<u8>, number: u64, word: &[u8]) -> Result<(), AllocError>
    ensures { OnOk result (out.new.items ≡ out.old.items ++ counted number word.now) }
{
    out.extend_from_slice(b" ")?;
    push_decimal(out, number)?;
    out.extend_from_slice(b" ")?;
    out.extend_from_slice(word)?;
    Ok(())
}

// The line of these counts, where this is the word for a verdict that fails.
fn push_counts(
    out: &mut Vec<u8>,
    word: &[u8],
    proved: u64,
    failed: u64,
    given_up: u64,
) -> Result<(), AllocError>
    ensures { OnOk result (out.new.items ≡ out.old.items ++ counts_line word.now proved failed given_up) }
{
    out.extend_from_slice(b"TOTAL")?;
    push_counted(out, proved, b"PROVED")?;
    push_counted(out, failed, word)?;
    push_counted(out, given_up, b"GAVE UP")?;
    out.push(b'\n')?;
    Ok(())
}

// The line of the result: this word where some verdict fails.
fn push_result(out: &mut Vec<u8>, word: &[u8], failed: u64, given_up: u64) -> Result<(), AllocError>
    ensures { OnOk result (out.new.items ≡ out.old.items ++ line (result_text word.now failed given_up)) }
{
    if failed > 0 {
        out.extend_from_slice(b"RESULT ")?;
        out.extend_from_slice(word)?;
        out.extend_from_slice(b"\n")?;
    } else if given_up > 0 {
        out.extend_from_slice(b"RESULT GAVE UP\n")?;
    } else {
        out.extend_from_slice(b"RESULT PROVED\n")?;
    }
    Ok(())
}

// The last lines of a page with so many verdicts of each kind.
fn push_last(
    out: &mut Vec<u8>,
    word: &[u8],
    proved: u64,
    failed: u64,
    given_up: u64,
) -> Result<(), AllocError>
    ensures { OnOk result (out.new.items ≡ out.old.items ++ last_lines word.now proved failed given_up) }
{
    push_counts(out, word, proved, failed, given_up)?;
    push_result(out, word, failed, given_up)
}

/// Adds the last lines of a page of verdicts: how many of each kind there are, and the result, which is `UNPROVED` where some verdict is,
/// else `GAVE UP` where some verdict is, else `PROVED`.
pub fn push_totals(out: &mut Vec<u8>, verdicts: &[Decided]) -> Result<(), AllocError>
    ensures lines { OnOk result (out.new.items ≡ out.old.items ++ total_lines verdicts.now) }
{
    let proved = count_proved(verdicts) as u64;
    let unproved = count_unproved(verdicts) as u64;
    let given_up = count_given_up(verdicts) as u64;
    push_last(out, b"UNPROVED", proved, unproved, given_up)
}

/// Adds the last lines of a page of verdicts on proofs that were checked: how many of each kind there are, and the result, which is
/// `NOT ACCEPTED` where some verdict is, else `GAVE UP` where some verdict is, else `PROVED`.
pub fn push_checked_totals(out: &mut Vec<u8>, verdicts: &[Decided]) -> Result<(), AllocError>
    ensures lines { OnOk result (out.new.items ≡ out.old.items ++ checked_total_lines verdicts.now) }
{
    let proved = count_proved(verdicts) as u64;
    let refused = count_not_accepted(verdicts) as u64;
    let given_up = count_given_up(verdicts) as u64;
    push_last(out, b"NOT ACCEPTED", proved, refused, given_up)
}

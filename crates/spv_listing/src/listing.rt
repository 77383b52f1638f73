// The page of a report, line by line.

ghost use Rattle.std.specs.Prelude.{◌≡◌, ◌<◌, ◌++◌, map, length, IfOk, IsTrue, OnOk};
ghost use Rattle.std.specs.List.{flat_map};
ghost use Rattle.spv_assign.specs.Conditions.{AreIn, IsIn, condition_of, conditions_of};
ghost use Rattle.spv_verdicts.specs.answers.Views.{VerdictIn};
ghost use Rattle.spv_reports.specs.Reports.{has_verdicts};
ghost use Rattle.spv_listing.specs.printed.Printed.{line};
ghost use Rattle.spv_listing.specs.Page as spec;
ghost use Rattle.spv_listing.specs.Page.{heading, given_line, goal_line, claim_lines, condition_lines, blocks, checked_line, checked_lines, claims, count, listing_of, AreDecided};
ghost use Rattle.spv_term.specs.Arena.{AllBelow, tree};

use crate::lengths::{are_lines_too_long, is_too_long};
use crate::printed::{push_decimal, push_term};
use crate::verdict_pages::{push_checked_totals, push_totals, push_verdict};
use spv_reports::{Load, Mode, ProgramNames, Report, routine_name};
use spv_term::{Condition, Kind, Origin, TermId, Terms};
use spv_verdicts::answers::Decided;
use std::alloc::{AllocError, Global};

/// The page of a report: a heading, each condition with its hypotheses and its goal, in the modes `Verify` and `Simplify` with its
/// verdict, and the totals; in the mode `Check` a line for each condition, with its verdict; in the mode `Drill` the number of conditions
/// stands in their place. Each line ends with byte 10. Memory: there was not enough of it, or the page would have more than 4 GiB.
pub fn page(alloc: Global, report: &Report) -> Result<Vec<u8>, AllocError>
    ensures { IfOk result (λ p. p.items ≡ spec.page report.now) }
{
    report.law_findings();
    match report.mode() {
        Mode::Verify(_) => listing(alloc, report),
        Mode::Simplify(_) => listing(alloc, report),
        Mode::Check => checked(alloc, report),
        Mode::Drill(load, _) => drill_page(
            alloc,
            *load,
            report.conditions().len() as u64,
            report.verdicts(),
        ),
        Mode::Conditions => claims_of(alloc, report),
    }
}

// The page of a report of conditions alone.
fn claims_of(alloc: Global, report: &Report) -> Result<Vec<u8>, AllocError>
    ensures { IfOk result (λ p. p.items ≡ spec.conditions_page report.now.named report.now.arena report.now.conditions) }
{
    report.law_findings();
    if is_too_long(alloc, report)? {
        return Err(AllocError);
    }
    conditions_page(alloc, report.named(), report.terms(), report.conditions())
}

// The page of a report that has verdicts.
fn listing(alloc: Global, report: &Report) -> Result<Vec<u8>, AllocError>
    requires { IsTrue (has_verdicts report.now.mode) }
    ensures { IfOk result (λ p. p.items ≡ listing_of report.now) }
{
    report.law_findings();
    if is_too_long(alloc, report)? {
        return Err(AllocError);
    }
    verdicts_page(
        alloc,
        report.named(),
        report.terms(),
        report.conditions(),
        report.verdicts(),
        report.proofs(),
    )
}

// The page of a report of proofs that were checked.
fn checked(alloc: Global, report: &Report) -> Result<Vec<u8>, AllocError>
    requires { IsTrue (has_verdicts report.now.mode) }
    ensures { IfOk result (λ p. p.items ≡ spec.checked_page report.now.named report.now.conditions report.now.verdicts) }
{
    report.law_findings();
    if are_lines_too_long(alloc, report)? {
        return Err(AllocError);
    }
    checked_page(
        alloc,
        report.named(),
        report.conditions(),
        report.verdicts(),
    )
}

// The page of conditions with their verdicts.
fn verdicts_page(
    alloc: Global,
    named: &ProgramNames,
    terms: &Terms,
    conditions: &[Condition],
    verdicts: &[Decided],
    proofs: bool,
) -> Result<Vec<u8>, AllocError>
    requires in_range { AreIn terms.now conditions.now }
    requires verdicts { AreDecided conditions.now verdicts.now }
    ensures { IfOk result (λ p. p.items ≡ spec.verdicts_page proofs named.now terms.now conditions.now verdicts.now) }
{
    let mut out = Vec::from_slice(alloc, b"SPV LISTING 1\n")?;
    push_blocks(&mut out, named, terms, conditions, verdicts, proofs)?;
    push_totals(&mut out, verdicts)?;
    Ok(out)
}

// The page of conditions whose proofs were checked.
fn checked_page(
    alloc: Global,
    named: &ProgramNames,
    conditions: &[Condition],
    verdicts: &[Decided],
) -> Result<Vec<u8>, AllocError>
    requires { AreDecided conditions.now verdicts.now }
    ensures { IfOk result (λ p. p.items ≡ spec.checked_page named.now conditions.now verdicts.now) }
{
    let mut out = Vec::from_slice(alloc, b"SPV CHECK 1\n")?;
    push_checked_lines(&mut out, named, conditions, verdicts)?;
    push_checked_totals(&mut out, verdicts)?;
    Ok(out)
}

// The page of conditions alone.
fn conditions_page(
    alloc: Global,
    named: &ProgramNames,
    terms: &Terms,
    conditions: &[Condition],
) -> Result<Vec<u8>, AllocError>
    requires in_range { AreIn terms.now conditions.now }
    ensures { IfOk result (λ p. p.items ≡ spec.conditions_page named.now terms.now conditions.now) }
{
    let mut out = Vec::from_slice(alloc, b"SPV CONDITIONS 1\n")?;
    push_claims(&mut out, named, terms, conditions)?;
    push_count(&mut out, conditions.len() as u64)?;
    Ok(out)
}

// The page of a generated program, with so many conditions.
fn drill_page(
    alloc: Global,
    load: Load,
    conditions: u64,
    verdicts: &[Decided],
) -> Result<Vec<u8>, AllocError>
    ensures { IfOk result (λ p. p.items ≡ spec.drill_page load conditions verdicts.now) }
{
    let mut out = Vec::from_slice(alloc, b"SPV DRILL 1\n")?;
    push_load(&mut out, load)?;
    out.extend_from_slice(b"CONDITIONS ")?;
    push_decimal(&mut out, conditions)?;
    out.extend_from_slice(b"\n")?;
    push_totals(&mut out, verdicts)?;
    Ok(out)
}

// The line that tells which program was generated.
fn push_load(out: &mut Vec<u8>, load: Load) -> Result<(), AllocError>
    ensures { OnOk result (out.new.items ≡ out.old.items ++ spec.load_line load) }
{
    out.extend_from_slice(b"NUMBER ")?;
    push_decimal(out, load.number)?;
    out.extend_from_slice(b" SIZE ")?;
    push_decimal(out, load.size as u64)?;
    out.extend_from_slice(b"\n")?;
    Ok(())
}

// Each condition, numbered from 1.
fn push_claims(
    out: &mut Vec<u8>,
    named: &ProgramNames,
    terms: &Terms,
    conditions: &[Condition],
) -> Result<(), AllocError>
    requires { AreIn terms.now conditions.now }
    ensures { OnOk result (out.new.items ≡ out.old.items ++ claims named.now 1 (conditions_of terms.now conditions.now)) }
{
    for place in 0..conditions.len() {
        let number = place as u64 + 1;
        push_claim(out, named, terms, number, &conditions[place])?;
    }
    Ok(())
}

// The line that tells how many conditions there are.
fn push_count(out: &mut Vec<u8>, number: u64) -> Result<(), AllocError>
    ensures { OnOk result (out.new.items ≡ out.old.items ++ count number) }
{
    out.extend_from_slice(b"TOTAL ")?;
    push_decimal(out, number)?;
    out.extend_from_slice(b"\n")?;
    Ok(())
}

// Each condition with its verdict, numbered from 1.
fn push_blocks(
    out: &mut Vec<u8>,
    named: &ProgramNames,
    terms: &Terms,
    conditions: &[Condition],
    verdicts: &[Decided],
    proofs: bool,
) -> Result<(), AllocError>
    requires in_range { AreIn terms.now conditions.now }
    requires verdicts { AreDecided conditions.now verdicts.now }
    ensures { OnOk result (out.new.items ≡ out.old.items ++ blocks proofs named.now 1 (conditions_of terms.now conditions.now) verdicts.now) }
{
    for place in 0..conditions.len() {
        let number = place as u64 + 1;
        push_condition(
            out,
            named,
            terms,
            number,
            &conditions[place],
            &verdicts[place],
            proofs,
        )?;
    }
    Ok(())
}

// A condition with its verdict.
fn push_condition(
    out: &mut Vec<u8>,
    named: &ProgramNames,
    terms: &Terms,
    number: u64,
    condition: &Condition,
    decided: &Decided,
    proofs: bool,
) -> Result<(), AllocError>
    requires in_range { IsIn terms.now condition.now }
    requires verdict { VerdictIn decided.now.terms decided.now.verdict }
    ensures { OnOk result (out.new.items ≡ out.old.items ++ condition_lines proofs named.now number (condition_of terms.now condition.now) decided.now) }
{
    push_claim(out, named, terms, number, condition)?;
    push_verdict(out, &named.names, named.titles.as_slice(), decided, proofs)
}

// The line of each condition whose proof was checked, numbered from 1.
fn push_checked_lines(
    out: &mut Vec<u8>,
    named: &ProgramNames,
    conditions: &[Condition],
    verdicts: &[Decided],
) -> Result<(), AllocError>
    requires { AreDecided conditions.now verdicts.now }
    ensures { OnOk result (out.new.items ≡ out.old.items ++ checked_lines named.now 1 conditions.now verdicts.now) }
{
    for place in 0..conditions.len() {
        let number = place as u64 + 1;
        let decided = &verdicts[place];
        push_checked_line(out, named, number, conditions[place].origin, decided)?;
    }
    Ok(())
}

// The line of a condition whose proof was checked.
fn push_checked_line(
    out: &mut Vec<u8>,
    named: &ProgramNames,
    number: u64,
    origin: Origin,
    decided: &Decided,
) -> Result<(), AllocError>
    requires { VerdictIn decided.now.terms decided.now.verdict }
    ensures { OnOk result (out.new.items ≡ out.old.items ++ checked_line named.now number origin decided.now) }
{
    push_heading(out, named, number, origin)?;
    out.push(b' ')?;
    push_verdict(out, &named.names, named.titles.as_slice(), decided, false)
}

/// Adds the lines of a condition: its number and origin, its hypotheses and its goal.
pub fn push_claim(
    out: &mut Vec<u8>,
    named: &ProgramNames,
    terms: &Terms,
    number: u64,
    condition: &Condition,
) -> Result<(), AllocError>
    requires in_range { IsIn terms.now condition.now }
    ensures lines { OnOk result (out.new.items ≡ out.old.items ++ claim_lines named.now number (condition_of terms.now condition.now)) }
{
    push_heading_line(out, named, number, condition.origin)?;
    push_givens(out, named, terms, condition.given.as_slice())?;
    push_goal(out, named, terms, condition.goal)
}

// The line of each hypothesis.
fn push_givens(
    out: &mut Vec<u8>,
    named: &ProgramNames,
    terms: &Terms,
    given: &[TermId],
) -> Result<(), AllocError>
    requires { AllBelow (length terms.now.nodes) given.now }
    ensures { OnOk result (out.new.items ≡ out.old.items ++ flat_map (given_line named.now.names named.now.titles) (map (tree terms.now) given.now)) }
{
    for t in given {
        push_given(out, named, terms, *t)?;
    }
    Ok(())
}

// The line of a hypothesis.
fn push_given(
    out: &mut Vec<u8>,
    named: &ProgramNames,
    terms: &Terms,
    t: TermId,
) -> Result<(), AllocError>
    requires { t.0 < length terms.now.nodes }
    ensures { OnOk result (out.new.items ≡ out.old.items ++ given_line named.now.names named.now.titles (tree terms.now t)) }
{
    out.extend_from_slice(b"GIVEN ")?;
    push_term(out, &named.names, named.titles.as_slice(), terms, t)?;
    out.push(b'\n')?;
    Ok(())
}

// A condition's number and origin.
fn push_heading(
    out: &mut Vec<u8>,
    named: &ProgramNames,
    number: u64,
    origin: Origin,
) -> Result<(), AllocError>
    ensures { OnOk result (out.new.items ≡ out.old.items ++ heading named.now number origin) }
{
    out.extend_from_slice(b"CONDITION ")?;
    push_decimal(out, number)?;
    out.push(b' ')?;
    out.extend_from_slice(routine_name(named, origin.routine))?;
    out.push(b' ')?;
    out.extend_from_slice(kind_word(origin.kind))?;
    out.extend_from_slice(b" LINE ")?;
    push_decimal(out, origin.line as u64)?;
    Ok(())
}

// The line of a condition's number and origin.
fn push_heading_line(
    out: &mut Vec<u8>,
    named: &ProgramNames,
    number: u64,
    origin: Origin,
) -> Result<(), AllocError>
    ensures { OnOk result (out.new.items ≡ out.old.items ++ line (heading named.now number origin)) }
{
    push_heading(out, named, number, origin)?;
    out.push(b'\n')?;
    Ok(())
}

// The word for a kind of condition.
fn kind_word(kind: Kind) -> &'static [u8]
    ensures { result.now ≡ spec.kind_word kind }
{
    match kind {
        Kind::Exit => b"EXIT",
        Kind::Assert => b"ASSERT",
        Kind::Invariant => b"INVARIANT",
        Kind::Preserved => b"PRESERVED",
        Kind::Entry => b"ENTRY",
    }
}

// The line of a goal.
fn push_goal(
    out: &mut Vec<u8>,
    named: &ProgramNames,
    terms: &Terms,
    goal: TermId,
) -> Result<(), AllocError>
    requires { goal.0 < length terms.now.nodes }
    ensures { OnOk result (out.new.items ≡ out.old.items ++ goal_line named.now.names named.now.titles (tree terms.now goal)) }
{
    out.extend_from_slice(b"GOAL ")?;
    push_term(out, &named.names, named.titles.as_slice(), terms, goal)?;
    out.push(b'\n')?;
    Ok(())
}

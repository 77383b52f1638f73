// What is decided of a program's conditions.

ghost use Rattle.std.specs.Prelude.{◌≡◌, option_copied, slice_get, IfOk};
ghost use Rattle.spv_assign.specs.Conditions.{AreIn, IsIn};
ghost use Rattle.spv_proof_rules.specs.Stand.{question};
ghost use Rattle.spv_models.specs.leaf_models.Laws.{AreFormulas};
ghost use Rattle.spv_models.specs.leaf_models.Tables.{formulas_of};
ghost use Rattle.spv_rules.specs.RuleSets.{rules_in};
ghost use Rattle.spv_verify.specs.reporting.Parts.{AreFormulasIn};
ghost use Rattle.spv_rechecking.specs.Rechecked.{IsRechecked};
ghost use Rattle.spv_reports.specs.Headings.{header_of};
ghost use Rattle.spv_reports.specs.Reports as reports;
ghost use Rattle.spv_reports.specs.Reports.{AreRechecked, AreVerdicts, AreVerdictsIn, recheck_of};

use crate::reporting::lengths::are_claims_too_long;
use crate::reporting::rounds::decide_under;
use spv_listing_values::{Entry, Listing};
use spv_rechecking::recheck;
use spv_reports::{Mode, ProgramNames, routine_name};
use spv_rules::Rules;
use spv_term::{Condition, Terms};
use spv_verdicts::answers::{Decided, Limits};
use std::alloc::{AllocError, Global};

// What is decided of each condition under rules, within these limits, in their order.
fn decide_all(
    alloc: Global,
    terms: &Terms,
    conditions: &[Condition],
    rules: &Rules,
    limits: &Limits,
) -> Result<Vec<Decided>, AllocError>
    requires in_range { AreIn terms.now conditions.now }
    requires formulas { AreFormulasIn terms.now conditions.now }
    requires shapes { rules.now.arena.shapes ≡ terms.now.shapes }
    requires decls { rules.now.arena.decls ≡ terms.now.decls }
    ensures { IfOk result (λ v. AreVerdicts (rules_in rules.now) terms.now limits.now conditions.now v.items) }
{
    let mut verdicts = Vec::new(alloc);
    for condition in conditions {
        verdicts.push(decide_under(alloc, terms, condition, rules, limits)?)?;
    }
    Ok(verdicts)
}

// The same for a page that prints the conditions. Where no memory holds that page, nothing is searched for.
fn decide_for_page(
    alloc: Global,
    terms: &Terms,
    conditions: &[Condition],
    rules: &Rules,
    limits: &Limits,
) -> Result<Vec<Decided>, AllocError>
    requires in_range { AreIn terms.now conditions.now }
    requires formulas { AreFormulasIn terms.now conditions.now }
    requires shapes { rules.now.arena.shapes ≡ terms.now.shapes }
    requires decls { rules.now.arena.decls ≡ terms.now.decls }
    ensures { IfOk result (λ v. AreVerdicts (rules_in rules.now) terms.now limits.now conditions.now v.items) }
{
    if are_claims_too_long(alloc, terms, conditions)? {
        return Err(AllocError);
    }
    decide_all(alloc, terms, conditions, rules, limits)
}

// What a listing says of each condition; nothing where there is no listing.
fn entries_of(listing: &Option<Listing>) -> &[Entry]
    ensures { result.now ≡ reports.entries_of listing.now }
{
    match listing {
        Some(listing) => listing.entries(),
        None => &[],
    }
}

// What a listing says of the condition at this place, where it says something.
fn entry_at(entries: &[Entry], place: usize) -> Option<&Entry>
    ensures { option_copied result ≡ slice_get entries.now place }
{
    match entries.get(place) {
        Some(entry) => Some(entry),
        None => None,
    }
}

// What the checker says of a condition under rules and of what a listing says of it, where it says something.
fn recheck_one(
    alloc: Global,
    named: &ProgramNames,
    terms: &Terms,
    condition: &Condition,
    rules: &Rules,
    entry: Option<&Entry>,
) -> Result<Decided, AllocError>
    requires in_range { IsIn terms.now condition.now }
    requires formulas { AreFormulas terms.now.shapes terms.now.decls (formulas_of (question terms.now condition.now).sequent) }
    requires shapes { rules.now.arena.shapes ≡ terms.now.shapes }
    requires decls { rules.now.arena.decls ≡ terms.now.decls }
    ensures { IfOk result (IsRechecked (recheck_of (rules_in rules.now) named.now) (header_of named.now condition.now.origin) terms.now condition.now (option_copied entry.entry)) }
{
    recheck(
        alloc,
        terms,
        condition,
        &named.names,
        named.titles.as_slice(),
        routine_name(named, condition.origin.routine),
        rules,
        entry,
    )
}

// What the checker says of each condition under rules and of what the entry of its number says of it, in their order.
fn recheck_all(
    alloc: Global,
    named: &ProgramNames,
    terms: &Terms,
    conditions: &[Condition],
    rules: &Rules,
    entries: &[Entry],
) -> Result<Vec<Decided>, AllocError>
    requires in_range { AreIn terms.now conditions.now }
    requires formulas { AreFormulasIn terms.now conditions.now }
    requires shapes { rules.now.arena.shapes ≡ terms.now.shapes }
    requires decls { rules.now.arena.decls ≡ terms.now.decls }
    ensures { IfOk result (λ v. AreRechecked (rules_in rules.now) named.now terms.now entries.now conditions.now v.items) }
{
    let mut verdicts = Vec::new(alloc);
    for place in 0..conditions.len() {
        verdicts.push(recheck_one(
            alloc,
            named,
            terms,
            &conditions[place],
            rules,
            entry_at(entries, place),
        )?)?;
    }
    Ok(verdicts)
}

/// The verdicts on conditions under rules that a report of this mode has, in the mode `Check` for this listing. Want of memory comes in the
/// modes `Verify` and `Simplify` too where no memory holds a page with these conditions.
pub(crate) fn decided(
    alloc: Global,
    mode: &Mode,
    listing: &Option<Listing>,
    named: &ProgramNames,
    terms: &Terms,
    conditions: &[Condition],
    rules: &Rules,
) -> Result<Vec<Decided>, AllocError>
    requires in_range { AreIn terms.now conditions.now }
    requires formulas { AreFormulasIn terms.now conditions.now }
    requires shapes { rules.now.arena.shapes ≡ terms.now.shapes }
    requires decls { rules.now.arena.decls ≡ terms.now.decls }
    ensures { IfOk result (λ v. AreVerdictsIn mode.now listing.now (rules_in rules.now) named.now terms.now conditions.now v.items) }
{
    match mode {
        Mode::Verify(limits) | Mode::Simplify(limits) => {
            decide_for_page(alloc, terms, conditions, rules, limits)
        }
        Mode::Drill(_, limits) => decide_all(alloc, terms, conditions, rules, limits),
        Mode::Check => recheck_all(alloc, named, terms, conditions, rules, entries_of(listing)),
        Mode::Conditions => Ok(Vec::new(alloc)),
    }
}

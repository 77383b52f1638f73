// The report on a program is made.

ghost use Rattle.std.specs.Prelude.{◌≡◌, map, None, IsTrue, IfErr, IfOk};
ghost use Rattle.spv_program.specs.Programs.{shapes};
ghost use Rattle.spv_program.specs.Typing.{well_typed};
ghost use Rattle.spv_rules.specs.RuleSets.{rules_in};
ghost use Rattle.spv_effects.specs.frame_walk.FrameWalk.{frame_fault};
ghost use Rattle.spv_verify.specs.reporting.Parts.{AreParts};
ghost use Rattle.spv_conditions.specs.Making.{IsLimit};
ghost use Rattle.spv_reports.specs.Reports.{IsNotRefused, IsReportOn};

use crate::reporting::deciding::decided;
use spv_assign::creation_trace::GenFault;
use spv_conditions::{conditions, law_sorted_conditions};
use spv_listing_values::Listing;
use spv_logic::list::List;
use spv_logic::names::{Names, Symbol};
use spv_program::typed::{Program, Routine};
use spv_reports::{Mode, ProgramNames, Report};
use spv_rules::Rules;
use spv_term::{Condition, Terms};
use spv_verdicts::answers::Decided;
use std::alloc::{AllocError, Global};

// The conditions of a program, and the verdicts on them.
#[derive(Drop)]
pub(crate) struct Parts {
    pub(crate) terms: Terms,
    pub(crate) conditions: Vec<Condition>,
    pub(crate) verdicts: Vec<Decided>,
}

// The conditions of a program, and the verdicts on them under rules and for a listing.
#[tactic(auto, using(crate::proofs::reporting::Formulas::all_formulas))]
fn make_parts(
    alloc: Global,
    program: &Program,
    named: &ProgramNames,
    rules: &Rules,
    listing: &Option<Listing>,
    mode: &Mode,
) -> Result<Parts, GenFault>
    requires typed { IsTrue (well_typed program.now) }
    requires shapes { rules.now.arena.shapes ≡ shapes program.now }
    requires decls { rules.now.arena.decls ≡ program.now.symbols }
    ensures parts { IfOk result (AreParts program.now named.now mode.now listing.now (rules_in rules.now)) }
    ensures fault { IfErr result (λ e. IsLimit e program.now) }
{
    let made = conditions(alloc, program)?;
    made.terms.law_arena();
    law_sorted_conditions();
    let verdicts = decided(
        alloc,
        mode,
        listing,
        named,
        &made.terms,
        made.list.as_slice(),
        rules,
    )?;
    Ok(Parts {
        terms: made.terms,
        conditions: made.list,
        verdicts,
    })
}

/// The report on a program under rules over its types and symbols, for what its mode says: the conditions of the definition, in its
/// order, and but for the mode `Conditions` a verdict on each, within its limits, or in the mode `Check` on the proof that a listing has.
/// Else the limit that the conditions meet, or that there is no memory left; or none for a page that prints the conditions, in the modes
/// `Verify` and `Simplify`.
pub fn report_on(
    alloc: Global,
    names: Names,
    program: &Program,
    rules: Rules,
    listing: Option<Listing>,
    mode: Mode,
) -> Result<Report, GenFault>
    requires typed { IsTrue (well_typed program.now) }
    requires framed { frame_fault program.now ≡ None }
    requires shapes { rules.arena.shapes ≡ shapes program.now }
    requires decls { rules.arena.decls ≡ program.now.symbols }
    ensures names { IfOk result (λ r. r.named.names ≡ names) }
    ensures rules { IfOk result (λ r. r.rules ≡ rules) }
    ensures listing { IfOk result (λ r. r.listing ≡ listing) }
    ensures mode { IfOk result (λ r. r.mode ≡ mode) }
    ensures program { IfOk result (IsReportOn program.now) }
    ensures not_refused { IfOk result (IsNotRefused program.now) }
    ensures fault { IfErr result (λ e. IsLimit e program.now) }
{
    let named = named_by(alloc, names, program)?;
    let parts = make_parts(alloc, program, &named, &rules, &listing, &mode)?;
    Ok(Report::new(
        named,
        parts.terms,
        parts.conditions,
        rules,
        mode,
        listing,
        parts.verdicts,
    ))
}

// The names that a program gives, of which this is the table.
fn named_by(alloc: Global, names: Names, program: &Program) -> Result<ProgramNames, AllocError>
    ensures names { IfOk result (λ named. named.names ≡ names) }
    ensures titles { IfOk result (λ named. named.titles ≡ program.now.titles) }
    ensures routines { IfOk result (λ named. named.routines ≡ map (λ q. q.name) program.now.routines) }
{
    let titles = titles_of(alloc, program)?;
    let routines = routine_names(alloc, program.routines.as_slice())?;
    Ok(ProgramNames {
        names,
        titles,
        routines,
    })
}

// The names of routines.
fn routine_names(alloc: Global, routines: &[Routine]) -> Result<List<Symbol>, AllocError>
    ensures { IfOk result (λ names. names ≡ map (λ q. q.name) routines.now) }
{
    let mut names = List::new(alloc);
    for routine in routines {
        names.push(routine.name)?;
    }
    Ok(names)
}

// The first names of a program's types.
fn titles_of(alloc: Global, program: &Program) -> Result<List<Option<Symbol>>, AllocError>
    ensures { IfOk result (λ titles. titles ≡ program.now.titles) }
{
    Ok(List::from_vec(Vec::from_slice(alloc, program.titles.as_slice())?))
}

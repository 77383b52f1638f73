// Trees against the rules of names, types and frames, and their reports.

ghost use Rattle.std.specs.Prelude.{◌≡◌, ◌<◌, length, option_copied, IfErr, IfOk, IsTrue, None, Ok, OnOk};
ghost use Rattle.spv_effects.specs.frame_walk.FrameWalk.{frame_fault};
ghost use Rattle.spv_program.specs.Typing.{well_typed};
ghost use Rattle.spv_typing.specs.Known.{known_in};
ghost use Rattle.spv_environments.specs.Answers.{Stops};
ghost use Rattle.spv_verify.specs.texts.Trees.{IsFormed, tree_walk};
ghost use Rattle.spv_program.specs.Programs.{shapes};
ghost use Rattle.spv_verify.specs.tree_reports.Programs.{IsLimitedReport, IsListedCause, IsListedReport, IsProgramCause, IsRuledCause, IsRuledReport, IsTreeCause, IsTreeReport};
ghost use Rattle.spv_verify.specs.tree_reports.Walks.{IsFrameCause, IsOfTree, IsSound, IsTypeCause, IsWalkCause, is_typed_as};

use crate::refused::{TextFault, VerifyFault, Which, fault_of, of_frames, of_limits, of_types};
use crate::reporting::report_on;
use crate::texts::TextTree;
use crate::tree_reports::listings::listing_for;
use crate::tree_reports::rule_files::rules_for;
use spv_frame_check::checked;
use spv_listing_values::Listing;
use spv_logic::names::Names;
use spv_reports::{Mode, Report};
use spv_rules::Rules;
use spv_types::{Typed, typed, typed_formula};
use spv_typing::TypeFault;
use std::alloc::Global;

// Whether a typed program keeps the rules of frames; else what it is refused for.
#[tactic(auto, using(crate::proofs::tree_reports::Causes::frame_cause))]
fn check_frames(
    alloc: Global,
    program: &spv_program::typed::Program,
    names: &Names,
) -> Result<(), TextFault>
    ensures kept { OnOk result (frame_fault program.now ≡ None) }
    ensures cause { IfErr result (IsFrameCause names.now program.now) }
{
    match checked(program, alloc) {
        Ok(_) => Ok(()),
        Err(fault) => Err(of_frames(alloc, names, program.titles.as_slice(), fault)),
    }
}

// The typed program of a tree, or its first fault of names and types.
fn typed_tree(alloc: Global, tree: &TextTree, names: &Names) -> Result<Typed, TypeFault>
    requires formed { IsFormed tree.now }
    ensures ok { IfOk result (λ p. tree_walk (known_in names.now) tree.now ≡ Ok p) }
    ensures err { IfErr result (λ e. Stops e (tree_walk (known_in names.now) tree.now)) }
{
    match tree {
        TextTree::OfProgram(tree) => typed(alloc, tree, names),
        TextTree::OfFormula(tree) => typed_formula(alloc, tree, names),
    }
}

// The typed program of a tree, or what the tree is refused for.
#[tactic(auto, using(crate::proofs::tree_reports::Causes::type_cause))]
fn typed_program(alloc: Global, tree: &TextTree, names: &Names) -> Result<Typed, TextFault>
    requires formed { IsFormed tree.now }
    ensures typed { IfOk result (λ p. is_typed_as names.now tree.now p) }
    ensures cause { IfErr result (IsTypeCause names.now tree.now) }
{
    match typed_tree(alloc, tree, names) {
        Ok(program) => Ok(program),
        Err(fault) => Err(of_types(alloc, names, fault)),
    }
}

// The program of a tree that has no fault of names, types and frames, or what the tree is refused for.
fn sound_program(alloc: Global, tree: &TextTree, names: &Names) -> Result<Typed, TextFault>
    requires formed { IsFormed tree.now }
    ensures sound { IfOk result (λ p. IsSound names.now tree.now p) }
    ensures cause { IfErr result (IsWalkCause names.now tree.now) }
{
    let program = match typed_program(alloc, tree, names) {
        Ok(program) => program,
        Err(fault) => return Err(fault),
    };
    match check_frames(alloc, program.program(), names) {
        Ok(()) => Ok(program),
        Err(fault) => Err(fault),
    }
}

// The report of a program without faults under these rules and for this listing, or that its conditions meet a limit.
#[tactic(auto, using(crate::proofs::tree_reports::Causes::limit_told))]
fn limited_report(
    alloc: Global,
    names: Names,
    program: &spv_program::typed::Program,
    rules: Rules,
    listing: Option<Listing>,
    mode: Mode,
) -> Result<Report, TextFault>
    requires typed { IsTrue (well_typed program.now) }
    requires framed { frame_fault program.now ≡ None }
    requires shapes { rules.arena.shapes ≡ shapes program.now }
    requires decls { rules.arena.decls ≡ program.now.symbols }
    ensures report { IfOk result (IsLimitedReport names program.now rules listing mode) }
    ensures cause { IfErr result (IsProgramCause program.now) }
{
    match report_on(alloc, names, program, rules, listing, mode) {
        Ok(report) => Ok(report),
        Err(fault) => Err(of_limits(alloc, fault)),
    }
}

// The report of a program without faults under these rules and for a listing, or what the listing is refused for, or that the conditions of
// the program meet a limit.
#[tactic(auto, using(crate::proofs::tree_reports::Causes::listing_told, crate::proofs::tree_reports::Causes::limits_told, crate::proofs::tree_reports::Causes::listed_report))]
fn listed_report(
    alloc: Global,
    program: &spv_program::typed::Program,
    names: Names,
    rules: Rules,
    listing: Option<&[u8]>,
    mode: Mode,
) -> Result<Report, VerifyFault>
    requires typed { IsTrue (well_typed program.now) }
    requires framed { frame_fault program.now ≡ None }
    requires shapes { rules.arena.shapes ≡ shapes program.now }
    requires decls { rules.arena.decls ≡ program.now.symbols }
    ensures report { IfOk result (IsListedReport names program.now rules (option_copied listing.entry) mode) }
    ensures cause { IfErr result (IsListedCause program.now (option_copied listing.entry)) }
{
    let listing = match listing_for(alloc, listing) {
        Ok(listing) => listing,
        Err(fault) => return Err(fault_of(Which::Listing, fault)),
    };
    match limited_report(alloc, names, program, rules, listing, mode) {
        Ok(report) => Ok(report),
        Err(fault) => Err(fault_of(Which::Program, fault)),
    }
}

// The report of a program without faults under the rules of a rule file and for a listing, or what one of the two is refused for, or that
// the conditions of the program meet a limit.
#[tactic(auto, using(crate::proofs::tree_reports::Causes::rules_told))]
fn ruled_report(
    alloc: Global,
    program: &spv_program::typed::Program,
    names: Names,
    rules: Option<&[u8]>,
    listing: Option<&[u8]>,
    mode: Mode,
) -> Result<Report, VerifyFault>
    requires few { length names < 2143289344 }
    requires typed { IsTrue (well_typed program.now) }
    requires framed { frame_fault program.now ≡ None }
    requires of_tree { IsOfTree program.now }
    ensures report { IfOk result (IsRuledReport names program.now (option_copied rules.entry) (option_copied listing.entry) mode) }
    ensures cause { IfErr result (IsRuledCause names program.now (option_copied rules.entry) (option_copied listing.entry)) }
{
    let mut names = names;
    let rules = match rules_for(alloc, rules, program, &mut names) {
        Ok(rules) => rules,
        Err(fault) => return Err(fault_of(Which::Rules, fault)),
    };
    listed_report(alloc, program, names, rules, listing, mode)
}

/// The report of a text's tree under the rules of a rule file and for a listing, for what its mode says; or what one of the texts is
/// refused for: the first for its first fault of names and types, else of frames; where it has none, the rule file for its first fault;
/// where that has none, the listing, where its bytes are none; and where they are one, the first because its conditions are too many or
/// too large. The tree is well formed, as each tree is that a reading answers, and the names are those of the table.
/// Memory: there was not enough of it.
#[tactic(auto, using(crate::proofs::tree_reports::Causes::walk_told))]
pub fn report_of(
    alloc: Global,
    tree: &TextTree,
    names: Names,
    rules: Option<&[u8]>,
    listing: Option<&[u8]>,
    mode: Mode,
) -> Result<Report, VerifyFault>
    requires formed { IsFormed tree.now }
    requires few { length names < 2143289344 }
    ensures report { IfOk result (IsTreeReport names tree.now (option_copied rules.entry) (option_copied listing.entry) mode) }
    ensures cause { IfErr result (IsTreeCause names tree.now (option_copied rules.entry) (option_copied listing.entry)) }
{
    let program = match sound_program(alloc, tree, &names) {
        Ok(program) => program,
        Err(fault) => return Err(fault_of(Which::Program, fault)),
    };
    program.law_well_typed();
    let answer = ruled_report(alloc, program.program(), names, rules, listing, mode);
    drop(program);
    answer
}

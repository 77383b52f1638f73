// What is found of a command's files, and what is due then.

ghost use Rattle.std.specs.Prelude.{◌≡◌, ◌<◌, IfErr, IfOk, OnErr, Some, length, map, slice_get};
ghost use Rattle.std.specs.Option.{option_copied};
ghost use Rattle.spv_reports.specs.Reports.{IsReport};
ghost use Rattle.spv_verify.specs.Causes.{IsCause};
ghost use Rattle.spv_verify.specs.Refusals.{IsReportOf};
ghost use Rattle.spv_verify.specs.texts.Trees.{kind_of};
ghost use Rattle.spv_cli.specs.Gathering.{IsAskedFound, IsTextFound};
ghost use Rattle.spv_cli.specs.Output as due;
ghost use Rattle.spv_cli.specs.Runs as spec;
ghost use Rattle.spv_cli.specs.Runs.{AreReadInPart, HasSource, IsFound};
ghost use Rattle.spv_cli.specs.Words.{command_view};

use crate::drill::drill_text;
use crate::output::{read_fault_line, refusal_line};
use crate::reading::{Gathered, read_files};
use crate::words::Command;
use spv_io::Texts;
use spv_reports::{Decided, Mode, Report, all_proved, none_fails};
use spv_verify::refused::{Refusal, VerifyFault, Which};
use spv_verify::report_of;
use std::alloc::{AllocError, Global};

/// What is found of the files of a command.
#[derive(Drop)]
pub(crate) enum Found<'a> {
    /// This one could not be read.
    ReadFailed(&'a str),
    /// The text of this one is refused.
    Refusing(&'a str, Refusal),
    /// They have this report.
    Reporting(Report),
}

// The report of texts, for what its mode says, of which a page has proofs where they are wanted.
#[tactic(auto, using(crate::proofs::Told::same_report_of, spv_reports::proofs::Reports::same_report))]
fn report_with(
    alloc: Global,
    mode: Mode,
    proofs: bool,
    text: &[u8],
    rules: Option<&[u8]>,
    listing: Option<&[u8]>,
) -> Result<Report, VerifyFault>
    ensures report { IfOk result (IsReportOf (kind_of mode) text.now (option_copied rules.entry) (option_copied listing.entry)) }
    ensures mode { IfOk result (λ r. r.mode ≡ mode) }
    ensures proofs { IfOk result (λ r. r.proofs ≡ proofs) }
    ensures findings { IfOk result IsReport }
    ensures cause { IfErr result (IsCause (kind_of mode) text.now (option_copied rules.entry) (option_copied listing.entry)) }
{
    match report_of(alloc, text, rules, listing, mode) {
        Ok(report) => Ok(report.with_proofs(proofs)),
        Err(fault) => Err(fault),
    }
}

// Where a rule file stands among the files.
fn rules_place(mode: &Mode) -> usize
    ensures { result ≡ spec.rules_place mode.now }
{
    match mode {
        Mode::Verify(_) => 1,
        Mode::Simplify(_) => 1,
        Mode::Check => 2,
        Mode::Conditions => 1,
        Mode::Drill(_, _) => 1,
    }
}

// The name by which a text is told, where a rule file stands at this place.
fn name_at<'a>(files: &[&'a str], rules: usize, which: Which) -> &'a str
    ensures { result.now ≡ spec.name_at (map (λ file. file.now) files.now) rules which }
{
    match which {
        Which::Program => match files.first() {
            Some(file) => file,
            None => "DRILL",
        },
        Which::Rules => match files.get(rules) {
            Some(file) => file,
            None => "RULES",
        },
        Which::Listing => match files.get(1) {
            Some(file) => file,
            None => "LISTING",
        },
    }
}

// What is found of these texts.
fn look<'a>(
    alloc: Global,
    command: Command<'a>,
    text: &[u8],
    rules: Option<&[u8]>,
    listing: Option<&[u8]>,
) -> Result<Found<'a>, AllocError>
    ensures { IfOk result (IsTextFound (command_view command.entry) (record { text = text.now; rules = option_copied rules.entry; listing = option_copied listing.entry })) }
{
    let Command {
        mode,
        proofs,
        files,
    } = command;
    let place = rules_place(&mode);
    match report_with(alloc, mode, proofs, text, rules, listing) {
        Ok(report) => Ok(Found::Reporting(report)),
        Err(VerifyFault::Refused(which, refusal)) => {
            let name = name_at(files.as_slice(), place, which);
            Ok(Found::Refusing(name, refusal))
        }
        Err(VerifyFault::Memory) => Err(AllocError),
    }
}

// The text that was read of the file at this place, which there is.
fn text_at(read: &[Vec<u8>], place: usize) -> &[u8]
    requires { place < length read.now }
    ensures { slice_get (map (λ text. text.items) read.now) place ≡ Some result.now }
{
    read[place].as_slice()
}

// The text that was read of the file at this place, where there is one.
fn text_after(read: &[Vec<u8>], place: usize) -> Option<&[u8]>
    ensures { option_copied result ≡ slice_get (map (λ text. text.items) read.now) place }
{
    match read.get(place) {
        Some(text) => Some(text.as_slice()),
        None => None,
    }
}

// What is found of the texts that a command asks of: a generated one, or those that were read.
fn look_at<'a>(
    alloc: Global,
    command: Command<'a>,
    read: &[Vec<u8>],
) -> Result<Found<'a>, AllocError>
    requires { HasSource command.mode (length read.now) }
    ensures { IfOk result (IsAskedFound (command_view command.entry) (map (λ text. text.items) read.now)) }
{
    match &command.mode {
        Mode::Drill(load, _) => {
            let text = drill_text(alloc, *load)?;
            look(alloc, command, text.as_slice(), None, None)
        }
        Mode::Check => {
            let rules = text_after(read, 2);
            look(
                alloc,
                command,
                text_at(read, 0),
                rules,
                Some(text_at(read, 1)),
            )
        }
        Mode::Verify(_) => look(alloc, command, text_at(read, 0), text_after(read, 1), None),
        Mode::Simplify(_) => look(alloc, command, text_at(read, 0), text_after(read, 1), None),
        Mode::Conditions => look(alloc, command, text_at(read, 0), text_after(read, 1), None),
    }
}

/// What is found of the files of a command.
pub(crate) fn find<'a, T: Texts>(
    alloc: Global,
    command: Command<'a>,
    texts: &mut T,
) -> Result<Found<'a>, AllocError>
    requires { HasSource command.mode (length command.files.items) }
    ensures found { IfOk result (IsFound (record {
      told = T.told texts.old;
      asked_before = T.asked texts.old;
      asked_after = T.asked texts.new;
      faults_before = T.faults texts.old;
      faults_after = T.faults texts.new;
    }) (command_view command.entry)) }
    ensures memory { OnErr result (AreReadInPart (record {
      told = T.told texts.old;
      asked_before = T.asked texts.old;
      asked_after = T.asked texts.new;
      faults_before = T.faults texts.old;
      faults_after = T.faults texts.new;
    }) (map (λ file. file.now) command.entry.files.items)) }
{
    match read_files(alloc, command.files.as_slice(), texts)? {
        Gathered::Failed(file) => Ok(Found::ReadFailed(file)),
        Gathered::Texts(read) => look_at(alloc, command, read.as_slice()),
    }
}

/// What is to be written then.
pub(crate) fn output(alloc: Global, found: &Found<'_>) -> Result<Vec<u8>, AllocError>
    ensures { IfOk result (λ text. text.items ≡ spec.output found.now) }
{
    match found {
        Found::ReadFailed(file) => read_fault_line(alloc, file),
        Found::Refusing(file, refusal) => refusal_line(alloc, file, refusal),
        Found::Reporting(report) => spv_listing::page(alloc, report),
    }
}

// The status of verdicts.
fn verdict_status(mode: &Mode, verdicts: &[Decided]) -> u8
    ensures { result ≡ due.verdict_status mode.now verdicts.now }
{
    if all_proved(verdicts) {
        0
    } else if none_fails(mode, verdicts) {
        2
    } else {
        1
    }
}

// The status of a page.
fn page_status(mode: &Mode, verdicts: &[Decided]) -> u8
    ensures { result ≡ due.status_in mode.now verdicts.now }
{
    match mode {
        Mode::Verify(_) | Mode::Simplify(_) | Mode::Check | Mode::Drill(_, _) => {
            verdict_status(mode, verdicts)
        }
        Mode::Conditions => 8,
    }
}

/// The status then, where all is written.
pub(crate) fn status(found: &Found<'_>) -> u8
    ensures { result ≡ spec.status found.now }
{
    match found {
        Found::ReadFailed(_) => 4,
        Found::Refusing(_, _) => 3,
        Found::Reporting(report) => page_status(report.mode(), report.verdicts()),
    }
}

/// The report, if one was found.
pub(crate) fn into_report(found: Found<'_>) -> Option<Report>
    ensures { result ≡ spec.report found.entry }
{
    match found {
        Found::Reporting(report) => Some(report),
        _ => None,
    }
}

// From the bytes of a text to its report.

ghost use Rattle.std.specs.Prelude.{◌≡◌, ◌<◌, [], length, None, Some, option_copied, IfErr, IfOk, OnOk};
ghost use Rattle.spv_parser.specs.language.Texts.{names_with};
ghost use Rattle.spv_reports.specs.declared.mode.Mode.TheVariants as mode;
ghost use Rattle.spv_reports.specs.Reports.{IsReport};
ghost use Rattle.spv_verify.specs.declared.texts.TextKind.TheVariants as kind;
ghost use Rattle.spv_verify.specs.texts.Trees as texts;
ghost use Rattle.spv_verify.specs.texts.Trees.{IsFormed};
ghost use Rattle.spv_verify.specs.Causes.{IsCause, IsReadingCause};
ghost use Rattle.spv_verify.specs.Refusals.{HaveNotBoth, IsOneList, IsOneListing, IsOneProgram, IsReportOf, IsTextTree};

use crate::refused::{TextFault, VerifyFault, Which, fault_of, of_text};
use crate::texts::{TextKind, TextTree, kind_of};
use crate::tree_reports as trees;
use spv_conditions::law_limits;
use spv_listing_values::laws::law_exact;
use spv_logic::names::Names;
use spv_parser::language::{formula, law_one_tree, program};
use spv_reports::{Limits, Mode, Report};
use std::alloc::Global;

// The tree of a program, or what its text is refused for.
#[tactic(auto, using(crate::proofs::texts::TwoWays::program_tree, crate::proofs::texts::TwoWays::program_cause, crate::proofs::texts::NameCount::few_names))]
fn program_tree(alloc: Global, text: &[u8], names: &mut Names) -> Result<TextTree, TextFault>
    requires empty { names.old ≡ [] }
    ensures tree { IfOk result (IsTextTree kind.Program text.now) }
    ensures names { OnOk result (names.new ≡ names_with [] text.now) }
    ensures few { OnOk result (length names.new < 2143289344) }
    ensures cause { IfErr result (IsReadingCause kind.Program text.now) }
{
    match program(alloc, text, names) {
        Ok(tree) => Ok(TextTree::OfProgram(tree)),
        Err(fault) => Err(of_text(alloc, fault)),
    }
}

// The tree of a formula text, or what it is refused for.
#[tactic(auto, using(crate::proofs::texts::TwoWays::formula_tree, crate::proofs::texts::TwoWays::formula_cause, crate::proofs::texts::NameCount::few_names))]
fn formula_tree(alloc: Global, text: &[u8], names: &mut Names) -> Result<TextTree, TextFault>
    requires empty { names.old ≡ [] }
    ensures tree { IfOk result (IsTextTree kind.Formula text.now) }
    ensures names { OnOk result (names.new ≡ names_with [] text.now) }
    ensures few { OnOk result (length names.new < 2143289344) }
    ensures cause { IfErr result (IsReadingCause kind.Formula text.now) }
{
    match formula(alloc, text, names) {
        Ok(tree) => Ok(TextTree::OfFormula(tree)),
        Err(fault) => Err(of_text(alloc, fault)),
    }
}

// The tree of a text of this kind, or what the text is refused for.
#[tactic(auto, using(crate::proofs::texts::TwoWays::tree_formed))]
fn tree_of(
    alloc: Global,
    kind: TextKind,
    text: &[u8],
    names: &mut Names,
) -> Result<TextTree, TextFault>
    requires empty { names.old ≡ [] }
    ensures tree { IfOk result (IsTextTree kind text.now) }
    ensures formed { IfOk result IsFormed }
    ensures names { OnOk result (names.new ≡ names_with [] text.now) }
    ensures few { OnOk result (length names.new < 2143289344) }
    ensures cause { IfErr result (IsReadingCause kind text.now) }
{
    match kind {
        TextKind::Program => program_tree(alloc, text, names),
        TextKind::Formula => formula_tree(alloc, text, names),
    }
}

/// The report of a text, for what its mode says: of a formula text in the mode `Simplify`, else of a program; under the rules of a rule
/// file and for a listing, where they are there. Or what one of the texts is refused for: the first for its first fault, in the order of
/// reading, names and types, frames; where it has none, the rule file for its first fault, in the order of reading, then of names, types and
/// variables; where that has none, the listing, where it is too long or no listing has its bytes; and where it is not refused either, the
/// first because its conditions are too many or too large. Memory: there was not enough of it, or, in the modes `Verify` and `Simplify`, the
/// page would have more than 4 GiB by the hypotheses and goals of the conditions alone: these are not decided then.
pub fn report_of(
    alloc: Global,
    text: &[u8],
    rules: Option<&[u8]>,
    listing: Option<&[u8]>,
    mode: Mode,
) -> Result<Report, VerifyFault>
    ensures report { IfOk result (IsReportOf (texts.kind_of mode) text.now (option_copied rules.entry) (option_copied listing.entry)) }
    ensures mode { IfOk result (λ r. r.mode ≡ mode) }
    ensures findings { IfOk result IsReport }
    ensures cause { IfErr result (IsCause (texts.kind_of mode) text.now (option_copied rules.entry) (option_copied listing.entry)) }
{
    let mut names = Names::new(alloc);
    let tree = match tree_of(alloc, kind_of(&mode), text, &mut names) {
        Ok(tree) => tree,
        Err(fault) => return Err(fault_of(Which::Program, fault)),
    };
    let report = trees::report_of(alloc, &tree, names, rules, listing, mode);
    drop(tree);
    report
}

/// The report of a program's text with a verdict on each condition, found within these limits under the rules of a rule file, where there
/// is one; or what one of the two is refused for, as for `report_of`.
pub fn verify(
    alloc: Global,
    text: &[u8],
    rules: Option<&[u8]>,
    limits: Limits,
) -> Result<Report, VerifyFault>
    ensures report { IfOk result (IsReportOf kind.Program text.now (option_copied rules.entry) None) }
    ensures mode { IfOk result (λ r. r.mode ≡ mode.Verify limits) }
    ensures findings { IfOk result IsReport }
    ensures cause { IfErr result (IsCause kind.Program text.now (option_copied rules.entry) None) }
{
    report_of(alloc, text, rules, None, Mode::Verify(limits))
}

/// The report of a formula text with a verdict on its one condition, found within these limits under the rules of a rule file, where there
/// is one; or what one of the two is refused for, as for `report_of`.
pub fn simplify(
    alloc: Global,
    text: &[u8],
    rules: Option<&[u8]>,
    limits: Limits,
) -> Result<Report, VerifyFault>
    ensures report { IfOk result (IsReportOf kind.Formula text.now (option_copied rules.entry) None) }
    ensures mode { IfOk result (λ r. r.mode ≡ mode.Simplify limits) }
    ensures findings { IfOk result IsReport }
    ensures cause { IfErr result (IsCause kind.Formula text.now (option_copied rules.entry) None) }
{
    report_of(alloc, text, rules, None, Mode::Simplify(limits))
}

/// The report of a program's text with a verdict on each condition and on the proof that a listing has of it, checked under the rules of a
/// rule file, where there is one: nothing is searched for. Or what one of the three is refused for, as for `report_of`.
pub fn recheck(
    alloc: Global,
    text: &[u8],
    listing: &[u8],
    rules: Option<&[u8]>,
) -> Result<Report, VerifyFault>
    ensures report { IfOk result (IsReportOf kind.Program text.now (option_copied rules.entry) (Some listing.now)) }
    ensures mode { IfOk result (λ r. r.mode ≡ mode.Check) }
    ensures findings { IfOk result IsReport }
    ensures cause { IfErr result (IsCause kind.Program text.now (option_copied rules.entry) (Some listing.now)) }
{
    report_of(alloc, text, rules, Some(listing), Mode::Check)
}

/// The report of a program's text with its conditions alone; or what it is refused for, as for `report_of`.
pub fn list(alloc: Global, text: &[u8]) -> Result<Report, VerifyFault>
    ensures report { IfOk result (IsReportOf kind.Program text.now None None) }
    ensures mode { IfOk result (λ r. r.mode ≡ mode.Conditions) }
    ensures findings { IfOk result IsReport }
    ensures cause { IfErr result (IsCause kind.Program text.now None None) }
{
    report_of(alloc, text, None, None, Mode::Conditions)
}

/// Texts that have a report are not refused, each text is one program, for a program each rule file is one list of rules, and bytes are one
/// listing.
pub fn law_not_both()
    ensures both { HaveNotBoth }
    ensures one { IsOneProgram }
    ensures rules { IsOneList }
    ensures listing { IsOneListing }
{
    law_one_tree();
    law_limits();
    law_exact();
}

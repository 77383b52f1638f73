// The run: words, reading, output.

ghost use Rattle.std.specs.Prelude.{◌≡◌, ◌⊎◌, ◌<◌, ◌≤◌, ℕ, false, List, [], ◌∷◌, None, Some, IsSome, IfSome, IsTrue, length, map, OnOk, OnErr, string_bytes};
ghost use Rattle.spv_io.specs.Faults.{Rose, DidNotRise};
ghost use Rattle.spv_io.specs.Sink.{added, AddsPrefix};
ghost use Rattle.spv_meaning.specs.Correct.{Correct};
ghost use Rattle.spv_logic.specs.Conditions.{Meaning};
ghost use Rattle.spv_program.specs.Programs.{Program};
ghost use Rattle.spv_reports.specs.Reports.{AreVerdictsIn, IsReport, IsReportOn, all_proved, has_verdicts, none_fails};
ghost use Rattle.spv_listing.specs.Page.{page};
ghost use Rattle.spv_proof_rules.specs.Rules.{Rule, RulesHold};
ghost use Rattle.spv_rules.specs.RuleSets.{rules_in};
ghost use Rattle.spv_program.specs.Programs.{shapes};
ghost use Rattle.spv_verify.specs.declared.refused.refusal.Refusal.{Refusal};
ghost use Rattle.spv_verify.specs.declared.refused.fault.Which.{Which};
ghost use Rattle.spv_verify.specs.tree_reports.RuleFiles.{AreRulesOf};
ghost use Rattle.spv_cli.specs.Commands.{command_of};
ghost use Rattle.spv_cli.specs.Words.{command_view};
ghost use Rattle.spv_cli.specs.Output.{words_line, read_fault_line};
ghost use Rattle.spv_verify.specs.texts.Trees.{kind_of};
ghost use Rattle.spv_verify.specs.Refusals.{IsProgramOf, IsRefused, IsReportOf, names_of};
ghost use Rattle.spv_cli.specs.Runs.{AreAskedInPart, AreAskedUpTo, HasSource, IsAnswered, HasRunFor, HasRun, named_all, sources};
ghost use Rattle.spv_cli.specs.Promises.{IsOneOf, IsThere, IsTold, IsRefusalLine, IsDueFor};

use crate::found::{find, into_report, output, status};
use crate::words::{Command, read_words};
use spv_io::{Failed, Sink, Texts};
use spv_reports::Report;
use spv_term::World;
use spv_verify::law_not_both;
use std::alloc::{AllocError, Global};

/// How a run ended.
#[derive(Drop)]
pub struct Ran {
    /// The status: 0 where every condition is proved, 1 where one is unproved or, in the mode `Check`, its
    /// proof is not accepted, 2 where none is and the search gave up on one, 3 where a text is refused, 4
    /// where one cannot be read, 5 where the output cannot be written, 6 for want of memory, 7 where the
    /// words are no command, 8 where conditions alone were asked for.
    pub status: u8,
    /// The report, where a page was due.
    pub report: Option<Report>,
}

// The length of the first line, with its end.
fn line_length(text: &[u8]) -> usize
    requires { 0 < length text.now }
    ensures some { 0 < result }
    ensures within { result ≤ length text.now }
{
    match text.iter().position(|byte| *byte == b'\n') {
        Some(end) => end + 1,
        None => text.len(),
    }
}

// Writes a text, one line at a time.
fn write_lines<K: Sink>(sink: &mut K, text: &[u8]) -> Result<(), Failed>
    ensures all { OnOk result (K.written sink.new ≡ added (K.written sink.old) text.now) }
    ensures prefix { OnErr result (AddsPrefix (K.written sink.old) (K.written sink.new) text.now) }
    ensures rose { OnErr result (Rose (K.faults sink.old) (K.faults sink.new)) }
    ensures faults_ok { OnOk result (K.faults sink.new ≡ K.faults sink.old) }
{
    let mut at = 0;
    while at < text.len() {
        let end = at + line_length(&text[at..]);
        sink.write(&text[at..end])?;
        at = end;
    }
    Ok(())
}

// Writes an output, and answers with its status.
fn answer<K: Sink>(sink: &mut K, text: &[u8], status: u8, report: Option<Report>) -> Ran
    ensures { IsAnswered (record {
      written_before = K.written sink.old;
      written_after = K.written sink.new;
      faults_before = K.faults sink.old;
      faults_after = K.faults sink.new;
    }) text.now status report result }
{
    match write_lines(sink, text) {
        Ok(()) => Ran { status, report },
        Err(Failed) => Ran { status: 5, report },
    }
}

// How a run ends that found no memory: nothing was written.
fn out_of_memory() -> Ran
    ensures { result ≡ record { status = 6; report = None } }
{
    Ran {
        status: 6,
        report: None,
    }
}

// Does what a command asks.
fn perform<T: Texts, K: Sink>(
    alloc: Global,
    command: Command<'_>,
    texts: &mut T,
    sink: &mut K,
) -> Ran
    requires { HasSource command.mode (length command.files.items) }
    ensures { HasRunFor (Some (command_view command.entry)) (record {
      told = T.told texts.old;
      asked_before = T.asked texts.old;
      asked_after = T.asked texts.new;
      faults_before = T.faults texts.old;
      faults_after = T.faults texts.new;
    }) (record {
      written_before = K.written sink.old;
      written_after = K.written sink.new;
      faults_before = K.faults sink.old;
      faults_after = K.faults sink.new;
    }) result }
{
    let Ok(found) = find(alloc, command, texts) else {
        return out_of_memory();
    };
    let Ok(text) = output(alloc, &found) else {
        return out_of_memory();
    };
    let status = status(&found);
    answer(sink, &text, status, into_report(found))
}

// Reads the words, and does what they say.
fn attempt<T: Texts, K: Sink>(alloc: Global, words: &[String], texts: &mut T, sink: &mut K) -> Ran
    ensures { HasRun (map string_bytes words.now) (record {
      told = T.told texts.old;
      asked_before = T.asked texts.old;
      asked_after = T.asked texts.new;
      faults_before = T.faults texts.old;
      faults_after = T.faults texts.new;
    }) (record {
      written_before = K.written sink.old;
      written_after = K.written sink.new;
      faults_before = K.faults sink.old;
      faults_after = K.faults sink.new;
    }) result }
{
    match read_words(alloc, words) {
        Ok(Some(command)) => perform(alloc, command, texts, sink),
        Ok(None) => answer(sink, b"WORDS\n", 7, None),
        Err(AllocError) => out_of_memory(),
    }
}

/// Runs the command that these words are, of which the first is the program's name: reads its files, makes the conditions of its program,
/// decides them where that is asked, or checks the proofs of them that a listing has, and writes the page, or one line that says why there
/// is none. Nothing is written until all of the output is made, and then a line at a time. No member of the world is run: it says for which meaning of the symbols the program is
/// claimed to be correct.
pub fn run<W: World, T: Texts, K: Sink>(
    alloc: Global,
    words: &[String],
    texts: &mut T,
    sink: &mut K,
    world: &W,
) -> Ran
    // Words that are no command end with 7, and no others do, unless a write fails or there is no memory to read them.
    ensures words_only { result.status ≡ 7 → command_of (map string_bytes words.now) ≡ None }
    ensures words { command_of (map string_bytes words.now) ≡ None → IsOneOf (5 ∷ 6 ∷ 7 ∷ []) result.status }

    // Status 0 comes only where all is proved. The program that the report is on is correct then, in the world at hand and in every other in
    // which its rules hold; and so is the program that the text is which the command asks of (what is told of its first file, or the one that it
    // generates), where the rules hold that the rule file has. Without a rule file there are none.
    ensures proved { result.status ≡ 0 → IsThere result.report (λ r. IsTrue (has_verdicts r.mode) × IsTrue (all_proved r.verdicts)) }
    ensures correct { result.status ≡ 0 → IsThere result.report
        (λ r. (p : Program) → IsReportOn p r → RulesHold (shapes p) p.symbols (W.apply world.now) (rules_in r.rules) → Correct p (W.apply world.now)) }
    ensures correct_everywhere { result.status ≡ 0 → IsThere result.report
        (λ r. (m : Meaning) (p : Program) → IsReportOn p r → RulesHold (shapes p) p.symbols m (rules_in r.rules) → Correct p m) }
    ensures correct_text { result.status ≡ 0 → IsThere (command_of (map string_bytes words.now))
        (λ c. IfSome (sources (T.told texts.old) c) (λ s. (m : Meaning) (p : Program) (rules : List Rule) → IsProgramOf (kind_of c.mode) s.text p
        → AreRulesOf (names_of s.text) p s.rules rules → RulesHold (shapes p) p.symbols m rules → Correct p m)) }

    // With status 1 a verdict fails: a condition is unproved, or in the mode `Check` a proof is not accepted; with 2 none does, and some
    // condition was given up.
    ensures unproved { result.status ≡ 1 → IsThere result.report (λ r. IsTrue (has_verdicts r.mode) × (none_fails r.mode r.verdicts ≡ false)) }
    ensures gave_up { result.status ≡ 2 → IsThere result.report
        (λ r. IsTrue (has_verdicts r.mode) × IsTrue (none_fails r.mode r.verdicts) × (all_proved r.verdicts ≡ false)) }
    ensures listed { result.status ≡ 8 → IsThere result.report (λ r. (has_verdicts r.mode ≡ false) × (r.verdicts ≡ [])) }

    // A report is that of the told texts, for what the words ask, and its conditions are those of its program. Its page has proofs where the
    // words want them.
    ensures of_text { IfSome result.report (λ r. IsThere (command_of (map string_bytes words.now))
        (λ c. IfSome (sources (T.told texts.old) c) (λ s. IsReportOf (kind_of c.mode) s.text s.rules s.listing r))) }
    ensures mode { IfSome result.report (λ r. IsThere (command_of (map string_bytes words.now)) (λ c. r.mode ≡ c.mode)) }
    ensures proofs { IfSome result.report (λ r. IsThere (command_of (map string_bytes words.now)) (λ c. r.proofs ≡ c.proofs)) }
    ensures findings { IfSome result.report IsReport }
    ensures reported { IsSome result.report → IsOneOf (0 ∷ 1 ∷ 2 ∷ 5 ∷ 8 ∷ []) result.status }

    // Each verdict is right, within the limits of the words: what is proved has a proof that is accepted, what is unproved has a table
    // that falsifies its condition, and where the search gave up its limit was reached. In the mode `Check` each is what the checker says of
    // the condition and of the entry of its number in the told listing.
    ensures verdicts { IfSome result.report (λ r. IsThere (command_of (map string_bytes words.now))
        (λ c. AreVerdictsIn c.mode r.listing (rules_in r.rules) r.named r.arena r.conditions r.verdicts)) }

    // Status 3 comes exactly where one of the told texts is refused, but for a failed write and want of memory.
    ensures refused { IsTold (map string_bytes words.now) (T.told texts.old) (λ kind s. (w : Which) × (r : Refusal) × IsRefused kind s.text s.rules s.listing w r)
        → DidNotRise (T.faults texts.old) (T.faults texts.new) → IsOneOf (3 ∷ 5 ∷ 6 ∷ []) result.status }
    ensures refusal { result.status ≡ 3 → IsThere (command_of (map string_bytes words.now))
        (λ c. (line : List ℕ) × IsRefusalLine (T.told texts.old) c line × (K.written sink.new ≡ added (K.written sink.old) line)) }

    // Where none of the texts is refused there is a report, but for want of memory; and one of the statuses of a report, but for a failed write.
    ensures complete { IsTold (map string_bytes words.now) (T.told texts.old) (λ kind s. (w : Which) (r : Refusal) → IsRefused kind s.text s.rules s.listing w r → ⊥)
        → DidNotRise (T.faults texts.old) (T.faults texts.new) → IsSome result.report ⊎ (result.status ≡ 6) }
    ensures complete_status { IsTold (map string_bytes words.now) (T.told texts.old) (λ kind s. (w : Which) (r : Refusal) → IsRefused kind s.text s.rules s.listing w r → ⊥)
        → DidNotRise (T.faults texts.old) (T.faults texts.new) → DidNotRise (K.faults sink.old) (K.faults sink.new)
        → IsOneOf (0 ∷ 1 ∷ 2 ∷ 6 ∷ 8 ∷ []) result.status }

    // Status 4 comes only where a read failed, and status 5 only where a write did.
    ensures read_fault { result.status ≡ 4 → Rose (T.faults texts.old) (T.faults texts.new) }
    ensures write_fault { result.status ≡ 5 → Rose (K.faults sink.old) (K.faults sink.new) }
    ensures texts_sound { IsOneOf (0 ∷ 1 ∷ 2 ∷ 3 ∷ 7 ∷ 8 ∷ []) result.status → T.faults texts.new ≡ T.faults texts.old }
    ensures sink_sound { IsOneOf (0 ∷ 1 ∷ 2 ∷ 3 ∷ 4 ∷ 6 ∷ 7 ∷ 8 ∷ []) result.status → K.faults sink.new ≡ K.faults sink.old }

    // What is written, where the sink tells it.
    ensures page { IsOneOf (0 ∷ 1 ∷ 2 ∷ 8 ∷ []) result.status → IsThere result.report
        (λ r. K.written sink.new ≡ added (K.written sink.old) (page r)) }
    ensures read_fault_line { result.status ≡ 4 → IsThere (command_of (map string_bytes words.now))
        (λ c. (file : List ℕ) × AreAskedUpTo (T.asked texts.old) (T.asked texts.new) c.files file
        × (K.written sink.new ≡ added (K.written sink.old) (read_fault_line file))) }
    ensures words_line { result.status ≡ 7 → K.written sink.new ≡ added (K.written sink.old) words_line }
    ensures memory { result.status ≡ 6 → K.written sink.new ≡ K.written sink.old }
    ensures cut { result.status ≡ 5 → (output : List ℕ)
        × IsDueFor (command_of (map string_bytes words.now)) (record {
          told = T.told texts.old;
          asked_before = T.asked texts.old;
          asked_after = T.asked texts.new;
          faults_before = T.faults texts.old;
          faults_after = T.faults texts.new;
        }) result.report output
        × AddsPrefix (K.written sink.old) (K.written sink.new) output }

    // The files are read in their order, each at most once, and only for a command: all of them where none of the reads fails, and up to
    // the one that is told where one does (above).
    ensures unread { command_of (map string_bytes words.now) ≡ None → T.asked texts.new ≡ T.asked texts.old }
    ensures asked { IsOneOf (0 ∷ 1 ∷ 2 ∷ 3 ∷ 8 ∷ []) result.status → IsThere (command_of (map string_bytes words.now))
        (λ c. T.asked texts.new ≡ named_all (T.asked texts.old) c.files) }
    ensures once { IfSome (command_of (map string_bytes words.now)) (λ c. AreAskedInPart (T.asked texts.old) (T.asked texts.new) c.files) }

    ensures statuses { IsOneOf (0 ∷ 1 ∷ 2 ∷ 3 ∷ 4 ∷ 5 ∷ 6 ∷ 7 ∷ 8 ∷ []) result.status }
{
    law_not_both();
    let _ = world;
    attempt(alloc, words, texts, sink)
}

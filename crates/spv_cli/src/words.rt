// The words of a command, read by `clap`.

ghost use Rattle.std.specs.Prelude.{◌≡◌, ◌<◌, ◌≤◌, false, Some, IfOk, IfSome, length, map, option_map, string_bytes};
ghost use Rattle.clap.specs.Words.{app_of, found_of, one_text, rows_of, rule_of};
ghost use Rattle.spv_cli.specs.Arguments as arguments;
ghost use Rattle.spv_cli.specs.Commands as spec;
ghost use Rattle.spv_cli.specs.Commands.{command_of};
ghost use Rattle.spv_cli.specs.Runs.{HasSource};
ghost use Rattle.spv_cli.specs.Words.{AreEnough, AreOptions, IsNumber, command_view};

use clap::builder::ValueParser;
use clap::error::ErrorKind;
use clap::{Arg, ArgAction, ArgMatches};
use spv_reports::{Limits, Load, Mode, default_limits};
use std::alloc::{AllocError, Global};

/// What the words ask.
#[derive(Drop)]
pub(crate) struct Command<'a> {
    /// What is asked.
    pub(crate) mode: Mode,
    /// Whether a page has proofs.
    pub(crate) proofs: bool,
    /// Of which files.
    pub(crate) files: Vec<&'a str>,
}

// ---- what `clap` is told

// The argument `--name N`, where N is a whole number from 0 to `most`.
fn limit_arg<'a>(alloc: Global, name: &'a str, most: u64) -> Arg<'a>
    ensures rule { rule_of result ≡ arguments.limit_rule name.entry.now most }
    ensures local { result.global ≡ false }
{
    Arg::new(alloc, name)
        .long(name)
        .value_parser(ValueParser::unsigned(0, most))
}

// The argument `--proofs`.
fn proofs_arg<'a>(alloc: Global) -> Arg<'a>
    ensures rule { rule_of result ≡ arguments.proofs_rule }
    ensures local { result.global ≡ false }
{
    Arg::new(alloc, "proofs")
        .long("proofs")
        .action(ArgAction::SetTrue)
        .value_parser(ValueParser::bool())
}

// The word MODE.
fn mode_arg<'a>(alloc: Global) -> Arg<'a>
    ensures rule { rule_of result ≡ arguments.mode_rule }
    ensures local { result.global ≡ false }
{
    Arg::new(alloc, "mode").required(true)
}

// The words FILES.
fn files_arg<'a>(alloc: Global) -> Arg<'a>
    ensures rule { rule_of result ≡ arguments.files_rule }
    ensures local { result.global ≡ false }
{
    Arg::new(alloc, "files").required(true).num_args(1..)
}

// The command as `clap` reads it.
fn spv_command<'a>(alloc: Global) -> Result<clap::Command<'a>, AllocError>
    ensures { IfOk result (λ c. app_of c ≡ arguments.spv) }
{
    clap::Command::new(alloc, "spv")
        .disable_help_flag(true)
        .arg(mode_arg(alloc))?
        .arg(files_arg(alloc))?
        .arg(limit_arg(alloc, "splits", 1_000_000))?
        .arg(limit_arg(alloc, "instances", 20_000))?
        .arg(limit_arg(alloc, "pivots", 1_000_000))?
        .arg(proofs_arg(alloc))
}

// ---- what it found

// The number that is given for an option, or what holds where none is.
fn given_or(matches: &ArgMatches<'_>, name: &str, otherwise: u64) -> u64
    requires { IsNumber (found_of matches.now) name.now }
    ensures { result ≡ spec.given_or otherwise (one_text (found_of matches.now) name.now) }
{
    match matches.get_one::<u64>(name) {
        Some(number) => number,
        None => otherwise,
    }
}

// The limits of a search: those that are given, and else the usual ones.
fn limits_in(matches: &ArgMatches<'_>) -> Limits
    requires { AreOptions (found_of matches.now) }
    ensures { result ≡ spec.limits_in (rows_of (found_of matches.now)) }
{
    let usual = default_limits();
    Limits::new(
        given_or(matches, "splits", usual.splits()),
        given_or(matches, "instances", usual.instances()),
        given_or(matches, "pivots", usual.pivots()),
    )
}

/// What a mode asks.
#[derive(Clone, Copy, Debug)]
pub(crate) enum Verb {
    /// Verdicts on the conditions of a program.
    Verify,
    /// A verdict on the one condition of a formula text.
    Simplify,
    /// Verdicts on the proofs that a listing has of the conditions of a program.
    Check,
    /// The conditions of a program.
    Conditions,
    /// How many of the conditions of a generated program are proved.
    Drill,
}

// A mode that a word names: how many FILES it takes, and what is asked.
#[derive(Clone, Copy)]
struct ModeRow {
    fewest: usize,
    most: usize,
    verb: Verb,
}

// A mode that takes one file, and maybe more up to this number.
fn from_one(most: usize, verb: Verb) -> ModeRow
    ensures { result ≡ record { fewest = 1; most = most; verb = verb } }
{
    ModeRow {
        fewest: 1,
        most,
        verb,
    }
}

// The mode that a word names.
#[tactic(auto, using(crate::proofs::ByRows::none_named))]
fn mode_named(word: &str) -> Option<ModeRow>
    ensures row { result ≡ option_map (λ m. record { fewest = m.fewest; most = m.most; verb = m.verb }) (spec.mode_named word.now) }
    ensures some { IfSome result (λ row. AreEnough row.verb row.fewest) }
{
    if word == "verify" {
        return Some(from_one(2, Verb::Verify));
    }
    if word == "simplify" {
        return Some(from_one(2, Verb::Simplify));
    }
    if word == "check" {
        return Some(ModeRow {
            fewest: 2,
            most: 3,
            verb: Verb::Check,
        });
    }
    if word == "conditions" {
        return Some(from_one(1, Verb::Conditions));
    }
    if word == "drill" {
        return Some(ModeRow {
            fewest: 2,
            most: 2,
            verb: Verb::Drill,
        });
    }
    None
}

// ---- loads

// The number that digits say with one more, if it is one, and the number this one at most.
fn behind_digit(n: u64, byte: u8, most: u64) -> Option<u64>
    ensures number { result ≡ spec.behind_digit most (Some n) byte }
    ensures within { IfSome result (λ m. m ≤ most) }
{
    if !byte.is_ascii_digit() {
        return None;
    }
    let next = u128::from(n) * 10 + u128::from(byte - b'0');
    if next <= u128::from(most) {
        Some(next as u64)
    } else {
        None
    }
}

// The number that plain digits say, if it is this one at most.
fn plain_number(text: &str, most: u64) -> Option<u64>
    ensures number { result ≡ spec.plain_number most text.now }
    ensures within { IfSome result (λ n. n ≤ most) }
{
    let bytes = text.as_bytes();
    if bytes.is_empty() {
        return None;
    }
    let mut number = 0;
    for byte in bytes {
        match behind_digit(number, *byte, most) {
            Some(next) => number = next,
            None => return None,
        }
    }
    Some(number)
}

// The load that two words say.
fn load_in(words: &[&str]) -> Option<Load>
    ensures { result ≡ spec.load_in (map (λ word. word.now) words.now) }
{
    if words.len() != 2 {
        return None;
    }
    let number = plain_number(words[0], u64::MAX)?;
    let size = plain_number(words[1], 60)?;
    if 1 <= size {
        Some(Load {
            number,
            size: size as u32,
        })
    } else {
        None
    }
}

// Whether proofs are wanted.
fn proofs_in(matches: &ArgMatches<'_>) -> bool
    requires { AreOptions (found_of matches.now) }
    ensures { result ≡ spec.proofs_in (rows_of (found_of matches.now)) }
{
    matches.get_flag("proofs")
}

// The words FILES.
fn files_in<'a>(alloc: Global, matches: &ArgMatches<'a>) -> Result<Vec<&'a str>, AllocError>
    ensures { IfOk result (λ files. map (λ file. file.now) files.items ≡ spec.files_in (rows_of (found_of matches.now))) }
{
    match matches.get_strs("files") {
        Some(files) => Vec::from_slice(alloc, files),
        None => Ok(Vec::new(alloc)),
    }
}

// What is asked of FILES, of which there are so many as it takes.
fn command_for<'a>(
    verb: Verb,
    limits: Limits,
    proofs: bool,
    mut files: Vec<&'a str>,
) -> Option<Command<'a>>
    requires { AreEnough verb (length files.items) }
    ensures command { option_map command_view result ≡ spec.command_for verb limits proofs (map (λ file. file.now) files.entry.items) }
    ensures source { IfSome result (λ c. HasSource c.mode (length c.files.items)) }
{
    let mode = match verb {
        Verb::Verify => Mode::Verify(limits),
        Verb::Simplify => Mode::Simplify(limits),
        Verb::Check => Mode::Check,
        Verb::Conditions => Mode::Conditions,
        Verb::Drill => {
            let load = load_in(files.as_slice())?;
            files.clear();
            Mode::Drill(load, limits)
        }
    };
    Some(Command {
        mode,
        proofs,
        files,
    })
}

// What is asked in this mode, if it takes so many FILES.
#[tactic(auto, using(crate::proofs::ByRows::enough_more))]
fn command_with<'a>(
    row: ModeRow,
    limits: Limits,
    proofs: bool,
    files: Vec<&'a str>,
) -> Option<Command<'a>>
    requires { AreEnough row.verb row.fewest }
    ensures command { option_map command_view result ≡ spec.command_if row.fewest row.most row.verb limits proofs (map (λ file. file.now) files.entry.items) }
    ensures source { IfSome result (λ c. HasSource c.mode (length c.files.items)) }
{
    if row.fewest <= files.len() && files.len() <= row.most {
        command_for(row.verb, limits, proofs, files)
    } else {
        None
    }
}

// The command with this word for its mode, if there is such a mode, and it takes so many FILES.
#[tactic(auto, using(crate::proofs::ByRows::named_command, crate::proofs::ByRows::no_command))]
fn command_named<'a>(
    word: &str,
    limits: Limits,
    proofs: bool,
    files: Vec<&'a str>,
) -> Option<Command<'a>>
    ensures command { option_map command_view result ≡ spec.command_named word.now limits proofs (map (λ file. file.now) files.entry.items) }
    ensures source { IfSome result (λ c. HasSource c.mode (length c.files.items)) }
{
    match mode_named(word) {
        Some(row) => command_with(row, limits, proofs, files),
        None => None,
    }
}

// The command that was found, if it is one.
fn command_in<'a>(
    alloc: Global,
    matches: &ArgMatches<'a>,
) -> Result<Option<Command<'a>>, AllocError>
    requires { AreOptions (found_of matches.now) }
    ensures command { IfOk result (λ c. option_map command_view c ≡ spec.command_in (rows_of (found_of matches.now))) }
    ensures source { IfOk result (λ c. IfSome c (λ c. HasSource c.mode (length c.files.items))) }
{
    let files = files_in(alloc, matches)?;
    match matches.get_str("mode") {
        Some(word) => Ok(command_named(word, limits_in(matches), proofs_in(matches), files)),
        None => Ok(None),
    }
}

/// The command that words are, of which the first is the program's name, if they are one.
pub(crate) fn read_words<'a>(
    alloc: Global,
    words: &'a [String],
) -> Result<Option<Command<'a>>, AllocError>
    ensures command { IfOk result (λ c. option_map command_view c ≡ command_of (map string_bytes words.now)) }
    ensures source { IfOk result (λ c. IfSome c (λ c. HasSource c.mode (length c.files.items))) }
{
    let command = spv_command(alloc)?;
    match command.try_get_matches_from(words) {
        Ok(matches) => command_in(alloc, &matches),
        Err(error) if error.kind() == ErrorKind::OutOfMemory => Err(AllocError),
        Err(_) => Ok(None),
    }
}

//! `spv`: main alone. It hands the words, the files and the standard output to the run, and
//! ends with its status.
#![tactic(auto)]

use spv_cli::run;
use spv_io::{FileTexts, Sink, StdSink};
use spv_term::PlainWorld;
use std::process::ExitCode;
use std::{env, io};

/// The status where the words are no command.
const NO_COMMAND: u8 = 7;

/// The status where a write failed.
const WRITE_FAULT: u8 = 5;

/// The status for want of memory.
const NO_MEMORY: u8 = 6;

// The status where the words cannot be read: nothing for want of memory, and else one is not UTF-8.
fn without_words(rt: &HostRuntime, fault: &io::Error) -> u8 {
    if fault.kind() == io::ErrorKind::OutOfMemory {
        return NO_MEMORY;
    }
    match StdSink::new(rt).write(b"WORDS\n") {
        Ok(()) => NO_COMMAND,
        Err(_) => WRITE_FAULT,
    }
}

// The words that the program was called with, its name first.
fn words_of(rt: &HostRuntime) -> io::Result<Vec<String>> {
    let mut words = Vec::new(rt.alloc());
    for word in env::args(rt)? {
        words.push(word)?;
    }
    Ok(words)
}

fn main(rt: HostRuntime) -> ExitCode {
    let status = match words_of(&rt) {
        Ok(words) => {
            let mut texts = FileTexts::new(&rt);
            let mut sink = StdSink::new(&rt);
            run(rt.alloc(), &words, &mut texts, &mut sink, &PlainWorld).status
        }
        Err(fault) => without_words(&rt, &fault),
    };
    ExitCode::from(status)
}

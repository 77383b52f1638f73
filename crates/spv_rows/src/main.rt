//! Runs `spv` on the cases of its standard input, each over texts and a sink in memory, and prints what
//! each run wrote and answered. A further case is a few lines of data.
//!
//! A line of input is one of these:
//!
//!     # REMARK          is printed as it stands
//!     file NAME         begins a file of the next run, empty so far
//!     |TEXT             adds a line to the file
//!     +TEXT             adds a text without a line end
//!     times N TEXT      adds a text so many times
//!     lines N TEXT      adds a line so many times
//!     numbered N TEXT   adds a line so many times, with its number from 1 on in the place of its first `#`
//!     bytes N M         adds the bytes from N to M
//!     read N            lets the read of this number fail, counted from 1
//!     write N COUNT     lets the write of this number fail, counted from 1, after so many bytes
//!     room N            the bytes that the sink takes in all; 100000 where nothing is said
//!     run WORD ..       runs `spv` with these words
//!     call WORD ..      the same without the program's name before them
//!     cut WORD ..       runs `spv` with these words for each text that the file begins with, but itself
//!
//! After a run nothing is left of the case. Any other line is printed as one that cannot be read.
#![tactic(auto)]

mod case;
mod shown;

use case::Case;
use std::alloc::{AllocError, Global};
use std::io::{self, BufRead, BufReader, Write};

// Reads one line: a part of the case, or a run of it.
fn step(alloc: Global, case: Case, line: &str, out: &mut Vec<u8>) -> Result<Case, AllocError> {
    let (word, rest) = line.split_once(' ').unwrap_or((line, ""));
    if word == "#" {
        shown::add_line(out, line)?;
        return Ok(case);
    }
    if word == "run" || word == "call" {
        shown::add_line(out, line)?;
        let words = shown::words_of(alloc, word == "run", rest)?;
        case.run(alloc, &words, out)?;
        return Ok(Case::new(alloc));
    }
    if word == "cut" {
        shown::add_line(out, line)?;
        let words = shown::words_of(alloc, true, rest)?;
        case.run_cut(alloc, &words, out)?;
        return Ok(Case::new(alloc));
    }
    case.with_line(alloc, line, out)
}

fn main(rt: HostRuntime) -> io::Result<()> {
    let alloc = rt.alloc();
    let mut case = Case::new(alloc);
    let mut out = Vec::new(alloc);
    for line in BufReader::new(alloc, rt.reader())?.lines(alloc) {
        let line = line?;
        case = step(alloc, case, line.as_str(), &mut out)?;
    }
    io::writer(&rt).write_all(&out)
}

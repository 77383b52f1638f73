//! Runs checks of a tableau on the systems of its standard input, and prints each answer with all that it carries. A
//! further system is a few lines of data.
//!
//! A line of input is one of these:
//!
//!     # REMARK                is printed as it stands
//!     system                  begins a system without rows
//!     row P C P C ..          a row: part P, from 0 to 1999, times the whole number C, and so on
//!     open TRAIL PIVOTS       opens a tableau of the rows
//!     lower ROW N D           asserts that the row is at least N / D
//!     upper ROW N D           asserts that the row is at most N / D
//!     mark                    makes a mark
//!     undo K                  goes back to the mark of this number, counted from 0
//!     check                   checks, and prints the answer
//!     again COUNT ROW N D     so often: that the row is at most N / D, a check, and back; prints how many were feasible
//!
//! Any other line, and one that asks what may not be done, is printed as one that cannot be read.
#![tactic(auto)]

mod numbers;
mod shown;
mod sums;
mod system;

use spv_term::Terms;
use std::alloc::{AllocError, Global};
use std::io::{self, BufRead, BufReader, Write};
use system::System;

// Reads one line, and prints what it asks for.
fn step(
    alloc: Global,
    terms: &mut Terms,
    system: &mut System,
    line: &str,
    out: &mut Vec<u8>,
) -> Result<(), AllocError> {
    let (word, rest) = line.split_once(' ').unwrap_or((line, ""));
    if word == "#" {
        return shown::add_line(out, line);
    }
    let numbers = numbers::read(alloc, rest)?;
    if !system.run(alloc, terms, word, numbers.as_slice(), out)? {
        out.extend_from_slice(b"cannot be read: ")?;
        shown::add_line(out, line)?;
    }
    Ok(())
}

fn main(rt: HostRuntime) -> io::Result<()> {
    let alloc = rt.alloc();
    let Ok(mut terms) = sums::parts(alloc, 2000) else {
        return Ok(());
    };
    let mut system = System::new(alloc);
    let mut out = Vec::new(alloc);
    for line in BufReader::new(alloc, rt.reader())?.lines(alloc) {
        let line = line?;
        step(alloc, &mut terms, &mut system, line.as_str(), &mut out)?;
    }
    io::writer(&rt).write_all(&out)
}

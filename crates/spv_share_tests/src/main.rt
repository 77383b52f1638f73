//! Plays cases of its standard input on a congruence graph and a tableau that exchange equalities, and prints what each state is. A
//! further case is a few lines of data.
//!
//! A line of input is one of these. The terms of a case have numbers from 0, in the order in which they are first made; the atoms have
//! places from 0.
//!
//!     # REMARK           is printed as it stands
//!     variable N         makes a variable, a whole number
//!     number Z           makes a numeral
//!     plus S T · minus S T · times S T        makes a sum, a difference, a product
//!     apply T            makes F of T, which F takes and gives a whole number
//!     equal S T · less S T · at-most S T      makes a relation
//!     atom T             takes a term as the next atom
//!     true K · false K   tells that the atom at a place is true, or false
//!     below K · above K  tells that the left side of the equation at a place is below the right one, or above it
//!     mark · undo        marks what is told; goes back to the mark
//!     state              prints what was told comes to: open, closed or limit
//!     play PIVOTS        opens both sides for the atoms, with so many pivots a check, and does the steps; then nothing is left of the case
//!
//! Any other line is printed as one that cannot be read.
#![tactic(auto)]

mod case;
mod play;
mod shown;

use case::Case;
use std::alloc::{AllocError, Global};
use std::io::{self, BufRead, BufReader, Write};

// Reads one line: a part of the case, or its end.
fn step(alloc: Global, case: &mut Case, line: &str, out: &mut Vec<u8>) -> Result<(), AllocError> {
    let (word, rest) = line.split_once(' ').unwrap_or((line, ""));
    if word == "#" {
        return shown::add_line(out, line);
    }
    if !case.read(alloc, word, rest, out)? {
        out.extend_from_slice(b"cannot be read: ")?;
        shown::add_line(out, line)?;
    }
    Ok(())
}

fn main(rt: HostRuntime) -> io::Result<()> {
    let alloc = rt.alloc();
    let mut case = Case::new(alloc)?;
    let mut out = Vec::new(alloc);
    for line in BufReader::new(alloc, rt.reader())?.lines(alloc) {
        let line = line?;
        step(alloc, &mut case, line.as_str(), &mut out)?;
    }
    io::writer(&rt).write_all(&out)
}

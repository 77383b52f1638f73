//! Plays cases of its standard input on the congruence graph, and prints what each of them shows. A
//! further case is a few lines of data.
//!
//! A line of input is one of these. The terms of a case have numbers from 0, in the order in which they
//! are first made; all of them are made before the first step is done.
//!
//!     # REMARK          is printed as it stands
//!     var N             makes a variable, a list
//!     car S · cdr S     makes the first part, the rest of a list
//!     cons S T          makes the pair of two lists
//!     one · two         makes a numeral
//!     true · false      makes a truth value
//!     add S             adds a term
//!     join S T WHY      tells that two terms are equal
//!     separate S T WHY  tells that they are separate
//!     mark · undo       marks what is told; goes back to the last mark that is left
//!     note · noted      notes the classes of all terms that were added; prints whether they are the same
//!     same S T          prints whether two terms are the same
//!     explain S T       prints the links from the one to the other
//!     clash             prints two terms that are the same and cannot be
//!     play              does the steps of the case and ends it
//!
//! A term that a line names is added with its parts before the step is done. A line that cannot be read
//! is printed.
#![tactic(auto)]

mod case;
mod play;
mod shown;

use case::Case;
use std::alloc::{AllocError, Global};
use std::io::{self, BufRead, BufReader, Write};

// Reads one line: a part of the case, or its end.
fn step(alloc: Global, case: &mut Case, line: &str, out: &mut Vec<u8>) -> Result<(), AllocError> {
    let (word, rest) = line.split_once(' ').unwrap_or((line, ""));
    if word == "#" {
        return shown::add_line(out, line);
    }
    if word == "play" {
        return case.play(alloc, out);
    }
    if !case.read(alloc, word, rest)? {
        out.extend_from_slice(b"cannot be read: ")?;
        shown::add_line(out, line)?;
    }
    Ok(())
}

fn main(rt: HostRuntime) -> io::Result<()> {
    let alloc = rt.alloc();
    let mut case = Case::new(alloc);
    let mut out = Vec::new(alloc);
    for line in BufReader::new(alloc, rt.reader())?.lines(alloc) {
        let line = line?;
        step(alloc, &mut case, line.as_str(), &mut out)?;
    }
    io::writer(&rt).write_all(&out)
}

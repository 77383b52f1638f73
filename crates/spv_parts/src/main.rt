//! Prints what the parts of `spv` answer that no run of the command shows: fractions and tokens of the
//! lines of its standard input, terms of every head, texts and sinks in memory, a real file and the
//! standard output. A further fraction or text is a line of data.
//!
//! A line of input is one of these:
//!
//!     # REMARK              is printed as it stands
//!     token TEXT            prints the kinds of the text's tokens
//!     OP FRACTION FRACTION  prints what add, sub, mul, div or cmp answers
#![tactic(auto)]

mod fractions;
mod laws;
mod messages;
mod names;
mod outside;
#[cfg(test)]
mod report_tests;
mod terms;
mod tokens;

use std::alloc::{AllocError, Global};
use std::io::{self, BufRead, BufReader};

// Prints what a line asks for.
fn answer(alloc: Global, line: &str, out: &mut Vec<u8>) -> Result<(), AllocError> {
    out.extend_from_slice(line.as_bytes())?;
    let (word, rest) = line.split_once(' ').unwrap_or((line, ""));
    if word == "token" {
        out.extend_from_slice(b" = ")?;
        tokens::show(alloc, rest, out)?;
    } else if word != "#" {
        out.extend_from_slice(b" = ")?;
        fractions::show(alloc, word, rest, out)?;
    }
    out.extend_from_slice(b"\n")
}

fn main(rt: HostRuntime) -> io::Result<()> {
    let alloc = rt.alloc();
    let mut out = Vec::new(alloc);
    for line in BufReader::new(alloc, rt.reader())?.lines(alloc) {
        let line = line?;
        answer(alloc, line.as_str(), &mut out)?;
    }
    laws::call();
    names::show(alloc, &mut out)?;
    messages::show(alloc, &mut out)?;
    terms::show(alloc, &mut out)?;
    outside::show(&rt, &mut out)?;
    outside::write(&rt, &out);
    Ok(())
}

// A case: the files of a run, and which of its reads and writes fail.

use crate::shown;
use spv_cli::run;
use spv_io::{MemorySink, MemoryTexts};
use spv_logic::PlainWorld;
use std::alloc::{AllocError, Global};

/// The bytes that a sink takes in all, where a case says nothing of it.
const ROOM: usize = 100_000;

/// What the next run finds.
#[derive(Drop)]
pub struct Case {
    files: Vec<(String, Vec<u8>)>,
    reads: Vec<u64>,
    writes: Vec<(u64, usize)>,
    room: usize,
}

// The two parts of a text at its first blank.
fn halves(text: &str) -> (&str, &str) {
    text.split_once(' ').unwrap_or((text, ""))
}

impl Case {
    /// A case without a file, in which nothing fails.
    pub fn new(alloc: Global) -> Case {
        Case {
            files: Vec::new(alloc),
            reads: Vec::new(alloc),
            writes: Vec::new(alloc),
            room: ROOM,
        }
    }

    // Adds bytes to the file that was begun last.
    fn add(&mut self, bytes: &[u8]) -> Result<(), AllocError> {
        match self.files.last_mut() {
            Some(file) => file.1.extend_from_slice(bytes),
            None => Ok(()),
        }
    }

    // Adds a text so many times, each with this end.
    fn repeat(&mut self, count: u64, text: &str, end: &[u8]) -> Result<(), AllocError> {
        for _ in 0..count {
            self.add(text.as_bytes())?;
            self.add(end)?;
        }
        Ok(())
    }

    // Adds a line so many times, with its number from 1 on in the place of the first sign `#`.
    fn number(&mut self, alloc: Global, count: u64, text: &str) -> Result<(), AllocError> {
        let (before, behind) = text.split_once('#').unwrap_or((text, ""));
        for number in 1..=count {
            let line = format!(in alloc; "{before}{number}{behind}\n")?;
            self.add(line.as_str().as_bytes())?;
        }
        Ok(())
    }

    // Adds the bytes from one to another.
    fn add_range(&mut self, from: u8, to: u8) -> Result<(), AllocError> {
        for byte in from..=to {
            self.add(&[byte])?;
        }
        Ok(())
    }

    // Begins a file of this name.
    fn begin(&mut self, alloc: Global, name: &str) -> Result<(), AllocError> {
        let name = String::from_str(alloc, name)?;
        self.files.push((name, Vec::new(alloc)))?;
        Ok(())
    }

    // Reads a line whose first word takes two numbers, or a number and a text; whether it is one.
    fn set_pair(
        &mut self,
        alloc: Global,
        word: &str,
        first: u64,
        second: &str,
    ) -> Result<bool, AllocError> {
        if word == "times" {
            self.repeat(first, second, b"")?;
            return Ok(true);
        }
        if word == "lines" {
            self.repeat(first, second, b"\n")?;
            return Ok(true);
        }
        if word == "numbered" {
            self.number(alloc, first, second)?;
            return Ok(true);
        }
        if word == "read" {
            self.reads.push(first)?;
            return Ok(true);
        }
        let Ok(number) = second.parse::<u64>() else {
            return Ok(false);
        };
        self.set_numbers(word, first, number)
    }

    // Reads a line whose first word takes two numbers; whether it is one.
    fn set_numbers(&mut self, word: &str, first: u64, second: u64) -> Result<bool, AllocError> {
        if word == "bytes" && first <= second && second <= 255 {
            self.add_range(first as u8, second as u8)?;
            return Ok(true);
        }
        if word == "write" {
            self.writes.push((first, second as usize))?;
            return Ok(true);
        }
        Ok(false)
    }

    // Reads a line of the case; whether it is one.
    fn set(&mut self, alloc: Global, line: &str) -> Result<bool, AllocError> {
        if let Some(text) = line.strip_prefix("|") {
            self.repeat(1, text, b"\n")?;
            return Ok(true);
        }
        if let Some(text) = line.strip_prefix("+") {
            self.repeat(1, text, b"")?;
            return Ok(true);
        }
        let (word, rest) = halves(line);
        if word == "file" {
            self.begin(alloc, rest)?;
            return Ok(true);
        }
        let (first, second) = halves(rest);
        let Ok(number) = first.parse::<u64>() else {
            return Ok(false);
        };
        if word == "room" {
            self.room = number as usize;
            return Ok(true);
        }
        self.set_pair(alloc, word, number, second)
    }

    /// The case with what a line of it says. A line that cannot be read is printed.
    pub fn with_line(
        mut self,
        alloc: Global,
        line: &str,
        out: &mut Vec<u8>,
    ) -> Result<Case, AllocError> {
        if !self.set(alloc, line)? {
            out.extend_from_slice(b"cannot be read: ")?;
            shown::add_line(out, line)?;
        }
        Ok(self)
    }

    /// Runs `spv` with these words over the files, and prints what was written, the status, and
    /// whether there is a report.
    pub fn run(self, alloc: Global, words: &[String], out: &mut Vec<u8>) -> Result<(), AllocError> {
        let mut texts = MemoryTexts::new(alloc, self.files, self.reads);
        let mut sink = MemorySink::new(alloc, self.room, self.writes)?;
        let ran = run(alloc, words, &mut texts, &mut sink, &PlainWorld);
        out.extend_from_slice(sink.bytes())?;
        shown::add_end(alloc, out, ran.status, ran.report.is_some())
    }

    /// Runs `spv` with these words over the file that was begun last, once for each text that it begins with, from the empty one on and without
    /// itself, and prints the same of each.
    pub fn run_cut(
        self,
        alloc: Global,
        words: &[String],
        out: &mut Vec<u8>,
    ) -> Result<(), AllocError> {
        let Some((name, text)) = self.files.last() else {
            return Ok(());
        };
        for size in 0..text.len() {
            let mut cut = Case::new(alloc);
            cut.begin(alloc, name.as_str())?;
            cut.add(&text.as_slice()[..size])?;
            cut.run(alloc, words, out)?;
        }
        Ok(())
    }
}

// What is printed of a run.

use std::alloc::{AllocError, Global};

/// Adds a line.
pub fn add_line(out: &mut Vec<u8>, line: &str) -> Result<(), AllocError> {
    out.extend_from_slice(line.as_bytes())?;
    out.extend_from_slice(b"\n")
}

/// Adds the status, and whether there is a report, on a line of their own.
pub fn add_end(
    alloc: Global,
    out: &mut Vec<u8>,
    status: u8,
    has_report: bool,
) -> Result<(), AllocError> {
    let report = if has_report { "a report" } else { "no report" };
    let line = format!(in alloc; "STATUS {status}, {report}\n")?;
    out.extend_from_slice(line.as_str().as_bytes())
}

/// The words between blanks, behind the program's name where it is wanted.
pub fn words_of(alloc: Global, is_named: bool, line: &str) -> Result<Vec<String>, AllocError> {
    let mut words = Vec::new(alloc);
    if is_named {
        words.push(String::from_str(alloc, "spv")?)?;
    }
    for word in line.split_whitespace() {
        words.push(String::from_str(alloc, word)?)?;
    }
    Ok(words)
}

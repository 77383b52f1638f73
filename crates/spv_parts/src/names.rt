// The table of names.

use spv_logic::names::{Names, Symbol};
use std::alloc::{AllocError, Global};

// Adds a number, where there is one.
fn push_number(alloc: Global, found: Option<Symbol>, out: &mut Vec<u8>) -> Result<(), AllocError> {
    let line = match found {
        Some(symbol) => format!(in alloc; "name {}\n", symbol.0)?,
        None => String::from_str(alloc, "no name\n")?,
    };
    out.extend_from_slice(line.as_str().as_bytes())
}

// A table into which texts were entered, of which one came twice.
fn entered(alloc: Global, out: &mut Vec<u8>) -> Result<Names, AllocError> {
    let mut names = Names::new(alloc);
    push_number(alloc, Some(names.enter(b"PIVOT")?), out)?;
    push_number(alloc, Some(names.enter(b"")?), out)?;
    push_number(alloc, Some(names.enter(b"X1")?), out)?;
    push_number(alloc, Some(names.enter(b"PIVOT")?), out)?;
    Ok(names)
}

/// Adds the numbers of texts as they are entered and found.
pub fn show(alloc: Global, out: &mut Vec<u8>) -> Result<(), AllocError> {
    let names = entered(alloc, out)?;
    names.law_different();
    push_number(alloc, names.find(b"X1"), out)?;
    push_number(alloc, names.find(b"X"), out)
}

// What is printed.

use spv_frac::{Frac, Op};
use spv_simplex::{Evidence, Side};
use std::alloc::{AllocError, Global};

/// Adds a line.
pub fn add_line(out: &mut Vec<u8>, line: &str) -> Result<(), AllocError> {
    out.extend_from_slice(line.as_bytes())?;
    out.extend_from_slice(b"\n")
}

/// Adds a number behind a blank.
pub fn add_number(alloc: Global, out: &mut Vec<u8>, number: i128) -> Result<(), AllocError> {
    let text = format!(in alloc; " {number}")?;
    out.extend_from_slice(text.as_str().as_bytes())
}

/// Adds a fraction behind a blank.
pub fn add_fraction(alloc: Global, out: &mut Vec<u8>, number: Frac) -> Result<(), AllocError> {
    let (num, den) = (number.num, number.den);
    let text = format!(in alloc; " {num}/{den}")?;
    out.extend_from_slice(text.as_str().as_bytes())
}

// Adds a side behind a blank.
fn add_side(out: &mut Vec<u8>, side: Side) -> Result<(), AllocError> {
    match side {
        Side::Lower => out.extend_from_slice(b" lower"),
        Side::Upper => out.extend_from_slice(b" upper"),
    }
}

/// Adds rows, each with its side and a number.
pub fn add_rows(
    alloc: Global,
    out: &mut Vec<u8>,
    rows: &[(u32, Side, Frac)],
) -> Result<(), AllocError> {
    for (row, side, number) in rows {
        add_number(alloc, out, i128::from(*row))?;
        add_side(out, *side)?;
        add_fraction(alloc, out, *number)?;
    }
    Ok(())
}

// Adds the columns in the basis.
fn add_start(alloc: Global, out: &mut Vec<u8>, columns: &[u32]) -> Result<(), AllocError> {
    for column in columns {
        add_number(alloc, out, i128::from(*column))?;
    }
    Ok(())
}

// Adds columns, each with what it held.
fn add_held(alloc: Global, out: &mut Vec<u8>, held: &[(u32, Frac)]) -> Result<(), AllocError> {
    for (column, number) in held {
        add_number(alloc, out, i128::from(*column))?;
        add_fraction(alloc, out, *number)?;
    }
    Ok(())
}

// Adds steps, each with its leaving and its entering column.
fn add_steps(alloc: Global, out: &mut Vec<u8>, steps: &[(u32, u32)]) -> Result<(), AllocError> {
    for (leaving, entering) in steps {
        add_number(alloc, out, i128::from(*leaving))?;
        add_number(alloc, out, i128::from(*entering))?;
    }
    Ok(())
}

// The word of an operation.
fn word(op: Op) -> &'static [u8] {
    match op {
        Op::Add => b" Add",
        Op::Sub => b" Sub",
        Op::Mul => b" Mul",
        Op::Div => b" Div",
        Op::Cmp => b" Cmp",
    }
}

/// Adds all that an evidence has, on five lines.
pub fn add_evidence(
    alloc: Global,
    out: &mut Vec<u8>,
    evidence: &Evidence,
) -> Result<(), AllocError> {
    out.extend_from_slice(word(evidence.op()))?;
    add_fraction(alloc, out, evidence.left())?;
    add_fraction(alloc, out, evidence.right())?;
    out.extend_from_slice(b"\n  bounds")?;
    add_rows(alloc, out, evidence.bounds())?;
    out.extend_from_slice(b"\n  start")?;
    add_start(alloc, out, evidence.start())?;
    out.extend_from_slice(b"\n  held")?;
    add_held(alloc, out, evidence.held())?;
    out.extend_from_slice(b"\n  steps")?;
    add_steps(alloc, out, evidence.steps())
}

/// Adds how often a check found a point, on a line.
pub fn add_count(alloc: Global, out: &mut Vec<u8>, feasible: u64) -> Result<(), AllocError> {
    out.extend_from_slice(b"feasible, times")?;
    add_number(alloc, out, i128::from(feasible))?;
    out.extend_from_slice(b"\n")
}

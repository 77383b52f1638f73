// The messages of refusals, and of what else leaves a text without a report.

use spv_logic::list::List;
use spv_verify::refused::{Refusal, VerifyFault, Which};
use std::alloc::{AllocError, Global};

// Adds the message of a refusal.
fn add(alloc: Global, refusal: Refusal, out: &mut Vec<u8>) -> Result<(), AllocError> {
    let line = format!(in alloc; "{refusal}\n")?;
    out.extend_from_slice(line.as_str().as_bytes())
}

// Adds the message of a fault.
fn add_fault(alloc: Global, fault: VerifyFault, out: &mut Vec<u8>) -> Result<(), AllocError> {
    let line = format!(in alloc; "{fault}\n")?;
    out.extend_from_slice(line.as_str().as_bytes())
}

// Those of reading.
fn show_reading(alloc: Global, out: &mut Vec<u8>) -> Result<(), AllocError> {
    add(alloc, Refusal::Byte(1, List::new(alloc)), out)?;
    add(alloc, Refusal::Comment(4294967295, List::new(alloc)), out)?;
    add(alloc, Refusal::Numeral(3, List::new(alloc)), out)?;
    add(alloc, Refusal::Length(1, List::new(alloc)), out)?;
    add(alloc, Refusal::Syntax(2, List::new(alloc)), out)?;
    add(alloc, Refusal::Depth(4, List::new(alloc)), out)?;
    add(alloc, Refusal::Profile(5, List::new(alloc)), out)
}

// Those of names and types.
fn show_types(alloc: Global, out: &mut Vec<u8>) -> Result<(), AllocError> {
    add(alloc, Refusal::Undeclared(6, List::new(alloc)), out)?;
    add(alloc, Refusal::Twice(7, List::new(alloc)), out)?;
    add(alloc, Refusal::Typing(8, List::new(alloc)), out)?;
    add(alloc, Refusal::Count(9, List::new(alloc)), out)?;
    add(alloc, Refusal::Nested(10, List::new(alloc)), out)?;
    add(alloc, Refusal::Parameter(11, List::new(alloc)), out)?;
    add(alloc, Refusal::Control(12, List::new(alloc)), out)
}

// Those of frames and of limits.
fn show_frames(alloc: Global, out: &mut Vec<u8>) -> Result<(), AllocError> {
    add(alloc, Refusal::Alias(13, List::new(alloc)), out)?;
    add(alloc, Refusal::Global(14, List::new(alloc)), out)?;
    add(alloc, Refusal::Function(15, List::new(alloc)), out)?;
    add(alloc, Refusal::Size(1, List::new(alloc)), out)
}

// Those of rules and of listings.
fn show_others(alloc: Global, out: &mut Vec<u8>) -> Result<(), AllocError> {
    add(alloc, Refusal::Unbound(16, List::new(alloc)), out)?;
    add(alloc, Refusal::Listing(17, List::new(alloc)), out)
}

/// Adds the message of each refusal and fault.
pub fn show(alloc: Global, out: &mut Vec<u8>) -> Result<(), AllocError> {
    show_reading(alloc, out)?;
    show_types(alloc, out)?;
    show_frames(alloc, out)?;
    show_others(alloc, out)?;
    add_fault(
        alloc,
        VerifyFault::Refused(Which::Rules, Refusal::Size(1, List::new(alloc))),
        out,
    )?;
    add_fault(alloc, VerifyFault::Memory, out)
}

// What is printed.

use spv_share::Shared;
use std::alloc::AllocError;

/// Adds a line.
pub fn add_line(out: &mut Vec<u8>, line: &str) -> Result<(), AllocError> {
    out.extend_from_slice(line.as_bytes())?;
    out.extend_from_slice(b"\n")
}

/// Adds what was told comes to.
pub fn add_state(out: &mut Vec<u8>, shared: &Shared) -> Result<(), AllocError> {
    match shared {
        Shared::Open => add_line(out, "open"),
        Shared::Closed(_) => add_line(out, "closed"),
        Shared::Limit => add_line(out, "limit"),
    }
}

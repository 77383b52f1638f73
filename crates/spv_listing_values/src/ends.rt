// The last lines of a page.

ghost use Rattle.std.specs.Prelude.{◌≡◌, ◌++◌, OnOk};
ghost use Rattle.spv_listing_values.specs.Written.{line_bytes, word};
ghost use Rattle.spv_listing_values.specs.Lines.{number};
ghost use Rattle.spv_listing_values.specs.Page.{total_line, result_line};

use crate::push::push_number;
use std::alloc::AllocError;

// The line of these counts.
pub(crate) fn push_total(
    out: &mut Vec<u8>,
    proved: u64,
    unproved: u64,
    given_up: u64,
) -> Result<(), AllocError>
    ensures { OnOk result (out.new.items ≡ out.old.items ++ line_bytes (total_line proved unproved given_up)) }
{
    out.extend_from_slice(b"TOTAL")?;
    push_number(out, proved)?;
    out.extend_from_slice(b" PROVED")?;
    push_number(out, unproved)?;
    out.extend_from_slice(b" UNPROVED")?;
    push_number(out, given_up)?;
    out.extend_from_slice(b" GAVE UP\n")?;
    Ok(())
}

// The line of the result.
pub(crate) fn push_result(out: &mut Vec<u8>, unproved: u64, given_up: u64) -> Result<(), AllocError>
    ensures { OnOk result (out.new.items ≡ out.old.items ++ line_bytes (result_line unproved given_up)) }
{
    if unproved > 0 {
        out.extend_from_slice(b"RESULT UNPROVED\n")?;
    } else if given_up > 0 {
        out.extend_from_slice(b"RESULT GAVE UP\n")?;
    } else {
        out.extend_from_slice(b"RESULT PROVED\n")?;
    }
    Ok(())
}

// The lines that are written where there is no page.

ghost use Rattle.std.specs.Prelude.{◌≡◌, ◌++◌, IfOk, OnOk};
ghost use Rattle.spv_cli.specs.Output as spec;

use itoa::Buffer;
use spv_verify::refused::Refusal;
use std::alloc::{AllocError, Global};

// What a refusal tells behind its line, behind a space.
fn push_detail(line: &mut Vec<u8>, detail: &[u8]) -> Result<(), AllocError>
    ensures { OnOk result (line.new.items ≡ line.old.items ++ spec.behind_line detail.now) }
{
    if detail.is_empty() {
        return Ok(());
    }
    line.extend_from_slice(b" ")?;
    line.extend_from_slice(detail)
}

// The line of a refused text.
pub(crate) fn refusal_line(
    alloc: Global,
    file: &str,
    refusal: &Refusal,
) -> Result<Vec<u8>, AllocError>
    ensures { IfOk result (λ line. line.items ≡ spec.refusal_line file.now refusal.now) }
{
    let mut buffer = Buffer::new();
    let mut line = Vec::from_slice(alloc, b"REFUSED ")?;
    line.extend_from_slice(refusal.reason())?;
    line.extend_from_slice(b" ")?;
    line.extend_from_slice(file.as_bytes())?;
    line.extend_from_slice(b" LINE ")?;
    line.extend_from_slice(buffer.format(refusal.line()).as_bytes())?;
    push_detail(&mut line, refusal.detail())?;
    line.extend_from_slice(b"\n")?;
    Ok(line)
}

// The line of a file that was not read.
pub(crate) fn read_fault_line(alloc: Global, file: &str) -> Result<Vec<u8>, AllocError>
    ensures { IfOk result (λ line. line.items ≡ spec.read_fault_line file.now) }
{
    let mut line = Vec::from_slice(alloc, b"READ FAULT ")?;
    line.extend_from_slice(file.as_bytes())?;
    line.extend_from_slice(b"\n")?;
    Ok(line)
}

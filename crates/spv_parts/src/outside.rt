// Texts and sinks: in memory, a real file, and the standard output.

use spv_io::{FileTexts, MemorySink, MemoryTexts, Sink, StdSink, TextFault, Texts};
use std::alloc::{AllocError, Global};

// Reads a text, and adds what is told of it.
fn push_read<T: Texts>(
    texts: &mut T,
    name: &str,
    most: usize,
    out: &mut Vec<u8>,
) -> Result<(), AllocError> {
    out.extend_from_slice(b"read ")?;
    out.extend_from_slice(name.as_bytes())?;
    match texts.read(name, most) {
        Ok(bytes) => {
            out.extend_from_slice(b" gives ")?;
            out.extend_from_slice(&bytes)?;
        }
        Err(TextFault::Failed) => out.extend_from_slice(b" fails")?,
        Err(TextFault::Memory) => out.extend_from_slice(b" finds no memory")?,
    }
    out.extend_from_slice(b"\n")
}

// Texts in memory, of which the third name hides behind the first, and where the fourth read fails.
fn texts(alloc: Global) -> Result<MemoryTexts, AllocError> {
    let mut files = Vec::new(alloc);
    files.push((String::from_str(alloc, "a")?, b"first".to_vec(alloc)?))?;
    files.push((String::from_str(alloc, "b")?, b"second".to_vec(alloc)?))?;
    files.push((String::from_str(alloc, "a")?, b"hidden".to_vec(alloc)?))?;
    let mut fails = Vec::new(alloc);
    fails.push(9)?;
    fails.push(4)?;
    Ok(MemoryTexts::new(alloc, files, fails))
}

// Writes a piece, and adds how that ended and what is written so far.
fn push_write(sink: &mut MemorySink, piece: &[u8], out: &mut Vec<u8>) -> Result<(), AllocError> {
    out.extend_from_slice(b"write ")?;
    out.extend_from_slice(piece)?;
    match sink.write(piece) {
        Ok(()) => out.extend_from_slice(b" leaves ")?,
        Err(_) => out.extend_from_slice(b" fails and leaves ")?,
    }
    out.extend_from_slice(sink.bytes())?;
    out.extend_from_slice(b"\n")
}

// A sink of twelve bytes, where three writes fail.
fn sink(alloc: Global) -> Result<MemorySink, AllocError> {
    let mut fails = Vec::new(alloc);
    fails.push((2, 1))?;
    fails.push((3, 9))?;
    fails.push((5, 0))?;
    MemorySink::new(alloc, 12, fails)
}

/// Adds what reads and writes answer: in memory, then of the file `short.txt`.
pub fn show(rt: &HostRuntime, out: &mut Vec<u8>) -> Result<(), AllocError> {
    let mut texts = texts(rt.alloc())?;
    for name in ["a", "b", "c", "a", "a"] {
        push_read(&mut texts, name, 6, out)?;
    }
    push_read(&mut texts, "b", 3, out)?;
    let mut sink = sink(rt.alloc())?;
    for piece in ["one;", "two;", "xy", "", "z", "123456", ""] {
        push_write(&mut sink, piece.as_bytes(), out)?;
    }
    let mut files = FileTexts::new(rt);
    push_read(&mut files, "short.txt", 100, out)?;
    push_read(&mut files, "short.txt", 5, out)?;
    push_read(&mut files, "none.txt", 5, out)
}

/// Writes it all to the standard output.
pub fn write(rt: &HostRuntime, out: &[u8]) {
    let _ = StdSink::new(rt).write(out);
}

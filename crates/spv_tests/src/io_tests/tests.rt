//! Outputs and readers that answer less than they are asked for.

use spv_io::{Failed, Sink, StdSink, TextFault, first_bytes};
use std::cell::Cell;
use std::fmt::Display;
use std::io;
use std::io::Read;
use std::test::Fail;

// An output that takes three bytes at once, and only so many in all.
#[derive(Drop)]
struct Narrow {
    room: Cell<usize>,
}

impl Print for Narrow {
    fn print<D: Display + Drop>(&self, _: D) -> io::Result<()> {
        Ok(())
    }

    fn println<D: Display + Drop>(&self, _: D) -> io::Result<()> {
        Ok(())
    }

    fn write_all(&self, _: &[u8]) -> io::Result<()> {
        Ok(())
    }

    fn write_some(&self, bytes: &[u8]) -> io::Result<usize> {
        let room = self.room.get();
        let count = bytes.len().min(3).min(room);
        self.room.set(room - count);
        Ok(count)
    }
}

#[test]
fn a_write_that_takes_nothing_is_a_fault(rt: HostRuntime) -> Result<(), Fail> {
    let output = Narrow {
        room: Cell::new(10),
    };
    let mut sink = StdSink::new(&output);
    sink.write(b"seven b")?;
    assert_eq!(rt; output.room.get(), 3);
    assert_eq!(rt; sink.write(b"four"), Err(Failed));
    sink.write(b"")?;
    Ok(())
}

// A reader that gives so many bytes, one at a time, and then an error.
#[derive(Drop)]
struct Broken {
    left: u32,
}

impl Read for Broken {
    fn read(&mut self, piece: &mut [u8]) -> io::Result<usize> {
        if self.left == 0 {
            return Err(io::Error::from(io::ErrorKind::Other));
        }
        self.left -= 1;
        Ok(piece.len().min(1))
    }
}

#[test]
fn an_error_after_some_bytes_is_a_fault(rt: HostRuntime) -> Result<(), Fail> {
    let mut reader = Broken { left: 3 };
    let failed = first_bytes(rt.alloc(), &mut reader, 9);
    assert!(rt; matches!(failed, Err(TextFault::Failed)));
    let mut reader = Broken { left: 3 };
    let bytes = first_bytes(rt.alloc(), &mut reader, 3)?;
    assert_eq!(rt; bytes.len(), 3);
    Ok(())
}

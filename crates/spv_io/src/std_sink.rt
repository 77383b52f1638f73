// The standard output as a sink.
ghost use Rattle.std.specs.Prelude.{◌≡◌, OnOk};
ghost use Rattle.std.specs.Io.KnownBytes.{Appends};

use crate::{Failed, Sink};
use std::io::{Write, writer};
use std::marker::Model;

/// The standard output.
///
/// Nothing is claimed of what it receives. Each error of the system is a fault, also an interrupted
/// write, which is not tried again, and so is a write that takes nothing.
#[derive(Drop)]
pub struct StdSink<'a, P> {
    to: &'a P,
    faults: u64,
}

// Contracts see the count of faults.
impl<'a, P> Model for StdSink<'a, P> {
    ghost use Rattle.std.specs.Prelude.{ℕ};

    ghost Value = { ℕ };

    ghost view = { λ sink. sink.faults };
}

impl<'a, P: Print> StdSink<'a, P> {
    /// The standard output of this runtime, with no fault so far.
    pub fn new(to: &'a P) -> Self
        ensures { result ≡ 0 }
    {
        StdSink { to, faults: 0 }
    }
}

impl<P: Print> Sink for StdSink<'_, P> {
    ghost use Rattle.std.specs.Prelude.{None};

    ghost written = { λ _. None };

    ghost faults = { λ sink. sink };

    fn write(&mut self, bytes: &[u8]) -> Result<(), Failed> {
        if write_whole(&mut writer(self.to), bytes).is_err() {
            self.faults = self.faults.saturating_add(1);
            return Err(Failed);
        }
        Ok(())
    }
}

// Writes until nothing is left.
fn write_whole<W: Write>(writer: &mut W, bytes: &[u8]) -> Result<(), Failed>
    ensures { OnOk result (Appends (W.contents writer.old) (W.contents writer.new) bytes.now) }
{
    let mut done = 0;
    while done < bytes.len() {
        match writer.write(&bytes[done..]) {
            Ok(0) | Err(_) => return Err(Failed),
            Ok(count) => done += count,
        }
    }
    Ok(())
}

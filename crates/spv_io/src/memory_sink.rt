// A sink that is held in memory.
ghost use Rattle.std.specs.Prelude.{◌≡◌, ◌+◌, ◌≤◌, [], ◌++◌, ◌↔◌, IsTrue, take, IfOk, OnOk, OnErr, IsErr};
ghost use Rattle.spv_io.specs.Faults.{raised};
ghost use Rattle.spv_io.specs.MemorySink.{write_fails, taken, cut_of};

use crate::{Failed, Sink};
use std::alloc::{AllocError, Global};
use std::marker::Model;

/// A sink that is held in memory. A write fails where its number is listed or it passes the
/// capacity, and never otherwise: all the memory is taken at the start.
#[derive(Drop)]
pub struct MemorySink {
    capacity: usize,
    fails: Vec<(u64, usize)>,
    calls: u64,
    bytes: Vec<u8>,
    faults: u64,
}

impl Model for MemorySink {
    ghost use Rattle.std.specs.Prelude.{◌≤◌, vec_len, vec_capacity};
    ghost use Rattle.spv_io.specs.MemorySink.{SinkValue};

    ghost Value = { SinkValue };

    ghost view = { λ sink. record {
      capacity = sink.capacity;
      fails = sink.fails.items;
      calls = sink.calls;
      bytes = sink.bytes.items;
      faults = sink.faults;
    } };

    ghost invariant = { λ sink. (vec_len sink.bytes ≤ sink.capacity)
        × (sink.capacity ≤ vec_capacity sink.bytes) };
}

impl MemorySink {
    /// A sink with room for `capacity` bytes. A write whose number is listed, counted from 1, takes as
    /// many bytes as the list says for it, or all if it has no more, and fails; where a number is
    /// listed twice, its first entry counts. A write for which there is too little room takes what
    /// there is room for, and fails too.
    pub fn new(
        alloc: Global,
        capacity: usize,
        fails: Vec<(u64, usize)>,
    ) -> Result<MemorySink, AllocError>
        ensures { IfOk result (λ sink. sink ≡ record {
          capacity = capacity;
          fails = fails.items;
          calls = 0;
          bytes = [];
          faults = 0;
        }) }
    {
        Ok(MemorySink {
            capacity,
            fails,
            calls: 0,
            bytes: Vec::with_capacity(alloc, capacity)?,
            faults: 0,
        })
    }

    /// All the bytes written so far.
    pub fn bytes(&self) -> &[u8]
        ensures { result.now ≡ self.now.bytes }
    {
        &self.bytes
    }
}

impl Sink for MemorySink {
    ghost use Rattle.std.specs.Prelude.{Some};

    ghost written = { λ sink. Some sink.bytes };

    ghost faults = { λ sink. sink.faults };

    fn write(&mut self, bytes: &[u8]) -> Result<(), Failed>
        // Exactly the listed writes and those past the capacity fail.
        ensures fails { IsErr result ↔ IsTrue (write_fails self.old bytes.now) }

        ensures ok { OnOk result (self.new ≡ record self.old {
          calls = raised self.old.calls;
          bytes = self.old.bytes ++ bytes.now;
        }) }
        ensures failed { OnErr result (self.new ≡ record self.old {
          calls = raised self.old.calls;
          bytes = self.old.bytes ++ take (taken self.old bytes.now) bytes.now;
          faults = raised self.old.faults;
        }) }
        ensures never_falls { self.old.faults ≤ self.new.faults }
    {
        let cut = cut_listed(&self.fails, self.calls);
        self.calls = self.calls.saturating_add(1);
        let room = self.capacity - self.bytes.len();
        let end = cut.unwrap_or(bytes.len()).min(bytes.len()).min(room);
        self.bytes.extend_from_slice(&bytes[..end]).unwrap();
        if cut.is_some() || end < bytes.len() {
            self.faults = self.faults.saturating_add(1);
            return Err(Failed);
        }
        Ok(())
    }
}

// After how many bytes the write fails that comes after so many others, where it is listed. No
// number is above the top of 64 bits, so none is listed once `calls` stands there.
fn cut_listed(fails: &[(u64, usize)], calls: u64) -> Option<usize>
    ensures { result ≡ cut_of fails.now (calls + 1) }
{
    for (listed, end) in fails {
        if *listed > 0 && *listed - 1 == calls {
            return Some(*end);
        }
    }
    None
}

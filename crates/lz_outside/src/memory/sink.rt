ghost use Rattle.std.specs.Prelude.{◌≡◌, ◌≢◌, ◌⊎◌, ◌↔◌, ℕ, ◌+◌, ◌-◌, ◌^◌, ◌≤◌, ◌<◌, [], ◌++◌, List, Option, Some, None, min, length, take, IfOk, OnOk, OnErr, IsOk, IsErr, IsTrue, Contains};
ghost use Rattle.lz_outside.specs.Faults.{Rose};
ghost use Rattle.lz_outside.specs.Written.{Gains};
ghost use Rattle.lz_outside.specs.Memory.Sink.{SinkState};

use crate::faults::raised;
use crate::folder::Failed;
use crate::memory::buffer::Buffer;
use crate::memory::calls::{Calls, is_listed};
use crate::sink::Sink;
use lz_base::Memory;
use std::alloc::Global;
use std::marker::Model;

/// A sink in memory with room for a number of bytes, for tests. It tells what was written, and fails at the
/// calls that it is told to. Contracts see what was written, the room in all, the numbers of the calls
/// that fail, how many calls were made, and how many failed.
#[derive(Debug, Drop)]
pub struct MemorySink {
    buffer: Buffer,
    fails: Calls,
    calls: u64,
    faults: u64,
}

impl Model for MemorySink {
    ghost use Rattle.lz_outside.specs.Memory.Sink.{SinkState};

    ghost Value = { SinkState };

    ghost view = { λ sink. record {
      written = sink.buffer.content;
      room = sink.buffer.room;
      fails = sink.fails;
      calls = sink.calls;
      faults = sink.faults;
    } };
}

impl MemorySink {
    /// An empty sink with room for `room` bytes, which fails at the calls whose numbers, counted from
    /// 0, are listed. All its memory is taken here.
    pub fn new(alloc: Global, room: u64, fails: Calls) -> Result<MemorySink, Memory>
        ensures { IfOk result (λ sink. sink ≡ record { written = []; room = room; fails = fails; calls = 0; faults = 0 }) }
    {
        let buffer = Buffer::new(alloc, room as usize)?;
        Ok(MemorySink {
            buffer,
            fails,
            calls: 0,
            faults: 0,
        })
    }

    /// What was written.
    pub fn written(&self) -> &[u8]
        ensures { result.now ≡ self.now.written }
    {
        self.buffer.content()
    }
}

impl Sink for MemorySink {
    ghost written = { λ sink. Some sink.written };

    ghost faults = { λ sink. sink.faults };

    /// As the trait says. It takes what fits, and fails exactly where the call is listed and where a
    /// piece that is not empty finds no room. It takes no memory.
    fn put(&mut self, piece: &[u8]) -> Result<usize, Failed>
        ensures count { IfOk result (λ n. n ≤ length piece.now) }
        ensures some { IfOk result (λ n. 0 < length piece.now → 0 < n) }
        ensures gains { IfOk result (λ n. Some self.new.written ≡ Some (self.old.written ++ take n piece.now)) }
        ensures calm { OnOk result (self.new.faults ≡ self.old.faults) }
        ensures failed { OnErr result (Rose self.old.faults self.new.faults) }
        ensures unchanged { OnErr result (Some self.new.written ≡ Some self.old.written) }
        ensures counts { self.old.faults ≤ self.new.faults }

        ensures cause { IsErr result ↔ (Contains self.old.fails self.old.calls
            ⊎ ((0 < length piece.now) × (self.old.room ≤ length self.old.written))) }
        ensures fits { IfOk result (λ n. n ≡ min (length piece.now) (self.old.room - length self.old.written)) }
        ensures raised { OnErr result (self.new.faults ≡ min (self.old.faults + 1) (2 ^ 64 - 1)) }
        ensures counted { self.new.calls ≡ min (self.old.calls + 1) (2 ^ 64 - 1) }
        ensures same_room { self.new.room ≡ self.old.room }
        ensures same_fails { self.new.fails ≡ self.old.fails }
    {
        let listed = is_listed(&self.fails, self.calls);
        self.calls = raised(self.calls);
        let left = self.buffer.left();
        if listed || left == 0 && !piece.is_empty() {
            self.faults = raised(self.faults);
            return Err(Failed);
        }
        let count = left.min(piece.len());
        self.buffer.add(&piece[..count]);
        Ok(count)
    }
}

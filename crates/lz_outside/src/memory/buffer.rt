ghost use Rattle.std.specs.Prelude.{◌≡◌, ◌+◌, ◌-◌, ◌≤◌, [], ◌++◌, length, IfOk};
ghost use Rattle.lz_outside.specs.Memory.Buffer.{BufferState};

use lz_base::Memory;
use std::alloc::Global;
use std::marker::Model;

/// Bytes, with room for a number of them that was taken when it was made. Contracts see the bytes and
/// how many fit in all.
#[derive(Debug, Drop)]
pub struct Buffer {
    // The bytes, and zeros up to the room.
    bytes: Vec<u8>,
    filled: usize,
}

impl Model for Buffer {
    ghost use Rattle.std.specs.Prelude.{◌≤◌, length, take};
    ghost use Rattle.lz_outside.specs.Memory.Buffer.{BufferState};

    ghost Value = { BufferState };

    ghost view = { λ buffer. record {
      content = take buffer.filled buffer.bytes.items;
      room = length buffer.bytes.items;
    } };

    ghost invariant = { λ buffer. buffer.filled ≤ length buffer.bytes.items };
}

impl Buffer {
    /// An empty buffer with room for `room` bytes.
    pub fn new(alloc: Global, room: usize) -> Result<Buffer, Memory>
        ensures { IfOk result (λ buffer. buffer ≡ record { content = []; room = room }) }
    {
        let bytes = vec![in alloc; 0u8; room]?;
        Ok(Buffer { bytes, filled: 0 })
    }

    /// The bytes.
    pub fn content(&self) -> &[u8]
        ensures value { result.now ≡ self.now.content }
        ensures fits { length self.now.content ≤ self.now.room }
    {
        &self.bytes[..self.filled]
    }

    /// How many bytes still fit.
    pub fn left(&self) -> usize
        ensures { result + length self.now.content ≡ self.now.room }
    {
        self.bytes.len() - self.filled
    }

    /// Makes it empty.
    pub fn clear(&mut self)
        ensures { self.new ≡ record { content = []; room = self.old.room } }
    {
        self.filled = 0;
    }

    /// Adds a piece that fits.
    pub fn add(&mut self, piece: &[u8])
        requires { length self.old.content + length piece.now ≤ self.old.room }
        ensures { self.new ≡ record { content = self.old.content ++ piece.now; room = self.old.room } }
    {
        let end = self.filled + piece.len();
        self.bytes[self.filled..end].copy_from_slice(piece);
        self.filled = end;
    }
}

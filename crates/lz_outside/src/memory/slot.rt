ghost use Rattle.std.specs.Prelude.{◌≡◌, ◌↔◌, ◌+◌, ◌-◌, ◌^◌, ◌≤◌, IfOk, IsTrue, max, length};
ghost use Rattle.std.specs.Str.{bytes_eq};
ghost use Rattle.lz_outside.specs.Memory.Slots.{IsRoomy, file_of};

use crate::memory::buffer::Buffer;
use crate::memory::folder::File;
use lz_base::Memory;
use std::alloc::Global;

/// Room for a file of a folder in memory.
#[derive(Debug, Drop)]
pub struct Slot {
    pub name: Buffer,
    pub bytes: Buffer,
}

/// How many bytes the name of a further file has at most.
pub const NAME_LIMIT: usize = 255;

impl Slot {
    /// A slot with these bytes under the name, which has room for `room` bytes and for any name that a
    /// further file may have.
    pub fn new(alloc: Global, name: &[u8], bytes: &[u8], room: usize) -> Result<Slot, Memory>
        ensures file { IfOk result (λ slot. file_of slot ≡ record { name = name.now; bytes = bytes.now }) }
        ensures roomy { IfOk result (λ slot. IsRoomy room slot) }
    {
        let name = filled(alloc, name, NAME_LIMIT)?;
        let bytes = filled(alloc, bytes, room)?;
        Ok(Slot { name, bytes })
    }

    /// Whether the file has the name.
    pub fn has_name(&self, name: &str) -> bool
        ensures { result ≡ bytes_eq self.now.name.content name.now }
    {
        self.name.content() == name.as_bytes()
    }
}

// A buffer that holds these bytes, with room for at least `room`.
fn filled(alloc: Global, bytes: &[u8], room: usize) -> Result<Buffer, Memory>
    ensures content { IfOk result (λ buffer. buffer.content ≡ bytes.now) }
    ensures room { IfOk result (λ buffer. room ≤ buffer.room) }
{
    let mut buffer = Buffer::new(alloc, room.max(bytes.len()))?;
    buffer.add(bytes);
    Ok(buffer)
}

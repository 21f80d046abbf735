ghost use Rattle.std.specs.Prelude.{◌≡◌, ◌⊎◌, ◌↔◌, ℕ, ◌+◌, ◌-◌, ◌^◌, ◌≤◌, ◌<◌, List, [], ◌++◌, Option, Some, None, min, take, length, map, All, IfOk, IfSome, OnSome, OnOk, OnErr, IsOk, IsErr, IsNone, IsTrue, Contains};
ghost use Rattle.std.specs.Option.{option_copied};
ghost use Rattle.lz_outside.specs.Faults.{Rose};
ghost use Rattle.lz_outside.specs.Files.{Changes, IsPieceOf, KeepsOthers, bytes_or_none};
ghost use Rattle.lz_outside.specs.Memory.Folder.{FolderState, HasNoPlace, HaveOwnNames, content_of, with_content};
ghost use Rattle.lz_outside.specs.Memory.Slots.{IsRoomy, file_of, files_of, place_from};

use crate::faults::raised;
use crate::folder::{Failed, Folder};
use crate::memory::calls::{Calls, is_listed};
use crate::memory::slot::{NAME_LIMIT, Slot};
use lz_base::{Bytes, Memory, Name, Sequence};
use std::alloc::Global;
use std::marker::Model;

/// A file of a folder in memory.
#[derive(Debug, Drop)]
pub struct File {
    pub name: Name,
    pub bytes: Bytes,
}

/// Files, in any order.
pub type Files = Sequence<File>;

/// A folder in memory, for tests. It tells its files, and fails at the calls that it is told to.
/// Contracts see its files, how many further ones there may be, up to how many bytes a file is filled,
/// the numbers of the calls that fail, how many calls were made, and how many reads and how many writes
/// failed.
#[derive(Debug, Drop)]
pub struct MemoryFolder {
    // The slots of the files, and then those that are spare.
    slots: Vec<Slot>,
    used: usize,
    room: usize,
    fails: Calls,
    calls: u64,
    read_faults: u64,
    write_faults: u64,
}

impl Model for MemoryFolder {
    ghost use Rattle.std.specs.Prelude.{◌≤◌, ◌-◌, length, All};
    ghost use Rattle.lz_outside.specs.Memory.Folder.{FolderState};
    ghost use Rattle.lz_outside.specs.Memory.Slots.{IsRoomy, files_of};

    ghost Value = { FolderState };

    ghost view = { λ folder. record {
      listing = files_of folder.used folder.slots.items;
      spare = length folder.slots.items - folder.used;
      room = folder.room;
      fails = folder.fails;
      calls = folder.calls;
      read_faults = folder.read_faults;
      write_faults = folder.write_faults;
    } };

    ghost invariant = { λ folder. (folder.used ≤ length folder.slots.items)
        × All (IsRoomy folder.room) folder.slots.items };
}

impl MemoryFolder {
    /// A folder of these files, with room for `spare` further ones and for `room` bytes in each, which
    /// fails at the calls whose numbers, counted from 0, are listed. All its memory is taken here.
    pub fn new(
        alloc: Global,
        files: Files,
        spare: u32,
        room: u64,
        fails: Calls,
    ) -> Result<MemoryFolder, Memory>
        requires { HaveOwnNames files }
        ensures { IfOk result (λ folder. folder ≡ record {
          listing = files;
          spare = spare;
          room = room;
          fails = fails;
          calls = 0;
          read_faults = 0;
          write_faults = 0;
        }) }
    {
        let room = room as usize;
        let mut slots = slots_of(alloc, files.items(), room)?;
        let used = slots.len();
        add_spare(alloc, &mut slots, spare, room)?;
        Ok(MemoryFolder {
            slots,
            used,
            room,
            fails,
            calls: 0,
            read_faults: 0,
            write_faults: 0,
        })
    }

    /// What the file of the name holds, if there is one.
    pub fn file(&self, name: &str) -> Option<&[u8]>
        ensures { option_copied result ≡ content_of self.now.listing name.now }
    {
        find_content(&self.slots[..self.used], name)
    }

    // Where the file of the name stands; where there is none, a spare slot is made an empty file of it.
    // None where that cannot be.
    fn place_for(&mut self, name: &str) -> Option<usize>
        ensures place { IfSome result (λ place. place_from 0 self.new.listing name.now ≡ Some place) }
        ensures opened { OnSome result (self.new.listing
            ≡ with_content self.old.listing name.now (bytes_or_none (content_of self.old.listing name.now))) }
        ensures none { IsNone result ↔ HasNoPlace self.old name.now }
        ensures unchanged { IsNone result → self.new ≡ self.old }
        ensures slots { self.new.spare + length self.new.listing ≡ self.old.spare + length self.old.listing }
        ensures rest { self.new ≡ record self.old { listing = self.new.listing; spare = self.new.spare } }
    {
        let found = find_place(&self.slots[..self.used], name);
        if found.is_some() {
            return found;
        }
        if self.used == self.slots.len() || name.len() > NAME_LIMIT {
            return None;
        }
        let place = self.used;
        let slot = &mut self.slots[place];
        slot.name.clear();
        slot.name.add(name.as_bytes());
        slot.bytes.clear();
        self.used += 1;
        Some(place)
    }

    // Whether the next call is listed. It counts the call.
    fn is_next_listed(&mut self) -> bool
        ensures listed { IsTrue result ↔ Contains self.old.fails self.old.calls }
        ensures counted { self.new ≡ record self.old { calls = min (self.old.calls + 1) (2 ^ 64 - 1) } }
    {
        let listed = is_listed(&self.fails, self.calls);
        self.calls = raised(self.calls);
        listed
    }

    // Counts a failed write.
    fn count_failed_write(&mut self) -> Failed
        ensures counted { self.new ≡ record self.old { write_faults = min (self.old.write_faults + 1) (2 ^ 64 - 1) } }
        ensures counts { self.old.write_faults ≤ self.new.write_faults }
    {
        self.write_faults = raised(self.write_faults);
        Failed
    }

    // Whether the file of the name, or a new one, is filled to its room.
    fn is_full(&self, name: &str) -> bool
        ensures { IsTrue result ↔ (self.now.room ≤ length (bytes_or_none (content_of self.now.listing name.now))) }
    {
        match self.file(name) {
            Some(content) => self.room <= content.len(),
            None => self.room == 0,
        }
    }

    // Adds what fits of the piece to the file of the name, and makes it where there is none. None where
    // that cannot be.
    fn add(&mut self, name: &str, piece: &[u8]) -> Option<usize>
        ensures count { IfSome result (λ n. n ≡ min (length piece.now)
            (self.old.room - length (bytes_or_none (content_of self.old.listing name.now)))) }
        ensures listing { IfSome result (λ n. self.new.listing ≡ with_content self.old.listing name.now
            (bytes_or_none (content_of self.old.listing name.now) ++ take n piece.now)) }
        ensures refused { IsNone result ↔ HasNoPlace self.old name.now }
        ensures unchanged { IsNone result → self.new ≡ self.old }
        ensures slots { self.new.spare + length self.new.listing ≡ self.old.spare + length self.old.listing }
        ensures rest { self.new ≡ record self.old { listing = self.new.listing; spare = self.new.spare } }
    {
        let place = self.place_for(name)?;
        let room = self.room;
        let slot = &mut self.slots[place];
        let left = room.saturating_sub(slot.bytes.content().len());
        let count = left.min(piece.len());
        slot.bytes.add(&piece[..count]);
        Some(count)
    }

    // Makes the file of the name empty, and makes it where there is none. False where that cannot be.
    fn empty(&mut self, name: &str) -> bool
        ensures listing { IsTrue result → self.new.listing ≡ with_content self.old.listing name.now [] }
        ensures refused { (IsTrue result → ⊥) ↔ HasNoPlace self.old name.now }
        ensures unchanged { (IsTrue result → ⊥) → self.new ≡ self.old }
        ensures slots { self.new.spare + length self.new.listing ≡ self.old.spare + length self.old.listing }
        ensures rest { self.new ≡ record self.old { listing = self.new.listing; spare = self.new.spare } }
    {
        match self.place_for(name) {
            Some(place) => {
                let slot = &mut self.slots[place];
                slot.bytes.clear();
                true
            }
            None => false,
        }
    }
}

// What the first file of the name holds, if there is one.
fn find_content<'a>(slots: &'a [Slot], name: &str) -> Option<&'a [u8]>
    ensures { option_copied result ≡ content_of (map file_of slots.now) name.now }
{
    for slot in slots {
        if slot.has_name(name) {
            return Some(slot.bytes.content());
        }
    }
    None
}

// Where the first file of the name stands, if there is one.
fn find_place(slots: &[Slot], name: &str) -> Option<usize>
    ensures { result ≡ place_from 0 (map file_of slots.now) name.now }
{
    for (place, slot) in slots.iter().enumerate() {
        if slot.has_name(name) {
            return Some(place);
        }
    }
    None
}

// A slot for each file.
fn slots_of(alloc: Global, files: &[File], room: usize) -> Result<Vec<Slot>, Memory>
    ensures files { IfOk result (λ slots. map file_of slots.items ≡ files.now) }
    ensures roomy { IfOk result (λ slots. All (IsRoomy room) slots.items) }
{
    let mut slots = Vec::new(alloc);
    for file in files {
        let slot = Slot::new(alloc, file.name.text().as_bytes(), file.bytes.items(), room)?;
        slots.push(slot)?;
    }
    Ok(slots)
}

// Adds slots that are spare.
fn add_spare(alloc: Global, slots: &mut Vec<Slot>, spare: u32, room: usize) -> Result<(), Memory>
    requires { All (IsRoomy room) slots.old.items }
    ensures count { OnOk result (length slots.new.items ≡ length slots.old.items + spare) }
    ensures front { OnOk result (take (length slots.old.items) slots.new.items ≡ slots.old.items) }
    ensures roomy { OnOk result (All (IsRoomy room) slots.new.items) }
{
    for _ in 0..spare {
        let slot = Slot::new(alloc, b"", b"", room)?;
        slots.push(slot)?;
    }
    Ok(())
}

impl Folder for MemoryFolder {
    ghost files = { λ folder. Some (content_of folder.listing) };

    ghost read_faults = { λ folder. folder.read_faults };

    ghost write_faults = { λ folder. folder.write_faults };

    /// As the trait says, and it gives as many bytes as there are and as fit. It fails exactly where the
    /// call is listed, which raises the count, and where no file has the name. It takes no memory.
    fn read_piece(&mut self, name: &str, place: u64, into: &mut [u8]) -> Result<usize, Failed>
        ensures count { IfOk result (λ n. n ≤ length into.old) }
        ensures piece { IfOk result (λ n. (content : List ℕ) × (content_of self.old.listing name.now ≡ Some content)
            × IsPieceOf content place n into.old into.new) }
        ensures calm { OnOk result (self.new.read_faults ≡ self.old.read_faults) }
        ensures failed { OnErr result (Rose self.old.read_faults self.new.read_faults
            ⊎ (content_of self.old.listing name.now ≡ None)) }
        ensures counts { self.old.read_faults ≤ self.new.read_faults }
        ensures keeps_files { self.new.listing ≡ self.old.listing }
        ensures same_writes { self.new.write_faults ≡ self.old.write_faults }

        ensures whole { IfOk result (λ n. IfSome (content_of self.old.listing name.now)
            (λ content. n ≡ min (length into.old) (length content - place))) }
        ensures cause { IsErr result ↔ (Contains self.old.fails self.old.calls
            ⊎ (content_of self.old.listing name.now ≡ None)) }
        ensures raised { Contains self.old.fails self.old.calls
            → self.new.read_faults ≡ min (self.old.read_faults + 1) (2 ^ 64 - 1) }
        ensures not_raised { (Contains self.old.fails self.old.calls → ⊥)
            → self.new.read_faults ≡ self.old.read_faults }
        ensures keeps_buffer { OnErr result (into.new ≡ into.old) }
        ensures counted { self.new.calls ≡ min (self.old.calls + 1) (2 ^ 64 - 1) }
        ensures same_fails { self.new.fails ≡ self.old.fails }
        ensures same_room { self.new.room ≡ self.old.room }
        ensures same_spare { self.new.spare ≡ self.old.spare }
    {
        if self.is_next_listed() {
            self.read_faults = raised(self.read_faults);
            return Err(Failed);
        }
        match self.file(name) {
            Some(content) => Ok(copy_piece(content, place, into)),
            None => Err(Failed),
        }
    }

    /// As the trait says. It fails exactly where the call is listed, and where no file has the name and
    /// none can be made, as no further one is left or the name is longer than 255 bytes. A failure
    /// changes no file. It takes no memory.
    fn begin(&mut self, name: &str) -> Result<(), Failed>
        ensures changes { OnOk result (Changes (Some (content_of self.old.listing)) (Some (content_of self.new.listing)) name.now []) }
        ensures calm { OnOk result (self.new.write_faults ≡ self.old.write_faults) }
        ensures failed { OnErr result (Rose self.old.write_faults self.new.write_faults) }
        ensures others { OnErr result (KeepsOthers (Some (content_of self.old.listing)) (Some (content_of self.new.listing)) name.now) }
        ensures counts { self.old.write_faults ≤ self.new.write_faults }
        ensures same_reads { self.new.read_faults ≡ self.old.read_faults }

        ensures listing { OnOk result (self.new.listing ≡ with_content self.old.listing name.now []) }
        ensures unchanged { OnErr result (self.new.listing ≡ self.old.listing) }
        ensures cause { IsErr result ↔ (Contains self.old.fails self.old.calls ⊎ HasNoPlace self.old name.now) }
        ensures raised { OnErr result (self.new.write_faults ≡ min (self.old.write_faults + 1) (2 ^ 64 - 1)) }
        ensures counted { self.new.calls ≡ min (self.old.calls + 1) (2 ^ 64 - 1) }
        ensures same_fails { self.new.fails ≡ self.old.fails }
        ensures same_room { self.new.room ≡ self.old.room }
        ensures slots { self.new.spare + length self.new.listing ≡ self.old.spare + length self.old.listing }
    {
        if self.is_next_listed() || !self.empty(name) {
            return Err(self.count_failed_write());
        }
        Ok(())
    }

    /// As the trait says, and it takes as many bytes as fit below the room. It fails exactly where the
    /// call is listed, where no file has the name and none can be made, as for `begin`, and where a
    /// piece that is not empty finds the file filled to its room. A failure changes no file. It takes no
    /// memory.
    fn append_piece(&mut self, name: &str, piece: &[u8]) -> Result<usize, Failed>
        ensures count { IfOk result (λ n. n ≤ length piece.now) }
        ensures some { IfOk result (λ n. 0 < length piece.now → 0 < n) }
        ensures changes { IfOk result (λ n. Changes (Some (content_of self.old.listing)) (Some (content_of self.new.listing)) name.now
            (bytes_or_none (content_of self.old.listing name.now) ++ take n piece.now)) }
        ensures calm { OnOk result (self.new.write_faults ≡ self.old.write_faults) }
        ensures failed { OnErr result (Rose self.old.write_faults self.new.write_faults) }
        ensures others { OnErr result (KeepsOthers (Some (content_of self.old.listing)) (Some (content_of self.new.listing)) name.now) }
        ensures counts { self.old.write_faults ≤ self.new.write_faults }
        ensures same_reads { self.new.read_faults ≡ self.old.read_faults }

        ensures listing { IfOk result (λ n. self.new.listing ≡ with_content self.old.listing name.now
            (bytes_or_none (content_of self.old.listing name.now) ++ take n piece.now)) }
        ensures fits { IfOk result (λ n. n ≡ min (length piece.now)
            (self.old.room - length (bytes_or_none (content_of self.old.listing name.now)))) }
        ensures unchanged { OnErr result (self.new.listing ≡ self.old.listing) }
        ensures cause { IsErr result ↔ (Contains self.old.fails self.old.calls ⊎ (HasNoPlace self.old name.now
            ⊎ ((0 < length piece.now) × (self.old.room ≤ length (bytes_or_none (content_of self.old.listing name.now)))))) }
        ensures raised { OnErr result (self.new.write_faults ≡ min (self.old.write_faults + 1) (2 ^ 64 - 1)) }
        ensures counted { self.new.calls ≡ min (self.old.calls + 1) (2 ^ 64 - 1) }
        ensures same_fails { self.new.fails ≡ self.old.fails }
        ensures same_room { self.new.room ≡ self.old.room }
        ensures slots { self.new.spare + length self.new.listing ≡ self.old.spare + length self.old.listing }
    {
        if self.is_next_listed() || !piece.is_empty() && self.is_full(name) {
            return Err(self.count_failed_write());
        }
        match self.add(name, piece) {
            Some(count) => Ok(count),
            None => Err(self.count_failed_write()),
        }
    }
}

// Copies bytes of the content from the place on, as many as there are and as fit.
fn copy_piece(content: &[u8], place: u64, into: &mut [u8]) -> usize
    ensures count { result ≤ length into.old }
    ensures whole { result ≡ min (length into.old) (length content.now - place) }
    ensures piece { IsPieceOf content.now place result into.old into.new }
{
    let start = place as usize;
    if start >= content.len() {
        return 0;
    }
    let rest = &content[start..];
    let count = rest.len().min(into.len());
    into[..count].copy_from_slice(&rest[..count]);
    count
}

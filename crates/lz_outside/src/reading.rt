ghost use Rattle.std.specs.Prelude.{◌≡◌, ◌⊎◌, ◌<◌, ◌≤◌, ℕ, List, length, IsErr, false, Ok, Err, OnOk, IfOk, IsTrue};
ghost use Rattle.lz_outside.specs.Faults.{Rose};
ghost use Rattle.lz_outside.specs.Files.{BeginsWith, Holds, IsLonger, Lacks, Tells};

use crate::folder::Folder;
use lz_base::{Bytes, Memory};
use std::alloc::Global;

/// Why a file was not read.
#[derive(Clone, Copy, Debug, PartialEq, Eq)]
pub enum ReadError {
    /// A read failed, or no file has the name.
    Fault,
    /// The file has more bytes than the limit.
    TooLong,
    /// Want of memory.
    Memory,
}

impl From<Memory> for ReadError {
    ghost use Rattle.lz_outside.specs.declared.reading.ReadError.{ReadError};

    ghost from_gives = { λ _ error. error ≡ ReadError.Memory };

    fn from(_memory: Memory) -> ReadError {
        ReadError::Memory
    }
}

// How many bytes are asked for at a time.
const PIECE_SIZE: usize = 4096;

/// The whole file of the name, if it has at most `limit` bytes. It reads a piece at a time, stops past
/// the limit, and its time and memory grow with the bytes read.
pub fn read_all<F: Folder>(
    alloc: Global,
    folder: &mut F,
    name: &str,
    limit: u64,
) -> Result<Bytes, ReadError>
    ensures holds { IfOk result (λ bytes. Holds (F.files folder.old) name.now bytes) }
    ensures within { IfOk result (λ bytes. length bytes ≤ limit) }
    ensures calm { OnOk result (F.read_faults folder.new ≡ F.read_faults folder.old) }

    ensures fault { result ≡ Err ReadError.Fault → Rose (F.read_faults folder.old) (F.read_faults folder.new)
        ⊎ Lacks (F.files folder.old) name.now }
    ensures too_long { result ≡ Err ReadError.TooLong → IsLonger (F.files folder.old) name.now limit }
    ensures missing { Lacks (F.files folder.old) name.now → result ≡ Err ReadError.Fault }
    ensures long { (content : List ℕ) → Tells (F.files folder.old) name.now content
        → limit < length content → IsErr result }

    ensures keeps_files { F.files folder.new ≡ F.files folder.old }
    ensures counts { F.read_faults folder.old ≤ F.read_faults folder.new }
    ensures same_writes { F.write_faults folder.new ≡ F.write_faults folder.old }
{
    let mut bytes = Bytes::new(alloc);
    let mut buffer = [0u8; PIECE_SIZE];
    while add_piece(folder, name, limit, &mut buffer, &mut bytes)? {}
    Ok(bytes)
}

// Adds the next piece of the file to those that were read, and says whether there was one.
fn add_piece<F: Folder>(
    folder: &mut F,
    name: &str,
    limit: u64,
    buffer: &mut [u8],
    bytes: &mut Bytes,
) -> Result<bool, ReadError>
    requires room { 0 < length buffer.old }
    requires within { length bytes.old ≤ limit }
    requires begins { BeginsWith (F.files folder.old) name.now bytes.old }
    ensures within { IfOk result (λ _. length bytes.new ≤ limit) }
    ensures begins { IfOk result (λ _. BeginsWith (F.files folder.old) name.now bytes.new) }
    ensures more { IfOk result (λ more. IsTrue more → length bytes.old < length bytes.new) }
    ensures end { IfOk result (λ more. (more ≡ false) → Holds (F.files folder.old) name.now bytes.new) }
    ensures calm { OnOk result (F.read_faults folder.new ≡ F.read_faults folder.old) }

    ensures fault { result ≡ Err ReadError.Fault → Rose (F.read_faults folder.old) (F.read_faults folder.new)
        ⊎ Lacks (F.files folder.old) name.now }
    ensures too_long { result ≡ Err ReadError.TooLong → IsLonger (F.files folder.old) name.now limit }
    ensures missing { Lacks (F.files folder.old) name.now → result ≡ Err ReadError.Fault }
    ensures keeps_files { F.files folder.new ≡ F.files folder.old }
    ensures counts { F.read_faults folder.old ≤ F.read_faults folder.new }
    ensures same_writes { F.write_faults folder.new ≡ F.write_faults folder.old }
{
    let place = bytes.items().len() as u64;
    let count = match folder.read_piece(name, place, buffer) {
        Ok(count) => count,
        Err(_) => return Err(ReadError::Fault),
    };
    if count as u64 > limit - place {
        return Err(ReadError::TooLong);
    }
    bytes.append(&buffer[..count])?;
    Ok(count > 0)
}

ghost use Rattle.std.specs.Prelude.{◌≡◌, ◌⊎◌, ℕ, ◌+◌, ◌-◌, ◌^◌, ◌≤◌, ◌<◌, [], ◌++◌, None, length, min, take, IfOk, IfSome, OnOk, OnErr, ⊤};
ghost use Rattle.lz_outside.specs.Faults.{Rose};
ghost use Rattle.lz_outside.specs.RealFolder.{FolderFaults};

use crate::faults::raised;
use crate::folder::{Failed, Folder};
use std::fs::OpenOptions;
use std::io::{Read, Seek, SeekFrom, Write};
use std::marker::Model;
use std::rt::Files;
use std::{fs, io};

/// The files of the system, by their paths. It tells nothing of what they hold: what the system
/// gives and takes is trusted. Contracts see it as the numbers of its reads and of its writes that failed.
#[derive(Drop)]
pub struct RealFolder<R> {
    runtime: R,
    read_faults: u64,
    write_faults: u64,
}

impl<R> Model for RealFolder<R> {
    ghost use Rattle.lz_outside.specs.RealFolder.{FolderFaults};

    ghost Value = { FolderFaults };

    ghost view = { λ folder. record { reads = folder.read_faults; writes = folder.write_faults } };
}

impl<R: Files> RealFolder<R> {
    /// The files that the program's runtime reaches.
    pub fn new(runtime: R) -> RealFolder<R>
        ensures { result ≡ record { reads = 0; writes = 0 } }
    {
        RealFolder {
            runtime,
            read_faults: 0,
            write_faults: 0,
        }
    }
}

impl<R: Files> Folder for RealFolder<R> {
    ghost files = { λ _. None };

    ghost read_faults = { λ folder. folder.reads };

    ghost write_faults = { λ folder. folder.writes };

    /// Opens the file, seeks to the place and reads once (POSIX.1-2017 open, lseek, read). Each error
    /// raises the count, a missing name among them, and so does a read that a signal interrupts. A name
    /// where nothing can be sought, as that of a pipe, fails.
    fn read_piece(&mut self, name: &str, place: u64, into: &mut [u8]) -> Result<usize, Failed> {
        match read_at(&self.runtime, name, place, into) {
            Ok(count) => Ok(count),
            Err(_) => {
                self.read_faults = raised(self.read_faults);
                Err(Failed)
            }
        }
    }

    /// Creates the file, or empties it (POSIX.1-2017 open with O_CREAT and O_TRUNC). Each error raises
    /// the count.
    fn begin(&mut self, name: &str) -> Result<(), Failed> {
        match fs::create(&self.runtime, name) {
            Ok(_) => Ok(()),
            Err(_) => {
                self.write_faults = raised(self.write_faults);
                Err(Failed)
            }
        }
    }

    /// Opens the file at its end, creating it where no file has the name, and writes once (POSIX.1-2017
    /// open with O_APPEND and O_CREAT, write). Each error raises the count, and so do a write that a
    /// signal interrupts and a write of 0 bytes of a piece that is not empty.
    fn append_piece(&mut self, name: &str, piece: &[u8]) -> Result<usize, Failed> {
        match append_some(&self.runtime, name, piece) {
            Some(count) => Ok(count),
            None => {
                self.write_faults = raised(self.write_faults);
                Err(Failed)
            }
        }
    }
}

// Reads once from a place of a file.
fn read_at<R: Files>(runtime: &R, name: &str, place: u64, into: &mut [u8]) -> io::Result<usize>
    ensures { IfOk result (λ n. n ≤ length into.old) }
{
    let mut file = fs::open(runtime, name)?;
    file.seek(SeekFrom::Start(place))?;
    file.read(into)
}

// Writes some of a piece at the end of a file and says how many bytes, or nothing where that fails or
// takes none of a piece that is not empty.
fn append_some<R: Files>(runtime: &R, name: &str, piece: &[u8]) -> Option<usize>
    ensures count { IfSome result (λ n. n ≤ length piece.now) }
    ensures some { IfSome result (λ n. 0 < length piece.now → 0 < n) }
{
    match append_at(runtime, name, piece) {
        Ok(0) if !piece.is_empty() => None,
        Ok(count) => Some(count),
        Err(_) => None,
    }
}

// Writes once at the end of a file, which it makes where there is none.
fn append_at<R: Files>(runtime: &R, name: &str, piece: &[u8]) -> io::Result<usize>
    ensures { IfOk result (λ n. n ≤ length piece.now) }
{
    let mut options = OpenOptions::new();
    options.append(true).create(true);
    let mut file = options.open(runtime, name)?;
    file.write(piece)
}

//! Whole files and whole reports, over memory, over a folder that drips, and over the system.

ghost use Rattle.std.specs.Prelude.{◌≡◌, ◌≤◌, ℕ, Option, None, List, length};

use lz_base::{Bytes, Memory, Name};
use lz_outside::{
    Calls, Failed, File, Files, Folder, MemoryFolder, MemorySink, ReadError, RealFolder, RealSink,
    Sink, read_all, write_all, write_file,
};
use std::alloc::Global;
use std::fs;
use std::process::Abort;
use std::test::Fail;

// The number of a call that never comes.
const NEVER: u64 = 1_000;

// The listed calls, or none.
fn calls_of(alloc: Global, call: u64) -> Result<Calls, Memory> {
    let mut calls = Calls::new(alloc);
    calls.push(call)?;
    Ok(calls)
}

// A file.
fn file_of(alloc: Global, name: &str, text: &[u8]) -> Result<File, Memory> {
    let name = Name::new(alloc, name)?;
    let mut bytes = Bytes::new(alloc);
    bytes.append(text)?;
    Ok(File { name, bytes })
}

// A folder with one file, and with room for further ones and for bytes in each, which fails at one
// call.
fn folder_of(
    alloc: Global,
    name: &str,
    text: &[u8],
    spare: u32,
    room: u64,
    call: u64,
) -> Result<MemoryFolder, Memory> {
    let mut files = Files::new(alloc);
    files.push(file_of(alloc, name, text)?)?;
    let calls = calls_of(alloc, call)?;
    MemoryFolder::new(alloc, files, spare, room, calls)
}

// The reason of a row, a name, a limit, the failing call, and the error that is wanted.
type ReadRow = (&'static str, &'static str, u64, u64, Option<ReadError>);

// Reads the file of each row's name from a folder in memory.
fn rows_read(rt: &impl Abort, alloc: Global, rows: &[ReadRow]) -> Result<(), Fail> {
    for (reason, name, limit, call, want) in rows {
        let mut folder = folder_of(alloc, "a.c", b"int main;", 0, 0, *call)
            .ok()
            .ok_or("memory")?;
        assert_eq!(rt; folder.file("a.c"), Some(b"int main;".as_slice()));
        match read_all(alloc, &mut folder, name, *limit) {
            Ok(bytes) => {
                assert_eq!(rt; bytes.items(), b"int main;".as_slice(), "{reason}");
                assert_eq!(rt; None, *want, "{reason}");
            }
            Err(error) => assert_eq!(rt; Some(error), *want, "{reason}"),
        }
    }
    Ok(())
}

/// Whole files, a missing one, one that is longer than the limit, and a failing call.
#[test]
fn reads_from_memory(rt: HostRuntime) -> Result<(), Fail> {
    let rows: [ReadRow; 6] = [
        ("shorter than the limit", "a.c", 100, NEVER, None),
        ("as long as the limit", "a.c", 9, NEVER, None),
        (
            "one byte too long",
            "a.c",
            8,
            NEVER,
            Some(ReadError::TooLong),
        ),
        ("no such file", "b.c", 100, NEVER, Some(ReadError::Fault)),
        (
            "the first call fails",
            "a.c",
            100,
            0,
            Some(ReadError::Fault),
        ),
        (
            "the call that would find the end fails",
            "a.c",
            100,
            1,
            Some(ReadError::Fault),
        ),
    ];
    rows_read(&rt, rt.alloc(), &rows)
}

// Gives and takes one byte at a time, and fails at one call.
#[derive(Drop)]
struct Dripping {
    content: [u8; 8],
    length: usize,
    call: u64,
    calls: u64,
    read_faults: u64,
    write_faults: u64,
}

// A dripping folder that holds some text of at most 8 bytes.
fn make_dripping(text: &[u8], call: u64) -> Dripping
    requires { length text.now ≤ 8 }
{
    let mut content = [0u8; 8];
    content[..text.len()].copy_from_slice(text);
    Dripping {
        content,
        length: text.len(),
        call,
        calls: 0,
        read_faults: 0,
        write_faults: 0,
    }
}

impl Folder for Dripping {
    ghost files = { λ _. None };

    ghost read_faults = { λ folder. folder.read_faults };

    ghost write_faults = { λ folder. folder.write_faults };

    fn read_piece(&mut self, _name: &str, place: u64, into: &mut [u8]) -> Result<usize, Failed> {
        let fails = self.calls == self.call;
        self.calls = self.calls.saturating_add(1);
        if fails {
            self.read_faults = self.read_faults.saturating_add(1);
            return Err(Failed);
        }
        let place = place as usize;
        if place < self.length && place < 8 && !into.is_empty() {
            into[0] = self.content[place];
            return Ok(1);
        }
        Ok(0)
    }

    fn begin(&mut self, _name: &str) -> Result<(), Failed> {
        let fails = self.calls == self.call;
        self.calls = self.calls.saturating_add(1);
        if fails {
            self.write_faults = self.write_faults.saturating_add(1);
            return Err(Failed);
        }
        self.length = 0;
        Ok(())
    }

    fn append_piece(&mut self, _name: &str, piece: &[u8]) -> Result<usize, Failed> {
        let fails = self.calls == self.call;
        self.calls = self.calls.saturating_add(1);
        if piece.is_empty() {
            return Ok(0);
        }
        if fails || self.length >= 8 {
            self.write_faults = self.write_faults.saturating_add(1);
            return Err(Failed);
        }
        self.content[self.length] = piece[0];
        self.length += 1;
        Ok(1)
    }
}

// The reason of a row, the failing call, a limit, and the error that is wanted.
type DripRow = (&'static str, u64, u64, Option<ReadError>);

// Reads each row's dripping file.
fn rows_drip(rt: &impl Abort, alloc: Global, rows: &[DripRow]) -> Result<(), Fail> {
    for (reason, call, limit, want) in rows {
        let mut folder = make_dripping(b"drops", *call);
        match read_all(alloc, &mut folder, "a.c", *limit) {
            Ok(bytes) => {
                assert_eq!(rt; bytes.items(), b"drops".as_slice(), "{reason}");
                assert_eq!(rt; None, *want, "{reason}");
            }
            Err(error) => assert_eq!(rt; Some(error), *want, "{reason}"),
        }
    }
    Ok(())
}

/// Short reads make the whole file, and a failure in mid-stream is no shorter file.
#[test]
fn reads_byte_by_byte(rt: HostRuntime) -> Result<(), Fail> {
    let rows: [DripRow; 3] = [
        ("five reads of one byte", NEVER, 5, None),
        ("one byte too long", NEVER, 4, Some(ReadError::TooLong)),
        ("the fourth read fails", 3, 5, Some(ReadError::Fault)),
    ];
    rows_drip(&rt, rt.alloc(), &rows)
}

// Writes over each row's dripping file, which fails at the row's call, and reads it again where the write is wanted to
// succeed.
fn rows_written_over(
    rt: &impl Abort,
    alloc: Global,
    rows: &[(&str, u64, bool)],
) -> Result<(), Fail> {
    for (reason, call, want) in rows {
        let mut folder = make_dripping(b"longer", *call);
        let written = write_file(&mut folder, "a.c", b"drops");
        assert_eq!(rt; written.is_ok(), *want, "{reason}");
        if written.is_ok() {
            let bytes = read_all(alloc, &mut folder, "a.c", 9).ok().ok_or("read")?;
            assert_eq!(rt; bytes.items(), b"drops".as_slice(), "{reason}");
        }
    }
    Ok(())
}

/// Short writes make the whole file, over what it held, and a failure in mid-stream is told.
#[test]
fn writes_byte_by_byte(rt: HostRuntime) -> Result<(), Fail> {
    let rows = [
        ("five writes of one byte", NEVER, true),
        ("the call to begin fails", 0, false),
        ("the third write fails", 3, false),
    ];
    rows_written_over(&rt, rt.alloc(), &rows)
}

// The reason of a row, how many further files and bytes there is room for, the failing call, and whether the write is
// wanted to succeed.
type WriteRow = (&'static str, u32, u64, u64, bool);

// Writes a further file into each row's folder in memory.
fn rows_written(rt: &impl Abort, alloc: Global, rows: &[WriteRow]) -> Result<(), Fail> {
    for (reason, spare, room, call, want) in rows {
        let mut folder = folder_of(alloc, "a.c", b"int main;", *spare, *room, *call)
            .ok()
            .ok_or("memory")?;
        let written = write_file(&mut folder, "b.c", b"int x;");
        assert_eq!(rt; written.is_ok(), *want, "{reason}");
        assert_eq!(rt;
            folder.file("a.c"),
            Some(b"int main;".as_slice()),
            "{reason}"
        );
        if *want {
            assert_eq!(rt; folder.file("b.c"), Some(b"int x;".as_slice()), "{reason}");
            let read = read_all(alloc, &mut folder, "b.c", 9);
            assert_eq!(rt; read.is_ok(), *call == NEVER, "{reason}");
        } else if *room == 5 {
            assert_eq!(rt; folder.file("b.c"), Some(b"int x".as_slice()), "{reason}");
        }
    }
    Ok(())
}

/// A failure at each call in turn, one to begin and one to append: the write fails exactly there, and
/// another file stays. Room that runs out in the middle, and no further file left.
#[test]
fn writes_to_memory_or_fails(rt: HostRuntime) -> Result<(), Fail> {
    let rows: [WriteRow; 6] = [
        ("room for the whole text", 1, 6, NEVER, true),
        ("the call to begin fails", 1, 6, 0, false),
        ("the call to append fails", 1, 6, 1, false),
        ("a later call would fail", 1, 6, 2, true),
        ("one byte of room too little", 1, 5, NEVER, false),
        ("no further file is left", 0, 6, NEVER, false),
    ];
    rows_written(&rt, rt.alloc(), &rows)
}

/// A further file's name has at most 255 bytes, a file is written over, and one that was given may have
/// more bytes than the room.
#[test]
fn keeps_its_room(rt: HostRuntime) -> Result<(), Fail> {
    let long = [b'n'; 256];
    let cases = [
        ("the longest name", 255, true),
        ("one byte more than the longest name", 256, false),
    ];
    for (reason, count, want) in cases {
        let name = str::from_utf8(&long[..count]).ok().ok_or("text")?;
        let mut folder = folder_of(rt.alloc(), "a.c", b"int main;", 1, 4, NEVER)
            .ok()
            .ok_or("memory")?;
        assert_eq!(rt; folder.append_piece(name, b"int").is_ok(), want, "{reason}");
        assert_eq!(rt; folder.file(name).is_some(), want, "{reason}");
        assert_eq!(rt; folder.append_piece("a.c", b"x"), Err(Failed));
        assert_eq!(rt; folder.append_piece("a.c", b""), Ok(0));
        assert_eq!(rt; folder.begin("a.c"), Ok(()));
        assert_eq!(rt; folder.append_piece("a.c", b"int x;"), Ok(4));
        assert_eq!(rt; folder.file("a.c"), Some(b"int ".as_slice()));
    }
    Ok(())
}

// The reason of a row, the room, the failing call, and what is wanted to be written.
type SinkRow = (&'static str, u64, u64, &'static [u8]);

// Writes the text into each row's sink.
fn rows_told(rt: &impl Abort, alloc: Global, text: &[u8], rows: &[SinkRow]) -> Result<(), Fail> {
    for (reason, room, call, want) in rows {
        let calls = calls_of(alloc, *call).ok().ok_or("memory")?;
        let mut sink = MemorySink::new(alloc, *room, calls).ok().ok_or("memory")?;
        let written = write_all(&mut sink, text);
        assert_eq!(rt; sink.written(), *want, "{reason}");
        assert_eq!(rt; written.is_ok(), want.len() == text.len(), "{reason}");
    }
    Ok(())
}

/// Ample room, too little of it, and a failing call.
#[test]
fn writes_to_memory(rt: HostRuntime) -> Result<(), Fail> {
    let text = b"SUCCESSFUL\n".as_slice();
    let rows: [SinkRow; 3] = [
        ("room for the whole text", 11, NEVER, text),
        ("room for its front alone", 5, NEVER, b"SUCCE".as_slice()),
        ("the first call fails", 11, 0, b"".as_slice()),
    ];
    rows_told(&rt, rt.alloc(), text, &rows)
}

/// A file of the system that is read and written over, a missing one, and the standard output.
#[test]
fn reaches_the_system(rt: HostRuntime) -> Result<(), Fail> {
    fs::write(&rt, "piece.txt", "some text")
        .ok()
        .ok_or("no folder")?;
    let mut folder = RealFolder::new(&rt);
    let mut piece = [0u8; 4];
    assert_eq!(rt; folder.read_piece("piece.txt", 5, &mut piece), Ok(4));
    assert_eq!(rt; piece.as_slice(), b"text".as_slice());
    let bytes = read_all(rt.alloc(), &mut folder, "piece.txt", 9)
        .ok()
        .ok_or("read")?;
    assert_eq!(rt; bytes.items(), b"some text".as_slice());
    assert_eq!(rt;
        folder.read_piece("no such file.txt", 0, &mut piece),
        Err(Failed)
    );
    assert_eq!(rt; write_file(&mut folder, "piece.txt", b"short"), Ok(()));
    assert_eq!(rt; folder.append_piece("piece.txt", b"er").is_ok(), true);
    let bytes = read_all(rt.alloc(), &mut folder, "piece.txt", 9)
        .ok()
        .ok_or("read")?;
    assert_eq!(rt; bytes.items(), b"shorter".as_slice());
    assert_eq!(rt; folder.begin("no such folder/a.c"), Err(Failed));
    fs::remove_file(&rt, "piece.txt").ok().ok_or("remove")?;
    let mut sink = RealSink::new(&rt);
    assert_eq!(rt; write_all(&mut sink, b"written\n"), Ok(()));
    Ok(())
}

//! The program: it hands the files, the standard output and the words of the command line to the
//! command, and ends with its status.
#![tactic(auto)]

use lz_base::{Memory, Name};
use lz_cli::{Words, end_out_of_memory, run};
use lz_outside::{RealFolder, RealSink};
use std::alloc::Global;
use std::process::ExitCode;
use std::rt::Env;
use std::{env, io};

fn main(rt: HostRuntime) -> ExitCode {
    let mut out = RealSink::new(&rt);
    let ended = match words_of(&rt, rt.alloc()) {
        Ok(words) => run(rt.alloc(), &words, &mut RealFolder::new(&rt), &mut out),
        Err(Memory) => end_out_of_memory(&mut out),
    };
    ExitCode::from(ended.status)
}

/// The words after the program's name, or none where they can't be had as text.
fn words_of<R: Env + AllocGlobal>(rt: &R, alloc: Global) -> Result<Words, Memory> {
    let mut words = Words::new(alloc);
    match env::args(rt) {
        Ok(all) => {
            for word in all.skip(1) {
                words.push(Name::new(alloc, word.as_str())?)?;
            }
            Ok(words)
        }
        Err(error) if error.kind() == io::ErrorKind::OutOfMemory => Err(Memory),
        Err(_) => Ok(words),
    }
}

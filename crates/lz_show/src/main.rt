//! Prints the tree of a C file, each node in brackets, or the first byte or token that has no place in one, so that
//! bench/trees_read_back.py can compare it with the tree that the file was made from. The word is the file's name.
#![tactic(auto)]

mod expression;
mod program;
mod statement;
mod text;
mod words;

use crate::program::program;
use crate::text::Text;
use lz_base::{Bytes, FILE_LIMIT, Memory};
use lz_lex::{LexError, lex};
use lz_parse::{ParseError, parse};
use lz_tree::Tokens;
use std::alloc::Global;
use std::io::Write;
use std::process::ExitCode;
use std::{env, fs, io};

/// Why there is no text.
#[derive(Drop)]
enum Failure {
    /// The words name no file that can be read, or its bytes are too many.
    Usage,
    Memory,
}

impl From<Memory> for Failure {
    fn from(_memory: Memory) -> Failure {
        Failure::Memory
    }
}

impl From<io::Error> for Failure {
    fn from(_error: io::Error) -> Failure {
        Failure::Usage
    }
}

fn main(rt: HostRuntime) -> ExitCode {
    match content(&rt) {
        Ok(content) => match shown(rt.alloc(), content.as_slice()) {
            Ok(text) => match io::writer(&rt).write_all(text.items()) {
                Ok(()) => ExitCode::from(0),
                Err(_) => ExitCode::from(7),
            },
            Err(Failure::Usage) => ExitCode::from(3),
            Err(Failure::Memory) => ExitCode::from(8),
        },
        Err(_) => ExitCode::from(3),
    }
}

/// The bytes of the file that the first word names.
fn content(rt: &HostRuntime) -> io::Result<Vec<u8>> {
    match env::args(rt)?.nth(1) {
        Some(path) => fs::read(rt, path.as_str()),
        None => Ok(Vec::new(rt.alloc())),
    }
}

/// What the bytes of a file come to, as text.
fn shown(alloc: Global, content: &[u8]) -> Result<Bytes, Failure> {
    if content.len() as u64 > FILE_LIMIT {
        return Err(Failure::Usage);
    }
    match lex(alloc, content) {
        Ok(tokens) => Ok(read(alloc, &tokens)?),
        Err(LexError::Bad { place, line }) => Ok(refused(alloc, b"byte", place, line)?),
        Err(LexError::Memory) => Err(Failure::Memory),
    }
}

/// What tokens come to, as text.
fn read(alloc: Global, tokens: &Tokens) -> Result<Bytes, Memory> {
    match parse(alloc, tokens) {
        Ok(tree) => {
            let mut text = Text::new(alloc, tree.names.items());
            program(&mut text, &tree)?;
            Ok(text.finish())
        }
        Err(ParseError::NotAProgram { token, line }) => refused(alloc, b"token", token, line),
        Err(ParseError::Memory) => Err(Memory),
    }
}

/// The place where no tree goes on.
fn refused(alloc: Global, what: &[u8], place: u32, line: u32) -> Result<Bytes, Memory> {
    let mut text = Text::new(alloc, &[]);
    text.word(what)?;
    text.number(u64::from(place))?;
    text.word(b"line")?;
    text.number(u64::from(line))?;
    text.end_line()?;
    Ok(text.finish())
}

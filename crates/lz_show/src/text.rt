//! The text of a tree: nodes in brackets, with a blank before each word and node.

use lz_base::{Bytes, Memory, Name};
use std::alloc::Global;

/// A text that grows, and the names that a tree has by their numbers.
#[derive(Drop)]
pub struct Text<'a> {
    bytes: Bytes,
    names: &'a [Name],
}

impl<'a> Text<'a> {
    /// The empty text.
    pub fn new(alloc: Global, names: &'a [Name]) -> Self {
        Text {
            bytes: Bytes::new(alloc),
            names,
        }
    }

    /// Begins a node of this kind.
    pub fn open(&mut self, kind: &[u8]) -> Result<(), Memory> {
        self.bytes.append(b" (")?;
        self.bytes.append(kind)
    }

    /// Begins a node of this kind that has a line.
    pub fn open_at(&mut self, kind: &[u8], line: u32) -> Result<(), Memory> {
        self.open(kind)?;
        self.number(u64::from(line))
    }

    /// Ends a node.
    pub fn close(&mut self) -> Result<(), Memory> {
        self.bytes.append(b")")
    }

    /// Adds a word.
    pub fn word(&mut self, word: &[u8]) -> Result<(), Memory> {
        self.bytes.append(b" ")?;
        self.bytes.append(word)
    }

    /// Adds the one of two words that a bit chooses.
    pub fn choice(&mut self, bit: bool, yes: &[u8], no: &[u8]) -> Result<(), Memory> {
        if bit { self.word(yes) } else { self.word(no) }
    }

    /// Adds a number.
    pub fn number(&mut self, number: u64) -> Result<(), Memory> {
        self.bytes.append(b" ")?;
        self.bytes.append_number(number)
    }

    /// Adds the name of this number.
    pub fn name(&mut self, name: u32) -> Result<(), Memory> {
        match self.names.get(name as usize) {
            Some(name) => self.word(name.text().as_bytes()),
            None => self.word(b"?"),
        }
    }

    /// Adds all names.
    pub fn all_names(&mut self) -> Result<(), Memory> {
        for name in self.names {
            self.word(name.text().as_bytes())?;
        }
        Ok(())
    }

    /// Ends the line.
    pub fn end_line(&mut self) -> Result<(), Memory> {
        self.bytes.append(b"\n")
    }

    /// The bytes.
    pub fn finish(self) -> Bytes {
        self.bytes
    }
}

/// Why no tree was read.
#[derive(Clone, Copy, Debug, PartialEq, Eq)]
pub enum ParseError {
    /// No text of a tree begins with the tokens up to and with this one, and one begins with those before it.
    /// The line is the token's, or past the last token the line at the end of the file.
    NotAProgram { token: u32, line: u32 },
    /// Want of memory.
    Memory,
}

ghost use Rattle.std.specs.Prelude.{◌≡◌, ◌≤◌, length, take, drop};
ghost use Rattle.std.specs.List.{prefix_len, list_all};
ghost use Rattle.std.specs.Str.{IsAscii};
ghost use Rattle.lz_tree.specs.Pieces as pieces;
ghost use Rattle.lz_tree.specs.Pieces.{begins, is};
ghost use Rattle.lz_lex.specs.Scanning as scanning;

/// A newline ends a line.
pub fn is_newline(byte: u8) -> bool
    ensures { result ≡ pieces.is_newline byte }
{
    byte == b'\n'
}

/// A space or a tab.
pub fn is_blank(byte: u8) -> bool
    ensures { result ≡ pieces.is_blank byte }
{
    byte == b' ' || byte == b'\t'
}

/// A space, a tab, a newline, a vertical tab, a form feed or a carriage return (C99 6.4).
pub fn is_white(byte: u8) -> bool
    ensures { result ≡ pieces.is_white byte }
{
    byte == b' ' || (9 <= byte && byte <= 13)
}

/// What a name begins with: a letter or `_` (C99 6.4.2.1).
pub fn is_word_start(byte: u8) -> bool
    ensures { result ≡ pieces.is_word_start byte }
{
    byte.is_ascii_alphabetic() || byte == b'_'
}

/// What a name goes on with: a letter, a digit or `_`.
pub fn is_word_byte(byte: u8) -> bool
    ensures { result ≡ pieces.is_word_byte byte }
{
    is_word_start(byte) || byte.is_ascii_digit()
}

/// The first so many bytes, or all where there are fewer.
pub fn front(bytes: &[u8], count: usize) -> &[u8]
    ensures { result.now ≡ take count bytes.now }
{
    if count < bytes.len() {
        &bytes[..count]
    } else {
        bytes
    }
}

/// What stands behind the first so many bytes.
pub fn behind(bytes: &[u8], count: usize) -> &[u8]
    ensures { result.now ≡ drop count bytes.now }
{
    if count < bytes.len() {
        &bytes[count..]
    } else {
        &[]
    }
}

/// Whether the first byte is this one.
pub fn begins_with(bytes: &[u8], code: u8) -> bool
    ensures { result ≡ begins (is code) bytes.now }
{
    match bytes {
        [] => false,
        [byte, ..] => *byte == code,
    }
}

/// Whether the first byte is a space or a tab.
pub fn begins_with_blank(bytes: &[u8]) -> bool
    ensures { result ≡ begins pieces.is_blank bytes.now }
{
    match bytes {
        [] => false,
        [byte, ..] => is_blank(*byte),
    }
}

/// Whether the first byte begins a name.
pub fn begins_with_word(bytes: &[u8]) -> bool
    ensures { result ≡ begins pieces.is_word_start bytes.now }
{
    match bytes {
        [] => false,
        [byte, ..] => is_word_start(*byte),
    }
}

/// How many letters, digits and `_` stand at the front.
pub fn word_len(bytes: &[u8]) -> usize
    ensures len { result ≡ prefix_len pieces.is_word_byte bytes.now }
    ensures within { result ≤ length bytes.now }
{
    bytes.iter().take_while(|byte| is_word_byte(**byte)).count()
}

/// Bytes that are text.
pub fn text(bytes: &[u8]) -> &str
    requires { IsAscii bytes.now }
    ensures { result.now ≡ bytes.now }
{
    std::str::from_utf8(bytes).unwrap()
}

/// The letters, digits and `_` at the front.
pub fn word(bytes: &[u8]) -> &str
    ensures { result.now ≡ take (prefix_len pieces.is_word_byte bytes.now) bytes.now }
{
    text(front(bytes, word_len(bytes)))
}

/// How many bytes stand before the next newline.
pub fn line_len(bytes: &[u8]) -> usize
    ensures len { result ≡ prefix_len scanning.is_in_line bytes.now }
    ensures within { result ≤ length bytes.now }
{
    bytes.iter().take_while(|byte| !is_newline(**byte)).count()
}

fn blanks_len(bytes: &[u8]) -> usize
    ensures { result ≡ prefix_len pieces.is_blank bytes.now }
{
    bytes.iter().take_while(|byte| is_blank(**byte)).count()
}

/// What stands behind spaces and tabs.
pub fn behind_blanks(bytes: &[u8]) -> &[u8]
    ensures { result.now ≡ pieces.behind_blanks bytes.now }
{
    behind(bytes, blanks_len(bytes))
}

/// Whether there are only spaces and tabs.
pub fn are_blanks(bytes: &[u8]) -> bool
    ensures { result ≡ list_all pieces.is_blank bytes.now }
{
    bytes.iter().all(|byte| is_blank(*byte))
}

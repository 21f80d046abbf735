ghost use Rattle.std.specs.Prelude.{◌≡◌, ◌≤◌, false, length, IfSome};
ghost use Rattle.lz_lex.specs.Scanning as scanning;

use crate::bytes::{behind, is_newline};

/// Whether `*/` stands at the front.
fn closes(bytes: &[u8]) -> bool
    ensures { result ≡ scanning.closes bytes.now }
{
    match bytes {
        [b'*', b'/', ..] => true,
        _ => false,
    }
}

/// How many bytes there are up to and with the first `*/`.
pub fn comment_end(bytes: &[u8]) -> Option<usize>
    ensures end { result ≡ scanning.comment_end bytes.now }
    ensures within { IfSome result (λ end. end ≤ length bytes.now) }
{
    for i in 0..bytes.len() {
        if closes(behind(bytes, i)) {
            return Some(i + 2);
        }
    }
    None
}

/// Whether the byte ends a text, behind a backslash or not.
fn ends_text(byte: u8, escaped: bool) -> bool
    ensures { result ≡ scanning.quotes byte escaped }
{
    byte == b'"' && !escaped
}

/// Whether the byte escapes the next one.
fn escapes(byte: u8, escaped: bool) -> bool
    ensures { result ≡ scanning.escapes byte escaped }
{
    byte == b'\\' && !escaped
}

/// How many bytes of a text there are behind its first `"`, up to and with the one that ends it.
pub fn text_end(bytes: &[u8]) -> Option<usize>
    ensures end { result ≡ scanning.text_end false bytes.now }
    ensures within { IfSome result (λ end. end ≤ length bytes.now) }
{
    let mut escaped = false;
    for i in 0..bytes.len() {
        let byte = bytes[i];
        if is_newline(byte) {
            return None;
        }
        if ends_text(byte, escaped) {
            return Some(i + 1);
        }
        escaped = escapes(byte, escaped);
    }
    None
}

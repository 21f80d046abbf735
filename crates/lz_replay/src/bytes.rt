ghost use Rattle.std.specs.Prelude.{◌≡◌, ◌≤◌, length, take, drop};
ghost use Rattle.std.specs.List.{prefix_len, list_all};
ghost use Rattle.std.specs.Str.{IsAscii};
ghost use Rattle.std.specs.Char.{is_ascii_digit};
ghost use Rattle.lz_replay.specs.Lines as lines;

/// How many bytes stand before the first of this value.
pub fn len_before(byte: u8, bytes: &[u8]) -> usize
    ensures len { result ≡ prefix_len (lines.is_other byte) bytes.now }
    ensures within { result ≤ length bytes.now }
{
    bytes.iter().take_while(|other| **other != byte).count()
}

/// Bytes that are text.
fn text(bytes: &[u8]) -> &str
    requires { IsAscii bytes.now }
    ensures { result.now ≡ bytes.now }
{
    std::str::from_utf8(bytes).unwrap()
}

/// Whether all bytes are digits.
fn are_digits(bytes: &[u8]) -> bool
    ensures { result ≡ list_all is_ascii_digit bytes.now }
{
    bytes.iter().all(|byte| byte.is_ascii_digit())
}

/// Whether the bytes are digits, of which the first is 0 only where it is the last.
fn is_numeral(bytes: &[u8]) -> bool
    ensures { result ≡ lines.is_numeral bytes.now }
{
    match bytes {
        [] => false,
        [first, ..] => are_digits(bytes) && (*first != b'0' || bytes.len() == 1),
    }
}

/// The number whose decimal digits these are, where it is below 2 to the 64.
pub fn number(bytes: &[u8]) -> Option<u64>
    ensures { result ≡ lines.number_at bytes.now }
{
    if !is_numeral(bytes) {
        return None;
    }
    text(bytes).parse::<u64>().ok()
}

/// The first bytes.
pub fn front(bytes: &[u8], count: usize) -> &[u8]
    requires { count ≤ length bytes.now }
    ensures { result.now ≡ take count bytes.now }
{
    &bytes[..count]
}

/// What stands behind the first bytes, which may be more than there are.
pub fn behind(bytes: &[u8], count: usize) -> &[u8]
    ensures { result.now ≡ drop count bytes.now }
{
    if count < bytes.len() {
        &bytes[count..]
    } else {
        &[]
    }
}

ghost use Rattle.std.specs.Prelude.{◌≡◌, ◌<◌, length, find, map, option_map, true};
ghost use Rattle.std.specs.List.{prefix_len, list_all};
ghost use Rattle.std.specs.Str.{bytes_eq};
ghost use Rattle.lz_tree.specs.Pieces as pieces;
ghost use Rattle.lz_tree.specs.Pieces.{begins};
ghost use Rattle.lz_lex.specs.Views.{constant};
ghost use Rattle.lz_lex.specs.Views as views;
ghost use Rattle.lz_lex.specs.Scanning as scanning;

use crate::bytes::{begins_with, behind, front, text};
use lz_tree::Form;

/// A constant: its value and how it is written.
#[derive(Clone, Copy, Debug)]
pub struct Constant {
    pub value: u64,
    pub form: Form,
}

/// A suffix (C99 6.4.4.1): whether it has a `u`, and how many `l`.
#[derive(Clone, Copy, Debug)]
struct Suffix {
    letters: &'static [u8],
    unsigned: bool,
    longs: u8,
}

/// The suffixes, `u` and `l` in either order.
const SUFFIXES: [Suffix; 23] = [
    Suffix {
        letters: b"",
        unsigned: false,
        longs: 0,
    },
    Suffix {
        letters: b"u",
        unsigned: true,
        longs: 0,
    },
    Suffix {
        letters: b"U",
        unsigned: true,
        longs: 0,
    },
    Suffix {
        letters: b"l",
        unsigned: false,
        longs: 1,
    },
    Suffix {
        letters: b"L",
        unsigned: false,
        longs: 1,
    },
    Suffix {
        letters: b"ll",
        unsigned: false,
        longs: 2,
    },
    Suffix {
        letters: b"LL",
        unsigned: false,
        longs: 2,
    },
    Suffix {
        letters: b"ul",
        unsigned: true,
        longs: 1,
    },
    Suffix {
        letters: b"uL",
        unsigned: true,
        longs: 1,
    },
    Suffix {
        letters: b"Ul",
        unsigned: true,
        longs: 1,
    },
    Suffix {
        letters: b"UL",
        unsigned: true,
        longs: 1,
    },
    Suffix {
        letters: b"ull",
        unsigned: true,
        longs: 2,
    },
    Suffix {
        letters: b"uLL",
        unsigned: true,
        longs: 2,
    },
    Suffix {
        letters: b"Ull",
        unsigned: true,
        longs: 2,
    },
    Suffix {
        letters: b"ULL",
        unsigned: true,
        longs: 2,
    },
    Suffix {
        letters: b"lu",
        unsigned: true,
        longs: 1,
    },
    Suffix {
        letters: b"lU",
        unsigned: true,
        longs: 1,
    },
    Suffix {
        letters: b"Lu",
        unsigned: true,
        longs: 1,
    },
    Suffix {
        letters: b"LU",
        unsigned: true,
        longs: 1,
    },
    Suffix {
        letters: b"llu",
        unsigned: true,
        longs: 2,
    },
    Suffix {
        letters: b"llU",
        unsigned: true,
        longs: 2,
    },
    Suffix {
        letters: b"LLu",
        unsigned: true,
        longs: 2,
    },
    Suffix {
        letters: b"LLU",
        unsigned: true,
        longs: 2,
    },
];

fn find_suffix(suffixes: &[Suffix], letters: &[u8]) -> Option<Suffix>
    ensures { result ≡ find (λ s. bytes_eq letters.now s.letters.now) suffixes.now }
{
    suffixes.iter().copied().find(|s| letters == s.letters)
}

fn suffix_among(suffixes: &[Suffix], letters: &[u8]) -> Option<Suffix>
    ensures { option_map views.suffix result ≡ find (λ s. bytes_eq letters.now s.letters) (map views.suffix suffixes.now) }
{
    find_suffix(suffixes, letters)
}

/// The suffix that these letters are, if they are one.
#[tactic(auto, unfolding(lz_tree::specs::Pieces::suffix_of))]
fn suffix_of(letters: &[u8]) -> Option<Suffix>
    ensures { option_map views.suffix result ≡ pieces.suffix_of letters.now }
{
    suffix_among(&SUFFIXES, letters)
}

/// The bases of integer constants.
#[derive(Clone, Copy, Debug)]
enum Base {
    Octal,
    Decimal,
    Hexadecimal,
}

fn is_digit(base: Base, byte: u8) -> bool
    ensures { result ≡ scanning.is_digit base byte }
{
    match base {
        Base::Octal => b'0' <= byte && byte <= b'7',
        Base::Decimal => byte.is_ascii_digit(),
        Base::Hexadecimal => byte.is_ascii_hexdigit(),
    }
}

fn digits_len(base: Base, bytes: &[u8]) -> usize
    ensures { result ≡ prefix_len (scanning.is_digit base) bytes.now }
{
    bytes
        .iter()
        .take_while(|byte| is_digit(base, **byte))
        .count()
}

fn radix(base: Base) -> u32
    ensures { result ≡ scanning.radix base }
{
    match base {
        Base::Octal => 8,
        Base::Decimal => 10,
        Base::Hexadecimal => 16,
    }
}

fn is_decimal(base: Base) -> bool
    ensures { result ≡ scanning.is_decimal base }
{
    match base {
        Base::Decimal => true,
        _ => false,
    }
}

/// The value of digits, if it is below 2^64.
fn digits_value(base: Base, digits: &[u8]) -> Option<u64>
    requires some { 0 < length digits.now }
    requires digits { list_all (scanning.is_digit base) digits.now ≡ true }
    ensures { result ≡ scanning.digits_value_below base digits.now }
{
    u64::from_str_radix(text(digits), radix(base)).ok()
}

/// A constant of these digits and this suffix, if its value is below 2^64.
fn constant_below(base: Base, digits: &[u8], suffix: Suffix) -> Option<Constant>
    requires some { 0 < length digits.now }
    requires digits { list_all (scanning.is_digit base) digits.now ≡ true }
    ensures { option_map constant result ≡ scanning.constant_below base digits.now (views.suffix suffix) }
{
    let value = digits_value(base, digits)?;
    let form = Form {
        decimal: is_decimal(base),
        unsigned: suffix.unsigned,
        longs: suffix.longs,
    };
    Some(Constant { value, form })
}

fn begins_with_digit(base: Base, bytes: &[u8]) -> bool
    ensures { result ≡ begins (scanning.is_digit base) bytes.now }
{
    match bytes {
        [] => false,
        [byte, ..] => is_digit(base, *byte),
    }
}

/// Digits, at least one, and then a suffix.
#[tactic(auto, unfolding(lz_tree::specs::Pieces::digits_of))]
fn digits(base: Base, bytes: &[u8]) -> Option<Constant>
    ensures { option_map constant result ≡ scanning.digits_of base bytes.now }
{
    if !begins_with_digit(base, bytes) {
        return None;
    }
    let len = digits_len(base, bytes);
    let suffix = suffix_of(behind(bytes, len))?;
    constant_below(base, front(bytes, len), suffix)
}

/// The integer constant that these bytes are, if they are one (C99 6.4.4.1).
#[tactic(auto, unfolding(lz_tree::specs::Pieces::integer_of))]
pub fn integer_of(bytes: &[u8]) -> Option<Constant>
    ensures { option_map constant result ≡ pieces.integer_of bytes.now }
{
    if !begins_with(bytes, b'0') {
        return digits(Base::Decimal, bytes);
    }
    let second = behind(bytes, 1);
    if begins_with(second, b'x') || begins_with(second, b'X') {
        return digits(Base::Hexadecimal, behind(bytes, 2));
    }
    digits(Base::Octal, bytes)
}

/// The byte that stands for itself in a character constant.
fn is_plain(byte: u8) -> bool
    ensures { result ≡ pieces.is_plain byte }
{
    b' ' <= byte && byte <= b'~' && byte != b'\'' && byte != b'\\'
}

/// The value of an escape by the letter behind the backslash (C99 5.2.2, 6.4.4.4).
#[tactic(auto, unfolding(lz_tree::specs::Pieces::escape_of))]
fn escape_of(letter: u8) -> Option<u8>
    ensures { result ≡ option_map (λ e. e.value) (pieces.escape_of letter) }
{
    match letter {
        b'n' => Some(10),
        b't' => Some(9),
        b'r' => Some(13),
        b'0' => Some(0),
        b'a' => Some(7),
        b'b' => Some(8),
        b'f' => Some(12),
        b'v' => Some(11),
        b'\\' => Some(92),
        b'\'' => Some(39),
        b'"' => Some(34),
        _ => None,
    }
}

fn character(value: u8) -> Constant
    ensures { constant result ≡ pieces.character_constant value }
{
    let form = Form {
        decimal: true,
        unsigned: false,
        longs: 0,
    };
    Constant {
        value: u64::from(value),
        form,
    }
}

/// The character constant that these bytes are, if they are one (C99 6.4.4.4).
#[tactic(auto, unfolding(lz_tree::specs::Pieces::character_of))]
pub fn character_of(bytes: &[u8]) -> Option<Constant>
    ensures { option_map constant result ≡ pieces.character_of bytes.now }
{
    match bytes {
        [b'\'', byte, b'\''] if is_plain(*byte) => Some(character(*byte)),
        [b'\'', b'\\', letter, b'\''] => match escape_of(*letter) {
            None => None,
            Some(value) => Some(character(value)),
        },
        _ => None,
    }
}

//! Numbers and modes that words write.

ghost use Rattle.std.specs.Prelude.{◌≡◌};
ghost use Rattle.std.specs.List.{list_all};
ghost use Rattle.std.specs.Char.{is_ascii_digit};
ghost use Rattle.lz_words.specs.CommandLine as spec;

use crate::asked::Mode;
use crate::limits::DIGIT_LIMIT;

/// Whether all bytes are digits.
fn are_digits(bytes: &[u8]) -> bool
    ensures { result ≡ list_all is_ascii_digit bytes.now }
{
    bytes.iter().all(|byte| byte.is_ascii_digit())
}

/// Whether a word is one to twenty digits.
fn is_number(word: &str) -> bool
    ensures { result ≡ spec.is_number word.now }
{
    let bytes = word.as_bytes();
    bytes.len() > 0 && (bytes.len() <= DIGIT_LIMIT && are_digits(bytes))
}

/// The number that a word writes, where 64 bits hold it.
fn number(word: &str) -> Option<u64>
    ensures { result ≡ spec.number_of word.now }
{
    if !is_number(word) {
        return None;
    }
    word.parse::<u64>().ok()
}

/// The number, where it is in the range.
fn within(least: u64, most: u64, number: Option<u64>) -> Option<u64>
    ensures { result ≡ spec.within least most number }
{
    let number = number?;
    if least <= number && number <= most {
        Some(number)
    } else {
        None
    }
}

/// The number that an option says, in its range, or the default where the option is absent.
pub fn number_or(least: u64, most: u64, default: u64, word: Option<&str>) -> Option<u64>
    ensures { result ≡ spec.number_or least most default (spec.text_of word.entry) }
{
    match word {
        None => Some(default),
        Some(word) => within(least, most, number(word)),
    }
}

/// The same for numbers of 32 bits.
pub fn small_or(least: u32, most: u32, default: u32, word: Option<&str>) -> Option<u32>
    ensures { result ≡ spec.number_or least most default (spec.text_of word.entry) }
{
    match word {
        None => Some(default),
        Some(word) => small(least, most, word),
    }
}

/// The number that a word writes, in a range of 32 bits.
fn small(least: u32, most: u32, word: &str) -> Option<u32>
    ensures { result ≡ spec.within least most (spec.number_of word.now) }
{
    let number = within(u64::from(least), u64::from(most), number(word))?;
    if number <= u64::from(most) {
        Some(number as u32)
    } else {
        None
    }
}

/// The seed that an option says, or none where the option is absent; no answer where the seed is out of its range.
pub fn seed_or_none(most: u32, word: Option<&str>) -> Option<Option<u32>>
    ensures { result ≡ spec.seed_or_none most (spec.text_of word.entry) }
{
    match word {
        None => Some(None),
        Some(word) => match small(0, most, word) {
            None => None,
            Some(number) => Some(Some(number)),
        },
    }
}

/// The mode of this name.
fn mode_named(word: &str) -> Option<Mode>
    ensures { result ≡ spec.mode_named word.now }
{
    if word == "check" {
        Some(Mode::Check)
    } else if word == "replay" {
        Some(Mode::Replay)
    } else if word == "recheck" {
        Some(Mode::Recheck)
    } else if word == "gen" {
        Some(Mode::Gen)
    } else if word == "emit" {
        Some(Mode::Emit)
    } else {
        None
    }
}

/// The mode that an option says, or mode check where the option is absent.
pub fn mode_or_check(word: Option<&str>) -> Option<Mode>
    ensures { result ≡ spec.mode_or_check (spec.text_of word.entry) }
{
    match word {
        None => Some(Mode::Check),
        Some(word) => mode_named(word),
    }
}

//! Numbers at the front of bytes.

ghost use Rattle.std.specs.Prelude.{◌≡◌, ℕ, ◌+◌, ◌*◌, ◌<◌, ◌≤◌, List, [], ◌∷◌, ◌++◌, length, MatchOption};
ghost use Rattle.std.specs.Char.{digit_value, is_digit};
ghost use Rattle.std.specs.List.{prefix_len};
ghost use Rattle.std.specs.Str.Parse.{AllDigits, digits_value};
ghost use Rattle.lz_log.specs.Pieces.{HasBounded, HasNumber, IsCapped, TellsNumber, number_cap};

/// Numbers from this one on are told as this one: no list here is that long.
const NUMBER_CAP: u64 = 4_294_967_296;

/// What follows this byte at the front.
pub fn behind_byte(bytes: &[u8], byte: u8) -> Option<&[u8]>
    ensures { MatchOption result ((rest : List ℕ) → bytes.now ≡ byte ∷ rest → ⊥) (λ rest. bytes.now ≡ byte ∷ rest.now) }
{
    match bytes {
        [first, rest @ ..] if *first == byte => Some(rest),
        _ => None,
    }
}

/// How many digits stand at the front.
fn digits_len(bytes: &[u8]) -> usize
    ensures len { result ≡ prefix_len (λ byte. is_digit byte 10) bytes.now }
    ensures within { result ≤ length bytes.now }
{
    bytes
        .iter()
        .take_while(|byte| char::from(**byte).is_digit(10))
        .count()
}

/// The number that one more digit makes, up to the cap.
fn with_digit(value: u64, digit: u8) -> u64
    requires value { value ≤ number_cap }
    requires digit { digit_value digit < 10 }
    ensures capped { (number : ℕ) → IsCapped value number → IsCapped result (number * 10 + digit_value digit) }
    ensures most { result ≤ number_cap }
{
    let next = value * 10 + u64::from(digit - b'0');
    if next < NUMBER_CAP { next } else { NUMBER_CAP }
}

/// The number that digits write, up to the cap.
fn value_of(digits: &[u8]) -> u64
    requires { AllDigits 10 digits.now }
    ensures { IsCapped result (digits_value 10 digits.now) }
{
    let mut value = 0;
    for digit in digits {
        value = with_digit(value, *digit);
    }
    value
}

/// The number at the front, up to the cap, and what follows its digits. It has no leading zero.
pub fn number(bytes: &[u8]) -> Option<(u64, &[u8])>
    ensures { MatchOption result
        ((digits : List ℕ) (number : ℕ) (rest : List ℕ) → HasNumber bytes.now digits number rest → ⊥)
        (λ r. TellsNumber bytes.now r.0 r.1.now) }
{
    let len = digits_len(bytes);
    if len == 0 {
        return None;
    }
    if len > 1 && bytes[0] == b'0' {
        return None;
    }
    Some((value_of(&bytes[..len]), &bytes[len..]))
}

/// The number at the front that lies within these bounds and has this byte behind it, and what follows.
pub fn bounded(bytes: &[u8], end: u8, low: u32, high: u32) -> Option<(u32, &[u8])>
    requires { 10 ≤ digit_value end }
    ensures { MatchOption result
        ((number : ℕ) (rest : List ℕ) → HasBounded bytes.now end low high number rest → ⊥)
        (λ r. HasBounded bytes.now end low high r.0 r.1.now) }
{
    let (number, rest) = number(bytes)?;
    if number < u64::from(low) || number > u64::from(high) {
        return None;
    }
    let rest = behind_byte(rest, end)?;
    Some((number as u32, rest))
}

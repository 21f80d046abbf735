//! That words have one reading.

ghost use Rattle.std.specs.Prelude.{◌≡◌, ℕ, List};
ghost use Rattle.lz_words.specs.CommandLine.{IsReading};

use crate::asked::Asked;

/// Words are read in one way at most.
pub fn one_reading()
    ensures { (words : List (List ℕ)) (a b : Asked) → IsReading words a → IsReading words b → a ≡ b }
{}

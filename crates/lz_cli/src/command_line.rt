//! How much of what the words ask for is built.

ghost use Rattle.std.specs.Prelude.{◌≡◌};
ghost use Rattle.lz_cli.specs.CommandLine as spec;

use crate::limits::{DEFAULT_CONFLICTS, DEFAULT_ROUNDS};
use lz_words::Asked;

/// Whether the default numbers of rounds and conflicts are asked for, and no proof.
pub fn is_plain(asked: &Asked) -> bool
    ensures { result ≡ spec.is_plain asked.now }
{
    asked.rounds == DEFAULT_ROUNDS
        && (asked.conflicts == DEFAULT_CONFLICTS && asked.proof.is_none())
}

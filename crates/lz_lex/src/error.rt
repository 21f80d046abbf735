ghost use Rattle.std.specs.Prelude.{◌≡◌};
ghost use Rattle.lz_lex.specs.declared.error.LexError.TheVariants as errors;

use std::alloc::{AllocError, AllocFailed};

/// Why bytes are not cut into tokens.
#[derive(Clone, Copy, Debug, PartialEq, Eq)]
pub enum LexError {
    /// No piece can stand at the place, where the longest cut ends.
    Bad { place: u32, line: u32 },
    /// Want of memory.
    Memory,
}

impl From<lz_base::Memory> for LexError {
    ghost from_gives = { λ _ e. e ≡ errors.Memory };

    fn from(_error: lz_base::Memory) -> LexError {
        LexError::Memory
    }
}

impl From<AllocError> for LexError {
    ghost from_gives = { λ _ e. e ≡ errors.Memory };

    fn from(_error: AllocError) -> LexError {
        LexError::Memory
    }
}

impl<T: Drop> From<AllocFailed<T>> for LexError {
    ghost from_gives = { λ _ e. e ≡ errors.Memory };

    fn from(_error: AllocFailed<T>) -> LexError {
        LexError::Memory
    }
}

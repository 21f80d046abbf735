ghost use Rattle.std.specs.Prelude.{◌≡◌};
ghost use Rattle.lz_expr.specs.declared.refusal.Refusal.TheVariants as refusals;

use lz_base::Memory;
use std::alloc::{AllocError, AllocFailed};

/// Why a reader of tokens gave nothing.
#[derive(Clone, Copy, Debug, PartialEq, Eq)]
pub enum Refusal {
    /// So many tokens are left from the first one that can't stand.
    Refused { left: usize },
    /// Want of memory.
    Memory,
}

impl From<AllocError> for Refusal {
    ghost from_gives = { λ _ e. e ≡ refusals.Memory };

    fn from(_error: AllocError) -> Refusal {
        Refusal::Memory
    }
}

impl<T: Drop> From<AllocFailed<T>> for Refusal {
    ghost from_gives = { λ _ e. e ≡ refusals.Memory };

    fn from(_error: AllocFailed<T>) -> Refusal {
        Refusal::Memory
    }
}

impl From<Memory> for Refusal {
    ghost from_gives = { λ _ e. e ≡ refusals.Memory };

    fn from(_error: Memory) -> Refusal {
        Refusal::Memory
    }
}

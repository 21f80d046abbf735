ghost use Rattle.std.specs.Prelude.{ℕ, ◌≡◌, ◌+◌, ◌*◌, ◌<◌, ◌^◌};
ghost use Rattle.lz_slots.specs.Nesting.{saturated};

/// A sum that stops at the greatest number.
pub fn plus(a: u64, b: u64) -> u64
    ensures { result ≡ saturated (a + b) }
{
    a.saturating_add(b)
}

/// A product that stops at the greatest number.
pub fn times(a: u64, b: u64) -> u64
    ensures { result ≡ saturated (a * b) }
{
    a.saturating_mul(b)
}

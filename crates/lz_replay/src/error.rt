ghost use Rattle.std.specs.Prelude.{◌≡◌};
ghost use Rattle.lz_replay.specs.declared.error.ScheduleError.TheVariants as errors;

/// Why a text is no schedule.
#[derive(Clone, Copy, Debug, PartialEq, Eq)]
pub enum ScheduleError {
    /// The line of this number, counted from 1, is the first without a reading.
    Bad { line: u32 },
    /// Want of memory.
    Memory,
}

impl From<lz_base::Memory> for ScheduleError {
    ghost from_gives = { λ _ e. e ≡ errors.Memory };

    fn from(_error: lz_base::Memory) -> ScheduleError {
        ScheduleError::Memory
    }
}

use lz_base::BreakKind;

/// What a replay of a schedule comes to.
#[derive(Clone, Copy, Debug, PartialEq, Eq)]
pub enum Replayed {
    /// A run follows the whole schedule and breaks this check of this line; `events` is the number of its steps.
    Broke {
        kind: BreakKind,
        line: u32,
        events: u64,
    },
    /// A run follows the whole schedule and breaks no check; `events` is the number of its steps.
    Holds {
        events: u64,
    },
    /// No run follows the schedule up to and with the step of this index, counted from 0, and some run follows the
    /// steps before it.
    NotARun {
        index: u64,
    },
}

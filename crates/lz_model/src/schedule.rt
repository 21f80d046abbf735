ghost use Rattle.std.specs.Prelude.{◌≡◌, ◌<◌, ◌^◌};
ghost use Rattle.lz_model.specs.Rounds.{rounds_of, threads_of};

use lz_base::Sequence;

/// One step of a schedule: the thread that takes it, and what it chooses. The choice is 0 for every
/// action that has none.
#[derive(Clone, Copy, Debug, PartialEq, Eq)]
pub struct Step {
    pub thread: u32,
    pub choice: u64,
}

/// A schedule: one step for each event of a run.
pub type Schedule = Sequence<Step>;

/// The rounds of a schedule: one more than the places where the thread number goes down.
pub fn rounds(schedule: &Schedule) -> u32
    requires { rounds_of (threads_of schedule.now) < 2 ^ 32 }
    ensures { result ≡ rounds_of (threads_of schedule.now) }
{
    let mut descents = 0u32;
    let mut before = 0u32;
    for step in schedule.items() {
        if step.thread < before {
            descents += 1;
        }
        before = step.thread;
    }
    descents + 1
}

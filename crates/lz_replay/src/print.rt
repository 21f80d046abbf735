ghost use Rattle.std.specs.Prelude.{◌≡◌, ◌++◌, codes, IfOk, OnOk};
ghost use Rattle.lz_model.specs.ScheduleText.{printed, step_text};

use lz_base::{Bytes, Memory};
use lz_model::{Schedule, Step};
use std::alloc::Global;

/// The text of a schedule: the line `step T C` for each step, with the thread and the choice.
pub fn print_schedule(alloc: Global, schedule: &Schedule) -> Result<Bytes, Memory>
    ensures { IfOk result (λ text. text ≡ printed schedule.now) }
{
    let mut text = Bytes::new(alloc);
    for step in schedule.items() {
        append_step(&mut text, *step)?;
    }
    Ok(text)
}

/// Adds the line of a step.
fn append_step(text: &mut Bytes, step: Step) -> Result<(), Memory>
    ensures { OnOk result (text.new ≡ text.old ++ (step_text step ++ codes "\n")) }
{
    text.append(b"step ")?;
    text.append_number(u64::from(step.thread))?;
    text.append(b" ")?;
    text.append_number(step.choice)?;
    text.append(b"\n")
}

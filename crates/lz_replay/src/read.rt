ghost use Rattle.std.specs.Prelude.{◌≡◌, ◌<◌, ◌^◌, length, IfOk, IfErr, OnOk};
ghost use Rattle.lz_model.specs.ScheduleText.{IsScheduleText};
ghost use Rattle.lz_replay.specs.Lines as lines;
ghost use Rattle.lz_replay.specs.Refusals.{IsRefusal};
ghost use Rattle.lz_replay.specs.Reading.{Adds, IsLineRefusal};

use crate::bytes::{behind, front, len_before, number};
use crate::error::ScheduleError;
use lz_model::{Schedule, Step};
use std::alloc::Global;

/// The step of two numbers with a space between them.
fn numbers(bytes: &[u8]) -> Option<Step>
    ensures { result ≡ lines.numbers_at bytes.now }
{
    let count = len_before(b' ', bytes);
    if count == bytes.len() {
        return None;
    }
    step_of(
        number(front(bytes, count)),
        number(behind(bytes, count + 1)),
    )
}

/// The step of two numbers, where the first is that of a thread.
fn step_of(thread: Option<u64>, choice: Option<u64>) -> Option<Step>
    ensures { result ≡ lines.step_of thread choice }
{
    let thread = thread?;
    let choice = choice?;
    if thread > u64::from(u32::MAX) {
        return None;
    }
    Some(Step {
        thread: thread as u32,
        choice,
    })
}

/// The step of a line `step T C`.
fn step(line: &[u8]) -> Option<Step>
    ensures { result ≡ lines.step_at line.now }
{
    if !line.starts_with(b"step ") {
        return None;
    }
    numbers(behind(line, 5))
}

/// Whether a line says nothing of the schedule.
fn is_passed_over(line: &[u8]) -> bool
    ensures { result ≡ lines.is_passed_over line.now }
{
    match line {
        [] => true,
        _ => line == b"FAILED".as_slice()
            || (line.starts_with(b"check ") || line.starts_with(b"rounds ")),
    }
}

/// Adds what a line says, the line of this number.
fn add_line(schedule: &mut Schedule, line: &[u8], number: u32) -> Result<(), ScheduleError>
    ensures ok { OnOk result (Adds line.now schedule.old schedule.new) }
    ensures err { IfErr result (λ e. IsLineRefusal line.now number e) }
{
    match step(line) {
        Some(step) => {
            schedule.push(step)?;
            Ok(())
        }
        None => {
            if is_passed_over(line) {
                Ok(())
            } else {
                Err(ScheduleError::Bad { line: number })
            }
        }
    }
}

/// The schedule of a text, or the first line that has no reading. Linear in the bytes.
pub fn read_schedule(alloc: Global, bytes: &[u8]) -> Result<Schedule, ScheduleError>
    requires { length bytes.now < 2 ^ 32 }
    ensures text { IfOk result (λ schedule. IsScheduleText bytes.now schedule) }
    ensures bad { IfErr result (λ e. IsRefusal bytes.now e) }
{
    let mut schedule = Schedule::new(alloc);
    let mut rest = bytes;
    let mut line = 0u32;
    while !rest.is_empty() {
        line += 1;
        let count = len_before(b'\n', rest);
        add_line(&mut schedule, front(rest, count), line)?;
        rest = behind(rest, count + 1);
    }
    Ok(schedule)
}

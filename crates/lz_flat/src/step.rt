ghost use Rattle.std.specs.Prelude.{◌≡◌, ◌<◌, ◌≤◌, ◌+◌, ◌^◌, length, map, drop, slice_index, All};
ghost use Rattle.lz_flat.specs.Programs.{marked, flat_program, code_of};
ghost use Rattle.lz_flat.specs.WellFormed.{IsCodeOf, IsWellMarked, BeginsVisible, IsWord};
ghost use Rattle.lz_flat.specs.Steps.{RunsOn, Steps, stepped_so};

use crate::perform::{Halt, perform_instr};
use crate::program::{Flat, Marked};
use lz_base::{BreakKind, Value};

/// What a step of a thread came to.
#[derive(Clone, Copy, Debug, PartialEq, Eq)]
pub enum Stepped {
    /// It ran so many instructions.
    Went { used: u32 },
    /// Its first instruction is an assumption of 0. Nothing changed.
    Blocked,
    /// It met a check of 0. The memory may have changed, and the place has not.
    Broke { kind: BreakKind, line: u32 },
    /// The thread has no instruction left. Nothing changed.
    Ended,
}

/// Runs the instructions from a place on, up to a visible one or the end: its place, and how many ran.
fn run_on(
    code: &[Marked],
    inputs: &[Value],
    from: u32,
    memory: &mut [Value],
) -> Result<(u32, u32), Halt>
    requires code { IsCodeOf (length memory.old) (map marked code.now) }
    requires short { length code.now < 2 ^ 32 }
    requires words { All IsWord memory.old }
    requires inputs { length inputs.now ≡ length code.now }
    requires input_words { All IsWord inputs.now }
    requires from { from ≤ length code.now }
    requires behind { 1 ≤ from }
    ensures runs { RunsOn (map marked code.now) (slice_index inputs.now) from memory.old memory.new result }
    ensures words { All IsWord memory.new }
{
    let mut at = from as usize;
    let mut used = 1u32;
    while at < code.len() {
        let next = &code[at];
        if next.visible {
            return Ok((at as u32, used));
        }
        let over = perform_instr(&next.instr, inputs[at], memory)?;
        at += 1 + over as usize;
        used += 1;
    }
    Ok((at as u32, used))
}

/// One step of a thread with this code, whose place is not the end: how many instructions ran.
fn step_within(
    code: &[Marked],
    memory: &mut [Value],
    place: &mut u32,
    inputs: &[Value],
) -> Result<u32, Halt>
    requires code { IsCodeOf (length memory.old) (map marked code.now) }
    requires short { length code.now < 2 ^ 32 }
    requires words { All IsWord memory.old }
    requires inputs { length inputs.now ≡ length code.now }
    requires input_words { All IsWord inputs.now }
    requires within { place.old < length code.now }
    ensures steps { Steps (map marked code.now) (slice_index inputs.now) place.old place.new memory.old memory.new (stepped_so result) }
    ensures words { All IsWord memory.new }
{
    let at = *place as usize;
    let first = &code[at];
    let over = perform_instr(&first.instr, inputs[at], memory)?;
    let (next, used) = run_on(code, inputs, *place + (1 + over), memory)?;
    *place = next;
    Ok(used)
}

/// What a step came to that ran so many instructions or was stopped.
fn stepped_so(ran: Result<u32, Halt>) -> Stepped
    ensures { result ≡ stepped_so ran }
{
    match ran {
        Ok(used) => Stepped::Went { used },
        Err(Halt::Blocked) => Stepped::Blocked,
        Err(Halt::Broke { kind, line }) => Stepped::Broke { kind, line },
    }
}

/// One step of a thread with this code.
fn step_code(code: &[Marked], memory: &mut [Value], place: &mut u32, inputs: &[Value]) -> Stepped
    requires code { IsCodeOf (length memory.old) (map marked code.now) }
    requires short { length code.now < 2 ^ 32 }
    requires words { All IsWord memory.old }
    requires inputs { length inputs.now ≡ length code.now }
    requires input_words { All IsWord inputs.now }
    ensures steps { Steps (map marked code.now) (slice_index inputs.now) place.old place.new memory.old memory.new result }
    ensures words { All IsWord memory.new }
{
    if *place as usize >= code.len() {
        return Stepped::Ended;
    }
    stepped_so(step_within(code, memory, place, inputs))
}

/// One step of a thread: the instruction at its place, with those that follow up to the next visible one
/// or the end. Takes no memory.
pub fn flat_step(
    flat: &Flat,
    thread: u32,
    memory: &mut [Value],
    place: &mut u32,
    inputs: &[Value],
) -> Stepped
    requires marked { IsWellMarked (flat_program flat.now) }
    requires thread { thread < length flat.now.threads }
    requires short { length (code_of (flat_program flat.now) thread) < 2 ^ 32 }
    requires memory { length memory.old ≡ length flat.now.first }
    requires words { All IsWord memory.old }
    requires place { BeginsVisible (drop place.old (code_of (flat_program flat.now) thread)) }
    requires inputs { length inputs.now ≡ length (code_of (flat_program flat.now) thread) }
    requires input_words { All IsWord inputs.now }
    ensures steps { Steps (code_of (flat_program flat.now) thread) (slice_index inputs.now) place.old place.new memory.old memory.new result }
    ensures words { All IsWord memory.new }
{
    let code = &flat.threads.items()[thread as usize];
    step_code(code.items(), memory, place, inputs)
}

ghost use Rattle.std.specs.Prelude.{◌≡◌, ◌<◌, ◌-◌, ◌^◌, length, All};
ghost use Rattle.lz_flat.specs.Programs.{location, instruction};
ghost use Rattle.lz_flat.specs.Instructions.{put};
ghost use Rattle.lz_flat.specs.WellFormed.{IsInstructionOf, IsLocationOf, IsWord};
ghost use Rattle.lz_flat.specs.Steps.{Performs};

use crate::evaluate::evaluate;
use crate::program::{Instr, Spot};
use lz_base::{BreakKind, Value};

/// What stops a run.
#[derive(Clone, Copy, Debug, PartialEq, Eq)]
pub enum Halt {
    /// An assumption of 0.
    Blocked,
    /// A check of 0.
    Broke { kind: BreakKind, line: u32 },
}

/// Writes a word. Past the length of the spot it does nothing.
#[tactic(auto, unfolding(crate::specs::Instructions::put))]
fn write(to: &Spot, value: Value, memory: &mut [Value])
    requires within { IsLocationOf (length memory.old) (location to.now) }
    requires words { All IsWord memory.old }
    requires word { IsWord value }
    ensures put { memory.new ≡ put (location to.now) value memory.old }
    ensures words { All IsWord memory.new }
{
    let index = evaluate(&to.index, memory);
    if index < u64::from(to.len) {
        memory[to.first as usize + index as usize] = value;
    }
}

/// Performs an instruction with its input, and moves on over so many of the instructions behind it.
#[tactic(auto, unfolding(crate::specs::Instructions::did))]
pub fn perform_instr(instr: &Instr, input: Value, memory: &mut [Value]) -> Result<u32, Halt>
    requires within { IsInstructionOf (length memory.old) (instruction instr.now) }
    requires words { All IsWord memory.old }
    requires word { IsWord input }
    ensures performs { Performs (instruction instr.now) input memory.old memory.new result }
    ensures words { All IsWord memory.new }
{
    match instr {
        Instr::Set { to, value } => {
            let value = evaluate(value, memory);
            write(to, value, memory);
            Ok(0)
        }
        Instr::Input { to } => {
            write(to, input, memory);
            Ok(0)
        }
        Instr::Assume { test } => {
            if evaluate(test, memory) == 0 {
                return Err(Halt::Blocked);
            }
            Ok(0)
        }
        Instr::Check { test, kind, line } => {
            if evaluate(test, memory) == 0 {
                return Err(Halt::Broke {
                    kind: *kind,
                    line: *line,
                });
            }
            Ok(0)
        }
        Instr::Skip { test, by } => {
            if evaluate(test, memory) == 0 {
                return Ok(0);
            }
            Ok(by.saturating_sub(1))
        }
    }
}

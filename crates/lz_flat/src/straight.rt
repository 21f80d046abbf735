ghost use Rattle.std.specs.Prelude.{◌≡◌, ◌<◌, ◌^◌, ◌↔◌, IsTrue, length, map, slice_index, All};
ghost use Rattle.std.specs.List.{AllByRecursion};
ghost use Rattle.lz_flat.specs.Programs.{statement, straight_program};
ghost use Rattle.lz_flat.specs.WellFormed.{IsWellFormed, IsStatementOf, IsWord};
ghost use Rattle.lz_flat.specs.StraightRuns.{FailsOn};
ghost use Rattle.lz_flat.specs.Steps.{Performs, PerformsGuarded};

use crate::evaluate::evaluate;
use crate::perform::{Halt, perform_instr};
use crate::program::{Guarded, Straight};
use lz_base::Value;

/// Performs a statement with its input.
fn perform_guarded(next: &Guarded, input: Value, memory: &mut [Value]) -> Result<u32, Halt>
    requires within { IsStatementOf (length memory.old) (statement next.now) }
    requires words { All IsWord memory.old }
    requires word { IsWord input }
    ensures performs { PerformsGuarded (statement next.now) input memory.old memory.new result }
    ensures words { All IsWord memory.new }
{
    if evaluate(&next.guard, memory) == 0 {
        return Ok(0);
    }
    perform_instr(&next.instr, input, memory)
}

/// Whether the straight program fails on these inputs: some check of 0 is met, and no assumption of 0
/// before it. The memory is used up. Takes no memory of its own.
pub fn straight_run(straight: &Straight, inputs: &[Value], memory: &mut [Value]) -> bool
    requires formed { IsWellFormed (straight_program straight.now) }
    requires inputs { length inputs.now ≡ length straight.now.list }
    requires input_words { All IsWord inputs.now }
    requires memory { memory.old ≡ straight.now.first }
    ensures { IsTrue result ↔ FailsOn (straight_program straight.now) inputs.now }
{
    let list = straight.list.items();
    for i in 0..list.len() {
        match perform_guarded(&list[i], inputs[i], memory) {
            Ok(_) => {}
            Err(Halt::Blocked) => return false,
            Err(Halt::Broke { kind: _, line: _ }) => return true,
        }
    }
    false
}

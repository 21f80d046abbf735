//! The nodes of a straight program, by lz_ssa.

ghost use Rattle.std.specs.Prelude.{◌≡◌, IfOk, [], ◌∷◌};
ghost use Rattle.lz_flat.specs.Programs.{expression, statement, straight_program};
ghost use Rattle.lz_circuit_tests.specs.Example.{example, greater_test};

use lz_base::{Binary, BreakKind, IntType, Memory, Sequence};
use lz_flat::{FlatExpr, Guarded, GuardedList, Instr, Spot, Straight, binary_expr, straight_run};
use lz_ssa::{eval, nodes};
use std::alloc::Global;
use std::process::Abort;
use std::test::Fail;

/// Whether one more than word 0 is greater than it.
fn greater(alloc: Global) -> Result<FlatExpr, Memory>
    ensures { IfOk result (λ e. expression e ≡ greater_test) }
{
    let word = FlatExpr::Word { place: 0 };
    let one = FlatExpr::Constant { value: 1 };
    let sum = binary_expr(alloc, Binary::Add, IntType::Int, word, one)?;
    let word = FlatExpr::Word { place: 0 };
    binary_expr(alloc, Binary::Gt, IntType::Int, sum, word)
}

/// The program that takes an input as word 0 and checks that.
fn program(alloc: Global) -> Result<Straight, Memory>
    ensures { IfOk result (λ straight. straight_program straight ≡ example) }
{
    let to = Spot {
        first: 0,
        len: 1,
        index: FlatExpr::Constant { value: 0 },
    };
    let test = greater(alloc)?;
    let mut list = GuardedList::new(alloc);
    list.push(Guarded {
        guard: FlatExpr::Constant { value: 1 },
        instr: Instr::Input { to },
    })?;
    list.push(Guarded {
        guard: FlatExpr::Constant { value: 1 },
        instr: Instr::Check {
            test,
            kind: BreakKind::Assert,
            line: 2,
        },
    })?;
    let mut first = Sequence::new(alloc);
    first.push(0)?;
    Ok(Straight { list, first })
}

/// Whether the example fails on an input: by its nodes, and by itself.
fn fails_with(alloc: Global, straight: &Straight, input: u32) -> Result<(bool, bool), Memory>
    requires { straight_program straight.now ≡ example }
{
    let inputs = [u64::from(input), 0];
    let made = nodes(alloc, straight)?;
    let mut values = Vec::from_elem(alloc, 0, made.list.items().len())?;
    eval(&made, &inputs, &mut values);
    let mut memory = [0];
    let ran = straight_run(straight, &inputs, &mut memory);
    Ok((values[made.fails as usize] != 0, ran))
}

/// Compares whether the example fails on each row's input.
fn inputs_agree(
    rt: &impl Abort,
    alloc: Global,
    straight: &Straight,
    rows: &[(u32, bool, &str)],
) -> Result<(), Fail>
    requires { straight_program straight.now ≡ example }
{
    for (input, fails, reason) in rows {
        let (by_nodes, by_itself) = fails_with(alloc, straight, *input).ok().ok_or("memory")?;
        assert_eq!(rt; by_nodes, *fails, "by its nodes: {reason}");
        assert_eq!(rt; by_itself, *fails, "by itself: {reason}");
    }
    Ok(())
}

/// One more than the greatest `int` wraps, and is not greater.
#[test]
fn the_greatest_int_has_no_greater(rt: HostRuntime) -> Result<(), Fail> {
    let straight = program(rt.alloc()).ok().ok_or("memory")?;
    let table: [(u32, bool, &str); 2] = [
        (2_147_483_647, true, "one more is the least `int`"),
        (5, false, "6 is greater"),
    ];
    inputs_agree(&rt, rt.alloc(), &straight, &table)
}

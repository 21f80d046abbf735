//! What nodes fold to, by lz_fold: the word of the last node before and after.

ghost use Rattle.std.specs.Prelude.{◌≡◌, ◌<◌, ◌≤◌, ◌^◌, true, length, IfOk, [], ◌∷◌};
ghost use Rattle.lz_flat.specs.Programs.{expression, statement, straight_program};
ghost use Rattle.lz_ssa.specs.NodeValues.{IsNodeOf, AreNodesFrom, AreWellFormed};
ghost use Rattle.lz_flat_tests.specs.FoldingExample.{one_is_one, checks_one};

use lz_base::{Binary, BreakKind, IntType, Memory, Sequence, Unary, Value};
use lz_flat::{FlatExpr, Guarded, GuardedList, Instr, Straight, binary_expr};
use lz_fold::fold;
use lz_ssa::{Node, NodeList, Nodes, eval, nodes};
use std::alloc::Global;
use std::test::Fail;

/// Whether a node may stand behind so many, with two inputs.
fn may_stand(node: Node, before: u32) -> bool
    ensures { result ≡ true → IsNodeOf 2 before node }
{
    match node {
        Node::Constant { value } => value < 4_294_967_296,
        Node::Input { number, kind: _ } => number < 2,
        Node::Unary { op: _, kind: _, of } => of < before,
        Node::Binary {
            op: _,
            kind: _,
            left,
            right,
        } => left < before && right < before,
        Node::Convert { from: _, to: _, of } => of < before,
        Node::Choose { test, yes, no } => test < before && yes < before && no < before,
    }
}

/// Whether each node names earlier ones alone.
fn are_formed(row: &[Node]) -> bool
    requires { length row.now < 2 ^ 32 }
    ensures { result ≡ true → AreNodesFrom 2 0 row.now }
{
    for i in 0..row.len() {
        if !may_stand(row[i], i as u32) {
            return false;
        }
    }
    true
}

fn copy(alloc: Global, row: &[Node]) -> Result<NodeList, Memory>
    ensures { IfOk result (λ list. list ≡ row.now) }
{
    let mut list = Sequence::new(alloc);
    list.append(row)?;
    Ok(list)
}

/// The word of the node of the check.
fn fails_of(alloc: Global, nodes: &Nodes, inputs: &[u32; 2]) -> Result<Value, Memory>
    requires formed { AreWellFormed nodes.now }
    requires inputs { nodes.now.inputs ≡ 2 }
{
    let words = [u64::from(inputs[0]), u64::from(inputs[1])];
    let mut values = Vec::from_elem(alloc, 0, nodes.list.items().len())?;
    eval(nodes, &words, &mut values);
    Ok(values[nodes.fails as usize])
}

/// How many nodes a row folds to, and the words of its last node before and after; none if it is empty, long, or not
/// well formed.
fn folded(
    alloc: Global,
    row: &[Node],
    inputs: &[u32; 2],
) -> Result<Option<(usize, Value, Value)>, Memory> {
    if row.is_empty() || row.len() > 16 || !are_formed(row) {
        return Ok(None);
    }
    let list = copy(alloc, row)?;
    let made = Nodes {
        list,
        inputs: 2,
        fails: row.len() as u32 - 1,
    };
    let less = fold(alloc, &made)?;
    let before = fails_of(alloc, &made, inputs)?;
    let after = fails_of(alloc, &less, inputs)?;
    Ok(Some((less.list.items().len(), before, after)))
}

/// Nodes, how many they fold to, and why.
type Row<'a> = (&'a [Node], usize, &'a str);

/// Inputs on which the words are compared.
const TRIED: [[u32; 2]; 3] = [[0, 0], [1, 7], [4_294_967_295, 2_147_483_648]];

/// Why the first row that does not fold so should, if there is one.
fn first_wrong<'a>(alloc: Global, rows: &[Row<'a>]) -> Result<Option<&'a str>, Memory> {
    for (row, count, why) in rows {
        for inputs in &TRIED {
            match folded(alloc, row, inputs)? {
                None => return Ok(Some(why)),
                Some((nodes, before, after)) => {
                    if nodes != *count || before != after {
                        return Ok(Some(why));
                    }
                }
            }
        }
    }
    Ok(None)
}

fn word(value: Value) -> Node {
    Node::Constant { value }
}

fn input(number: u32) -> Node {
    Node::Input {
        number,
        kind: IntType::Unsigned,
    }
}

fn join(op: Binary, left: u32, right: u32) -> Node {
    Node::Binary {
        op,
        kind: IntType::Int,
        left,
        right,
    }
}

fn alone(op: Unary, of: u32) -> Node {
    Node::Unary {
        op,
        kind: IntType::Int,
        of,
    }
}

fn choice(test: u32, yes: u32, no: u32) -> Node {
    Node::Choose { test, yes, no }
}

/// Words that leave an operand as it is, or make the whole one word.
#[test]
fn operators_at_certain_words(rt: HostRuntime) -> Result<(), Fail> {
    let zero = [input(0), word(0), join(Binary::Add, 0, 1)];
    let front = [input(0), word(0), join(Binary::Add, 1, 0)];
    let less = [input(0), word(0), join(Binary::Sub, 0, 1)];
    let once = [input(0), word(1), join(Binary::Mul, 0, 1)];
    let none = [input(0), word(0), join(Binary::Mul, 0, 1)];
    let ones = [input(0), word(4_294_967_295), join(Binary::BitAnd, 1, 0)];
    let clear = [input(0), word(0), join(Binary::BitAnd, 1, 0)];
    let or = [input(0), word(0), join(Binary::BitOr, 0, 1)];
    let shift = [input(0), word(0), join(Binary::Shl, 0, 1)];
    let never = [input(0), word(0), join(Binary::Both, 0, 1)];
    let rows: [Row; 10] = [
        (&zero, 1, "x + 0"),
        (&front, 1, "0 + x"),
        (&less, 1, "x - 0"),
        (&once, 1, "x * 1"),
        (&none, 1, "x * 0"),
        (&ones, 1, "x & ~0"),
        (&clear, 1, "x & 0"),
        (&or, 1, "x | 0"),
        (&shift, 1, "x << 0"),
        (&never, 1, "x && 0"),
    ];
    let wrong = first_wrong(rt.alloc(), &rows).ok().ok_or("memory")?;
    assert_eq!(rt; wrong, None);
    Ok(())
}

/// Two equal operands.
#[test]
fn operators_at_equal_operands(rt: HostRuntime) -> Result<(), Fail> {
    let less = [input(0), join(Binary::Sub, 0, 0)];
    let or = [input(0), join(Binary::BitOr, 0, 0)];
    let differ = [input(0), join(Binary::BitXor, 0, 0)];
    let same = [input(0), join(Binary::Eq, 0, 0)];
    let below = [input(0), join(Binary::Lt, 0, 0)];
    let least = [input(0), join(Binary::Ge, 0, 0)];
    let twice = [input(0), join(Binary::Add, 0, 0)];
    let sides = [input(0), input(1), choice(0, 1, 1)];
    let rows: [Row; 8] = [
        (&less, 1, "x - x"),
        (&or, 1, "x | x"),
        (&differ, 1, "x ^ x"),
        (&same, 1, "x == x"),
        (&below, 1, "x < x"),
        (&least, 1, "x >= x"),
        (&twice, 2, "x + x stays"),
        (&sides, 1, "a choice with two equal sides"),
    ];
    let wrong = first_wrong(rt.alloc(), &rows).ok().ok_or("memory")?;
    assert_eq!(rt; wrong, None);
    Ok(())
}

/// What is constant is computed, and what the check does not rest on is left out.
#[test]
fn constants_and_the_cone(rt: HostRuntime) -> Result<(), Fail> {
    let sum = [
        word(2),
        word(3),
        join(Binary::Add, 0, 1),
        input(0),
        join(Binary::Mul, 3, 2),
    ];
    let by_zero = [word(7), word(0), join(Binary::Div, 0, 1)];
    let least = [
        word(2_147_483_648),
        word(4_294_967_295),
        join(Binary::Div, 0, 1),
    ];
    let shift = [word(3), word(33), join(Binary::Shl, 0, 1)];
    let chosen = [input(0), input(1), word(5), choice(2, 0, 1)];
    let other = [input(0), input(1), word(0), choice(2, 0, 1)];
    let plus = [
        input(0),
        alone(Unary::Plus, 0),
        Node::Convert {
            from: IntType::Int,
            to: IntType::Unsigned,
            of: 1,
        },
    ];
    let cone = [
        input(0),
        input(1),
        join(Binary::Mul, 0, 1),
        alone(Unary::Invert, 1),
    ];
    let rows: [Row; 8] = [
        (&sum, 3, "x * (2 + 3)"),
        (&by_zero, 1, "a quotient by 0"),
        (&least, 1, "-2147483648 / -1"),
        (&shift, 1, "3 << 33"),
        (&chosen, 1, "a choice by 5"),
        (&other, 1, "a choice by 0"),
        (&plus, 1, "conversions and plus"),
        (&cone, 2, "a product that nothing names"),
    ];
    let wrong = first_wrong(rt.alloc(), &rows).ok().ok_or("memory")?;
    assert_eq!(rt; wrong, None);
    Ok(())
}

/// The straight program that checks 1 == 1.
fn checked(alloc: Global) -> Result<Straight, Memory>
    ensures { IfOk result (λ straight. straight_program straight ≡ checks_one) }
{
    let one = FlatExpr::Constant { value: 1 };
    let same = FlatExpr::Constant { value: 1 };
    let test = binary_expr(alloc, Binary::Eq, IntType::Int, one, same)?;
    let mut list = GuardedList::new(alloc);
    list.push(Guarded {
        guard: FlatExpr::Constant { value: 1 },
        instr: Instr::Check {
            test,
            kind: BreakKind::Assert,
            line: 1,
        },
    })?;
    Ok(Straight {
        list,
        first: Sequence::new(alloc),
    })
}

/// How many nodes the program has before and after, and the words of its check.
fn before_and_after(
    alloc: Global,
    straight: &Straight,
) -> Result<(usize, usize, Value, Value), Memory>
    requires { straight_program straight.now ≡ checks_one }
{
    let made = nodes(alloc, straight)?;
    let less = fold(alloc, &made)?;
    let before = word_of(alloc, &made)?;
    let after = word_of(alloc, &less)?;
    Ok((
        made.list.items().len(),
        less.list.items().len(),
        before,
        after,
    ))
}

/// The word of the check on the one input 0.
fn word_of(alloc: Global, nodes: &Nodes) -> Result<Value, Memory>
    requires formed { AreWellFormed nodes.now }
    requires inputs { nodes.now.inputs ≡ 1 }
{
    let mut values = Vec::from_elem(alloc, 0, nodes.list.items().len())?;
    eval(nodes, &[0], &mut values);
    Ok(values[nodes.fails as usize])
}

/// A check of 1 == 1 never fails, and folds to one node.
#[test]
fn a_check_that_holds(rt: HostRuntime) -> Result<(), Fail> {
    let straight = checked(rt.alloc()).ok().ok_or("memory")?;
    let (made, less, before, after) = before_and_after(rt.alloc(), &straight)
        .ok()
        .ok_or("memory")?;
    assert_eq!(rt; before, 0);
    assert_eq!(rt; after, 0);
    assert_eq!(rt; less, 1);
    assert_eq!(rt; made >= less, true);
    Ok(())
}

ghost use Rattle.std.specs.Prelude.{◌≡◌, IfOk};
ghost use Rattle.lz_flat.specs.Programs.{expression, location, instruction};
ghost use Rattle.lz_flat.specs.Programs as spec;

use crate::program::{FlatExpr, Instr, Spot};
use lz_base::{Binary, IntType, Memory, Unary};
use std::alloc::Global;

/// The expression `left op right` at operands of a kind.
pub fn binary_expr(
    alloc: Global,
    op: Binary,
    kind: IntType,
    left: FlatExpr,
    right: FlatExpr,
) -> Result<FlatExpr, Memory>
    ensures { IfOk result (λ made. expression made ≡ spec.binary op kind (expression left) (expression right)) }
{
    let left = Box::new(alloc, left)?;
    let right = Box::new(alloc, right)?;
    Ok(FlatExpr::Binary {
        op,
        kind,
        left,
        right,
    })
}

/// The expression that chooses by a test.
pub fn choose_expr(
    alloc: Global,
    test: FlatExpr,
    chosen: FlatExpr,
    other: FlatExpr,
) -> Result<FlatExpr, Memory>
    ensures { IfOk result (λ made. expression made ≡ spec.choose (expression test) (expression chosen) (expression other)) }
{
    let test = Box::new(alloc, test)?;
    let chosen = Box::new(alloc, chosen)?;
    let other = Box::new(alloc, other)?;
    Ok(FlatExpr::Choose {
        test,
        yes: chosen,
        no: other,
    })
}

/// The expression that reads one of `len` words from `first` on, by an index.
pub fn element_expr(
    alloc: Global,
    first: u32,
    len: u32,
    index: FlatExpr,
) -> Result<FlatExpr, Memory>
    ensures { IfOk result (λ made. expression made ≡ spec.element first len (expression index)) }
{
    let index = Box::new(alloc, index)?;
    Ok(FlatExpr::Element { first, len, index })
}

/// The expression `op of` at an operand of a kind.
pub fn unary_expr(alloc: Global, op: Unary, kind: IntType, of: FlatExpr) -> Result<FlatExpr, Memory>
    ensures { IfOk result (λ made. expression made ≡ spec.unary op kind (expression of)) }
{
    let of = Box::new(alloc, of)?;
    Ok(FlatExpr::Unary { op, kind, of })
}

/// The expression that converts from one kind to another.
pub fn convert_expr(
    alloc: Global,
    from: IntType,
    to: IntType,
    of: FlatExpr,
) -> Result<FlatExpr, Memory>
    ensures { IfOk result (λ made. expression made ≡ spec.convert from to (expression of)) }
{
    let of = Box::new(alloc, of)?;
    Ok(FlatExpr::Convert { from, to, of })
}

/// A copy of an expression.
pub fn copy_expr(alloc: Global, expr: &FlatExpr) -> Result<FlatExpr, Memory>
    ensures { IfOk result (λ copy. expression copy ≡ expression expr.now) }
{
    match expr {
        FlatExpr::Constant { value } => Ok(FlatExpr::Constant { value: *value }),
        FlatExpr::Word { place } => Ok(FlatExpr::Word { place: *place }),
        FlatExpr::Element { first, len, index } => {
            let index = copy_expr(alloc, index)?;
            element_expr(alloc, *first, *len, index)
        }
        FlatExpr::Unary { op, kind, of } => {
            let of = copy_expr(alloc, of)?;
            unary_expr(alloc, *op, *kind, of)
        }
        FlatExpr::Binary {
            op,
            kind,
            left,
            right,
        } => {
            let left = copy_expr(alloc, left)?;
            let right = copy_expr(alloc, right)?;
            binary_expr(alloc, *op, *kind, left, right)
        }
        FlatExpr::Convert { from, to, of } => {
            let of = copy_expr(alloc, of)?;
            convert_expr(alloc, *from, *to, of)
        }
        FlatExpr::Choose { test, yes, no } => {
            let test = copy_expr(alloc, test)?;
            let chosen = copy_expr(alloc, yes)?;
            let other = copy_expr(alloc, no)?;
            choose_expr(alloc, test, chosen, other)
        }
    }
}

/// A copy of a spot.
pub fn copy_spot(alloc: Global, to: &Spot) -> Result<Spot, Memory>
    ensures { IfOk result (λ copy. location copy ≡ location to.now) }
{
    let index = copy_expr(alloc, &to.index)?;
    Ok(Spot {
        first: to.first,
        len: to.len,
        index,
    })
}

/// A copy of an instruction.
pub fn copy_instr(alloc: Global, instr: &Instr) -> Result<Instr, Memory>
    ensures { IfOk result (λ copy. instruction copy ≡ instruction instr.now) }
{
    match instr {
        Instr::Set { to, value } => {
            let to = copy_spot(alloc, to)?;
            let value = copy_expr(alloc, value)?;
            Ok(Instr::Set { to, value })
        }
        Instr::Input { to } => {
            let to = copy_spot(alloc, to)?;
            Ok(Instr::Input { to })
        }
        Instr::Assume { test } => {
            let test = copy_expr(alloc, test)?;
            Ok(Instr::Assume { test })
        }
        Instr::Check { test, kind, line } => {
            let test = copy_expr(alloc, test)?;
            Ok(Instr::Check {
                test,
                kind: *kind,
                line: *line,
            })
        }
        Instr::Skip { test, by } => {
            let test = copy_expr(alloc, test)?;
            Ok(Instr::Skip { test, by: *by })
        }
    }
}

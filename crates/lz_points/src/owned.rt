ghost use Rattle.std.specs.Prelude.{◌≡◌, ◌<◌, ◌+◌, ◌&&◌, length};
ghost use Rattle.lz_flat.specs.Programs.{expression, location, instruction};
ghost use Rattle.lz_flat.specs.WellFormed.{IsExpressionOf, IsLocationOf, IsInstructionOf, AreWithin};
ghost use Rattle.lz_points.specs.Tags.{all_tagged, owns, owns_location, owns_instruction};

use lz_base::{VALUE_BOUND, Value};
use lz_flat::{FlatExpr, Instr, Spot};

/// Both.
fn both(a: bool, b: bool) -> bool
    ensures { result ≡ (a && b) }
{
    a && b
}

/// Whether so many words from this one on have the tag.
#[tactic(auto, using(crate::proofs::OwningLemmas::goes_on, crate::proofs::OwningLemmas::stops, crate::proofs::OwningLemmas::whole))]
fn range_owned(tags: &[Value], tag: u64, first: u32, len: u32) -> bool
    requires within { AreWithin (length tags.now) first len }
    ensures { result ≡ all_tagged tags.now tag first len }
{
    for k in 0..len {
        if tags[first as usize + k as usize] / VALUE_BOUND != tag {
            return false;
        }
    }
    true
}

/// Whether each word that the expression names has the tag.
#[tactic(auto, unfolding(crate::specs::Tags::owns))]
fn expr_owned(tags: &[Value], tag: u64, expr: &FlatExpr) -> bool
    requires within { IsExpressionOf (length tags.now) (expression expr.now) }
    ensures { result ≡ owns tags.now tag (expression expr.now) }
{
    match expr {
        FlatExpr::Constant { value: _ } => true,
        FlatExpr::Word { place } => tags[*place as usize] / VALUE_BOUND == tag,
        FlatExpr::Element { first, len, index } => {
            range_owned(tags, tag, *first, *len) && expr_owned(tags, tag, index)
        }
        FlatExpr::Unary { op: _, kind: _, of } => expr_owned(tags, tag, of),
        FlatExpr::Binary {
            op: _,
            kind: _,
            left,
            right,
        } => both(expr_owned(tags, tag, left), expr_owned(tags, tag, right)),
        FlatExpr::Convert { from: _, to: _, of } => expr_owned(tags, tag, of),
        FlatExpr::Choose { test, yes, no } => both(
            expr_owned(tags, tag, test),
            both(expr_owned(tags, tag, yes), expr_owned(tags, tag, no)),
        ),
    }
}

/// Whether each word that the spot names has the tag.
#[tactic(auto, unfolding(crate::specs::Tags::owns_location))]
fn spot_owned(tags: &[Value], tag: u64, to: &Spot) -> bool
    requires within { IsLocationOf (length tags.now) (location to.now) }
    ensures { result ≡ owns_location tags.now tag (location to.now) }
{
    both(
        range_owned(tags, tag, to.first, to.len),
        expr_owned(tags, tag, &to.index),
    )
}

/// Whether each word that the instruction names has the tag.
#[tactic(auto, unfolding(crate::specs::Tags::owns_instruction))]
pub fn instr_owned(tags: &[Value], tag: u64, instr: &Instr) -> bool
    requires within { IsInstructionOf (length tags.now) (instruction instr.now) }
    ensures { result ≡ owns_instruction tags.now tag (instruction instr.now) }
{
    match instr {
        Instr::Set { to, value } => {
            both(spot_owned(tags, tag, to), expr_owned(tags, tag, value))
        }
        Instr::Input { to } => spot_owned(tags, tag, to),
        Instr::Assume { test } => expr_owned(tags, tag, test),
        Instr::Check {
            test,
            kind: _,
            line: _,
        } => expr_owned(tags, tag, test),
        Instr::Skip { test, by: _ } => expr_owned(tags, tag, test),
    }
}

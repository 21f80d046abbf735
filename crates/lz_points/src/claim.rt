ghost use Rattle.std.specs.Prelude.{◌≡◌, ◌<◌, ◌+◌, ◌≤◌, length, map};
ghost use Rattle.std.specs.List.{AllByRecursion};
ghost use Rattle.lz_base.specs.Words.{value_bound};
ghost use Rattle.lz_flat.specs.Programs.{expression, location, instruction, marked};
ghost use Rattle.lz_flat.specs.WellFormed.{AreWithin, IsExpressionOf, IsLocationOf, IsInstructionOf};
ghost use Rattle.lz_points.specs.Tags as spec;
ghost use Rattle.lz_points.specs.Tags.{NamesWithin, shared_tag};

use lz_base::{VALUE_BOUND, Value};
use lz_flat::{FlatExpr, FlatThread, Instr, Marked, Spot};

/// The tag of a word that several threads name.
const SHARED: u64 = 4_294_967_295;

/// The tag of a word of the tag `held`, where the thread of the tag `tag` names it too.
fn joined(held: u64, tag: u64) -> u64
    requires { tag < value_bound }
    ensures joined { result ≡ spec.joined tag held }
    ensures word { result < value_bound }
{
    if held == 0 || held == tag {
        return tag;
    }
    SHARED
}

/// A first value with its tag, where the thread of the tag `tag` names its word too.
#[tactic(auto, unfolding(crate::specs::Tags::claimed))]
fn claimed(held: Value, tag: u64) -> Value
    requires { tag < value_bound }
    ensures { result ≡ spec.claimed tag held }
{
    held % VALUE_BOUND + VALUE_BOUND * joined(held / VALUE_BOUND, tag)
}

/// Claims so many words from `first` on for the thread of a tag.
fn claim_range(tags: &mut [Value], tag: u64, first: u32, len: u32)
    requires tag { tag < value_bound }
    requires within { AreWithin (length tags.old) first len }
    ensures { tags.new ≡ spec.claim_range tag first len tags.old }
{
    for k in 0..len {
        let at = first as usize + k as usize;
        tags[at] = claimed(tags[at], tag);
    }
}

/// Claims the words that an expression names.
#[tactic(auto, unfolding(crate::specs::Tags::claim, crate::specs::Tags::claim_word))]
fn claim_expr(tags: &mut [Value], tag: u64, expr: &FlatExpr)
    requires tag { tag < value_bound }
    requires within { IsExpressionOf (length tags.old) (expression expr.now) }
    ensures { tags.new ≡ spec.claim tag (expression expr.now) tags.old }
{
    match expr {
        FlatExpr::Constant { value: _ } => {}
        FlatExpr::Word { place } => {
            let at = *place as usize;
            tags[at] = claimed(tags[at], tag);
        }
        FlatExpr::Element { first, len, index } => {
            claim_range(tags, tag, *first, *len);
            claim_expr(tags, tag, index);
        }
        FlatExpr::Unary { op: _, kind: _, of } => claim_expr(tags, tag, of),
        FlatExpr::Binary {
            op: _,
            kind: _,
            left,
            right,
        } => {
            claim_expr(tags, tag, left);
            claim_expr(tags, tag, right);
        }
        FlatExpr::Convert { from: _, to: _, of } => claim_expr(tags, tag, of),
        FlatExpr::Choose { test, yes, no } => {
            claim_expr(tags, tag, test);
            claim_expr(tags, tag, yes);
            claim_expr(tags, tag, no);
        }
    }
}

/// Claims the words that a spot names: all that an index may reach, and those of the index.
#[tactic(auto, unfolding(crate::specs::Tags::claim_location))]
fn claim_spot(tags: &mut [Value], tag: u64, to: &Spot)
    requires tag { tag < value_bound }
    requires within { IsLocationOf (length tags.old) (location to.now) }
    ensures { tags.new ≡ spec.claim_location tag (location to.now) tags.old }
{
    claim_range(tags, tag, to.first, to.len);
    claim_expr(tags, tag, &to.index);
}

/// Claims the words that an instruction names.
#[tactic(auto, unfolding(crate::specs::Tags::claim_instruction))]
fn claim_instr(tags: &mut [Value], tag: u64, instr: &Instr)
    requires tag { tag < value_bound }
    requires within { IsInstructionOf (length tags.old) (instruction instr.now) }
    ensures { tags.new ≡ spec.claim_instruction tag (instruction instr.now) tags.old }
{
    match instr {
        Instr::Set { to, value } => {
            claim_spot(tags, tag, to);
            claim_expr(tags, tag, value);
        }
        Instr::Input { to } => claim_spot(tags, tag, to),
        Instr::Assume { test } => claim_expr(tags, tag, test),
        Instr::Check {
            test,
            kind: _,
            line: _,
        } => claim_expr(tags, tag, test),
        Instr::Skip { test, by: _ } => claim_expr(tags, tag, test),
    }
}

/// Claims the words that the code of a thread names.
fn claim_code(tags: &mut [Value], tag: u64, code: &[Marked])
    requires tag { tag < value_bound }
    requires within { NamesWithin (length tags.old) (map marked code.now) }
    ensures { tags.new ≡ spec.claim_code tag (map marked code.now) tags.old }
{
    for next in code {
        claim_instr(tags, tag, &next.instr);
    }
}

/// Claims the words that threads name, each for its thread: the tag of a thread is one more than its number.
pub fn claim_threads(tags: &mut [Value], threads: &[FlatThread])
    requires threads { length threads.now < shared_tag }
    requires within { AllByRecursion (NamesWithin (length tags.old)) (map (λ code. map marked code) threads.now) }
    ensures { tags.new ≡ spec.claim_threads 1 (map (λ code. map marked code) threads.now) tags.old }
{
    for t in 0..threads.len() {
        claim_code(tags, t as u64 + 1, threads[t].items());
    }
}

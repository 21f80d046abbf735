ghost use Rattle.std.specs.Prelude.{◌≡◌, ◌<◌, ◌+◌, ◌==◌, true, drop, length, map};
ghost use Rattle.std.specs.List.{AllByRecursion};
ghost use Rattle.lz_flat.specs.Programs.{instruction, marked};
ghost use Rattle.lz_flat.specs.WellFormed.{IsInstructionOf};
ghost use Rattle.lz_points.specs.Passes as spec;
ghost use Rattle.lz_points.specs.Thinning as thinning;
ghost use Rattle.lz_points.specs.Tags.{NamesWithin, owns_instruction, shared_tag};

use crate::owned::instr_owned;
use lz_base::Value;
use lz_flat::{FlatThread, Instr, Marked};

/// How many instructions after the next one an instruction may pass over at most.
fn far(instr: &Instr) -> u32
    ensures { result ≡ thinning.far (instruction instr.now) }
{
    match instr {
        Instr::Set { to: _, value: _ } => 0,
        Instr::Input { to: _ } => 0,
        Instr::Assume { test: _ } => 0,
        Instr::Check {
            test: _,
            kind: _,
            line: _,
        } => 0,
        Instr::Skip { test: _, by } => by.saturating_sub(1),
    }
}

/// Whether the mark of an instruction may be taken: an assumption keeps its mark.
fn may_go(instr: &Instr) -> bool
    ensures { result ≡ spec.may_go (instruction instr.now) }
{
    match instr {
        Instr::Set { to: _, value: _ } => true,
        Instr::Input { to: _ } => true,
        Instr::Assume { test: _ } => false,
        Instr::Check {
            test: _,
            kind: _,
            line: _,
        } => true,
        Instr::Skip { test: _, by: _ } => true,
    }
}

/// The flag of the instruction so many on. Past the end it is set.
#[tactic(auto, unfolding(crate::specs::Passes::flag_at))]
fn flag_at(rest: &[Marked], over: usize) -> bool
    ensures { result ≡ spec.flag_at (map marked rest.now) over }
{
    if over < rest.len() {
        let next = &rest[over];
        return next.visible;
    }
    true
}

/// Whether the instruction names words of the tag alone, and both places that it may go to have the flag.
#[tactic(auto, unfolding(crate::specs::Passes::clear_here))]
fn clear_here(instr: &Instr, rest: &[Marked], tags: &[Value], tag: u64) -> bool
    requires within { IsInstructionOf (length tags.now) (instruction instr.now) }
    ensures { result ≡ spec.clear_here (owns_instruction tags.now tag) (instruction instr.now) (map marked rest.now) }
{
    instr_owned(tags, tag, instr) && flag_at(rest, 0) && flag_at(rest, far(instr) as usize)
}

/// The flag of an instruction on the way back: it is visible, or clear with what follows.
fn back_flag(code: &[Marked], at: usize, tags: &[Value], tag: u64) -> bool
    requires at { at < length code.now }
    requires within { NamesWithin (length tags.now) (map marked (drop at code.now)) }
    ensures { result ≡ spec.back_flag (owns_instruction tags.now tag) (map marked (drop at code.now)) }
{
    match code[at..].split_first() {
        None => true,
        Some((next, rest)) => next.visible || clear_here(&next.instr, rest, tags, tag),
    }
}

/// The flag of an instruction on the way forth: it stays where the instruction is not clear, is an assumption, or is
/// the first of its thread.
fn forth_flag(code: &[Marked], at: usize, tags: &[Value], tag: u64) -> bool
    requires at { at < length code.now }
    requires within { NamesWithin (length tags.now) (map marked (drop at code.now)) }
    ensures { result ≡ spec.forth_flag (owns_instruction tags.now tag) (at == 0) (map marked (drop at code.now)) }
{
    match code[at..].split_first() {
        None => true,
        Some((next, rest)) => {
            let clear = clear_here(&next.instr, rest, tags, tag);
            next.visible && !(clear && may_go(&next.instr) && at > 0)
        }
    }
}

/// From the end to the front: flags an instruction that is visible, or from which what runs before the next visible
/// one names words of the tag alone.
fn back_pass(code: &mut [Marked], tags: &[Value], tag: u64)
    requires within { NamesWithin (length tags.now) (map marked code.old) }
    ensures { map marked code.new ≡ spec.back (owns_instruction tags.now tag) (map marked code.old) }
{
    let size = code.len();
    for left in 0..size {
        let at = size - 1 - left;
        let flag = back_flag(code, at, tags, tag);
        code[at].visible = flag;
    }
}

/// From the front to the end: a flag stays where the instruction is not clear, is an assumption, or stands first.
fn forth_pass(code: &mut [Marked], tags: &[Value], tag: u64)
    requires within { NamesWithin (length tags.now) (map marked code.old) }
    ensures { map marked code.new ≡ spec.forth (owns_instruction tags.now tag) true (map marked code.old) }
{
    for at in 0..code.len() {
        let flag = forth_flag(code, at, tags, tag);
        code[at].visible = flag;
    }
}

/// Takes the marks from the code of the thread of a tag.
fn thin_code(code: &mut [Marked], tags: &[Value], tag: u64)
    requires within { NamesWithin (length tags.now) (map marked code.old) }
    ensures { map marked code.new ≡ spec.thinned (owns_instruction tags.now tag) (map marked code.old) }
{
    back_pass(code, tags, tag);
    forth_pass(code, tags, tag);
}

/// Takes the marks from the code of each thread.
pub fn thin_threads(threads: &mut [FlatThread], tags: &[Value])
    requires threads { length threads.old < shared_tag }
    requires within { AllByRecursion (NamesWithin (length tags.now)) (map (λ code. map marked code) threads.old) }
    ensures { map (λ code. map marked code) threads.new ≡ spec.thinned_threads tags.now 1 (map (λ code. map marked code) threads.old) }
{
    for t in 0..threads.len() {
        thin_code(threads[t].items_mut(), tags, t as u64 + 1);
    }
}

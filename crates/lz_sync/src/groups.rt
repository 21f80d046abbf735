ghost use Rattle.std.specs.Prelude.{◌≡◌, ◌<◌, ◌≤◌, ◌+◌, ◌^◌, ◌++◌, ◌∷◌, [], map, OnOk, IfOk};
ghost use Rattle.lz_flat.specs.Programs.{expression, location, instruction, sets, assumes, checks};
ghost use Rattle.lz_sync.specs.Standing.{words_of};
ghost use Rattle.lz_sync.specs.Operations.{reads, writes, resets, locks, unlocks, parks, wakes, signals, broadcasts, creates, joins, holds_on, holds_off, ends};
ghost use Rattle.lz_sync.specs.Groups.{both, no, spot_word, spot_number, signal_test, given_up, none_waits, group};

use crate::layout::Layout;
use crate::words::{
    both_expr, constant_expr, differ_expr, equal_expr, fixed_to, free_expr, holder_place,
    joined_expr, joined_to, let_go_expr, life_place, live_expr, no_expr, number_expr, over_place,
    some_wait_expr, spot_expr, spot_to, wait_place, woken_expr, woken_to, woken_wait_expr,
    word_expr,
};
use lz_base::{BreakKind, Memory, Sequence};
use lz_flat::{FlatExpr, Instr, Spot, choose_expr, copy_expr, copy_spot};
use std::alloc::Global;

/// Instructions, first to last.
pub type Instrs = Sequence<Instr>;

/// An assumption and a write.
fn write_after(alloc: Global, test: FlatExpr, to: Spot, value: FlatExpr) -> Result<Instrs, Memory>
    ensures { IfOk result (λ made. map instruction made ≡ assumes (expression test) ∷ sets (location to) (expression value) ∷ []) }
{
    let mut group = Instrs::new(alloc);
    group.push(Instr::Assume { test })?;
    group.push(Instr::Set { to, value })?;
    Ok(group)
}

/// An assumption, a check and a write.
fn write_checked(
    alloc: Global,
    free: FlatExpr,
    test: FlatExpr,
    kind: BreakKind,
    to: Spot,
    value: FlatExpr,
) -> Result<Instrs, Memory>
    ensures { IfOk result (λ made. map instruction made ≡ assumes (expression free) ∷ checks (expression test) kind 0 ∷ sets (location to) (expression value) ∷ []) }
{
    let mut group = Instrs::new(alloc);
    group.push(Instr::Assume { test: free })?;
    group.push(Instr::Check {
        test,
        kind,
        line: 0,
    })?;
    group.push(Instr::Set { to, value })?;
    Ok(group)
}

/// The instructions of a read.
pub fn read_group(
    alloc: Global,
    layout: &Layout,
    thread: u32,
    cell: &Spot,
    to: &Spot,
) -> Result<Instrs, Memory>
    requires room { words_of layout.now < 2 ^ 32 }
    requires thread { thread < layout.now.threads }
    requires cell { cell.now.first ≤ layout.now.cells }
    ensures { IfOk result (λ made. map instruction made ≡ group layout.now thread (reads (location cell.now) (location to.now))) }
{
    let free = free_expr(alloc, layout, thread)?;
    let to = copy_spot(alloc, to)?;
    let value = spot_expr(alloc, 0, cell)?;
    write_after(alloc, free, to, value)
}

/// The instructions of a write.
pub fn write_group(
    alloc: Global,
    layout: &Layout,
    thread: u32,
    cell: &Spot,
    value: &FlatExpr,
) -> Result<Instrs, Memory>
    requires room { words_of layout.now < 2 ^ 32 }
    requires thread { thread < layout.now.threads }
    requires cell { cell.now.first ≤ layout.now.cells }
    ensures { IfOk result (λ made. map instruction made ≡ group layout.now thread (writes (location cell.now) (expression value.now))) }
{
    let free = free_expr(alloc, layout, thread)?;
    let to = spot_to(alloc, 0, cell)?;
    let value = copy_expr(alloc, value)?;
    write_after(alloc, free, to, value)
}

/// The instructions of `pthread_mutex_init`.
pub fn reset_group(
    alloc: Global,
    layout: &Layout,
    thread: u32,
    mutex: &Spot,
) -> Result<Instrs, Memory>
    requires room { words_of layout.now < 2 ^ 32 }
    requires thread { thread < layout.now.threads }
    requires mutex { mutex.now.first ≤ layout.now.mutexes }
    ensures { IfOk result (λ made. map instruction made ≡ group layout.now thread (resets (location mutex.now))) }
{
    let free = free_expr(alloc, layout, thread)?;
    let to = spot_to(alloc, layout.cells, mutex)?;
    write_after(alloc, free, to, constant_expr(0))
}

/// The instructions of a lock.
pub fn lock_group(
    alloc: Global,
    layout: &Layout,
    thread: u32,
    mutex: &Spot,
) -> Result<Instrs, Memory>
    requires room { words_of layout.now < 2 ^ 32 }
    requires thread { thread < layout.now.threads }
    requires mutex { mutex.now.first ≤ layout.now.mutexes }
    ensures { IfOk result (λ made. map instruction made ≡ group layout.now thread (locks (location mutex.now))) }
{
    let free = free_expr(alloc, layout, thread)?;
    let owner = spot_expr(alloc, layout.cells, mutex)?;
    let unowned = no_expr(alloc, owner)?;
    let test = both_expr(alloc, free, unowned)?;
    let to = spot_to(alloc, layout.cells, mutex)?;
    write_after(alloc, test, to, constant_expr(u64::from(thread) + 1))
}

/// Gives up a mutex after a check that the thread owns it.
fn give_up(
    alloc: Global,
    layout: &Layout,
    thread: u32,
    mutex: &Spot,
    kind: BreakKind,
) -> Result<Instrs, Memory>
    requires room { words_of layout.now < 2 ^ 32 }
    requires thread { thread < layout.now.threads }
    requires mutex { mutex.now.first ≤ layout.now.mutexes }
    ensures { IfOk result (λ made. map instruction made ≡ given_up layout.now thread (location mutex.now) kind) }
{
    let free = free_expr(alloc, layout, thread)?;
    let owner = spot_expr(alloc, layout.cells, mutex)?;
    let owned = equal_expr(alloc, owner, constant_expr(u64::from(thread) + 1))?;
    let to = spot_to(alloc, layout.cells, mutex)?;
    write_checked(alloc, free, owned, kind, to, constant_expr(0))
}

/// The instructions of an unlock.
pub fn unlock_group(
    alloc: Global,
    layout: &Layout,
    thread: u32,
    mutex: &Spot,
) -> Result<Instrs, Memory>
    requires room { words_of layout.now < 2 ^ 32 }
    requires thread { thread < layout.now.threads }
    requires mutex { mutex.now.first ≤ layout.now.mutexes }
    ensures { IfOk result (λ made. map instruction made ≡ group layout.now thread (unlocks (location mutex.now))) }
{
    give_up(alloc, layout, thread, mutex, BreakKind::Unlock)
}

/// The instructions of the first half of a wait.
pub fn park_group(
    alloc: Global,
    layout: &Layout,
    thread: u32,
    cond: &Spot,
    mutex: &Spot,
) -> Result<Instrs, Memory>
    requires room { words_of layout.now < 2 ^ 32 }
    requires thread { thread < layout.now.threads }
    requires mutex { mutex.now.first ≤ layout.now.mutexes }
    ensures { IfOk result (λ made. map instruction made ≡ group layout.now thread (parks (location cond.now) (location mutex.now))) }
{
    let mut group = give_up(alloc, layout, thread, mutex, BreakKind::Wait)?;
    let value = number_expr(alloc, cond)?;
    let to = fixed_to(wait_place(layout, thread));
    group.push(Instr::Set { to, value })?;
    Ok(group)
}

/// The instructions of the second half of a wait.
pub fn wake_group(
    alloc: Global,
    layout: &Layout,
    thread: u32,
    cond: &Spot,
    mutex: &Spot,
) -> Result<Instrs, Memory>
    requires room { words_of layout.now < 2 ^ 32 }
    requires thread { thread < layout.now.threads }
    requires mutex { mutex.now.first ≤ layout.now.mutexes }
    ensures { IfOk result (λ made. map instruction made ≡ group layout.now thread (wakes (location cond.now) (location mutex.now))) }
{
    let free = free_expr(alloc, layout, thread)?;
    let woken = no_expr(alloc, word_expr(wait_place(layout, thread)))?;
    let owner = spot_expr(alloc, layout.cells, mutex)?;
    let unowned = no_expr(alloc, owner)?;
    let open = both_expr(alloc, woken, unowned)?;
    let test = both_expr(alloc, free, open)?;
    let to = spot_to(alloc, layout.cells, mutex)?;
    write_after(alloc, test, to, constant_expr(u64::from(thread) + 1))
}

/// The test that the woken slot waits on the condition, or that none does where nobody is woken.
fn signal_expr(
    alloc: Global,
    layout: &Layout,
    cond: &Spot,
    woken: &FlatExpr,
) -> Result<FlatExpr, Memory>
    requires room { words_of layout.now < 2 ^ 32 }
    ensures { IfOk result (λ made. expression made ≡ signal_test layout.now (location cond.now) (expression woken.now)) }
{
    let wait = woken_expr(alloc, layout, woken)?;
    let number = number_expr(alloc, cond)?;
    let waits = equal_expr(alloc, wait, number)?;
    let some = some_wait_expr(alloc, layout, cond, layout.threads)?;
    let none = no_expr(alloc, some)?;
    let test = copy_expr(alloc, woken)?;
    choose_expr(alloc, test, waits, none)
}

/// The instructions of a signal.
pub fn signal_group(
    alloc: Global,
    layout: &Layout,
    thread: u32,
    cond: &Spot,
    woken: &FlatExpr,
) -> Result<Instrs, Memory>
    requires room { words_of layout.now < 2 ^ 32 }
    requires thread { thread < layout.now.threads }
    ensures { IfOk result (λ made. map instruction made ≡ group layout.now thread (signals (location cond.now) (expression woken.now))) }
{
    let free = free_expr(alloc, layout, thread)?;
    let goes = signal_expr(alloc, layout, cond, woken)?;
    let test = both_expr(alloc, free, goes)?;
    let to = woken_to(alloc, layout, woken)?;
    write_after(alloc, test, to, constant_expr(0))
}

/// Adds the instructions that end the waits on a condition.
fn end_waits(alloc: Global, group: &mut Instrs, layout: &Layout, cond: &Spot) -> Result<(), Memory>
    requires room { words_of layout.now < 2 ^ 32 }
    ensures { OnOk result (map instruction group.new ≡ map instruction group.old ++ none_waits layout.now (spot_number (location cond.now)) 0 layout.now.threads) }
{
    for slot in 0..layout.threads {
        let value = woken_wait_expr(alloc, layout, slot, cond)?;
        let to = fixed_to(wait_place(layout, slot));
        group.push(Instr::Set { to, value })?;
    }
    Ok(())
}

/// The instructions of a broadcast.
pub fn broadcast_group(
    alloc: Global,
    layout: &Layout,
    thread: u32,
    cond: &Spot,
) -> Result<Instrs, Memory>
    requires room { words_of layout.now < 2 ^ 32 }
    requires thread { thread < layout.now.threads }
    ensures { IfOk result (λ made. map instruction made ≡ group layout.now thread (broadcasts (location cond.now))) }
{
    let test = free_expr(alloc, layout, thread)?;
    let mut group = Instrs::new(alloc);
    group.push(Instr::Assume { test })?;
    end_waits(alloc, &mut group, layout, cond)?;
    Ok(group)
}

/// The instructions of a creation, but for those that leave the argument.
pub fn create_group(
    alloc: Global,
    layout: &Layout,
    thread: u32,
    slot: u32,
    start: u32,
    value: &FlatExpr,
) -> Result<Instrs, Memory>
    requires room { words_of layout.now < 2 ^ 32 }
    requires thread { thread < layout.now.threads }
    requires low { 0 < slot }
    requires slot { slot < layout.now.threads }
    ensures { IfOk result (λ made. map instruction made ≡ group layout.now thread (creates slot start (expression value.now))) }
{
    let free = free_expr(alloc, layout, thread)?;
    let to = fixed_to(life_place(layout, slot));
    write_after(alloc, free, to, constant_expr(1))
}

/// The instructions of a join.
pub fn join_group(
    alloc: Global,
    layout: &Layout,
    thread: u32,
    slot: &FlatExpr,
) -> Result<Instrs, Memory>
    requires room { words_of layout.now < 2 ^ 32 }
    requires thread { thread < layout.now.threads }
    ensures { IfOk result (λ made. map instruction made ≡ group layout.now thread (joins (expression slot.now))) }
{
    let free = free_expr(alloc, layout, thread)?;
    let life = joined_expr(alloc, layout, slot)?;
    let rests = differ_expr(alloc, life, constant_expr(1))?;
    let test = both_expr(alloc, free, rests)?;
    let life = joined_expr(alloc, layout, slot)?;
    let ended = equal_expr(alloc, life, constant_expr(2))?;
    let to = joined_to(alloc, layout, slot)?;
    write_checked(alloc, test, ended, BreakKind::Join, to, constant_expr(3))
}

/// The instructions of the beginning of an atomic section.
pub fn hold_on_group(alloc: Global, layout: &Layout, thread: u32) -> Result<Instrs, Memory>
    requires room { words_of layout.now < 2 ^ 32 }
    requires thread { thread < layout.now.threads }
    ensures { IfOk result (λ made. map instruction made ≡ group layout.now thread holds_on) }
{
    let free = free_expr(alloc, layout, thread)?;
    let to = fixed_to(holder_place(layout));
    write_after(alloc, free, to, constant_expr(u64::from(thread) + 1))
}

/// The instructions of its end.
pub fn hold_off_group(alloc: Global, layout: &Layout, thread: u32) -> Result<Instrs, Memory>
    requires room { words_of layout.now < 2 ^ 32 }
    requires thread { thread < layout.now.threads }
    ensures { IfOk result (λ made. map instruction made ≡ group layout.now thread holds_off) }
{
    let live = live_expr(alloc, layout, thread)?;
    let to = fixed_to(holder_place(layout));
    let value = let_go_expr(alloc, layout, thread)?;
    write_after(alloc, live, to, value)
}

/// The instructions of the end of a thread, or of the whole process.
pub fn end_group(alloc: Global, layout: &Layout, thread: u32, whole: bool) -> Result<Instrs, Memory>
    requires room { words_of layout.now < 2 ^ 32 }
    requires thread { thread < layout.now.threads }
    ensures { IfOk result (λ made. map instruction made ≡ group layout.now thread (ends whole)) }
{
    let live = live_expr(alloc, layout, thread)?;
    let to = fixed_to(life_place(layout, thread));
    let mut group = write_after(alloc, live, to, constant_expr(2))?;
    let to = fixed_to(holder_place(layout));
    let holder = let_go_expr(alloc, layout, thread)?;
    group.push(Instr::Set { to, value: holder })?;
    if whole {
        let to = fixed_to(over_place(layout));
        group.push(Instr::Set {
            to,
            value: constant_expr(1),
        })?;
    }
    Ok(group)
}

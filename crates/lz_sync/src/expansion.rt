ghost use Rattle.std.specs.Prelude.{◌≡◌, ◌<◌, ◌≤◌, ◌^◌, map, IfOk};
ghost use Rattle.lz_flat.specs.Programs.{instruction};
ghost use Rattle.lz_sync.specs.Standing.{words_of};
ghost use Rattle.lz_sync.specs.Operations.{operation, IsExpandable};
ghost use Rattle.lz_sync.specs.Groups.{group};
ghost use Rattle.lz_sync.specs.Doing.{DoesThroughout};
ghost use Rattle.lz_sync.specs.Forming.{BeginsWithTest, NamesNoOthers, FormsAlike};
ghost use Rattle.lz_sync.specs.Weights.{instructions_weight, group_weight};

use crate::groups::{
    Instrs, broadcast_group, create_group, end_group, hold_off_group, hold_on_group, join_group,
    lock_group, park_group, read_group, reset_group, signal_group, unlock_group, wake_group,
    write_group,
};
use crate::layout::Layout;
use crate::operation::SyncOp;
use lz_base::Memory;
use std::alloc::Global;

/// The instructions of an operation of a thread, by its slot.
fn group_of(alloc: Global, layout: &Layout, thread: u32, op: &SyncOp) -> Result<Instrs, Memory>
    requires room { words_of layout.now < 2 ^ 32 }
    requires thread { thread < layout.now.threads }
    requires fits { IsExpandable layout.now (operation op.now) }
    ensures { IfOk result (λ made. map instruction made ≡ group layout.now thread (operation op.now)) }
{
    match op {
        SyncOp::Read { cell, to } => read_group(alloc, layout, thread, cell, to),
        SyncOp::Write { cell, value } => write_group(alloc, layout, thread, cell, value),
        SyncOp::Reset { mutex } => reset_group(alloc, layout, thread, mutex),
        SyncOp::Lock { mutex } => lock_group(alloc, layout, thread, mutex),
        SyncOp::Unlock { mutex } => unlock_group(alloc, layout, thread, mutex),
        SyncOp::Park { cond, mutex } => park_group(alloc, layout, thread, cond, mutex),
        SyncOp::Wake { cond, mutex } => wake_group(alloc, layout, thread, cond, mutex),
        SyncOp::Signal { cond, woken } => signal_group(alloc, layout, thread, cond, woken),
        SyncOp::Broadcast { cond } => broadcast_group(alloc, layout, thread, cond),
        SyncOp::Create {
            thread: slot,
            start,
            value,
        } => create_group(alloc, layout, thread, *slot, *start, value),
        SyncOp::Join { thread: slot } => join_group(alloc, layout, thread, slot),
        SyncOp::HoldOn => hold_on_group(alloc, layout, thread),
        SyncOp::HoldOff => hold_off_group(alloc, layout, thread),
        SyncOp::End { whole } => end_group(alloc, layout, thread, *whole),
    }
}

/// The instructions that do what an operation of a thread does, by its slot, in memory that stands for a state with a list
/// of made slots (POSIX.1-2017: pthread_mutex_lock, pthread_mutex_unlock, pthread_cond_wait, pthread_cond_signal,
/// pthread_cond_broadcast, pthread_create, pthread_join). A check has line 0, and the instruction by which a creation
/// leaves its argument is not among them.
pub fn expand(alloc: Global, layout: &Layout, thread: u32, op: &SyncOp) -> Result<Instrs, Memory>
    requires room { words_of layout.now < 2 ^ 32 }
    requires conds { layout.now.conds < 2 ^ 32 }
    requires threads { layout.now.threads ≤ 17 }
    requires thread { thread < layout.now.threads }
    requires fits { IsExpandable layout.now (operation op.now) }

    ensures group { IfOk result (λ made. map instruction made ≡ group layout.now thread (operation op.now)) }
    ensures does { IfOk result (λ made. DoesThroughout layout.now thread (operation op.now) (map instruction made)) }
    ensures begins { IfOk result (λ made. BeginsWithTest (map instruction made)) }
    ensures names { IfOk result (λ made. NamesNoOthers layout.now (operation op.now) (map instruction made)) }
    ensures forms { IfOk result (λ made. FormsAlike layout.now (operation op.now) (map instruction made)) }
    ensures weight { IfOk result (λ made. instructions_weight (map instruction made) ≡ group_weight layout.now (operation op.now)) }
{
    group_of(alloc, layout, thread, op)
}

ghost use Rattle.std.specs.Prelude.{◌≡◌, slice_index, IfOk};
ghost use Rattle.lz_tree.specs.ScopedTrees.{scoped_program};
ghost use Rattle.lz_model.specs.Store.{act, opening};
ghost use Rattle.lz_store.specs.Answers.{answer_of, state_behind, IsWithin};

use crate::parts::Parts;
use lz_base::{BreakKind, Memory, Value};
use lz_model::Action;
use lz_tree::Scoped;
use std::alloc::Global;
use std::marker::Model;

/// What an action came to.
#[derive(Clone, Copy, Debug, PartialEq, Eq)]
pub enum Acted {
    /// It went, and the state is what it led to.
    Went,
    /// It is blocked: its thread can't go on so in this state, which is as before.
    Blocked,
    /// It breaks a check of this kind; the state is as before.
    Broke { kind: BreakKind },
}

/// The shared state: cells, owners of mutexes, what is kept of each thread, the holder of the atomic section, and
/// whether the process is over.
#[derive(Drop)]
pub struct Store {
    parts: Parts,
}

impl Model for Store {
    ghost use Rattle.lz_model.specs.Store.{State};

    ghost Value = { State };

    ghost use Rattle.lz_store.specs.Kept.{state_of, HasRoom};

    ghost view = { λ s. state_of s.parts };

    ghost invariant = { λ s. HasRoom s.parts };
}

impl Store {
    /// The state in which the program begins, with room for `SLOT_LIMIT` threads beside the first.
    pub fn new(alloc: Global, scoped: &Scoped) -> Result<Store, Memory>
        ensures { IfOk result (λ store. let p = scoped_program scoped.now in store ≡ opening p.cells p.mutexes) }
    {
        let parts = Parts::new(alloc, scoped.cells.items(), scoped.mutexes)?;
        Ok(Store { parts })
    }

    /// Does an action of a thread, where it goes. A cell that is not there is read as 0 and not written, and a mutex that
    /// is not there has no owner. Takes no memory. The time is that of a look at the action's cell,
    /// mutex or thread; a signal and a broadcast look at each thread.
    pub fn act(&mut self, thread: u32, action: &Action) -> Acted
        requires { IsWithin action.now }
        ensures answer { result ≡ answer_of (act self.old thread action.now) }
        ensures state { self.new ≡ state_behind self.old (act self.old thread action.now) }
    {
        self.parts.act(thread, action)
    }

    /// The value of a cell, which is 0 where there is no such cell. Takes no memory.
    pub fn cell(&self, cell: u32) -> Value
        ensures { result ≡ slice_index self.now.cells cell }
    {
        self.parts.cell(cell)
    }
}

ghost use Rattle.std.specs.Prelude.{◌≡◌, IfOk, IfErr};
ghost use Rattle.lz_tree.specs.ScopedTrees.{scoped_program};
ghost use Rattle.lz_machine.specs.Answers.{Answers, read_back};
ghost use Rattle.lz_machine.specs.Threads.{spent};
ghost use Rattle.lz_machine.specs.Starts.{IsRunnable, IsThreadOf, IsStarted, IsWordAnswer, answer_of, word_of};

use crate::answer::{Next, ReadBack};
use crate::parts::Parts;
use lz_base::Memory;
use lz_tree::Scoped;
use std::alloc::Global;
use std::marker::Model;

/// A thread of a program. It is given the program with an order of its calls at each step, and borrows none of it.
/// Contracts see where it stands.
#[derive(Drop)]
pub struct Thread {
    parts: Parts,
}

impl Model for Thread {
    ghost use Rattle.lz_machine.specs.Threads as threads;
    ghost use Rattle.std.specs.Coded.{codes};
    ghost use Rattle.lz_machine.specs.Codes.{footing_code};
    ghost use Rattle.lz_machine.specs.Held.{thread_of};

    ghost Value = { threads.Thread };

    ghost coded = { Prim.hlevel (codes, footing_code) };

    ghost view = { λ t. thread_of t.parts };
}

impl Thread {
    /// `main` of a program before its first action, or a start routine with its argument. A number that no function of the
    /// program has is answered with want of memory; no checked program comes to one.
    pub fn start(
        alloc: Global,
        program: &Scoped,
        start: Option<u32>,
        value: u32,
    ) -> Result<Thread, Memory>
        ensures starts { IfOk result (λ t. IsStarted (scoped_program program.now) start value t) }
        ensures own { IfOk result (λ t. IsThreadOf (scoped_program program.now) t) }
    {
        let parts = Parts::start(alloc, program, start, value)?;
        Ok(Thread { parts })
    }

    /// The next action of the thread that is not local, where loops have at most `unwind` turns an entry: an input has
    /// `choice` for its value, modulo 2^32, a signal wakes the thread before `choice`, and nobody for 0. `read` is the
    /// word that was found where the answer before was a read. It ends, since no function recurs. Once memory ran out, each
    /// later call tells so too.
    pub fn next(
        &mut self,
        alloc: Global,
        program: &Scoped,
        order: &[u32],
        unwind: u32,
        choice: u64,
        read: ReadBack,
    ) -> Result<Next, Memory>
        requires program { IsRunnable (scoped_program program.now) order.now }
        requires own { IsThreadOf (scoped_program program.now) self.old }
        ensures answer { IfOk result (λ next. Answers (scoped_program program.now) unwind choice (read_back (word_of read) self.old) (answer_of next) self.new) }
        ensures own { IfOk result (λ _. IsThreadOf (scoped_program program.now) self.new) }
        ensures words { IfOk result (λ next. IsWordAnswer (answer_of next)) }
        ensures memory { IfErr result (λ _. self.new.standing ≡ spent) }
    {
        let next = self
            .parts
            .next(alloc, program, order, unwind, choice, read)?;
        Ok(next)
    }
}

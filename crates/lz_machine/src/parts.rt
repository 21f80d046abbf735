ghost use Rattle.std.specs.Prelude.{◌≡◌, ◌<◌, IfOk, IfErr, length};
ghost use Rattle.lz_tree.specs.ScopedTrees.{scoped_program};
ghost use Rattle.lz_machine.specs.Threads.{going, spent, AreOf, IsOf, StandsOf, first_thread};
ghost use Rattle.lz_machine.specs.Answers as words;
ghost use Rattle.lz_machine.specs.Answers.{Answers};
ghost use Rattle.lz_machine.specs.Starts.{IsRunnable, IsStarted, IsWordAnswer, answer_of, word_of};
ghost use Rattle.lz_machine.specs.Held.{running_of, standing_of, thread_of, thread_with};

use crate::answer::{Answered, Next, ReadBack, Standing, give, tell};
use crate::running::Running;
use crate::turn::run;
use lz_base::Memory;
use lz_stations::{Footing, Station};
use lz_tree::Scoped;
use lz_turns::Locals;
use std::alloc::Global;
use std::mem;

/// Where a thread stands, and whether its end ends the process.
#[derive(Drop)]
pub struct Parts {
    pub standing: Standing,
    pub whole: bool,
}

/// The answer of a thread that goes on, to a choice, where this word was read back.
fn answer(
    alloc: Global,
    program: &Scoped,
    order: &[u32],
    unwind: u32,
    choice: u64,
    read: ReadBack,
    whole: bool,
    mut running: Running,
) -> Result<Answered, Memory>
    requires program { IsRunnable (scoped_program program.now) order.now }
    requires of { AreOf (scoped_program program.now).functions (running_of running).frames }
    ensures answers { IfOk result (λ a. Answers (scoped_program program.now) unwind choice (words.read_back (word_of read) (thread_with (going (running_of running)) whole)) (answer_of a.next) (thread_with (standing_of a.standing) whole)) }
    ensures word { IfOk result (λ a. IsWordAnswer (answer_of a.next)) }
    ensures of { IfOk result (λ a. StandsOf (scoped_program program.now).functions (standing_of a.standing)) }
{
    give(&mut running, read);
    let turned = run(alloc, program, order, unwind, &mut running)?;
    let answered = tell(choice, whole, turned, running)?;
    Ok(answered)
}

/// A thread before its first action: it runs this function with these arguments.
fn first(alloc: Global, function: u32, arguments: Vec<u32>, whole: bool) -> Parts
    ensures { thread_of result ≡ first_thread function arguments.items whole }
{
    let running = Running {
        function,
        footing: Footing::At {
            station: Station::Start,
        },
        locals: Locals {
            frame: arguments,
            handles: Vec::new(alloc),
        },
        callers: Vec::new(alloc),
        given: 0,
        made: 1,
    };
    Parts {
        standing: Standing::Going { running },
        whole,
    }
}

/// Tests that a number is one of a function of the program.
fn find(program: &Scoped, function: u32) -> Result<(), Memory>
    ensures { IfOk result (λ _. function < length (scoped_program program.now).functions) }
{
    if (function as usize) < program.functions.items().len() {
        Ok(())
    } else {
        Err(Memory)
    }
}

impl Parts {
    /// `main` of a program before its first action, or a routine with its argument.
    pub fn start(
        alloc: Global,
        program: &Scoped,
        start: Option<u32>,
        value: u32,
    ) -> Result<Parts, Memory>
        ensures starts { IfOk result (λ t. IsStarted (scoped_program program.now) start value (thread_of t)) }
        ensures own { IfOk result (λ t. IsOf (scoped_program program.now).functions (thread_of t)) }
    {
        let mut arguments = Vec::new(alloc);
        match start {
            None => {
                find(program, program.main)?;
                Ok(first(alloc, program.main, arguments, true))
            }
            Some(function) => {
                find(program, function)?;
                arguments.push(value)?;
                Ok(first(alloc, function, arguments, false))
            }
        }
    }

    /// The answer of the thread on its next action.
    pub fn next(
        &mut self,
        alloc: Global,
        program: &Scoped,
        order: &[u32],
        unwind: u32,
        choice: u64,
        read: ReadBack,
    ) -> Result<Next, Memory>
        requires program { IsRunnable (scoped_program program.now) order.now }
        requires own { IsOf (scoped_program program.now).functions (thread_of self.old) }
        ensures answer { IfOk result (λ next. Answers (scoped_program program.now) unwind choice (words.read_back (word_of read) (thread_of self.old)) (answer_of next) (thread_of self.new)) }
        ensures words { IfOk result (λ next. IsWordAnswer (answer_of next)) }
        ensures own { IfOk result (λ _. IsOf (scoped_program program.now).functions (thread_of self.new)) }
        ensures memory { IfErr result (λ _. (thread_of self.new).standing ≡ spent) }
    {
        match mem::replace(&mut self.standing, Standing::Spent) {
            Standing::Going { running } => {
                let answered = answer(
                    alloc, program, order, unwind, choice, read, self.whole, running,
                )?;
                self.standing = answered.standing;
                Ok(answered.next)
            }
            Standing::Failed => {
                self.standing = Standing::Failed;
                Ok(Next::Cut)
            }
            Standing::Stopped => {
                self.standing = Standing::Stopped;
                Ok(Next::Cut)
            }
            Standing::Ended => {
                self.standing = Standing::Ended;
                Ok(Next::Ended)
            }
            Standing::Spent => Err(Memory),
        }
    }
}

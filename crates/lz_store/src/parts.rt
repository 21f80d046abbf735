ghost use Rattle.std.specs.Prelude.{◌≡◌, ◌<◌, ◌≤◌, length, slice_index, slice_set, map, IfOk, if◌then◌else◌};
ghost use Rattle.std.specs.List.{list_any};
ghost use Rattle.std.specs.Vec.{vec_capacity};
ghost use Rattle.lz_model.specs.declared.actions.Action.TheVariants.{Check, Assume, Rd, Lock, Unlock, Park, Wake, Broadcast, HoldOn, HoldOff, End};
ghost use Rattle.lz_model.specs.Store.{act, act_free, creates, signals, joins, opening, is_halted, held_by_another, is_now, waits_on, is_made, is_free, owner_of, owns, woken_from, with_owner, with_thread};
ghost use Rattle.lz_model.specs.Actions.{is_shared};
ghost use Rattle.lz_store.specs.Answers.{answer_of, state_behind, IsWithin, last_thread};
ghost use Rattle.lz_store.specs.Kept.{state_of, HasRoom};

use crate::store::Acted;
use lz_base::{BreakKind, Memory, SLOT_LIMIT, Value};
use lz_model::{Action, ThreadState};
use std::alloc::Global;

/// How many threads there is room for: the first, and those that a program may create.
const ROOM: usize = SLOT_LIMIT as usize + 1;

/// A thread that was just made.
const FRESH: ThreadState = ThreadState {
    waits: None,
    ended: false,
    joined: false,
};

/// The parts of a store.
#[derive(Drop)]
pub struct Parts {
    pub cells: Vec<Value>,
    /// The owner of each mutex.
    pub owners: Vec<Option<u32>>,
    /// The threads that were made, by their numbers.
    pub threads: Vec<ThreadState>,
    /// The holder of the atomic section.
    pub holder: Option<u32>,
    /// Whether the process is over.
    pub over: bool,
}

/// Whether an action is one on what threads share.
fn is_shared_action(action: &Action) -> bool
    ensures { result ≡ is_shared action.now }
{
    match action {
        Action::Loc
        | Action::Input { .. }
        | Action::Check { .. }
        | Action::Assume { .. }
        | Action::HoldOff
        | Action::End { .. } => false,
        _ => true,
    }
}

/// Whether a thread waits on the condition.
fn waits_on_cond(cond: u32, thread: ThreadState) -> bool
    ensures { result ≡ waits_on cond thread }
{
    match thread.waits {
        Some(other) => other == cond,
        None => false,
    }
}

/// The thread, which does not wait where it waited on the condition.
fn woken(cond: u32, thread: ThreadState) -> ThreadState
    ensures { result ≡ woken_from cond thread }
{
    if waits_on_cond(cond, thread) {
        ThreadState {
            waits: None,
            ..thread
        }
    } else {
        thread
    }
}

/// Wakes each thread that waits on the condition.
fn wake_all(cond: u32, threads: &mut [ThreadState])
    ensures { threads.new ≡ map (woken_from cond) threads.old }
{
    for i in 0..threads.len() {
        let thread = threads[i];
        threads[i] = woken(cond, thread);
    }
}

/// Whether some thread waits on the condition.
fn some_waits(cond: u32, threads: &[ThreadState]) -> bool
    ensures { result ≡ list_any (waits_on cond) threads.now }
{
    for thread in threads {
        if waits_on_cond(cond, *thread) {
            return true;
        }
    }
    false
}

impl Parts {
    /// The parts of a state in which a process begins.
    pub fn new(alloc: Global, cells: &[Value], mutexes: u32) -> Result<Parts, Memory>
        ensures room { IfOk result (λ p. HasRoom p) }
        ensures state { IfOk result (λ p. state_of p ≡ opening cells.now mutexes) }
    {
        let cells = Vec::from_slice(alloc, cells)?;
        let owners = Vec::from_elem(alloc, None, mutexes as usize)?;
        let mut threads = Vec::with_capacity(alloc, ROOM)?;
        threads.push_reserved(FRESH);
        Ok(Parts {
            cells,
            owners,
            threads,
            holder: None,
            over: false,
        })
    }

    /// Whether the thread was made.
    fn is_thread(&self, thread: u32) -> bool
        ensures { result ≡ is_made (state_of self.now) thread }
    {
        (thread as usize) < self.threads.len()
    }

    /// Whether no action of the thread goes.
    fn is_at_rest(&self, thread: u32) -> bool
        ensures { result ≡ is_halted (state_of self.now) thread }
    {
        self.over || (!self.is_thread(thread) || self.threads[thread as usize].ended)
    }

    /// Whether another thread is the holder of the atomic section.
    fn is_held_from(&self, thread: u32) -> bool
        ensures { result ≡ held_by_another self.now.holder thread }
    {
        match self.holder {
            Some(holder) => holder != thread,
            None => false,
        }
    }

    /// Whether the thread is the holder of the atomic section.
    fn is_holder(&self, thread: u32) -> bool
        ensures { result ≡ is_now self.now.holder thread }
    {
        match self.holder {
            Some(holder) => holder == thread,
            None => false,
        }
    }

    /// The value of a cell, or 0 where there is no such cell.
    pub fn cell(&self, cell: u32) -> Value
        ensures { result ≡ slice_index self.now.cells.items cell }
    {
        if (cell as usize) < self.cells.len() {
            self.cells[cell as usize]
        } else {
            0
        }
    }

    /// Writes a cell, where it is there.
    fn write(&mut self, cell: u32, value: Value)
        ensures state { state_of self.new ≡ record (state_of self.old) { cells = slice_set self.old.cells.items cell value } }
        ensures room { vec_capacity self.new.threads ≡ vec_capacity self.old.threads }
    {
        if (cell as usize) < self.cells.len() {
            self.cells[cell as usize] = value;
        }
    }

    /// The owner of a mutex, or none where there is no such mutex.
    fn owner(&self, mutex: u32) -> Option<u32>
        ensures { result ≡ owner_of (state_of self.now) mutex }
    {
        if (mutex as usize) < self.owners.len() {
            self.owners[mutex as usize]
        } else {
            None
        }
    }

    /// Whether the mutex has no owner.
    fn is_unowned(&self, mutex: u32) -> bool
        ensures { result ≡ is_free (state_of self.now) mutex }
    {
        match self.owner(mutex) {
            Some(_) => false,
            None => true,
        }
    }

    /// Whether the thread owns the mutex.
    fn is_owner(&self, thread: u32, mutex: u32) -> bool
        ensures { result ≡ owns (state_of self.now) thread mutex }
    {
        match self.owner(mutex) {
            Some(owner) => owner == thread,
            None => false,
        }
    }

    /// Gives the mutex an owner, or none, where it is there.
    fn set_owner(&mut self, mutex: u32, owner: Option<u32>)
        ensures state { state_of self.new ≡ with_owner (state_of self.old) mutex owner }
        ensures room { vec_capacity self.new.threads ≡ vec_capacity self.old.threads }
    {
        if (mutex as usize) < self.owners.len() {
            self.owners[mutex as usize] = owner;
        }
    }

    /// Puts what is kept of a thread.
    fn set_thread(&mut self, number: u32, thread: ThreadState)
        requires { number < length self.old.threads.items }
        ensures state { state_of self.new ≡ with_thread (state_of self.old) number thread }
        ensures room { vec_capacity self.new.threads ≡ vec_capacity self.old.threads }
    {
        self.threads[number as usize] = thread;
    }

    /// A lock of a mutex.
    fn lock(&mut self, thread: u32, mutex: u32) -> Acted
        ensures answer { result ≡ answer_of (act_free (state_of self.old) thread (Lock mutex)) }
        ensures state { state_of self.new ≡ state_behind (state_of self.old) (act_free (state_of self.old) thread (Lock mutex)) }
        ensures room { vec_capacity self.new.threads ≡ vec_capacity self.old.threads }
    {
        if !self.is_unowned(mutex) {
            return Acted::Blocked;
        }
        self.set_owner(mutex, Some(thread));
        Acted::Went
    }

    /// An unlock of a mutex.
    fn unlock(&mut self, thread: u32, mutex: u32) -> Acted
        ensures answer { result ≡ answer_of (act_free (state_of self.old) thread (Unlock mutex)) }
        ensures state { state_of self.new ≡ state_behind (state_of self.old) (act_free (state_of self.old) thread (Unlock mutex)) }
        ensures room { vec_capacity self.new.threads ≡ vec_capacity self.old.threads }
    {
        let owned = self.is_owner(thread, mutex);
        if !owned {
            return Acted::Broke {
                kind: BreakKind::Unlock,
            };
        }
        self.set_owner(mutex, None);
        Acted::Went
    }

    /// The first half of a wait: the thread gives up the mutex and waits.
    fn park(&mut self, thread: u32, cond: u32, mutex: u32) -> Acted
        requires { thread < length self.old.threads.items }
        ensures answer { result ≡ answer_of (act_free (state_of self.old) thread (Park cond mutex)) }
        ensures state { state_of self.new ≡ state_behind (state_of self.old) (act_free (state_of self.old) thread (Park cond mutex)) }
        ensures room { vec_capacity self.new.threads ≡ vec_capacity self.old.threads }
    {
        if !self.is_owner(thread, mutex) {
            return Acted::Broke {
                kind: BreakKind::Wait,
            };
        }
        let next_owner = None;
        self.set_owner(mutex, next_owner);
        let parked = ThreadState {
            waits: Some(cond),
            ..self.threads[thread as usize]
        };
        self.set_thread(thread, parked);
        Acted::Went
    }

    /// The second half of a wait: the thread was woken and takes the mutex.
    fn wake(&mut self, thread: u32, cond: u32, mutex: u32) -> Acted
        requires { thread < length self.old.threads.items }
        ensures answer { result ≡ answer_of (act_free (state_of self.old) thread (Wake cond mutex)) }
        ensures state { state_of self.new ≡ state_behind (state_of self.old) (act_free (state_of self.old) thread (Wake cond mutex)) }
        ensures room { vec_capacity self.new.threads ≡ vec_capacity self.old.threads }
    {
        let _ = cond;
        if self.threads[thread as usize].waits.is_some() || !self.is_unowned(mutex) {
            return Acted::Blocked;
        }
        self.set_owner(mutex, Some(thread));
        Acted::Went
    }

    /// A signal that wakes this thread.
    fn wake_one(&mut self, cond: u32, thread: u32) -> Acted
        ensures answer { result ≡ answer_of (signals (state_of self.old) cond (Some thread)) }
        ensures state { state_of self.new ≡ state_behind (state_of self.old) (signals (state_of self.old) cond (Some thread)) }
        ensures room { vec_capacity self.new.threads ≡ vec_capacity self.old.threads }
    {
        if !self.is_thread(thread) || !waits_on_cond(cond, self.threads[thread as usize]) {
            return Acted::Blocked;
        }
        let awake = ThreadState {
            waits: None,
            ..self.threads[thread as usize]
        };
        self.set_thread(thread, awake);
        Acted::Went
    }

    /// A signal.
    fn signal(&mut self, cond: u32, woken: Option<u32>) -> Acted
        ensures answer { result ≡ answer_of (signals (state_of self.old) cond woken) }
        ensures state { state_of self.new ≡ state_behind (state_of self.old) (signals (state_of self.old) cond woken) }
        ensures room { vec_capacity self.new.threads ≡ vec_capacity self.old.threads }
    {
        match woken {
            Some(thread) => self.wake_one(cond, thread),
            None => {
                if some_waits(cond, &self.threads) {
                    Acted::Blocked
                } else {
                    Acted::Went
                }
            }
        }
    }

    /// The creation of a thread.
    fn create(&mut self, number: u32) -> Acted
        requires last { number ≤ last_thread }
        requires room { HasRoom self.old }
        ensures answer { result ≡ answer_of (creates (state_of self.old) number) }
        ensures state { state_of self.new ≡ state_behind (state_of self.old) (creates (state_of self.old) number) }
        ensures room { vec_capacity self.new.threads ≡ vec_capacity self.old.threads }
    {
        if number as usize != self.threads.len() {
            return Acted::Blocked;
        }
        self.threads.push_reserved(FRESH);
        Acted::Went
    }

    /// A join of a thread.
    fn join(&mut self, number: u32) -> Acted
        ensures answer { result ≡ answer_of (joins (state_of self.old) number) }
        ensures state { state_of self.new ≡ state_behind (state_of self.old) (joins (state_of self.old) number) }
        ensures room { vec_capacity self.new.threads ≡ vec_capacity self.old.threads }
    {
        if number == 0 || (!self.is_thread(number) || self.threads[number as usize].joined) {
            return Acted::Broke {
                kind: BreakKind::Join,
            };
        }
        let thread = self.threads[number as usize];
        if !thread.ended {
            return Acted::Blocked;
        }
        let joined = ThreadState {
            joined: true,
            ..thread
        };
        self.set_thread(number, joined);
        Acted::Went
    }

    /// The end of a thread.
    fn end(&mut self, thread: u32, whole: bool) -> Acted
        requires { thread < length self.old.threads.items }
        ensures answer { result ≡ answer_of (act_free (state_of self.old) thread (End whole)) }
        ensures state { state_of self.new ≡ state_behind (state_of self.old) (act_free (state_of self.old) thread (End whole)) }
        ensures room { vec_capacity self.new.threads ≡ vec_capacity self.old.threads }
    {
        let ended = ThreadState {
            ended: true,
            ..self.threads[thread as usize]
        };
        self.set_thread(thread, ended);
        if self.is_holder(thread) {
            self.holder = None;
        }
        self.over = self.over || whole;
        Acted::Went
    }

    /// The beginning of an atomic section.
    fn hold_on(&mut self, thread: u32) -> Acted
        ensures answer { result ≡ answer_of (act_free (state_of self.old) thread HoldOn) }
        ensures state { state_of self.new ≡ state_behind (state_of self.old) (act_free (state_of self.old) thread HoldOn) }
        ensures room { vec_capacity self.new.threads ≡ vec_capacity self.old.threads }
    {
        self.holder = Some(thread);
        Acted::Went
    }

    /// The end of an atomic section.
    fn hold_off(&mut self, thread: u32) -> Acted
        ensures answer { result ≡ answer_of (act_free (state_of self.old) thread HoldOff) }
        ensures state { state_of self.new ≡ state_behind (state_of self.old) (act_free (state_of self.old) thread HoldOff) }
        ensures room { vec_capacity self.new.threads ≡ vec_capacity self.old.threads }
    {
        if self.is_holder(thread) {
            self.holder = None;
        }
        Acted::Went
    }

    /// A broadcast.
    fn broadcast(&mut self, thread: u32, cond: u32) -> Acted
        ensures answer { result ≡ answer_of (act_free (state_of self.old) thread (Broadcast cond)) }
        ensures state { state_of self.new ≡ state_behind (state_of self.old) (act_free (state_of self.old) thread (Broadcast cond)) }
        ensures room { vec_capacity self.new.threads ≡ vec_capacity self.old.threads }
    {
        let _ = thread;
        wake_all(cond, &mut self.threads);
        Acted::Went
    }

    /// A read of a cell.
    fn read(&self, thread: u32, cell: u32, value: Value) -> Acted
        ensures answer { result ≡ answer_of (act_free (state_of self.now) thread (Rd cell value)) }
        ensures state { state_of self.now ≡ state_behind (state_of self.now) (act_free (state_of self.now) thread (Rd cell value)) }
    {
        let _ = thread;
        if self.cell(cell) == value {
            Acted::Went
        } else {
            Acted::Blocked
        }
    }

    /// A check of a value.
    fn check(&self, thread: u32, value: Value, kind: BreakKind) -> Acted
        ensures answer { result ≡ answer_of (act_free (state_of self.now) thread (Check value kind)) }
        ensures state { state_of self.now ≡ state_behind (state_of self.now) (act_free (state_of self.now) thread (Check value kind)) }
    {
        let _ = thread;
        if value == 0 {
            Acted::Broke { kind }
        } else {
            Acted::Went
        }
    }

    /// An assumption of a value.
    fn assume(&self, thread: u32, value: Value) -> Acted
        ensures answer { result ≡ answer_of (act_free (state_of self.now) thread (Assume value)) }
        ensures state { state_of self.now ≡ state_behind (state_of self.now) (act_free (state_of self.now) thread (Assume value)) }
    {
        let _ = thread;
        if value == 0 {
            Acted::Blocked
        } else {
            Acted::Went
        }
    }

    /// What an action comes to of a thread that is neither at rest nor kept out by a holder.
    fn act_on(&mut self, thread: u32, action: &Action) -> Acted
        requires within { IsWithin action.now }
        requires thread { thread < length self.old.threads.items }
        requires room { HasRoom self.old }
        ensures answer { result ≡ answer_of (act_free (state_of self.old) thread action.now) }
        ensures state { state_of self.new ≡ state_behind (state_of self.old) (act_free (state_of self.old) thread action.now) }
        ensures room { vec_capacity self.new.threads ≡ vec_capacity self.old.threads }
    {
        match *action {
            Action::Loc | Action::Input { .. } => Acted::Went,
            Action::Check { value, kind } => self.check(thread, value, kind),
            Action::Assume { value } => self.assume(thread, value),
            Action::Rd { cell, value } => self.read(thread, cell, value),
            Action::Wr { cell, value } => {
                self.write(cell, value);
                Acted::Went
            }
            Action::Reset { mutex } => {
                self.set_owner(mutex, None);
                Acted::Went
            }
            Action::Lock { mutex } => self.lock(thread, mutex),
            Action::Unlock { mutex } => self.unlock(thread, mutex),
            Action::Park { cond, mutex } => self.park(thread, cond, mutex),
            Action::Wake { cond, mutex } => self.wake(thread, cond, mutex),
            Action::Signal { cond, woken } => self.signal(cond, woken),
            Action::Broadcast { cond } => self.broadcast(thread, cond),
            Action::Create { thread: number, .. } => self.create(number),
            Action::Join { thread: number } => self.join(number),
            Action::HoldOn => self.hold_on(thread),
            Action::HoldOff => self.hold_off(thread),
            Action::End { whole } => self.end(thread, whole),
        }
    }

    /// Does an action of a thread, where it goes.
    pub fn act(&mut self, thread: u32, action: &Action) -> Acted
        requires within { IsWithin action.now }
        requires room { HasRoom self.old }
        ensures answer { result ≡ answer_of (act (state_of self.old) thread action.now) }
        ensures state { state_of self.new ≡ state_behind (state_of self.old) (act (state_of self.old) thread action.now) }
        ensures room { HasRoom self.new }
    {
        if self.is_at_rest(thread) || (is_shared_action(action) && self.is_held_from(thread)) {
            return Acted::Blocked;
        }
        self.act_on(thread, action)
    }
}

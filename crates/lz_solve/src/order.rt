ghost use Rattle.std.specs.Prelude.{◌≡◌, ◌<◌, ◌≤◌, length, slice_index, slice_set, IfOk};
ghost use Rattle.lz_cnf.specs.Models.{variable_bound, variable_of};

use lz_base::Memory;
use lz_cnf::Lit;
use std::alloc::Global;

/// What the first conflict adds to a score.
const FIRST_STEP: u64 = 1048576;

/// Scores are scaled down once a conflict would add more than this.
const LAST_STEP: u64 = 4503599627370496;

/// By how much scores are scaled down.
const SCALE: u64 = 1073741824;

/// The order in which variables are decided, as in MiniSat: a heap of variables by scores, which rise at each conflict for
/// the variables that its analysis met, and the value that each variable had last. Nothing rests on it but time: places
/// are tested where they are used, and what comes out of the heap is tested by the search.
#[derive(Drop)]
pub struct Order {
    /// For each variable its score.
    scores: Vec<u64>,
    /// The variables that wait, none with a score above that of the one over it; over place `p` is `(p - 1) / 2`.
    heap: Vec<u32>,
    /// How many variables wait.
    count: usize,
    /// For each variable its place in the heap, counted from 1, and 0 where it does not wait.
    places: Vec<usize>,
    /// For each variable whether its literal was the negated one when it was last set.
    negated: Vec<bool>,
    /// For each level above 0 how many literals were true when it was decided.
    starts: Vec<usize>,
    /// For each variable the last conflict that raised its score.
    stamps: Vec<u64>,
    /// What a conflict adds to a score.
    step: u64,
    /// The present conflict.
    conflict: u64,
    /// How many conflicts are left before the next restart.
    left: u64,
    /// How many conflicts lie between the last restart and the next one.
    run: u64,
}

/// Conflicts before the first restart; each run is longer than the one before it by as many.
const RUN: u64 = 100;

/// Writes a number at a place, where there is such a place.
fn put(numbers: &mut [usize], place: usize, number: usize)
    ensures written { place < length numbers.old → numbers.new ≡ slice_set numbers.old place number }
    ensures kept { length numbers.old ≤ place → numbers.new ≡ numbers.old }
{
    if place < numbers.len() {
        numbers[place] = number;
    }
}

impl Order {
    /// All variables wait, from the first to the last.
    pub fn new(alloc: Global, variables: u32) -> Result<Order, Memory>
        ensures { IfOk result (λ o. o.count ≡ variables) }
    {
        let count = variables as usize;
        let mut heap = Vec::with_capacity(alloc, count)?;
        let mut places = Vec::with_capacity(alloc, count)?;
        for variable in 0..variables {
            heap.push(variable)?;
            places.push(variable as usize + 1)?;
        }
        let scores = Vec::from_elem(alloc, 0, count)?;
        let negated = Vec::from_elem(alloc, true, count)?;
        let starts = Vec::with_capacity(alloc, count)?;
        let stamps = Vec::from_elem(alloc, 0, count)?;
        Ok(Order {
            scores,
            heap,
            count,
            places,
            negated,
            starts,
            stamps,
            step: FIRST_STEP,
            conflict: 1,
            left: RUN,
            run: RUN,
        })
    }

    /// How many variables wait.
    pub fn len(&self) -> usize
        ensures { result ≡ self.now.count }
    {
        self.count
    }

    /// The score of the variable at a place of the heap.
    fn score_at(&self, place: usize) -> u64
        ensures { place < length self.now.heap.items → slice_index self.now.heap.items place < length self.now.scores.items
            → result ≡ slice_index self.now.scores.items (slice_index self.now.heap.items place) }
    {
        if place >= self.heap.len() {
            return 0;
        }
        let variable = self.heap[place] as usize;
        if variable >= self.scores.len() {
            return 0;
        }
        self.scores[variable]
    }

    /// Exchanges two places of the heap.
    fn swap(&mut self, one: usize, other: usize)
        ensures { self.new.count ≡ self.old.count }
    {
        if one < self.heap.len() && other < self.heap.len() {
            let first = self.heap[one];
            let second = self.heap[other];
            self.heap[one] = second;
            self.heap[other] = first;
            put(&mut self.places, first as usize, other + 1);
            put(&mut self.places, second as usize, one + 1);
        }
    }

    /// Moves the variable at a place up to where it belongs.
    fn rise(&mut self, from: usize)
        ensures { self.new.count ≡ self.old.count }
    {
        let mut at = from;
        while at > 0 {
            let over = (at - 1) / 2;
            if self.score_at(at) <= self.score_at(over) {
                return;
            }
            self.swap(at, over);
            at = over;
        }
    }

    /// The place below this one whose variable has the greater score; its own where none has more than it.
    fn greatest(&self, at: usize) -> usize {
        let left = at.saturating_mul(2).saturating_add(1);
        let right = left.saturating_add(1);
        let mut best = at;
        if left < self.count && self.score_at(left) > self.score_at(best) {
            best = left;
        }
        if right < self.count && self.score_at(right) > self.score_at(best) {
            best = right;
        }
        best
    }

    /// Moves the variable at the top down to where it belongs.
    fn sink(&mut self)
        ensures { self.new.count ≡ self.old.count }
    {
        let mut at = 0;
        while at < self.count {
            let below = self.greatest(at);
            if below <= at {
                return;
            }
            self.swap(at, below);
            at = below;
        }
    }

    /// Takes out the variable of the greatest score.
    pub fn pop(&mut self) -> Option<u32>
        ensures { self.new.count ≤ self.old.count }
    {
        if self.count == 0 || self.count > self.heap.len() {
            return None;
        }
        let top = self.heap[0];
        self.count -= 1;
        self.swap(0, self.count);
        put(&mut self.places, top as usize, 0);
        self.sink();
        Some(top)
    }

    /// Lets a variable wait, if it does not.
    fn insert(&mut self, variable: u32)
        ensures { self.old.count ≤ self.new.count }
    {
        let at = variable as usize;
        if at < self.places.len() && self.places[at] == 0 && self.count < self.heap.len() {
            self.heap[self.count] = variable;
            self.places[at] = self.count + 1;
            self.count += 1;
            self.rise(self.count - 1);
        }
    }

    /// A literal is true no more: its variable waits again, and the sign is kept.
    pub fn release(&mut self, lit: Lit)
        ensures { self.old.count ≤ self.new.count }
    {
        let at = lit.0 as usize / 2;
        if at < self.negated.len() {
            self.negated[at] = lit.0 % 2 == 1;
        }
        self.insert(lit.0 / 2);
    }

    /// A level is decided where so many literals are true. There is room for as many levels as there are variables.
    pub fn begin_level(&mut self, literals: usize)
        ensures { self.new.count ≡ self.old.count }
    {
        match self.starts.push(literals) {
            Ok(()) => {}
            Err(_) => {}
        }
    }

    /// Forgets the levels above this one, and answers how many literals are true up to it, where these are all.
    pub fn end_levels(&mut self, level: u32, literals: usize) -> usize
        ensures { self.new.count ≡ self.old.count }
    {
        let at = level as usize;
        if at >= self.starts.len() {
            return literals;
        }
        let start = self.starts[at];
        self.starts.truncate(at);
        start
    }

    /// The literal of a variable with the sign that it had last; the negated one at first.
    pub fn literal_of(&self, variable: u32) -> Lit
        requires { variable < variable_bound }
        ensures { variable_of result ≡ variable }
    {
        let at = variable as usize;
        if at < self.negated.len() && !self.negated[at] {
            return Lit(2 * variable);
        }
        Lit(2 * variable + 1)
    }

    /// Moves a variable up to where it belongs, if it waits.
    fn lift(&mut self, variable: u32)
        ensures { self.new.count ≡ self.old.count }
    {
        let at = variable as usize;
        if at < self.places.len() {
            let place = self.places[at];
            if place > 0 {
                self.rise(place - 1);
            }
        }
    }

    /// Raises the score of a variable, once for each conflict.
    pub fn raise(&mut self, variable: u32)
        ensures { self.new.count ≡ self.old.count }
    {
        let at = variable as usize;
        if at < self.stamps.len() && at < self.scores.len() && self.stamps[at] != self.conflict {
            self.stamps[at] = self.conflict;
            let score = self.scores[at];
            let step = self.step;
            self.scores[at] = score.saturating_add(step);
            self.lift(variable);
        }
    }

    /// Scales all scores down.
    fn scale(&mut self)
        ensures { self.new.count ≡ self.old.count }
    {
        for score in &mut self.scores {
            *score /= SCALE;
        }
        self.step /= SCALE;
    }

    /// Ends a conflict: the next one counts more. Answers whether a restart is due.
    pub fn end_conflict(&mut self) -> bool
        ensures { self.new.count ≡ self.old.count }
    {
        self.conflict = self.conflict.wrapping_add(1);
        self.step = self.step.saturating_add(self.step / 19);
        if self.step > LAST_STEP {
            self.scale();
        }
        if self.left > 1 {
            self.left -= 1;
            return false;
        }
        self.run = self.run.saturating_add(RUN);
        self.left = self.run;
        true
    }
}

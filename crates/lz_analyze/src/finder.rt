ghost use Rattle.std.specs.Prelude.{◌<◌};

use crate::marks::Marks;
use lz_base::Memory;
use lz_cnf::Lit;
use lz_prop::Trail;
use std::alloc::Global;

/// The most steps that are taken from one literal of a clause. Where they do not suffice the literal is kept.
const STEPS: u32 = 1_000_000;

/// What is known of a variable, while it is asked which literals of a clause the others make false.
#[derive(Clone, Copy, Debug, PartialEq, Eq)]
enum State {
    /// Nothing.
    Unknown,
    /// A literal of the clause has it, which was not looked at.
    Clause,
    /// A literal of the clause has it, which the others do not make false.
    Kept,
    /// It has its value by clauses that rest on the clause's other literals.
    Implied,
    /// The same, and a literal that is left out rests on it.
    Needed,
    /// It is none of the clause's, and does not have its value by these.
    Open,
}

/// A variable on the path, and how far its reason was looked through.
#[derive(Clone, Copy, Debug)]
struct Visit {
    variable: u32,
    number: u32,
    at: usize,
}

/// Finds the literals of a clause that the others make false by unit propagation, depth first over reasons. A variable
/// is looked at only where its level stands in the clause, or is 0. No clause speaks of what is found, since it is
/// tested where it is used: a fault here costs length alone.
#[derive(Drop)]
pub struct Finder {
    /// For each variable what is known.
    states: Vec<State>,
    /// The variables of which something is known.
    touched: Vec<u32>,
    /// The levels of the clause's literals, and 0.
    levels: Marks,
    /// The variables that are being looked at, each met in the reason of the one before it.
    path: Vec<Visit>,
    /// The variables that are implied, each after those that its reason holds.
    implied: Vec<u32>,
}

/// The level of a variable.
fn level_in(trail: &Trail, variable: u32) -> Option<u32> {
    if variable < trail.variables() {
        return trail.level_of(variable);
    }
    None
}

/// The reason of a variable.
fn reason_in(trail: &Trail, variable: u32) -> Option<u32> {
    if variable < trail.variables() {
        return trail.reason(variable);
    }
    None
}

/// The literals of a kept clause.
fn clause_in(trail: &Trail, number: u32) -> &[Lit] {
    if number > 0 && number as usize <= trail.clauses() {
        return trail.clause(number);
    }
    &[]
}

/// Nothing is known of these variables any more.
fn forget(states: &mut Vec<State>, touched: &[u32]) {
    for variable in touched {
        let at = *variable as usize;
        if at < states.len() {
            states[at] = State::Unknown;
        }
    }
}

impl Finder {
    /// Nothing was looked at.
    pub fn new(alloc: Global) -> Finder {
        Finder {
            states: Vec::new(alloc),
            touched: Vec::new(alloc),
            levels: Marks::new(alloc),
            path: Vec::new(alloc),
            implied: Vec::new(alloc),
        }
    }

    /// The variables that are implied, each after those that its reason holds.
    pub fn implied(&self) -> &[u32] {
        &self.implied
    }

    /// Whether a literal is left out that rests on this variable, or is of it.
    pub fn is_needed(&self, variable: u32) -> bool {
        self.state(variable) == State::Needed
    }

    /// What is known of a variable.
    fn state(&self, variable: u32) -> State {
        let at = variable as usize;
        if at < self.states.len() {
            return self.states[at];
        }
        State::Unknown
    }

    /// Keeps what is known of a variable.
    fn set(&mut self, variable: u32, state: State) -> Result<(), Memory> {
        let at = variable as usize;
        if at < self.states.len() {
            if self.states[at] == State::Unknown {
                self.touched.push(variable)?;
            }
            self.states[at] = state;
        }
        Ok(())
    }

    /// Lets each variable have a place.
    fn reach(&mut self, variables: u32) -> Result<(), Memory> {
        for _ in self.states.len()..variables as usize {
            self.states.push(State::Unknown)?;
        }
        Ok(())
    }

    /// A literal of the clause.
    fn begin_at(&mut self, trail: &Trail, variable: u32) -> Result<(), Memory> {
        if let Some(level) = level_in(trail, variable) {
            self.levels.insert(level)?;
        }
        self.set(variable, State::Clause)
    }

    /// Begins with a clause.
    fn begin(&mut self, trail: &Trail, low: &[Lit], point: u32) -> Result<(), Memory> {
        forget(&mut self.states, &self.touched);
        self.touched.clear();
        self.path.clear();
        self.implied.clear();
        self.levels.clear();
        self.levels.insert(0)?;
        self.reach(trail.variables())?;
        for lit in low {
            self.begin_at(trail, lit.0 / 2)?;
        }
        self.set(point, State::Kept)
    }

    /// Finds which of these literals the others, and the point's, make false.
    pub fn find(&mut self, trail: &Trail, low: &[Lit], point: u32) -> Result<(), Memory> {
        self.begin(trail, low, point)?;
        for lit in low {
            self.explore(trail, lit.0 / 2)?;
        }
        for lit in low {
            self.need(lit.0 / 2)?;
        }
        self.need_all(trail)
    }

    /// Looks at a literal of the clause.
    fn explore(&mut self, trail: &Trail, variable: u32) -> Result<(), Memory> {
        if self.state(variable) == State::Clause {
            self.path.clear();
            self.meet(trail, variable)?;
            for _ in 0..STEPS {
                if self.path.is_empty() {
                    return Ok(());
                }
                self.step(trail)?;
            }
        }
        Ok(())
    }

    /// Whether a variable with this state does not stand in the way of the one whose reason holds it.
    fn is_settled(&self, variable: u32) -> bool {
        match self.state(variable) {
            State::Kept => true,
            State::Implied => true,
            _ => false,
        }
    }

    /// The first place from this one on of a variable that is still to be looked at, or that stands in the way.
    fn pass(&self, clause: &[Lit], from: usize, own: u32) -> usize {
        for at in from..clause.len() {
            let variable = clause[at].0 / 2;
            if variable != own && !self.is_settled(variable) {
                return at;
            }
        }
        clause.len()
    }

    /// One step at the end of the path.
    fn step(&mut self, trail: &Trail) -> Result<(), Memory> {
        match self.path.pop() {
            Some(visit) => self.go_on(trail, visit),
            None => Ok(()),
        }
    }

    /// Looks further through the reason of a variable: it is implied, or the next one is met.
    fn go_on(&mut self, trail: &Trail, visit: Visit) -> Result<(), Memory> {
        let clause = clause_in(trail, visit.number);
        let at = self.pass(clause, visit.at, visit.variable);
        if at < clause.len() {
            self.path.push(Visit {
                variable: visit.variable,
                number: visit.number,
                at: at + 1,
            })?;
            return self.meet(trail, clause[at].0 / 2);
        }
        self.implied.push(visit.variable)?;
        self.set(visit.variable, State::Implied)
    }

    /// Whether a variable that is none of the clause's may be looked at.
    fn may_enter(&self, trail: &Trail, variable: u32) -> bool {
        match level_in(trail, variable) {
            Some(level) => self.levels.contains(level),
            None => false,
        }
    }

    /// Meets a variable: the path goes on with it, or it stands in the way.
    fn meet(&mut self, trail: &Trail, variable: u32) -> Result<(), Memory> {
        let state = self.state(variable);
        if state == State::Clause || (state == State::Unknown && self.may_enter(trail, variable)) {
            if let Some(number) = reason_in(trail, variable) {
                self.path.push(Visit {
                    variable,
                    number,
                    at: 0,
                })?;
                return Ok(());
            }
        }
        self.refuse(variable, state)
    }

    /// A variable is not implied. If it is one of the clause's, the path goes on before it.
    fn refuse(&mut self, variable: u32, state: State) -> Result<(), Memory> {
        if state == State::Clause {
            return self.set(variable, State::Kept);
        }
        self.set(variable, State::Open)?;
        self.fail()
    }

    /// The variables of the path are not implied, down to the last one of the clause, which is kept.
    fn fail(&mut self) -> Result<(), Memory> {
        for _ in 0..self.path.len() {
            if let Some(visit) = self.path.pop() {
                if self.state(visit.variable) == State::Clause {
                    return self.set(visit.variable, State::Kept);
                }
                self.set(visit.variable, State::Open)?;
            }
        }
        Ok(())
    }

    /// A literal that is left out rests on this variable.
    fn need(&mut self, variable: u32) -> Result<(), Memory> {
        if self.state(variable) == State::Implied {
            return self.set(variable, State::Needed);
        }
        Ok(())
    }

    /// What a needed variable's reason holds is needed.
    fn need_reason(&mut self, trail: &Trail, variable: u32) -> Result<(), Memory> {
        if self.state(variable) == State::Needed {
            if let Some(number) = reason_in(trail, variable) {
                for lit in clause_in(trail, number) {
                    self.need(lit.0 / 2)?;
                }
            }
        }
        Ok(())
    }

    /// Finds all that is needed, from the last implied variable to the first.
    fn need_all(&mut self, trail: &Trail) -> Result<(), Memory> {
        let count = self.implied.len();
        for turn in 0..count {
            let at = count - 1 - turn;
            if at < self.implied.len() {
                let variable = self.implied[at];
                self.need_reason(trail, variable)?;
            }
        }
        Ok(())
    }
}

use lz_stations::Footing;
use lz_turns::Locals;

/// A call that waits for one that it made: where its body stands, and the values of its locals.
#[derive(Drop)]
pub struct Caller {
    pub function: u32,
    pub footing: Footing,
    pub values: Vec<u32>,
}

/// A thread that goes on: its innermost call with the thread objects, those that wait for it, the outermost first, the
/// value that is given behind the last action, and the number of the next thread that it creates.
#[derive(Drop)]
pub struct Running {
    pub function: u32,
    pub footing: Footing,
    pub locals: Locals,
    pub callers: Vec<Caller>,
    pub given: u32,
    pub made: u32,
}

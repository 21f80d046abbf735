/// What the shared state keeps of a thread that was made: the condition on which it waits, if any, whether it has
/// ended, and whether it was joined.
#[derive(Clone, Copy, Debug, PartialEq, Eq)]
pub struct ThreadState {
    pub waits: Option<u32>,
    pub ended: bool,
    pub joined: bool,
}

//! A folder and a sink in memory, for tests: they tell their content, and fail where they are told to.

mod buffer;
mod calls;
mod folder;
mod sink;
mod slot;

pub use calls::Calls;
pub use folder::{File, Files, MemoryFolder};
pub use sink::MemorySink;

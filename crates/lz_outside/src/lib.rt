//! The outside of lazycheck: folders that files are read from and sinks that reports are written to,
//! over memory for tests and over the system for `main`, and the calls that read a whole file and
//! write a whole report through them.
#![tactic(auto)]

mod faults;
mod folder;
mod memory;
mod reading;
mod real_folder;
mod real_sink;
mod sink;
mod writing;

pub use folder::{Failed, Folder};
pub use memory::{Calls, File, Files, MemoryFolder, MemorySink};
pub use reading::{ReadError, read_all};
pub use real_folder::RealFolder;
pub use real_sink::RealSink;
pub use sink::Sink;
pub use writing::{write_all, write_file};

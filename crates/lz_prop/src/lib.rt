//! The trail of a search: the true literals with their levels and reasons, the kept clauses, and unit propagation.
#![tactic(auto)]

mod inner;
mod scan;
mod store;
mod table;
mod trail;
mod watch;

pub use trail::{Propagated, Trail};

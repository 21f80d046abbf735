//! The rules of the checked language: what is wrong with a program (C99 6.2 to 6.9).
#![tactic(auto)]

mod checking;
mod declarations;
mod externals;
mod laws;
mod note;
mod params;
mod statements;
mod walk;

pub use checking::{Checked, check};
pub use laws::{no_function_recurs, one_list_of_faults};
pub use lz_scopes::TypeError;

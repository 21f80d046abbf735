//! The slots and the cost of a program within bounds: how many threads it can create, and a number that bounds
//! the work of deciding it.
#![tactic(auto)]

mod costs;
mod program;
mod saturate;
mod sites;
mod table;

pub use costs::{Rates, number_at, statement_cost};
pub use program::{cost, slots};
pub use saturate::{plus, times};
pub use sites::{SiteRates, SiteWeight, statement_sites};
pub use table::{
    CAST, CHOOSE, IF, JUMP, THREAD, TURN, assignment_number, binary_number, call_number,
    declarator_number, known_number, length_of, object_number, step_number, unary_number,
};

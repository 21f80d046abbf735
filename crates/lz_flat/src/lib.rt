//! Flat programs and straight programs: what their instructions do, the steps and runs of a flat
//! program, and when a straight program fails.
#![tactic(auto)]

mod build;
mod evaluate;
mod laws;
mod perform;
mod program;
mod step;
mod straight;

pub use build::{
    binary_expr, choose_expr, convert_expr, copy_expr, copy_instr, copy_spot, element_expr,
    unary_expr,
};
pub use laws::{effects_rest_on_names, groups_run_through, inputs_drive_a_run, steps_run_places};
pub use perform::{Halt, perform_instr};
pub use program::{
    Flat, FlatExpr, FlatThread, FlatThreads, Guarded, GuardedList, Instr, Marked, Spot, Straight,
};
pub use step::{Stepped, flat_step};
pub use straight::straight_run;

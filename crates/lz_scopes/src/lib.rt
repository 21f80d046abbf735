//! What the names and the expressions of a program mean at each place of its text: types, constant expressions, known
//! names, scopes and the table of names (C99 6.2, 6.5, 6.6 and 6.7).
#![tactic(auto)]

mod arguments;
mod constant;
mod declaring;
mod entering;
mod expressions;
mod fault;
mod file;
mod meaning;
mod names;
mod place;
mod reserved;
mod signature;
mod value_types;
mod whole;

pub use arguments::{breaks_at_call, has_index, is_function_name, is_handle};
pub use constant::{Word, as_word, constant_value, is_large};
pub use declaring::{
    begin, declare, declare_one, elements, elements_behind, end, is_bad_length, is_outside,
    length_in, object_from,
};
pub use entering::{Outer, declare_param, enter, leave_function, leave_prototype};
pub use expressions::{
    can_return, chosen, is_in_thread, is_only_started, is_thread_call, type_at, type_of, wrong_call,
};
pub use fault::{Fault, Rule, TypeError};
pub use file::WholeFile;
pub use meaning::{Named, callee, is_start_at, misuse, name_at, want_at};
pub use names::{Entry, Functions, Names};
pub use place::{Counts, Place, opening};
pub use reserved::{is_taken, known};
pub use signature::Signature;
pub use value_types::{ValueType, Want, are_one_type, clash, is_refused, value_type};

//! The exact simplex: Bland's rule over whole-number tableaux.
#![tactic(auto)]

mod bland;
mod fault;
mod laws;
mod solving;

pub use fault::SolveFault;
pub use laws::{bounded_runs_find_rows, choices_follow_bland, ended_runs_are_optimal};
pub use solving::solve;

//! Rehearsals: a wiring run on one thread, each of whose events a seed chooses.
#![tactic(auto)]

mod laws;
mod numbers;
mod turns;

pub use laws::decided;
pub use turns::rehearse;

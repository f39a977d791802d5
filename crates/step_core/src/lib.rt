//! The steps of nodes that send tasks to each other over lanes: which histories are legal, and one step at a time.
#![tactic(auto)]

mod laws;
mod refusal;
mod state;
mod wiring;

pub use laws::{bounded, closed_next, progress, refused_by, tasks_counted};
pub use refusal::NotYet;
pub use state::State;
pub use wiring::{Event, Lane, Wiring};

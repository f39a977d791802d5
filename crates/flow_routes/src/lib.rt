//! Turns a flow that conserves its amounts into simple routes from the master.
#![tactic(auto)]

mod flow;
mod round;
mod serving;
mod walk;

pub use flow::{Flow, Route};
pub use serving::routes;

//! Schedules of a platform: what one is, what it completes and what none exceeds.
#![tactic(auto)]

mod breach;
mod check;
mod laws;
mod operations;
mod schedule;
mod tally;

pub use breach::{Breach, Rule};
pub use check::check_schedule;
pub use laws::ports_have_time;
pub use schedule::{Op, Schedule, Series};

//! Platforms: what a platform file says, and its times and costs in ticks.
#![tactic(auto)]

mod document;
mod fault;
mod platform;
mod reading;
mod scaling;
mod sections;
mod ticks;

pub use fault::{Field, Kind, Place, PlatformFault, Section, TimedFault};
pub use platform::{Link, Name, Node, Platform};
pub use reading::{MOST_BYTES, read_platform};
pub use scaling::timed;
pub use ticks::Timed;

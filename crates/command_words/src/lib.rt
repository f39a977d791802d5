//! The words of the command line.
#![tactic(auto)]

mod command;
mod finding;
mod reading;

pub use command::{Command, WordsFault};
pub use reading::command_in;

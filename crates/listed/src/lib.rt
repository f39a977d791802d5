//! What every crate of Steady stands on: lists as contracts see them, and the error of a call that ran out of memory.
#![tactic(auto)]

mod list;
mod memory;

pub use list::Listed;
pub use memory::NoMemory;

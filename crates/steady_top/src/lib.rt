//! Steady's top call: from the words and the bytes of the files that they name to one text or one error line.
#![tactic(auto)]

mod auditing;
mod checking;
mod fault;
mod planning;
mod reading;
mod rehearsing;
mod status;
mod top;

pub use fault::{CheckFault, ReadingFault, RunFault, TopFault};
pub use status::Status;
pub use top::{refuse, steady};

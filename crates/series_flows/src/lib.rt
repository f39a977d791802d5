//! The programme of a series, and the flows of its solutions: where tasking and scatter become one.
#![tactic(auto)]

mod fault;
mod flowing;
mod programme;
mod steadying;

pub use fault::ProgrammeFault;
pub use flowing::flows_of;
pub use programme::{prices_bound_rates, programme_of};
pub use steadying::points_are_amounts;

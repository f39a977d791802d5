//! From a solution to its routes: in how many ticks all of it is whole, and by which routes it goes.
#![tactic(auto)]

mod numbers;
mod routing;
mod weighing;

pub use numbers::{PeriodStep, Scale, TableFault};
pub use routing::{Routing, copied, routing_of};
pub use weighing::weights_of;

//! Plans as text.
#![tactic(auto)]

mod fault;
mod head;
mod laws;
mod printing;
mod reading;
mod rows;
mod walks;

pub use fault::PlanTextFault;
pub use laws::readable_texts_are_read;
pub use printing::print_plan;
pub use reading::read_plan;

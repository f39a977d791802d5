//! What a run reports, as text.
#![tactic(auto)]

mod appending;
mod batches;
mod counting;
mod report;

pub use counting::node_counts;
pub use report::{print_report, report_into, report_room};

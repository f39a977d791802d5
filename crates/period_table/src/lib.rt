//! Periodic tables: which ones fit a platform, and the schedules that they stand for.
#![tactic(auto)]

mod busy;
mod counting;
mod cutting;
mod fitting;
mod lane;
mod laws;
mod moving;
mod placed;
mod placing;
mod sums;
mod table;
mod unrolling;
mod walks;

pub use cutting::cut;
pub use fitting::{has_period, has_tasks, is_slot};
pub use laws::{cuts_keep_ports, fitting_tables_hold, table_schedules_hold};
pub use moving::are_moved;
pub use sums::{kind_within, lane_count, longest, tasks_within};
pub use table::{Piece, Slot, Table};
pub use unrolling::{UnrollFault, unroll};
pub use walks::is_route;

//! The best rate of tasking as a linear programme.
#![tactic(auto)]

mod columns;
mod laws;
mod programme;
mod rows;

pub use columns::{Column, columns_of};
pub use laws::{
    columns_are_looked_up, counts_are_feasible, points_are_steady, prices_bound_rates,
    programmes_are_bounded,
};
pub use programme::tasking_lp;

//! The best rate of a scatter as a linear programme: a master that sends each target its own stream of distinct messages, all at one
//! rate.
#![tactic(auto)]

mod columns;
mod laws;
mod programme;
mod rows;

pub use columns::{Column, columns_of};
pub use laws::{
    columns_are_looked_up, counts_are_feasible, points_are_steady, prices_bound_rates,
    programmes_are_bounded,
};
pub use programme::scatter_lp;

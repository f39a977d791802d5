//! A tableau of whole rows in one vector.
#![tactic(auto)]

mod dense;
mod pivoting;
mod row;
mod starting;

pub use dense::Dense;

//! What the programmes of both series are made of: cells by columns, rows by nodes, and look-ups of the columns' values.
#![tactic(auto)]

mod rows;

pub use rows::{push_cell, where_true};

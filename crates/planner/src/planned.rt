//! What a plan is.

use linear_program::Optimum;
use period_table::Table;

/// A platform's periodic table, and the solution of which it is made.
#[derive(Drop)]
pub struct Plan {
    /// The transfers and computations of a period.
    pub table: Table,
    /// The rates of the nodes and links, with the prices that prove them best.
    pub optimum: Optimum,
}

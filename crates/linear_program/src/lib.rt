//! Linear programmes over whole numbers, their certificates, and tableaux that are pivoted.
#![tactic(auto)]

mod certificate;
mod combine;
mod laws;
mod programme;
mod tableau;

pub use certificate::{Certificate, Optimum};
pub use combine::{combined, fitting_product};
pub use laws::{pivots_keep_solutions, prices_bound_gains, runs_keep_tableaux};
pub use programme::{Lp, Row};
pub use tableau::{PivotFault, Tableau};

//! What the nodes of a platform are to do to carry out a table.
#![tactic(auto)]

mod actor;
mod computing;
mod gathering;
mod lanes;
mod laws;
mod laying;
mod making;
mod measuring;
mod places;
mod run;
mod sending;

pub use actor::{Actor, actors};
pub use laws::{counts_hold, routes_hold, tasks_hold, wirings_hold};
pub use making::{WiringFault, wiring};
pub use run::Run;

//! Plans of whole platforms: the best rate with the prices that prove it.
#![tactic(auto)]

mod fault;
mod laws;
mod making;
mod planned;
mod planning;
mod pricing;
mod scaling;

pub use fault::PlanFault;
pub use laws::plans_are_one;
pub use making::table_of;
pub use planned::Plan;
pub use planning::plan;
pub use pricing::prices;
pub use series_routes::{PeriodStep, TableFault};

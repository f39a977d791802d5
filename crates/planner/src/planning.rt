//! The best rate, with a periodic table that reaches it.

ghost use Rattle.std.specs.Prelude.{◌≡◌, ◌≢◌, Some, IfOk, IfErr};
ghost use Rattle.period_table.specs.Best.{IsBest};
ghost use Rattle.exact_simplex.specs.Optima.{IsOptimal};
ghost use Rattle.series_flows.specs.Programmes.{programme_of};
ghost use Rattle.planner.specs.Plans.{fault_of, IsPlan};

use crate::fault::PlanFault;
use crate::making::table_of;
use crate::planned::Plan;
use crate::pricing::solution;
use period_table::fitting_tables_hold;
use platform_file::Timed;
use schedule_model::Series;
use series_flows::prices_bound_rates;
use std::alloc::Global;

/// The plan of a platform: a periodic table whose rate of `tasks / period` tasks per tick no schedule exceeds, of any resolution, length
/// and list of operations, and which its own schedules reach but for the tasks of the first `depth` periods. Of a scatter the tasks are
/// the messages that each target gets. The table is that of the solution at the end of the run by Bland's rule.
///
/// Takes the pivots of the simplex, each in a pass over the tableau of the programme, and then the time of `table_of`.
///
/// # Errors
///
/// `NoTargets` where messages have nowhere to go, `Pivot` where a pivot exceeds 2^127 - 1 in size, `Spent` where the best rate isn't
/// reached after `limit` pivots, `Period` where the period exceeds 2^100 ticks, `NoMemory` where memory runs out.
pub fn plan(alloc: Global, timed: &Timed, series: Series, limit: u64) -> Result<Plan, PlanFault>
    ensures fault { IfErr result (λ fault. fault ≢ PlanFault.NoMemory → fault_of limit timed.now series ≡ Some fault) }
    ensures plan { IfOk result (IsPlan limit timed.now series) }
    ensures optimal { IfOk result (λ plan. IsOptimal (programme_of timed.now series) plan.optimum) }
    ensures best { IfOk result (λ plan. IsBest timed.now series plan.table) }
{
    timed.known();
    prices_bound_rates();
    fitting_tables_hold();
    let optimum = solution(alloc, timed, series, limit)?;
    optimum.certificate.known();
    let table = table_of(alloc, timed, series, optimum.values.as_slice())?;
    Ok(Plan { table, optimum })
}

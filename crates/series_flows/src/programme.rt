//! The programme of a series.

ghost use Rattle.std.specs.Prelude.{◌≡◌, ◌≢◌, ℕ, ◌*◌, false, true, List, ℤ, pos, ◌≤ℤ◌, IfOk, IfErr};
ghost use Rattle.platform_file.specs.Ticks.{TimedView, IsTimed};
ghost use Rattle.schedule_model.specs.declared.schedule.Series.{Series};
ghost use Rattle.schedule_model.specs.Throughput.{IsUpperRate};
ghost use Rattle.linear_program.specs.Duality.{priced_sides, IsDualFeasible, IsBounded};
ghost use Rattle.series_flows.specs.Programmes.{programme_of, lacks_targets};

use crate::fault::ProgrammeFault;
use linear_program::Lp;
use platform_file::Timed;
use scatter_program::{
    prices_bound_rates as message_prices_bound_rates,
    programmes_are_bounded as message_programmes_are_bounded, scatter_lp,
};
use schedule_model::Series;
use std::alloc::Global;
use tasking_program::{
    prices_bound_rates as task_prices_bound_rates,
    programmes_are_bounded as task_programmes_are_bounded, tasking_lp,
};

/// Prices that cover every column of a series' programme bound the rate of every schedule that the platform can carry out: at every
/// resolution, of every length, and for every list of operations. The programme is bounded.
pub fn prices_bound_rates()
    ensures bounded { (t : TimedView) (series : Series) → IsTimed t → lacks_targets t series ≡ false → IsBounded (programme_of t series) }
    ensures rates { (t : TimedView) (series : Series) (prices : List ℤ) (scale best : ℕ) → IsTimed t → lacks_targets t series ≡ false
        → IsDualFeasible (programme_of t series) prices (pos scale) → priced_sides (programme_of t series).rows prices ≤ℤ pos best
        → IsUpperRate t series (best * t.unit) scale }
{
    task_programmes_are_bounded();
    task_prices_bound_rates();
    message_programmes_are_bounded();
    message_prices_bound_rates();
}

/// The programme whose greatest gain is the best rate of a series, in tasks or messages per tick.
///
/// # Errors
///
/// `NoTargets` where the series is a scatter and the platform has no target, `NoMemory` where memory runs out.
pub fn programme_of(alloc: Global, timed: &Timed, series: Series) -> Result<Lp, ProgrammeFault>
    ensures programme { IfOk result (λ lp. lp ≡ programme_of timed.now series) }
    ensures some_target { IfOk result (λ _. lacks_targets timed.now series ≡ false) }
    ensures fault { IfErr result (λ fault. fault ≢ ProgrammeFault.NoMemory → (fault ≡ ProgrammeFault.NoTargets) × (lacks_targets timed.now series ≡ true)) }
{
    match series {
        Series::Tasking => Ok(tasking_lp(alloc, timed)?),
        Series::Scatter if timed.platform().targets().is_empty() => Err(ProgrammeFault::NoTargets),
        Series::Scatter => Ok(scatter_lp(alloc, timed)?),
    }
}

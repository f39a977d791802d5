//! How many operations a table's schedule has.

ghost use Rattle.std.specs.Prelude.{◌≡◌, ◌+◌, ◌^◌, ◌≤◌, length, min, All, nat_lt};
ghost use Rattle.period_table.specs.Counts.{sends_below, computes_below};

use crate::lane::Lane;
use flow_routes::Route;
use schedule_model::Series;

/// The most operations that a schedule is listed with.
const MOST: u128 = 4000000;

/// How many sends the first periods have over some lanes: a batch crosses a lane in each period from its hop on. What is more than the
/// most counts as one more than that.
fn sends_within(lanes: &[Lane], periods: u64) -> u128
    requires few { periods ≤ 1000000 }
    requires bounded { All (λ lane. lane.count ≤ 2 ^ 100) lanes.now }
    ensures { result ≡ min (sends_below lanes.now periods) 4000001 }
{
    let mut sum = 0;
    for lane in lanes {
        let batches = periods.saturating_sub(u64::from(lane.hop));
        sum = (sum + u128::from(batches) * lane.count).min(MOST + 1);
    }
    sum
}

/// How many computations they have: a batch is computed at a route's end in each period from its length on. More than the most are told
/// as for sends.
fn computes_within(routes: &[Route], periods: u64) -> u128
    requires few { periods ≤ 1000000 }
    requires bounded { All (λ route. route.count ≤ 2 ^ 100) routes.now }
    ensures { result ≡ min (computes_below Series.Tasking routes.now periods) 4000001 }
{
    let mut sum = 0;
    for route in routes {
        let batches = periods.saturating_sub(route.links.len() as u64);
        sum = (sum + u128::from(batches) * route.count).min(MOST + 1);
    }
    sum
}

/// Whether the first periods have more operations than a schedule is listed with.
pub(crate) fn is_too_long(series: Series, lanes: &[Lane], routes: &[Route], periods: u64) -> bool
    requires few { periods ≤ 1000000 }
    requires lanes { All (λ lane. lane.count ≤ 2 ^ 100) lanes.now }
    requires routes { All (λ route. route.count ≤ 2 ^ 100) routes.now }
    ensures { result ≡ nat_lt 4000000 (computes_below series routes.now periods + sends_below lanes.now periods) }
{
    let computes = match series {
        Series::Tasking => computes_within(routes, periods),
        Series::Scatter => 0,
    };
    MOST < computes + sends_within(lanes, periods)
}

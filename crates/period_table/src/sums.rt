//! Sums over the routes and slots of a table, told up to one more than their bounds.

ghost use Rattle.std.specs.Prelude.{◌≡◌, ◌+◌, ◌^◌, length, min, cond, nat_eq, sum_by};
ghost use Rattle.period_table.specs.Lanes.{lanes_of};
ghost use Rattle.period_table.specs.Tables.{longest};

use crate::table::Slot;
use flow_routes::Route;

/// The most tasks of a period.
pub(crate) const MOST_TASKS: u128 = 1 << 107;

/// The most ticks of a period.
pub(crate) const MOST_TICKS: u128 = 1 << 100;

/// The tasks of all routes, or 2^107 + 1 where they are more than 2^107.
pub fn tasks_within(routes: &[Route]) -> u128
    ensures { result ≡ min (sum_by (λ route. route.count) routes.now) (2 ^ 107 + 1) }
{
    let mut sum: u128 = 0;
    for route in routes {
        sum = sum.saturating_add(route.count).min(MOST_TASKS + 1);
    }
    sum
}

/// The tasks or messages of the routes of one kind, or 2^107 + 1 where they are more than 2^107.
pub fn kind_within(routes: &[Route], kind: u32) -> u128
    ensures { result ≡ min (sum_by (λ route. cond (nat_eq route.kind kind) route.count 0) routes.now) (2 ^ 107 + 1) }
{
    let mut sum: u128 = 0;
    for route in routes {
        if route.kind == kind {
            sum = sum.saturating_add(route.count).min(MOST_TASKS + 1);
        }
    }
    sum
}

/// The number of links on the longest route, and 0 where there is none.
pub fn longest(routes: &[Route]) -> usize
    ensures { result ≡ longest routes.now }
{
    let mut most = 0;
    for route in routes {
        most = most.max(route.links.len());
    }
    most
}

/// The number of lanes: of hops of all routes.
pub fn lane_count(routes: &[Route]) -> u128
    ensures { result ≡ length (lanes_of routes.now) }
{
    let mut sum = 0;
    for route in routes {
        sum += route.links.len() as u128;
    }
    sum
}

/// The ticks of all slots.
pub(crate) fn ticks_within(slots: &[Slot]) -> u128
    ensures { result ≡ min (sum_by (λ slot. slot.duration) slots.now) (2 ^ 100 + 1) }
{
    let mut sum: u128 = 0;
    for slot in slots {
        sum = sum.saturating_add(slot.duration).min(MOST_TICKS + 1);
    }
    sum
}

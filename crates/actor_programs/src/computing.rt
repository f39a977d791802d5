//! What is computed at a node in each period.

ghost use Rattle.std.specs.Prelude.{◌≡◌, ℕ, ◌+◌, ◌^◌, ◌<◌, ◌≤◌, [], ◌∷◌, ◌++◌, OnOk, IfOk, None, length, cond, nat_eq, sum_by};
ghost use Rattle.period_table.specs.Lanes.{lanes_of};
ghost use Rattle.period_table.specs.Tables.{longest};
ghost use Rattle.actor_programs.specs.Programs.{lane_before, end_run, computes_of};

use crate::run::Run;
use flow_routes::Route;
use listed::{Listed, NoMemory};
use std::alloc::Global;

/// The last lane of a route with some lanes, before which and on which so many lanes are.
fn last_lane(hops: u64, lanes: u64) -> Option<u32>
    requires { lanes ≤ 2 ^ 32 }
    ensures { result ≡ lane_before hops lanes }
{
    if hops == 0 {
        return None;
    }
    if lanes == 0 {
        return None;
    }
    Some((lanes - 1) as u32)
}

/// Appends what is computed of a route, where it ends at the node.
fn push_route(
    out: &mut Listed<Run>,
    node: u32,
    route: &Route,
    lanes: u64,
    offset: u128,
) -> Result<(), NoMemory>
    requires few { lanes + length route.now.links ≤ 2 ^ 32 }
    requires short { length route.now.links < 2 ^ 32 }
    ensures ok { OnOk result (out.new ≡ out.old ++ cond (nat_eq route.now.end node) (end_run route.now lanes offset ∷ []) []) }
{
    if route.end != node {
        return Ok(());
    }
    let hops = route.links.len() as u64;
    out.push(Run {
        take: last_lane(hops, lanes + hops),
        lane: None,
        hop: hops as u32,
        offset,
        count: route.count,
    })
}

/// What is computed at a node in each period.
pub(crate) fn computes_of(
    alloc: Global,
    routes: &[Route],
    node: u32,
) -> Result<Listed<Run>, NoMemory>
    requires lanes { length (lanes_of routes.now) ≤ 2 ^ 32 }
    requires short { longest routes.now < 2 ^ 32 }
    requires few { sum_by (λ route. route.count) routes.now ≤ 2 ^ 107 }
    ensures { IfOk result (λ runs. runs ≡ computes_of node 0 0 routes.now) }
{
    let mut runs = Listed::new(alloc);
    let mut lanes = 0;
    let mut offset = 0;
    for route in routes {
        push_route(&mut runs, node, route, lanes, offset)?;
        lanes += route.links.len() as u64;
        offset += route.count;
    }
    Ok(runs)
}

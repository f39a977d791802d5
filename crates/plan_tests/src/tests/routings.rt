//! The routes of a scatter's solution, and for how long they have each link in use.

ghost use Rattle.std.specs.Prelude.{◌≡◌, false};
ghost use Rattle.schedule_model.specs.declared.schedule.Series.TheVariants.{Scatter};
ghost use Rattle.series_flows.specs.Programmes.{lacks_targets};
ghost use Rattle.series_flows.specs.Points.{IsPoint};
ghost use Rattle.series_routes.specs.Solutions.{IsRouting};

use crate::tests::fixtures::holds;
use crate::tests::flows::TWO_TARGETS;
use crate::tests::lent::{Told, tells_of};
use crate::tests::table_rows::{RouteRow, TO_A, are_of_routes};
use bipartite_slots::{Edge, Weights};
use planner::{Plan, plan};
use platform_file::Timed;
use ratio_core::Ratio;
use schedule_model::Series;
use series_flows::programme_of;
use series_routes::{Routing, Scale, copied, routing_of, weights_of};
use std::alloc::Global;
use std::test::Fail;

/// A message for each target in 2 ticks, the second one's by way of the first.
static ROUTES: [RouteRow; 2] = [TO_A, (2, 1, 1, &[0, 1])];

/// Both messages cross the first link and one crosses the second, for a tick each.
static EDGES: [Edge; 2] = [
    Edge {
        from: 0,
        to: 1,
        weight: 2,
    },
    Edge {
        from: 1,
        to: 2,
        weight: 1,
    },
];

fn are_weights(weights: &Weights) -> bool {
    weights.nodes == 3 && weights.edges.as_slice() == EDGES.as_slice()
}

fn tells_weights(alloc: Global, timed: &Timed, routing: &Routing) -> Result<(), Fail>
    requires { IsRouting timed.now Scatter routing.now.scale routing.now.routes }
{
    timed.known();
    let weights = weights_of(alloc, timed, routing.routes.as_slice())?;
    holds("the ticks of each link", are_weights(&weights))
}

fn tells_routing(alloc: Global, timed: &Timed, routing: &Routing) -> Result<(), Fail>
    requires { IsRouting timed.now Scatter routing.now.scale routing.now.routes }
{
    let wanted = Scale { ticks: 2, times: 1 };
    holds("the scale of two targets", routing.scale == wanted)?;
    let routes = routing.routes.as_slice();
    holds("the routes of two targets", are_of_routes(routes, &ROUTES))?;
    tells_weights(alloc, timed, routing)
}

fn tells_values(alloc: Global, timed: &Timed, values: &[Ratio]) -> Result<(), Fail>
    requires targets { lacks_targets timed.now Scatter ≡ false }
    requires point { IsPoint timed.now Scatter values.now }
{
    let routing = routing_of(alloc, timed, Series::Scatter, values)?;
    tells_routing(alloc, timed, &routing)
}

/// The one best solution has a message for each target in 2 ticks.
fn tells_plan(alloc: Global, timed: &Timed, plan: &Plan) -> Result<(), Fail>
    requires targets { lacks_targets timed.now Scatter ≡ false }
    requires point { IsPoint timed.now Scatter plan.now.optimum.values }
{
    let values = plan.optimum.values.as_slice();
    holds(
        "the solution of two targets",
        values == [Ratio::new(1, 2); 4].as_slice(),
    )?;
    tells_values(alloc, timed, values)
}

fn tells_scatter(alloc: Global, timed: &Timed) -> Result<(), Fail>
    requires { lacks_targets timed.now Scatter ≡ false }
{
    tells_plan(alloc, timed, &plan(alloc, timed, Series::Scatter, 100)?)
}

pub(crate) fn tells_routes(alloc: Global, timed: &Timed) -> Result<(), Fail> {
    programme_of(alloc, timed, Series::Scatter)?;
    tells_scatter(alloc, timed)
}

#[test]
fn routes_a_message_to_each_target(rt: HostRuntime) -> Result<(), Fail> {
    tells_of(rt.alloc(), TWO_TARGETS, Told::Routes)
}

fn copies(alloc: Global, numbers: &[u32]) -> Result<bool, Fail> {
    Ok(copied(alloc, numbers)?.as_slice() == numbers)
}

#[test]
fn copies_numbers(rt: HostRuntime) -> Result<(), Fail> {
    holds("some numbers", copies(rt.alloc(), &[3, 1, 2])?)
}

//! Routes of flows that were worked out by hand.

ghost use Rattle.std.specs.Prelude.{◌≡◌, [], ◌∷◌, IfOk};
ghost use Rattle.flow_routes.specs.Flows.{IsFlow};

use crate::tests::comparing::fails_at;
use crate::tests::models::listed_of;
use flow_routes::{Flow, Route, routes};
use std::alloc::Global;
use std::test::Fail;

/// A flow from node 0 over the links 2 to 1, 0 to 1 and 1 to 2.
fn flow(alloc: Global, amounts: &[u128; 3], demands: &[u128; 3]) -> Result<Flow, Fail>
    ensures { IfOk result (λ flow. flow ≡ record { nodes = 3; master = 0; links = (2, 1) ∷ ((0, 1) ∷ ((1, 2) ∷ [])); amounts = amounts.now; demands = demands.now }) }
{
    Ok(Flow {
        nodes: 3,
        master: 0,
        links: listed_of(alloc, &[(2, 1), (0, 1), (1, 2)])?,
        amounts: listed_of(alloc, amounts)?,
        demands: listed_of(alloc, demands)?,
    })
}

/// A route's links, its end, its count and its kind.
type RouteRow = (&'static [u32], u32, u128, u32);

fn is_route(route: &Route, row: &RouteRow) -> bool {
    route.links.as_slice() == row.0
        && route.end == row.1
        && route.count == row.2
        && route.kind == row.3
}

fn are_routes(routes: &[Route], rows: &[RouteRow]) -> Result<(), Fail> {
    if routes.len() != rows.len() {
        return fails_at(&rows);
    }
    for (route, row) in routes.iter().zip(rows) {
        if !is_route(route, row) {
            return fails_at(row);
        }
    }
    Ok(())
}

fn splits(alloc: Global, flow: &Flow, rows: &[RouteRow]) -> Result<(), Fail>
    requires { IsFlow flow.now }
{
    are_routes(routes(alloc, flow, 0)?.as_slice(), rows)
}

const WITHOUT_A_CYCLE: [RouteRow; 2] = [(&[1], 1, 1, 0), (&[1, 2], 2, 1, 0)];

#[test]
fn cancels_a_cycle(rt: HostRuntime) -> Result<(), Fail> {
    let alloc = rt.alloc();
    splits(
        alloc,
        &flow(alloc, &[1, 2, 2], &[0, 1, 1])?,
        &WITHOUT_A_CYCLE,
    )
}

const WITH_A_MASTER: [RouteRow; 3] = [(&[], 0, 4, 0), (&[1], 1, 3, 0), (&[1, 2], 2, 2, 0)];

#[test]
fn keeps_a_master_its_own(rt: HostRuntime) -> Result<(), Fail> {
    let alloc = rt.alloc();
    splits(alloc, &flow(alloc, &[0, 5, 2], &[4, 3, 2])?, &WITH_A_MASTER)
}

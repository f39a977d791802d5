//! For how long the links are in use.

ghost use Rattle.std.specs.Prelude.{◌≡◌, ℕ, ◌+◌, ◌*◌, ◌^◌, ◌<◌, All, length, count_by, get_or, nat_eq, IfOk};
ghost use Rattle.schedule_model.specs.Operations.{cost_of};
ghost use Rattle.flow_routes.specs.Routes.{carried};
ghost use Rattle.series_routes.specs.Loads.{weights_of};

use bipartite_slots::{Edge, Weights};
use flow_routes::Route;
use listed::{Listed, NoMemory};
use platform_file::Timed;
use std::alloc::Global;

/// The most links that a platform has.
const LINKS: usize = 128;

/// Adds what a route carries over its links.
fn add_route(loads: &mut [u128], route: &Route)
    requires size { length loads.old ≡ 128 }
    requires links { All (λ link. link < 128) route.now.links }
    requires room { (link : ℕ) → link < 128 → get_or loads.old link 0 + count_by (nat_eq link) route.now.links * route.now.count < 2 ^ 128 }
    ensures size { length loads.new ≡ 128 }
    ensures loads { (link : ℕ) → link < 128
        → get_or loads.new link 0 ≡ get_or loads.old link 0 + count_by (nat_eq link) route.now.links * route.now.count }
{
    for link in route.links.as_slice() {
        loads[*link as usize] += route.count;
    }
}

/// What some routes carry over each link.
fn loads_of(routes: &[Route]) -> [u128; LINKS]
    requires links { All (λ route. All (λ link. link < 128) route.links) routes.now }
    requires room { (link : ℕ) → link < 128 → carried link routes.now < 2 ^ 128 }
    ensures loads { (link : ℕ) → link < 128 → get_or result link 0 ≡ carried link routes.now }
{
    let mut loads = [0; LINKS];
    for route in routes {
        add_route(&mut loads, route);
    }
    loads
}

/// For how long some routes have each link in use, as weights from its sender to its receiver.
pub fn weights_of(alloc: Global, timed: &Timed, routes: &[Route]) -> Result<Weights, NoMemory>
    requires links { All (λ route. All (λ link. link < 128) route.links) routes.now }
    requires room { (link : ℕ) → link < 128 → carried link routes.now < 2 ^ 128 }
    requires time { (link : ℕ) → link < 128 → cost_of timed.now link * carried link routes.now < 2 ^ 128 }
    ensures { IfOk result (λ weights. weights ≡ weights_of timed.now routes.now) }
{
    timed.known();
    let loads = loads_of(routes);
    let links = timed.platform().links();
    let mut edges = Listed::new(alloc);
    for link in 0..links.len() {
        edges.push(Edge {
            from: links[link].from(),
            to: links[link].to(),
            weight: u128::from(timed.cost(link as u32)) * loads[link],
        })?;
    }
    Ok(Weights {
        nodes: timed.platform().nodes().len() as u32,
        edges,
    })
}

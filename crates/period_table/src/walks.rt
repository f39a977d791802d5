//! Which routes are simple walks from a master to where their tasks are used.

ghost use Rattle.std.specs.Prelude.{◌≡◌, ◌<◌, true, All, length, nat_eq};
ghost use Rattle.std.specs.List.{IsDistinct};
ghost use Rattle.schedule_model.specs.Operations.{sender_of, receiver_of};
ghost use Rattle.period_table.specs.Tables.{IsWalk, IsRoute, EndsWell, first_node, nodes_on};

use flow_routes::Route;
use platform_file::Timed;
use schedule_model::Series;

/// The most nodes that a platform has.
const NODES: usize = 32;

/// The most tasks that a route or a piece carries.
pub(crate) const MOST_CARRIED: u128 = 1 << 100;

/// The node that a link leaves.
fn sender(timed: &Timed, link: u32) -> u32
    requires { link < length timed.now.platform.links }
    ensures value { result ≡ sender_of timed.now link }
    ensures exists { result < length timed.now.platform.nodes }
{
    timed.known();
    timed.platform().links()[link as usize].from()
}

/// The node that a link enters.
fn receiver(timed: &Timed, link: u32) -> u32
    requires { link < length timed.now.platform.links }
    ensures value { result ≡ receiver_of timed.now link }
    ensures exists { result < length timed.now.platform.nodes }
{
    timed.known();
    timed.platform().links()[link as usize].to()
}

/// Whether each link exists, enters no master, and enters the node from which the walk goes on.
fn is_walk(timed: &Timed, links: &[u32], end: u32) -> bool
    ensures yes { result ≡ true → IsWalk timed.now links.now end }
    ensures no { IsWalk timed.now links.now end → result ≡ true }
{
    let mut next = end;
    for k in (0..links.len()).rev() {
        let link = links[k];
        if link as usize >= timed.platform().links().len() {
            return false;
        }
        let to = receiver(timed, link);
        if to != next || timed.platform().is_master(to) {
            return false;
        }
        next = sender(timed, link);
    }
    true
}

/// Where a walk begins.
fn first_node(timed: &Timed, links: &[u32], end: u32) -> u32
    requires walk { IsWalk timed.now links.now end }
    requires end { end < length timed.now.platform.nodes }
    ensures value { result ≡ first_node timed.now links.now end }
    ensures exists { result < length timed.now.platform.nodes }
{
    match links.first() {
        Some(link) => sender(timed, *link),
        None => end,
    }
}

/// Whether no node is twice on a walk.
fn is_simple(timed: &Timed, links: &[u32], end: u32) -> bool
    requires walk { IsWalk timed.now links.now end }
    requires end { end < length timed.now.platform.nodes }
    ensures yes { result ≡ true → IsDistinct nat_eq (nodes_on timed.now links.now end) }
    ensures no { IsDistinct nat_eq (nodes_on timed.now links.now end) → result ≡ true }
{
    timed.known();
    let mut seen = [false; NODES];
    seen[end as usize] = true;
    for k in (0..links.len()).rev() {
        let from = sender(timed, links[k]) as usize;
        if seen[from] {
            return false;
        }
        seen[from] = true;
    }
    true
}

/// Whether a route ends where its tasks are used: at a node with a time, or at the target of its kind.
fn ends_well(timed: &Timed, series: Series, route: &Route) -> bool
    ensures yes { result ≡ true → EndsWell timed.now series route.now }
    ensures no { EndsWell timed.now series route.now → result ≡ true }
    ensures exists { result ≡ true → route.now.end < length timed.now.platform.nodes }
{
    timed.known();
    let platform = timed.platform();
    match series {
        Series::Tasking => {
            route.kind == 0
                && (route.end as usize) < platform.nodes().len()
                && timed.time(route.end).is_some()
        }
        Series::Scatter => {
            (route.kind as usize) < platform.targets().len()
                && route.end == platform.targets()[route.kind as usize]
        }
    }
}

/// Whether a route is a simple walk from a master to where its tasks are used, and carries from 1 to 2^100 of them.
///
/// Takes time in the number of its links.
pub fn is_route(timed: &Timed, series: Series, route: &Route) -> bool
    ensures yes { result ≡ true → IsRoute timed.now series route.now }
    ensures no { IsRoute timed.now series route.now → result ≡ true }
{
    let links = route.links.as_slice();
    1 <= route.count
        && route.count <= MOST_CARRIED
        && ends_well(timed, series, route)
        && is_walk(timed, links, route.end)
        && is_simple(timed, links, route.end)
        && timed
            .platform()
            .is_master(first_node(timed, links, route.end))
}

/// Whether all of some routes are such walks.
pub(crate) fn are_routes(timed: &Timed, series: Series, routes: &[Route]) -> bool
    ensures yes { result ≡ true → All (IsRoute timed.now series) routes.now }
    ensures no { All (IsRoute timed.now series) routes.now → result ≡ true }
{
    for route in routes {
        if !is_route(timed, series, route) {
            return false;
        }
    }
    true
}

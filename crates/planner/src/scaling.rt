//! A table's numbers, scaled up and divided by their common factor.

ghost use Rattle.std.specs.Prelude.{◌≡◌, ◌*◌, ◌^◌, ◌<◌, ◌≤◌, All, length, map, IfOk};
ghost use Rattle.planner.specs.Scales.{factor_with, part_numbers, common_factor, scaled_route, scaled_part};

use bipartite_slots::SlotPart;
use flow_routes::Route;
use listed::{Listed, NoMemory};
use platform_file::Timed;
use ratio_core::gcd;
use series_routes::copied;
use std::alloc::Global;

/// The greatest common divisor of a number and of the scaled counts of some routes.
fn factor_of_routes(start: u128, times: u128, routes: &[Route]) -> u128
    requires { All (λ route. route.count * times < 2 ^ 128) routes.now }
    ensures { result ≡ factor_with start (map (λ route. route.count * times) routes.now) }
{
    let mut common = start;
    for route in routes {
        common = gcd(common, route.count * times);
    }
    common
}

/// The greatest common divisor of a number and of those of a part.
fn factor_of_part(timed: &Timed, start: u128, times: u128, part: &SlotPart) -> u128
    requires exist { All (λ link. link < length timed.now.platform.links) part.now.edges }
    requires short { part.now.duration * times < 2 ^ 128 }
    ensures { result ≡ factor_with start (part_numbers timed.now times part.now) }
{
    let duration = part.duration * times;
    let mut common = gcd(start, duration);
    for link in part.edges.as_slice() {
        common = gcd(common, duration / u128::from(timed.cost(*link)));
    }
    common
}

/// The greatest number that divides a period, the counts of its routes and the numbers of its parts, where all are so many times as much.
pub(crate) fn common_factor(
    timed: &Timed,
    times: u128,
    ticks: u128,
    routes: &[Route],
    parts: &[SlotPart],
) -> u128
    requires period { ticks * times < 2 ^ 128 }
    requires routes { All (λ route. route.count * times < 2 ^ 128) routes.now }
    requires exist { All (λ part. All (λ link. link < length timed.now.platform.links) part.edges) parts.now }
    requires parts { All (λ part. part.duration * times < 2 ^ 128) parts.now }
    ensures { result ≡ common_factor timed.now times ticks routes.now parts.now }
{
    let mut common = factor_of_routes(ticks * times, times, routes);
    for part in parts {
        common = factor_of_part(timed, common, times, part);
    }
    common
}

/// The routes, each with so many times its count, divided by a number.
pub(crate) fn scaled_routes(
    alloc: Global,
    routes: &[Route],
    times: u128,
    divisor: u128,
) -> Result<Listed<Route>, NoMemory>
    requires some { 1 ≤ divisor }
    requires short { All (λ route. route.count * times < 2 ^ 128) routes.now }
    ensures { IfOk result (λ list. list ≡ map (scaled_route times divisor) routes.now) }
{
    let mut list = Listed::new(alloc);
    for route in routes {
        list.push(Route {
            links: copied(alloc, route.links.as_slice())?,
            end: route.end,
            count: route.count * times / divisor,
            kind: route.kind,
        })?;
    }
    Ok(list)
}

/// The parts, each so many times as long, divided by a number.
pub(crate) fn scaled_parts(
    alloc: Global,
    parts: &[SlotPart],
    times: u128,
    divisor: u128,
) -> Result<Listed<SlotPart>, NoMemory>
    requires some { 1 ≤ divisor }
    requires short { All (λ part. part.duration * times < 2 ^ 128) parts.now }
    ensures { IfOk result (λ list. list ≡ map (scaled_part times divisor) parts.now) }
{
    let mut list = Listed::new(alloc);
    for part in parts {
        list.push(SlotPart {
            duration: part.duration * times / divisor,
            edges: copied(alloc, part.edges.as_slice())?,
        })?;
    }
    Ok(list)
}

//! The routes of a solution.

ghost use Rattle.std.specs.Prelude.{◌≡◌, ℕ, ◌<◌, ◌≤◌, ◌++◌, ◌⊎◌, All, length, false, pos, ◌*ℤ◌, Err, IfOk, IfErr, OnOk};
ghost use Rattle.exact_simplex.specs.Optima.{first_terms};
ghost use Rattle.flow_routes.specs.Flows.{IsFlow};
ghost use Rattle.linear_program.specs.Programmes.{gain_value};
ghost use Rattle.series_flows.specs.Programmes.{programme_of, lacks_targets};
ghost use Rattle.series_routes.specs.Numbers.{scale_of};
ghost use Rattle.series_flows.specs.Points.{IsPoint};
ghost use Rattle.series_routes.specs.Routings.{tasks_of_kind, AreRoutesBelow, IsRoutedIn};
ghost use Rattle.series_routes.specs.Solutions.{IsRouting};

use crate::numbers::{Scale, TableFault, common_cost, common_denominator, product};
use flow_routes::{Flow, Route, routes};
use listed::{Listed, NoMemory};
use platform_file::Timed;
use ratio_core::{Ratio, multiples_are_least};
use schedule_model::Series;
use series_flows::{flows_of, points_are_amounts};
use std::alloc::Global;

/// The routes of a solution, kind after kind, and the whole numbers by which it is scaled.
#[derive(Drop)]
pub struct Routing {
    /// In how many ticks the routes carry their counts, and how many times as long these have to last.
    pub scale: Scale,
    /// The routes, with their counts in the scale's ticks.
    pub routes: Listed<Route>,
}

/// A copy of some numbers.
pub fn copied(alloc: Global, numbers: &[u32]) -> Result<Listed<u32>, NoMemory>
    ensures { IfOk result (λ list. list ≡ numbers.now) }
{
    let mut list = Listed::new(alloc);
    for number in numbers {
        list.push(*number)?;
    }
    Ok(list)
}

/// Appends copies of some routes.
fn push_copies(alloc: Global, routes: &mut Listed<Route>, own: &[Route]) -> Result<(), NoMemory>
    ensures { OnOk result (routes.new ≡ routes.old ++ own.now) }
{
    for route in own {
        routes.push(Route {
            links: copied(alloc, route.links.as_slice())?,
            end: route.end,
            count: route.count,
            kind: route.kind,
        })?;
    }
    Ok(())
}

/// The routes of some flows, one for each kind, kind after kind.
fn routes_of(alloc: Global, flows: &[Flow]) -> Result<Listed<Route>, NoMemory>
    requires flows { All IsFlow flows.now }
    requires few { length flows.now ≤ 8 }
    ensures { IfOk result (λ list. (flow : ℕ → Flow) → flows.now ≡ first_terms flow (length flows.now) → AreRoutesBelow flow (length flows.now) list) }
{
    let mut list = Listed::new(alloc);
    for kind in 0..flows.len() {
        let own = routes(alloc, &flows[kind], kind as u32)?;
        push_copies(alloc, &mut list, own.as_slice())?;
    }
    Ok(list)
}

/// The routes of a solution and its scale: in the least number of ticks in which all values are whole, the routes of its flows from the
/// master, as many times as long as the costs of the links in use need for whole tasks.
///
/// Takes a pass over the values for each kind, and the time of the routes.
///
/// # Errors
///
/// `Period` where the ticks times this number exceed 2^100, `NoMemory` where memory runs out.
pub fn routing_of(
    alloc: Global,
    timed: &Timed,
    series: Series,
    values: &[Ratio],
) -> Result<Routing, TableFault>
    requires targets { lacks_targets timed.now series ≡ false }
    requires point { IsPoint timed.now series values.now }
    ensures routed { IfOk result (λ r. IsRoutedIn timed.now series values.now r.scale r.routes) }
    ensures routing { IfOk result (λ r. IsRouting timed.now series r.scale r.routes) }
    ensures gain { IfOk result
        (λ r. (p : IsPoint timed.now series values.now)
        → pos p.den *ℤ pos (tasks_of_kind 0 r.routes) ≡ pos r.scale.ticks *ℤ gain_value (programme_of timed.now series) p.point) }
    ensures fault { IfErr result (λ fault. (fault ≡ TableFault.NoMemory) ⊎ (scale_of timed.now series values.now ≡ Err fault)) }
{
    timed.known();
    points_are_amounts();
    multiples_are_least();
    let ticks = common_denominator(values)?;
    let flows = flows_of(alloc, timed, series, values, ticks)?;
    let times = common_cost(timed, flows.as_slice())?;
    product(ticks, times)?;
    let routes = routes_of(alloc, flows.as_slice())?;
    let scale = Scale { ticks, times };
    Ok(Routing { scale, routes })
}

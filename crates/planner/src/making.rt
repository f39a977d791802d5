//! Periodic tables of solutions.

ghost use Rattle.std.specs.Prelude.{◌≡◌, ℕ, ◌-◌, ◌*◌, ◌≤◌, ◌⊎◌, false, Err, pos, ◌*ℤ◌, IfOk, IfErr};
ghost use Rattle.bipartite_slots.specs.Parts.{AreParts};
ghost use Rattle.schedule_model.specs.Validity.{IsValid, completed};
ghost use Rattle.linear_program.specs.Programmes.{gain_value};
ghost use Rattle.period_table.specs.Tables.{Fits, KeepsPorts};
ghost use Rattle.period_table.specs.TableSchedules.{table_schedule};
ghost use Rattle.series_flows.specs.Programmes.{programme_of, lacks_targets};
ghost use Rattle.series_routes.specs.Numbers.{scale_of};
ghost use Rattle.series_flows.specs.Points.{IsPoint};
ghost use Rattle.series_routes.specs.Solutions.{IsRouting};
ghost use Rattle.planner.specs.Solutions.{IsSolution};
ghost use Rattle.series_routes.specs.Loads.{weights_of};
ghost use Rattle.planner.specs.Making.{AreFirstParts, table_with, IsTableOf};

use crate::scaling::{common_factor, scaled_parts, scaled_routes};
use bipartite_slots::{SlotPart, slots};
use flow_routes::Route;
use listed::NoMemory;
use period_table::{Table, cut, cuts_keep_ports, kind_within, longest, table_schedules_hold};
use platform_file::Timed;
use ratio_core::Ratio;
use schedule_model::Series;
use series_routes::{Scale, TableFault, routing_of, weights_of};
use std::alloc::Global;

/// The table of some routes and parts, in lowest terms.
fn table_with(
    alloc: Global,
    timed: &Timed,
    series: Series,
    scale: Scale,
    routes: &[Route],
    parts: &[SlotPart],
) -> Result<Table, NoMemory>
    requires { IsSolution timed.now series scale routes.now parts.now }
    ensures value { IfOk result (λ table. table ≡ table_with timed.now scale routes.now parts.now) }
    ensures fits { IfOk result (Fits timed.now series) }
    ensures ports { IfOk result (KeepsPorts timed.now series) }
{
    timed.known();
    cuts_keep_ports();
    let _ = series;
    let Scale { ticks, times } = scale;
    let divisor = common_factor(timed, times, ticks, routes, parts);
    let routes = scaled_routes(alloc, routes, times, divisor)?;
    let parts = scaled_parts(alloc, parts, times, divisor)?;
    let slots = cut(alloc, timed, routes.as_slice(), parts.as_slice())?;
    Ok(Table {
        period: ticks * times / divisor,
        tasks: kind_within(routes.as_slice(), 0),
        depth: longest(routes.as_slice()) as u32,
        routes,
        slots,
    })
}

/// The parts into which a period is split, by how long the routes have each link in use.
fn parts_of(
    alloc: Global,
    timed: &Timed,
    series: Series,
    scale: Scale,
    routes: &[Route],
) -> Result<Vec<SlotPart>, NoMemory>
    requires { IsRouting timed.now series scale routes.now }
    ensures parts { IfOk result (λ parts. AreParts (weights_of timed.now routes.now) scale.ticks parts.items) }
    ensures chosen { IfOk result (λ parts. AreFirstParts timed.now scale.ticks routes.now parts.items) }
{
    timed.known();
    let _ = series;
    let weights = weights_of(alloc, timed, routes)?;
    slots(alloc, &weights, scale.ticks)
}

/// The periodic table of a solution: in the least number of ticks in which all values are whole, the routes of its flows from the master,
/// and the parts into which what they send is split; as many times as long as the costs of the links in use need for whole tasks, and
/// divided by the common factor of all its numbers.
///
/// Its rate of `tasks / period` tasks per tick is what the values gain, it fits, and its periods one after another are a valid schedule,
/// which completes the tasks of all periods but the first `depth`. Takes the time of the routes and of the split into parts.
///
/// # Errors
///
/// `Period` where the period before the division exceeds 2^100 ticks, `NoMemory` where memory runs out.
pub fn table_of(
    alloc: Global,
    timed: &Timed,
    series: Series,
    values: &[Ratio],
) -> Result<Table, TableFault>
    requires targets { lacks_targets timed.now series ≡ false }
    requires point { IsPoint timed.now series values.now }
    ensures made { IfOk result (IsTableOf timed.now series values.now) }
    ensures fault { IfErr result (λ fault. (fault ≡ TableFault.NoMemory) ⊎ (scale_of timed.now series values.now ≡ Err fault)) }
    ensures fits { IfOk result (Fits timed.now series) }
    ensures ports { IfOk result (KeepsPorts timed.now series) }
    ensures rate { IfOk result
        (λ table. (p : IsPoint timed.now series values.now)
        → pos table.tasks *ℤ pos p.den ≡ gain_value (programme_of timed.now series) p.point *ℤ pos table.period) }
    ensures valid { IfOk result (λ table. (n : ℕ) → IsValid timed.now series (table_schedule timed.now series table n)) }
    ensures completes { IfOk result
        (λ table. (n : ℕ) → (n - table.depth) * table.tasks ≤ completed timed.now series (table_schedule timed.now series table n)) }
{
    timed.known();
    table_schedules_hold();
    let routing = routing_of(alloc, timed, series, values)?;
    let routes = routing.routes.as_slice();
    let parts = parts_of(alloc, timed, series, routing.scale, routes)?;
    Ok(table_with(alloc, timed, series, routing.scale, routes, &parts)?)
}

//! The schedule of a table.

ghost use Rattle.std.specs.Prelude.{◌≡◌, ◌≤◌, length, map, IfOk, IfErr};
ghost use Rattle.period_table.specs.Unrolled.{IsUnrollFault};
ghost use Rattle.period_table.specs.Tables.{Fits};
ghost use Rattle.period_table.specs.Lanes.{lanes_of};
ghost use Rattle.period_table.specs.TableSchedules.{table_schedule, ops_below, in_order};

use crate::busy::busy_slots;
use crate::counting::is_too_long;
use crate::lane::{Lane, lanes_of};
use crate::placed::{Placed, put_in_order};
use crate::placing::place_period;
use crate::table::Table;
use listed::{Listed, NoMemory};
use platform_file::Timed;
use schedule_model::{Op, Schedule, Series};
use std::alloc::Global;

/// Why a table has no listed schedule.
#[derive(Clone, Copy, Debug, PartialEq, Eq)]
pub enum UnrollFault {
    /// It would have more than 4,000,000 operations.
    TooLong,
    /// Memory ran out.
    NoMemory,
}

impl From<NoMemory> for UnrollFault {
    ghost use Rattle.std.specs.Prelude.{◌≡◌};
    ghost use Rattle.period_table.specs.declared.unrolling.UnrollFault.TheVariants.{NoMemory as OutOfMemory};

    ghost from_gives = { λ _ fault. fault ≡ OutOfMemory };

    fn from(_error: NoMemory) -> UnrollFault {
        UnrollFault::NoMemory
    }
}

/// The operations alone.
fn operations_of(alloc: Global, placed: &[Placed]) -> Result<Listed<Op>, NoMemory>
    ensures { IfOk result (λ ops. ops ≡ map (λ p. p.op) placed.now) }
{
    let mut ops = Listed::new(alloc);
    for item in placed {
        ops.push(item.op())?;
    }
    Ok(ops)
}

/// The operations of the first periods, in the order of a schedule.
fn placed_in(
    alloc: Global,
    timed: &Timed,
    series: Series,
    table: &Table,
    lanes: &[Lane],
    periods: u64,
) -> Result<Vec<Placed>, NoMemory>
    requires fits { Fits timed.now series table.now }
    requires few { periods ≤ 1000000 }
    requires lanes { lanes.now ≡ lanes_of table.now.routes }
    requires short { length (ops_below timed.now series table.now periods) ≤ 4000000 }
    ensures { IfOk result (λ placed. placed.items ≡ in_order (ops_below timed.now series table.now periods)) }
{
    timed.known();
    let busy = busy_slots(alloc, table.slots.as_slice())?;
    let mut placed = Vec::new(alloc);
    for period in 0..periods {
        place_period(
            &mut placed,
            timed,
            series,
            table,
            lanes,
            busy.as_slice(),
            period,
        )?;
    }
    put_in_order(&mut placed);
    Ok(placed)
}

/// The schedule of some operations over some periods.
fn schedule_of(
    alloc: Global,
    timed: &Timed,
    series: Series,
    table: &Table,
    periods: u64,
    placed: &[Placed],
) -> Result<Schedule, NoMemory>
    requires fits { Fits timed.now series table.now }
    requires few { periods ≤ 1000000 }
    requires placed { placed.now ≡ in_order (ops_below timed.now series table.now periods) }
    ensures { IfOk result (λ schedule. schedule ≡ table_schedule timed.now series table.now periods) }
{
    timed.known();
    let _ = series;
    let ops = operations_of(alloc, placed)?;
    Ok(Schedule {
        ticks_per_unit: timed.unit(),
        length: u128::from(periods) * table.period,
        ops,
    })
}

/// The schedule of the first periods, which isn't too long.
fn laid_out(
    alloc: Global,
    timed: &Timed,
    series: Series,
    table: &Table,
    lanes: &[Lane],
    periods: u64,
) -> Result<Schedule, NoMemory>
    requires fits { Fits timed.now series table.now }
    requires few { periods ≤ 1000000 }
    requires lanes { lanes.now ≡ lanes_of table.now.routes }
    requires short { length (ops_below timed.now series table.now periods) ≤ 4000000 }
    ensures { IfOk result (λ schedule. schedule ≡ table_schedule timed.now series table.now periods) }
{
    let placed = placed_in(alloc, timed, series, table, lanes, periods)?;
    schedule_of(alloc, timed, series, table, periods, &placed)
}

/// The schedule of the first periods of a table: batch after batch goes over its routes, each a hop a period.
///
/// It is counted before anything is laid out, so that `TooLong` comes at once; then it takes the time of a sort.
pub fn unroll(
    alloc: Global,
    timed: &Timed,
    series: Series,
    table: &Table,
    periods: u64,
) -> Result<Schedule, UnrollFault>
    requires fits { Fits timed.now series table.now }
    requires few { periods ≤ 1000000 }
    ensures schedule { IfOk result (λ schedule. schedule ≡ table_schedule timed.now series table.now periods) }
    ensures short { IfOk result (λ _. length (ops_below timed.now series table.now periods) ≤ 4000000) }
    ensures fault { IfErr result (λ fault. IsUnrollFault timed.now series table.now periods fault) }
{
    timed.known();
    let _depth = table.depth; // read, so that its range is known: no route is longer
    let lanes = lanes_of(alloc, table.routes.as_slice())?;
    if is_too_long(series, lanes.as_slice(), table.routes.as_slice(), periods) {
        return Err(UnrollFault::TooLong);
    }
    let lanes = lanes.as_slice();
    Ok(laid_out(alloc, timed, series, table, lanes, periods)?)
}

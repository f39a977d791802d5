//! The programme.

ghost use Rattle.std.specs.Prelude.{◌≡◌, ◌<◌, ◌≤◌, ◌^◌, All, length, map, nat_abs, IfOk};
ghost use Rattle.linear_program.specs.Programmes.{IsRow};
ghost use Rattle.scatter_program.specs.Columns.{columns_of, Exists};
ghost use Rattle.scatter_program.specs.Programme.{gain_of, scatter_programme};

use crate::columns::{Column, columns_of};
use crate::rows::{Limit, push_rows, push_supplies};
use linear_program::{Lp, Row};
use listed::{Listed, NoMemory};
use platform_file::Timed;
use std::alloc::Global;

/// What a unit of a column gains: a message for every target where it is the common rate.
fn gain_of(column: Column) -> i128
    ensures { result ≡ gain_of column }
{
    match column {
        Column::Rate => 1,
        Column::Flows(_, _) => 0,
    }
}

/// What each column gains.
fn gains(alloc: Global, columns: &[Column]) -> Result<Listed<i128>, NoMemory>
    ensures value { IfOk result (λ gain. gain ≡ map gain_of columns.now) }
    ensures small { IfOk result (All (λ g. nat_abs g < 2 ^ 127)) }
{
    let mut gain = Listed::new(alloc);
    for column in columns {
        gain.push(gain_of(*column))?;
    }
    Ok(gain)
}

/// The rows: of send ports, of receive ports and, target by target, of supplies.
fn limits(alloc: Global, timed: &Timed, columns: &[Column]) -> Result<Listed<Row>, NoMemory>
    requires columns { columns.now ≡ columns_of timed.now }
    requires exist { All (Exists timed.now) columns.now }
    requires few { length columns.now ≤ 1025 }
    ensures value { IfOk result (λ rows. rows ≡ (scatter_programme timed.now).rows) }
    ensures rows { IfOk result (All (IsRow (length columns.now))) }
{
    let mut rows = Listed::new(alloc);
    push_rows(alloc, &mut rows, timed, columns, Limit::Send)?;
    push_rows(alloc, &mut rows, timed, columns, Limit::Receive)?;
    push_supplies(alloc, &mut rows, timed, columns)?;
    Ok(rows)
}

/// The programme over its columns.
fn programme_over(alloc: Global, timed: &Timed, columns: &[Column]) -> Result<Lp, NoMemory>
    requires columns { columns.now ≡ columns_of timed.now }
    requires exist { All (Exists timed.now) columns.now }
    requires few { length columns.now ≤ 1025 }
    ensures { IfOk result (λ lp. lp ≡ scatter_programme timed.now) }
{
    timed.platform().known();
    let rows = limits(alloc, timed, columns)?;
    let gain = gains(alloc, columns)?;
    Ok(Lp::new(columns.len() as u32, rows, gain))
}

/// The programme whose greatest gain is the best rate of a scatter, in messages per tick and target.
///
/// Its columns are the rate that all targets have in common and, target by target, a flow for each link that neither enters the master
/// nor leaves this target, in messages per tick. Its rows say, for each node, that its send port and its receive port are in use for at
/// most one tick in a tick, and, for each target and each node but the master, that the node sends at most as many of the target's
/// messages as it receives, less the common rate where it is that target. Source: Beaumont, Legrand and Robert's steady-state equations,
/// with "at most" in place of "equals".
///
/// There are at most 1,025 columns and 312 rows; takes one pass over the columns for each row.
pub fn scatter_lp(alloc: Global, timed: &Timed) -> Result<Lp, NoMemory>
    requires { 1 ≤ length timed.now.platform.targets }
    ensures { IfOk result (λ lp. lp ≡ scatter_programme timed.now) }
{
    let columns = columns_of(alloc, timed)?;
    programme_over(alloc, timed, columns.as_slice())
}

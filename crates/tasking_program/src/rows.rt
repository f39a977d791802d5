//! The rows of the programme.

ghost use Rattle.std.specs.Prelude.{◌≡◌, ◌<◌, ◌≤◌, ◌^◌, ◌++◌, ◌⊎◌, All, length, nat_abs, pos, IfOk, OnOk};
ghost use Rattle.linear_program.specs.Programmes.{IsRow};
ghost use Rattle.programme_rows.specs.Cells.{cells_of, AreCells};
ghost use Rattle.tasking_program.specs.Columns.{columns_of, column_at, Exists};
ghost use Rattle.tasking_program.specs.Rows.{cell_of, side_of, is_limited, row_of, rows_of};

use crate::columns::{Column, computes};
use linear_program::Row;
use listed::{Listed, NoMemory};
use platform_file::Timed;
use programme_rows::{push_cell, where_true};
use std::alloc::Global;

/// What a row keeps within bounds at a node.
#[derive(Clone, Copy, Debug, PartialEq, Eq)]
pub enum Limit {
    /// Its processor computes one task at a time.
    Compute,
    /// Its send port is open for one task at a time.
    Send,
    /// Its receive port is open for one task at a time.
    Receive,
    /// It sends and computes no more tasks than it receives.
    Supply,
}

/// By how much a node's rate counts in a node's row.
fn rate_cell(timed: &Timed, limit: Limit, node: u32, at: u32) -> i128
    requires { at < length timed.now.platform.nodes }
    ensures { result ≡ cell_of timed.now limit node (Column.Computes at) }
{
    match limit {
        Limit::Compute => where_true(at == node, timed.time(at).unwrap_or(0)),
        Limit::Supply => where_true(at == node, 1),
        Limit::Send | Limit::Receive => 0,
    }
}

/// By how much a link's flow counts in a node's row.
fn flow_cell(timed: &Timed, limit: Limit, node: u32, link: u32) -> i128
    requires { link < length timed.now.platform.links }
    ensures { result ≡ cell_of timed.now limit node (Column.Flows link) }
{
    timed.known();
    let ends = &timed.platform().links()[link as usize];
    match limit {
        Limit::Compute => 0,
        Limit::Send => where_true(ends.from() == node, timed.cost(link)),
        Limit::Receive => where_true(ends.to() == node, timed.cost(link)),
        Limit::Supply => where_true(ends.from() == node, 1) - where_true(ends.to() == node, 1),
    }
}

/// By how much a unit of a column counts in a node's row.
fn cell_of(timed: &Timed, limit: Limit, node: u32, column: Column) -> i128
    requires { Exists timed.now column }
    ensures value { result ≡ cell_of timed.now limit node column }
    ensures small { nat_abs result < 2 ^ 127 }
{
    match column {
        Column::Computes(at) => rate_cell(timed, limit, node, at),
        Column::Flows(link) => flow_cell(timed, limit, node, link),
    }
}

/// The right-hand side of a row.
fn side_of(limit: Limit) -> i128
    ensures value { result ≡ side_of limit }
    ensures side { (result ≡ pos 0) ⊎ (result ≡ pos 1) }
{
    match limit {
        Limit::Compute | Limit::Send | Limit::Receive => 1,
        Limit::Supply => 0,
    }
}

/// Whether a node has such a row.
fn is_limited(timed: &Timed, limit: Limit, node: u32) -> bool
    requires { node < length timed.now.platform.nodes }
    ensures { result ≡ is_limited timed.now limit node }
{
    match limit {
        Limit::Compute => computes(timed, node),
        Limit::Supply => !timed.platform().is_master(node),
        Limit::Send | Limit::Receive => true,
    }
}

/// The cells of a node's row that are not 0.
fn cells_of(
    alloc: Global,
    timed: &Timed,
    columns: &[Column],
    limit: Limit,
    node: u32,
) -> Result<Listed<(u32, i128)>, NoMemory>
    requires exist { All (Exists timed.now) columns.now }
    requires few { length columns.now ≤ 160 }
    ensures value { IfOk result (λ cells. cells ≡ cells_of (λ j. cell_of timed.now limit node (column_at columns.now j)) (length columns.now)) }
    ensures cells { IfOk result (AreCells (length columns.now)) }
{
    let mut cells = Listed::new(alloc);
    for column in 0..columns.len() as u32 {
        let cell = cell_of(timed, limit, node, columns[column as usize]);
        push_cell(&mut cells, column, cell)?;
    }
    Ok(cells)
}

/// A node's row.
fn row_of(
    alloc: Global,
    timed: &Timed,
    columns: &[Column],
    limit: Limit,
    node: u32,
) -> Result<Row, NoMemory>
    requires columns { columns.now ≡ columns_of timed.now }
    requires exist { All (Exists timed.now) columns.now }
    requires few { length columns.now ≤ 160 }
    ensures value { IfOk result (λ row. row ≡ row_of timed.now limit node) }
    ensures row { IfOk result (IsRow (length columns.now)) }
{
    let cells = cells_of(alloc, timed, columns, limit, node)?;
    Ok(Row::new(cells, side_of(limit)))
}

/// Appends the rows of all nodes that have such a row.
pub(crate) fn push_rows(
    alloc: Global,
    rows: &mut Listed<Row>,
    timed: &Timed,
    columns: &[Column],
    limit: Limit,
) -> Result<(), NoMemory>
    requires columns { columns.now ≡ columns_of timed.now }
    requires exist { All (Exists timed.now) columns.now }
    requires few { length columns.now ≤ 160 }
    requires rows { All (IsRow (length columns.now)) rows.old }
    ensures value { OnOk result (rows.new ≡ rows.old ++ rows_of timed.now limit) }
    ensures rows { OnOk result (All (IsRow (length columns.now)) rows.new) }
{
    timed.platform().known();
    for node in 0..timed.platform().nodes().len() as u32 {
        if is_limited(timed, limit, node) {
            rows.push(row_of(alloc, timed, columns, limit, node)?)?;
        }
    }
    Ok(())
}

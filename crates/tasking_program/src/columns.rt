//! The columns of the programme.

ghost use Rattle.std.specs.Prelude.{◌≡◌, ◌<◌, ◌≤◌, ◌++◌, All, length, IfOk, OnOk};
ghost use Rattle.programme_rows.specs.Listings.{each_where};
ghost use Rattle.tasking_program.specs.Columns.{computes, carries, columns_of, Exists};

use listed::{Listed, NoMemory};
use platform_file::Timed;
use std::alloc::Global;

/// What a column of the programme stands for.
#[derive(Clone, Copy, Debug, PartialEq, Eq)]
pub enum Column {
    /// The tasks that a node computes in a tick.
    Computes(u32),
    /// The tasks that a link carries in a tick.
    Flows(u32),
}

/// Whether a node computes.
pub(crate) fn computes(timed: &Timed, node: u32) -> bool
    requires { node < length timed.now.platform.nodes }
    ensures { result ≡ computes timed.now node }
{
    timed.time(node).is_some()
}

/// Whether a plan can use a link: it doesn't enter the master.
fn carries(timed: &Timed, link: u32) -> bool
    requires { link < length timed.now.platform.links }
    ensures { result ≡ carries timed.now link }
{
    timed.platform().known();
    let link = &timed.platform().links()[link as usize];
    !timed.platform().is_master(link.to())
}

/// Appends the columns of the nodes that compute.
fn push_rates(columns: &mut Listed<Column>, timed: &Timed) -> Result<(), NoMemory>
    ensures { OnOk result (columns.new ≡ columns.old ++ each_where (computes timed.now) Column.Computes (length timed.now.platform.nodes)) }
{
    timed.platform().known();
    for node in 0..timed.platform().nodes().len() as u32 {
        if computes(timed, node) {
            columns.push(Column::Computes(node))?;
        }
    }
    Ok(())
}

/// Appends the columns of the links that a plan can use.
fn push_flows(columns: &mut Listed<Column>, timed: &Timed) -> Result<(), NoMemory>
    ensures { OnOk result (columns.new ≡ columns.old ++ each_where (carries timed.now) Column.Flows (length timed.now.platform.links)) }
{
    timed.platform().known();
    for link in 0..timed.platform().links().len() as u32 {
        if carries(timed, link) {
            columns.push(Column::Flows(link))?;
        }
    }
    Ok(())
}

/// What the columns stand for: a rate for each node that computes, in order, and then a flow for each link that a plan can use.
pub fn columns_of(alloc: Global, timed: &Timed) -> Result<Listed<Column>, NoMemory>
    ensures value { IfOk result (λ columns. columns ≡ columns_of timed.now) }
    ensures exist { IfOk result (All (Exists timed.now)) }
    ensures few { IfOk result (λ columns. length columns ≤ 160) }
{
    timed.platform().known();
    let mut columns = Listed::new(alloc);
    push_rates(&mut columns, timed)?;
    push_flows(&mut columns, timed)?;
    Ok(columns)
}

//! The columns of the programme.

ghost use Rattle.std.specs.Prelude.{◌≡◌, ◌<◌, ◌≤◌, ◌++◌, All, length, IfOk, OnOk};
ghost use Rattle.scatter_program.specs.Columns.{carries, flows_of, flows_below, columns_of, Exists};

use listed::{Listed, NoMemory};
use platform_file::Timed;
use std::alloc::Global;

/// What a column of the programme stands for.
#[derive(Clone, Copy, Debug, PartialEq, Eq)]
pub enum Column {
    /// The messages that every target gets in a tick.
    Rate,
    /// The messages of a kind that a link carries in a tick: the link, and the kind, which is its target's place among the targets.
    Flows(u32, u32),
}

/// Whether a plan can send messages of a kind over a link: it doesn't enter the master, and it doesn't leave the target that wants them.
fn carries(timed: &Timed, kind: u32, link: u32) -> bool
    requires kind { kind < length timed.now.platform.targets }
    requires link { link < length timed.now.platform.links }
    ensures { result ≡ carries timed.now kind link }
{
    timed.platform().known();
    let ends = &timed.platform().links()[link as usize];
    let target = timed.platform().targets()[kind as usize];
    !timed.platform().is_master(ends.to()) && ends.from() != target
}

/// Appends the columns of the links that can carry messages of a kind.
fn push_flows(columns: &mut Listed<Column>, timed: &Timed, kind: u32) -> Result<(), NoMemory>
    requires { kind < length timed.now.platform.targets }
    ensures { OnOk result (columns.new ≡ columns.old ++ flows_of timed.now kind) }
{
    timed.platform().known();
    for link in 0..timed.platform().links().len() as u32 {
        if carries(timed, kind, link) {
            columns.push(Column::Flows(link, kind))?;
        }
    }
    Ok(())
}

/// Appends the columns of all flows, target by target.
fn push_all_flows(columns: &mut Listed<Column>, timed: &Timed) -> Result<(), NoMemory>
    ensures { OnOk result (columns.new ≡ columns.old ++ flows_below timed.now (length timed.now.platform.targets)) }
{
    timed.platform().known();
    for kind in 0..timed.platform().targets().len() as u32 {
        push_flows(columns, timed, kind)?;
    }
    Ok(())
}

/// What the columns stand for: the common rate, and then, target by target, a flow for each link that can carry its messages.
pub fn columns_of(alloc: Global, timed: &Timed) -> Result<Listed<Column>, NoMemory>
    ensures value { IfOk result (λ columns. columns ≡ columns_of timed.now) }
    ensures exist { IfOk result (All (Exists timed.now)) }
    ensures few { IfOk result (λ columns. length columns ≤ 1025) }
{
    timed.platform().known();
    let mut columns = Listed::new(alloc);
    columns.push(Column::Rate)?;
    push_all_flows(&mut columns, timed)?;
    Ok(columns)
}

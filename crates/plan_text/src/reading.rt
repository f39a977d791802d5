//! Reads a plan.

ghost use Rattle.std.specs.Prelude.{◌≡◌, ◌≢◌, ℕ, ◌-◌, ◌<◌, ◌≤◌, ◌^◌, true, [], All, IfOk, IfErr, MatchOption, length};
ghost use Rattle.period_table.specs.Lanes.{lanes_of};
ghost use Rattle.period_table.specs.Tables.{IsRoute, IsSlot};
ghost use Rattle.plan_text.specs.Reading.{IsNext, HasNoNext, IsEndLine, IsFaultBehind, RateAgrees, Agrees, IsDisagreement, IsReadThrough, IsPlanTextFault, IsPlanOf};

use crate::fault::PlanTextFault;
use crate::head::{Head, read_head};
use crate::rows::{read_routes, read_slots};
use flow_routes::Route;
use listed::Listed;
use period_table::{Slot, Table, are_moved, has_period, has_tasks, longest};
use platform_file::Timed;
use schedule_model::Series;
use std::alloc::Global;
use text_lines::first_line;

/// What stands behind the line of the end, which comes next.
fn behind_end(bytes: &[u8]) -> Option<&[u8]>
    ensures { MatchOption result (HasNoNext IsEndLine bytes.now) (λ rest. IsNext IsEndLine bytes.now tt rest.now) }
{
    let Some((text, rest)) = first_line(bytes) else {
        return None;
    };
    if text == b"end".as_slice() {
        Some(rest)
    } else {
        None
    }
}

/// The line behind the slots at which reading stops: that of the end, which is missing or comes before any slot, or the one behind it.
fn fault_behind(slots: &[Slot], end: u64, bytes: &[u8]) -> Option<u64>
    requires { end < 2 ^ 64 - 1 }
    ensures { MatchOption result ((slots.now ≢ []) × IsNext IsEndLine bytes.now tt []) (IsFaultBehind slots.now end bytes.now) }
{
    if slots.is_empty() {
        return Some(end);
    }
    let Some(rest) = behind_end(bytes) else {
        return Some(end);
    };
    if rest.is_empty() { None } else { Some(end + 1) }
}

/// Reads each line by itself: what the lines before the routes say, the routes and the slots.
fn read_lines(
    alloc: Global,
    timed: &Timed,
    bytes: &[u8],
) -> Result<(Head, Listed<Route>, Listed<Slot>), PlanTextFault>
    ensures read { IfOk result (λ found. IsReadThrough timed.now bytes.now found.0 found.1 found.2) }
    ensures fault { IfErr result (λ fault. IsPlanTextFault timed.now bytes.now fault) }
{
    let (head, rest) = read_head(timed, bytes)?;
    let (routes, rest) = read_routes(alloc, timed, &head, rest)?;
    let (slots, rest) = read_slots(alloc, timed, &head, routes.as_slice(), rest)?;
    let end = 7 + routes.len() as u64 + slots.len() as u64;
    match fault_behind(slots.as_slice(), end, rest) {
        Some(number) => Err(PlanTextFault::Line(number)),
        None => Ok((head, routes, slots)),
    }
}

/// Whether a table has the rate of a head.
fn is_rate(timed: &Timed, head: &Head, table: &Table) -> bool
    requires period { 1 ≤ table.now.period }
    requires num { head.now.rate.num ≤ 2 ^ 127 }
    ensures yes { result ≡ true → RateAgrees timed.now head.now.rate table.now }
    ensures no { RateAgrees timed.now head.now.rate table.now → result ≡ true }
{
    match table.rate(timed) {
        Some(rate) => rate.num() == head.num && rate.den() == head.den,
        None => false,
    }
}

/// The line of the first comparison in which a table isn't what its head says.
fn disagreement(timed: &Timed, head: &Head, table: &Table) -> Option<u64>
    requires tasks { table.now.tasks ≤ 2 ^ 107 }
    requires num { head.now.rate.num ≤ 2 ^ 127 }
    requires routes { All (IsRoute timed.now head.now.series) table.now.routes }
    requires some { table.now.slots ≢ [] }
    requires slots { All (IsSlot (lanes_of table.now.routes)) table.now.slots }
    ensures { MatchOption result (Agrees timed.now head.now table.now) (λ number. IsDisagreement timed.now head.now table.now number) }
{
    let routes = table.routes.as_slice();
    let slots = table.slots.as_slice();
    if !has_period(table) {
        return Some(3);
    }
    if !has_tasks(timed, head.series, table) {
        return Some(4);
    }
    if longest(routes) as u128 != head.depth {
        return Some(5);
    }
    if !is_rate(timed, head, table) {
        return Some(6);
    }
    if !are_moved(slots, routes) {
        return Some(7 + routes.len() as u64 + slots.len() as u64);
    }
    None
}

/// Reads a plan: exactly the texts that [`print_plan`] gives of tables that fit the platform and whose lanes have numbers of 32 bits, each
/// as its series and its table.
///
/// Takes memory for the table and for the words of a line, and a pass over the slots for each 512 lanes.
///
/// # Errors
///
/// `Line` with the line at which reading stops; `NoMemory` where memory runs out.
///
/// [`print_plan`]: crate::print_plan
pub fn read_plan(
    alloc: Global,
    timed: &Timed,
    bytes: &[u8],
) -> Result<(Series, Table), PlanTextFault>
    ensures plan { IfOk result (λ found. IsPlanOf timed.now bytes.now found.0 found.1) }
    ensures fault { IfErr result (λ fault. IsPlanTextFault timed.now bytes.now fault) }
{
    timed.known();
    let (head, routes, slots) = read_lines(alloc, timed, bytes)?;
    let depth = longest(routes.as_slice()) as u32;
    let table = Table {
        period: head.period,
        tasks: head.tasks,
        depth,
        routes,
        slots,
    };
    match disagreement(timed, &head, &table) {
        Some(line) => Err(PlanTextFault::Line(line)),
        None => Ok((head.series, table)),
    }
}

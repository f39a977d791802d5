//! Plans read and printed, and texts that are none.

use flow_routes::Route;
use period_table::{Piece, Slot, Table};
use plan_text::{PlanTextFault, print_plan, read_plan, readable_texts_are_read};
use platform_file::{Platform, Timed, read_platform, timed};
use schedule_model::Series;
use std::alloc::Global;
use std::test::Fail;

/// A master without a time, a node behind it, and one behind that; both compute in 2 and are targets; both links cost 1.
const CHAIN: &str =
    "version = 1\nmaster = 'm'\ntargets = ['a', 'b']\nnode = [{name = 'm'}, {name = 'a', time = 2}, {name = 'b', time = 2}]\n\
    link = [{from = 'm', to = 'a', cost = 1}, {from = 'a', to = 'b', cost = 1}]\n";

/// A plan of the chain for Tasking.
const CHAIN_PLAN: &str =
    "plan 1 tasking\nunit 1\nperiod 2\ntasks 2\ndepth 2\nrate 1/1\nroute 0 1 m a\nroute 1 1 m a b\nslot 1 0:1 2:1\nslot 1 1:1\nend\n";

/// A route's end, count, kind and links.
type RouteRow = (u32, u128, u32, &'static [u32]);

/// A slot's ticks and its pieces.
type SlotRow = (u128, &'static [Piece]);

/// A table's period, tasks and depth, its routes and its slots.
type TableRow = ([u128; 2], u32, &'static [RouteRow], &'static [SlotRow]);

/// A tick with the first and the last lane, and a tick with the one between them.
const SLOTS: [SlotRow; 2] = [
    (
        1,
        &[Piece { lane: 0, count: 1 }, Piece { lane: 2, count: 1 }],
    ),
    (1, &[Piece { lane: 1, count: 1 }]),
];

/// A plan of the chain: its series, its table and its text.
type PlanRow = (Series, TableRow, &'static str);

/// The first two carry one task or message to each of the two nodes behind the master, the others nothing.
static PLANS: [PlanRow; 4] = [
    (
        Series::Tasking,
        ([2, 2], 2, &[(1, 1, 0, &[0]), (2, 1, 0, &[0, 1])], &SLOTS),
        CHAIN_PLAN,
    ),
    (
        Series::Scatter,
        ([2, 1], 2, &[(1, 1, 0, &[0]), (2, 1, 1, &[0, 1])], &SLOTS),
        "plan 1 scatter\nunit 1\nperiod 2\ntasks 1\ndepth 2\nrate 1/2\nroute 0 1 m a\nroute 1 1 m a b\nslot 1 0:1 2:1\nslot 1 1:1\nend\n",
    ),
    (
        Series::Tasking,
        ([1, 0], 0, &[], &[(1, &[])]),
        "plan 1 tasking\nunit 1\nperiod 1\ntasks 0\ndepth 0\nrate 0/1\nslot 1\nend\n",
    ),
    (
        Series::Tasking,
        ([3, 0], 0, &[], &[(1, &[]), (2, &[])]),
        "plan 1 tasking\nunit 1\nperiod 3\ntasks 0\ndepth 0\nrate 0/1\nslot 1\nslot 2\nend\n",
    ),
];

fn is_route(route: &Route, row: &RouteRow) -> bool {
    route.end == row.0
        && route.count == row.1
        && route.kind == row.2
        && route.links.as_slice() == row.3
}

fn are_routes(routes: &[Route], rows: &[RouteRow]) -> bool {
    for (route, row) in routes.iter().zip(rows) {
        if !is_route(route, row) {
            return false;
        }
    }
    routes.len() == rows.len()
}

fn are_slots(slots: &[Slot], rows: &[SlotRow]) -> bool {
    for (slot, row) in slots.iter().zip(rows) {
        if slot.duration != row.0 || slot.pieces.as_slice() != row.1 {
            return false;
        }
    }
    slots.len() == rows.len()
}

fn is_table(table: &Table, row: &TableRow) -> bool {
    [table.period, table.tasks] == row.0
        && table.depth == row.1
        && are_routes(table.routes.as_slice(), row.2)
        && are_slots(table.slots.as_slice(), row.3)
}

/// Whether a table fits and its plan is this text.
fn is_printed(
    alloc: Global,
    timed: &Timed,
    series: Series,
    table: &Table,
    text: &str,
) -> Result<bool, Fail> {
    if !table.fits(timed, series) {
        return Ok(false);
    }
    Ok(print_plan(alloc, timed, series, table)?.as_str() == text)
}

fn is_plan(
    alloc: Global,
    timed: &Timed,
    series: Series,
    table: &Table,
    row: &PlanRow,
) -> Result<bool, Fail> {
    if series != row.0 || !is_table(table, &row.1) {
        return Ok(false);
    }
    is_printed(alloc, timed, series, table, row.2)
}

/// Whether the text of a row is read as its table, and this is printed as the text.
fn is_read(alloc: Global, timed: &Timed, row: &PlanRow) -> Result<bool, Fail> {
    match read_plan(alloc, timed, row.2.as_bytes()) {
        Ok((series, table)) => is_plan(alloc, timed, series, &table, row),
        Err(_) => Ok(false),
    }
}

fn reads_plans(alloc: Global, timed: &Timed) -> Result<(), Fail> {
    readable_texts_are_read();
    for row in &PLANS {
        if !is_read(alloc, timed, row)? {
            return Err(row.2.into());
        }
    }
    Ok(())
}

/// A text in the plan of the chain, another in its place, and the line at fault.
type Change = (&'static str, &'static str, u64);

static CHANGES: [Change; 34] = [
    ("plan 1 tasking", "plan 2 tasking", 1),
    ("unit 1", "unit 2", 2),
    ("period 2", "period 02", 3),
    ("period 2", "period 3", 3),
    ("period 2", "period 162259276829213363391578010288129", 3),
    ("tasks 2", "tasks 3", 4),
    ("tasks 2", "tasks", 4),
    ("depth 2", "depth 1", 5),
    ("rate 1/1", "rate 2/2", 6),
    ("rate 1/1", "rate 1/2", 6),
    ("rate 1/1", "rate 1/0", 6),
    ("rate 1/1", "rate 1", 6),
    ("route 0 1 m a", "route 1 1 m a", 7),
    ("route 0 1 m a", "route 0 0 m a", 7),
    ("route 0 1 m a", "route 0 1 m  a", 7),
    ("route 0 1 m a", "route 0 1 m a ", 7),
    ("route 0 1 m a", "route 0 1 m b", 7),
    ("route 0 1 m a", "route 0 1 m", 7),
    ("route 0 1 m a", "route 0 1", 7),
    ("route 0 1 m a", "route 0 1 x a", 7),
    ("slot 1 0:1 2:1", "slot 0 0:1 2:1", 9),
    ("slot 1 0:1 2:1", "slot 1 2:1 0:1", 9),
    ("slot 1 0:1 2:1", "slot 1 0:1 3:1", 9),
    ("slot 1 0:1 2:1", "slot 1 0:0 2:1", 9),
    ("slot 1 0:1 2:1", "slot 1 00:1 2:1", 9),
    ("slot 1 0:1 2:1", "slot 1 0:1  2:1", 9),
    ("slot 1 0:1 2:1", "slot 1 0:1 2", 9),
    ("slot 1 0:1 2:1\nslot 1 1:1\n", "", 9),
    ("slot 1 0:1 2:1\n", "slot 1 0:1 2:1\nroute 2 1 m a\n", 10),
    ("slot 1 1:1", "slot 1 1:2", 11),
    ("slot 1 1:1", "slot 1", 11),
    ("end\n", "", 11),
    ("end\n", "end", 11),
    ("end\n", "end\nend\n", 12),
];

fn fault_in(alloc: Global, timed: &Timed, text: &str) -> Option<PlanTextFault> {
    read_plan(alloc, timed, text.as_bytes()).err()
}

fn fault_of(alloc: Global, timed: &Timed, row: &Change) -> Result<Option<PlanTextFault>, Fail> {
    Ok(fault_in(
        alloc,
        timed,
        CHAIN_PLAN.replace(alloc, row.0, row.1)?.as_str(),
    ))
}

fn names_lines(alloc: Global, timed: &Timed) -> Result<(), Fail> {
    for row in &CHANGES {
        let found = fault_of(alloc, timed, row)?;
        if found != Some(PlanTextFault::Line(row.2)) {
            return Err(Fail::new(format_args!("{found:?} where {} is {}", row.0, row.1)));
        }
    }
    Ok(())
}

fn tells_of_the_chain(alloc: Global, timed: &Timed) -> Result<(), Fail> {
    reads_plans(alloc, timed)?;
    names_lines(alloc, timed)
}

fn chain(alloc: Global) -> Result<Platform, Fail> {
    Ok(read_platform(alloc, CHAIN.as_bytes())?)
}

/// The chain in ticks.
fn chain_in_ticks(alloc: Global) -> Result<Timed, Fail> {
    Ok(timed(alloc, chain(alloc)?)?)
}

#[test]
fn reads_and_prints_plans_and_names_lines_at_fault(rt: HostRuntime) -> Result<(), Fail> {
    tells_of_the_chain(rt.alloc(), &chain_in_ticks(rt.alloc())?)
}

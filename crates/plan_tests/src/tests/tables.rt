//! Tables: which routes, slots and tables are such, and what their sums and rates come to.

use crate::tests::fixtures::holds;
use crate::tests::lent::{Told, tells_of};
use crate::tests::table_rows::{
    CHAIN, CHAIN_TABLE, FINE_LONE, FIRST, IDLE, RouteRow, SCATTER_TABLE, SECOND, SlotRow, TO_A,
    TO_B, TableRow, route_of, routes_of, slot_of, table_of_row,
};
use flow_routes::Route;
use listed::Listed;
use period_table::{
    Piece, Slot, Table, has_period, has_tasks, is_route, is_slot, lane_count, longest, tasks_within,
};
use platform_file::Timed;
use schedule_model::Series;
use std::alloc::Global;
use std::test::Fail;

/// Routes, and whether each is a walk from the master to where its tasks, and where its messages, are used.
static WALKS: [(&str, RouteRow, [bool; 2]); 15] = [
    ("to b", TO_B, [true, false]),
    (
        "2^100 tasks",
        (2, 1267650600228229401496703205376, 0, &[0, 1]),
        [true, false],
    ),
    (
        "2^100 + 1 tasks",
        (2, 1267650600228229401496703205377, 0, &[0, 1]),
        [false, false],
    ),
    ("no task", (2, 0, 0, &[0, 1]), [false, false]),
    ("messages of b", (2, 1, 1, &[0, 1]), [false, true]),
    ("a kind of no target", (2, 1, 2, &[0, 1]), [false, false]),
    ("to a", TO_A, [true, true]),
    ("past its end", (1, 1, 0, &[0, 1]), [false, false]),
    ("not from the master", (2, 1, 0, &[1]), [false, false]),
    ("links that don't join", (1, 1, 0, &[1, 0]), [false, false]),
    (
        "a link that there isn't",
        (2, 1, 0, &[0, 4]),
        [false, false],
    ),
    ("twice at a node", (1, 1, 0, &[0, 1, 2]), [false, false]),
    ("back to the master", (0, 1, 0, &[0, 3]), [false, false]),
    (
        "a master that doesn't compute",
        (0, 1, 0, &[]),
        [false, false],
    ),
    ("a node that there isn't", (3, 1, 0, &[]), [false, false]),
];

/// Whether a route is a walk for tasks, and for messages.
fn is_walk(alloc: Global, timed: &Timed, row: &RouteRow) -> Result<[bool; 2], Fail> {
    let route = route_of(alloc, row)?;
    Ok([
        is_route(timed, Series::Tasking, &route),
        is_route(timed, Series::Scatter, &route),
    ])
}

fn tells_walks(alloc: Global, timed: &Timed) -> Result<(), Fail> {
    for (name, row, wanted) in &WALKS {
        holds(name, is_walk(alloc, timed, row)? == *wanted)?;
    }
    Ok(())
}

/// A slot of the chain's second lane, then of its first.
const DESCENDING: SlotRow = (1, &[(2, 1), (0, 1)]);

/// A slot in which all lanes are in use at once, so that the master sends twice.
const ALL_AT_ONCE: SlotRow = (1, &[(0, 1), (1, 1), (2, 1)]);

/// Tables, and whether each fits the chain for tasks, and for messages.
static FITTING: [(&str, TableRow, [bool; 2]); 18] = [
    ("the chain's table", CHAIN_TABLE, [true, false]),
    ("the scatter's table", SCATTER_TABLE, [false, true]),
    (
        "a period longer than its slots",
        ([3, 2], 2, &[TO_A, TO_B], &[FIRST, SECOND]),
        [false, false],
    ),
    (
        "more tasks than its routes",
        ([2, 3], 2, &[TO_A, TO_B], &[FIRST, SECOND]),
        [false, false],
    ),
    (
        "a depth below its longest route",
        ([2, 2], 1, &[TO_A, TO_B], &[FIRST, SECOND]),
        [false, false],
    ),
    (
        "a depth above its longest route",
        ([2, 2], 3, &[TO_A, TO_B], &[FIRST, SECOND]),
        [false, false],
    ),
    (
        "a route that is no walk",
        ([2, 2], 2, &[TO_A, (2, 1, 0, &[1])], &[FIRST, SECOND]),
        [false, false],
    ),
    (
        "lanes of no route",
        ([2, 1], 1, &[TO_A], &[FIRST, SECOND]),
        [false, false],
    ),
    (
        "one route",
        ([1, 1], 1, &[TO_A], &[(1, &[(0, 1)])]),
        [true, false],
    ),
    ("no route", ([1, 0], 0, &[], &[IDLE]), [true, true]),
    ("no slot", ([0, 0], 0, &[], &[]), [false, false]),
    (
        "a slot of no tick",
        ([0, 0], 0, &[], &[(0, &[])]),
        [false, false],
    ),
    (
        "lanes out of order",
        ([2, 2], 2, &[TO_A, TO_B], &[DESCENDING, SECOND]),
        [false, false],
    ),
    (
        "a task too many in a lane",
        ([2, 2], 2, &[TO_A, TO_B], &[FIRST, (1, &[(1, 2)])]),
        [false, false],
    ),
    (
        "a lane without its task",
        ([2, 2], 2, &[TO_A, TO_B], &[FIRST, IDLE]),
        [false, false],
    ),
    (
        "a lane that there isn't",
        ([2, 2], 2, &[TO_A, TO_B], &[FIRST, (1, &[(1, 1), (3, 1)])]),
        [false, false],
    ),
    (
        "a piece of no task",
        ([3, 2], 2, &[TO_A, TO_B], &[FIRST, SECOND, (1, &[(0, 0)])]),
        [false, false],
    ),
    // The send port of the master is used twice at once, which fits all the same.
    (
        "a port twice in use",
        ([2, 2], 2, &[TO_A, TO_B], &[ALL_AT_ONCE, IDLE]),
        [true, false],
    ),
];

/// Whether a table fits for tasks, and for messages.
fn fits_each(timed: &Timed, table: &Table) -> [bool; 2] {
    [
        table.fits(timed, Series::Tasking),
        table.fits(timed, Series::Scatter),
    ]
}

fn fits_each_of_row(alloc: Global, timed: &Timed, row: &TableRow) -> Result<[bool; 2], Fail> {
    Ok(fits_each(timed, &table_of_row(alloc, row)?))
}

fn tells_fitting(
    alloc: Global,
    timed: &Timed,
    rows: &[(&str, TableRow, [bool; 2])],
) -> Result<(), Fail> {
    for (name, row, wanted) in rows {
        holds(name, fits_each_of_row(alloc, timed, row)? == *wanted)?;
    }
    Ok(())
}

/// Slots, and whether each is one of the chain's three lanes.
static SLOTS: [(&str, SlotRow, bool); 6] = [
    ("two lanes", FIRST, true),
    ("idle", IDLE, true),
    ("no tick", (0, &[(0, 1)]), false),
    ("lanes out of order", DESCENDING, false),
    ("a lane that there isn't", (1, &[(3, 1)]), false),
    ("a piece of no task", (1, &[(0, 0)]), false),
];

fn is_slot_of(alloc: Global, routes: &[Route], row: &SlotRow) -> Result<bool, Fail> {
    let slot = slot_of(alloc, row)?;
    Ok(is_slot(lane_count(routes), routes, &slot))
}

fn tells_slots(alloc: Global, routes: &[Route]) -> Result<(), Fail> {
    for (name, row, wanted) in &SLOTS {
        holds(name, is_slot_of(alloc, routes, row)? == *wanted)?;
    }
    Ok(())
}

fn tells_lanes(alloc: Global, routes: &[Route]) -> Result<(), Fail> {
    holds("three lanes", lane_count(routes) == 3)?;
    tells_slots(alloc, routes)
}

#[test]
fn tells_which_slots_are_such(rt: HostRuntime) -> Result<(), Fail> {
    tells_lanes(rt.alloc(), routes_of(rt.alloc(), &[TO_A, TO_B])?.as_slice())
}

/// Whether a table's period is that of its slots, and its tasks those of its routes; and the numerator and the denominator of its rate.
type Sums = (bool, bool, u128, u128);

/// Tables and their sums.
static SUMS: [(&str, TableRow, Sums); 4] = [
    ("the chain's table", CHAIN_TABLE, (true, true, 1, 1)),
    (
        "a period longer than its slots",
        ([3, 2], 2, &[TO_A, TO_B], &[FIRST, IDLE]),
        (false, true, 2, 3),
    ),
    (
        "more tasks than its routes",
        ([2, 3], 2, &[TO_A, TO_B], &[FIRST, IDLE]),
        (true, false, 3, 2),
    ),
    (
        "six tasks in four ticks",
        ([4, 6], 1, &[(1, 6, 0, &[0])], &[(4, &[(0, 6)])]),
        (true, true, 3, 2),
    ),
];

/// The sums of a table of a few tasks; none where there is no rate.
fn sums(timed: &Timed, table: &Table) -> Option<Sums> {
    if table.period < 1 || table.tasks > 6 {
        return None;
    }
    let rate = table.rate(timed)?;
    Some((
        has_period(table),
        has_tasks(timed, Series::Tasking, table),
        rate.num(),
        rate.den(),
    ))
}

fn sums_of_row(alloc: Global, timed: &Timed, row: &TableRow) -> Result<Option<Sums>, Fail> {
    Ok(sums(timed, &table_of_row(alloc, row)?))
}

fn tells_sums(alloc: Global, timed: &Timed) -> Result<(), Fail> {
    for (name, row, wanted) in &SUMS {
        holds(name, sums_of_row(alloc, timed, row)? == Some(*wanted))?;
    }
    Ok(())
}

/// 600 routes over one link.
fn many_routes(alloc: Global) -> Result<Listed<Route>, Fail> {
    let mut routes = Listed::new(alloc);
    for _ in 0..600u32 {
        routes.push(route_of(alloc, &TO_A)?)?;
    }
    Ok(routes)
}

/// A slot with a piece of each of 600 lanes, of which the last is of so many tasks.
fn long_slot(alloc: Global, last: u128) -> Result<Slot, Fail> {
    let mut pieces = Listed::new(alloc);
    for lane in 0..600u32 {
        let count = if lane == 599 { last } else { 1 };
        pieces.push(Piece { lane, count })?;
    }
    Ok(Slot {
        duration: 600,
        pieces,
    })
}

fn long_slots(alloc: Global, last: u128) -> Result<Listed<Slot>, Fail> {
    let mut slots = Listed::new(alloc);
    slots.push(long_slot(alloc, last)?)?;
    Ok(slots)
}

/// A table of 600 routes over one link, of which the last is given so many pieces.
fn long_table(alloc: Global, last: u128) -> Result<Table, Fail> {
    Ok(Table {
        period: 600,
        tasks: 600,
        depth: 1,
        routes: many_routes(alloc)?,
        slots: long_slots(alloc, last)?,
    })
}

fn fits_long(alloc: Global, timed: &Timed, last: u128) -> Result<bool, Fail> {
    Ok(long_table(alloc, last)?.fits(timed, Series::Tasking))
}

fn tells_long_tables(alloc: Global, timed: &Timed) -> Result<(), Fail> {
    holds("a task in the last lane", fits_long(alloc, timed, 1)?)?;
    holds("two tasks in the last lane", !fits_long(alloc, timed, 2)?)
}

pub(crate) fn tells_chain(alloc: Global, timed: &Timed) -> Result<(), Fail> {
    tells_walks(alloc, timed)?;
    tells_fitting(alloc, timed, &FITTING)?;
    tells_sums(alloc, timed)?;
    tells_long_tables(alloc, timed)
}

#[test]
fn tells_tables_of_a_chain(rt: HostRuntime) -> Result<(), Fail> {
    tells_of(rt.alloc(), CHAIN, Told::Chain)
}

/// Tables of a master alone, and whether each fits for tasks, and for messages, which no target wants: 2^87 tasks a tick at 999,999,000,000 ticks a time unit are nearly 2^127, and twice
/// as many are more.
static RATES: [(&str, TableRow, [bool; 2]); 2] = [
    (
        "2^87 tasks a tick",
        (
            [1, 154742504910672534362390528],
            0,
            &[(0, 154742504910672534362390528, 0, &[])],
            &[IDLE],
        ),
        [true, false],
    ),
    (
        "2^88 tasks a tick",
        (
            [1, 309485009821345068724781056],
            0,
            &[(0, 309485009821345068724781056, 0, &[])],
            &[IDLE],
        ),
        [false, false],
    ),
];

pub(crate) fn tells_rates(alloc: Global, timed: &Timed) -> Result<(), Fail> {
    tells_fitting(alloc, timed, &RATES)
}

#[test]
fn bounds_rates(rt: HostRuntime) -> Result<(), Fail> {
    tells_of(rt.alloc(), FINE_LONE, Told::Rates)
}

/// Routes, each with the tasks and the longest length of all routes up to it. The sum of tasks stops at 2^107 + 1.
static COUNTED: [(&str, RouteRow, u128, usize); 3] = [
    ("one link", (1, 3, 0, &[0]), 3, 1),
    ("two links", (2, 4, 0, &[0, 1]), 7, 2),
    (
        "2^107 tasks",
        (0, 162259276829213363391578010288128, 0, &[]),
        (1 << 107) + 1,
        2,
    ),
];

/// The tasks and the longest length of some routes and one more.
fn counts_with(
    alloc: Global,
    routes: &mut Listed<Route>,
    row: &RouteRow,
) -> Result<(u128, usize), Fail> {
    routes.push(route_of(alloc, row)?)?;
    Ok((tasks_within(routes.as_slice()), longest(routes.as_slice())))
}

fn tells_counts(alloc: Global, routes: &mut Listed<Route>) -> Result<(), Fail> {
    for (name, row, tasks, links) in &COUNTED {
        holds(name, counts_with(alloc, routes, row)? == (*tasks, *links))?;
    }
    Ok(())
}

#[test]
fn counts_routes(rt: HostRuntime) -> Result<(), Fail> {
    tells_counts(rt.alloc(), &mut Listed::new(rt.alloc()))
}

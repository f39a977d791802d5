//! Periods laid out: the slots of parts, and the schedules of tables.

ghost use Rattle.std.specs.Prelude.{◌≡◌, [], ◌∷◌, IfOk};

use crate::tests::fixtures::holds;
use crate::tests::lent::{Told, tells_of};
use crate::tests::op_rows::OpRow::{Computed, Sent};
use crate::tests::op_rows::{OpRow, are_of_op_rows};
use crate::tests::table_rows::{
    CHAIN, CHAIN_TABLE, FINE_LONE, SCATTER_TABLE, TableRow, table_of_row,
};
use bipartite_slots::SlotPart;
use listed::Listed;
use period_table::{
    Slot, Table, UnrollFault, cut, cuts_keep_ports, fitting_tables_hold, table_schedules_hold,
    unroll,
};
use platform_file::Timed;
use schedule_model::{Schedule, Series, check_schedule};
use std::alloc::Global;
use std::test::Fail;

/// A table's name, its series, its row and a number of periods; then the operations of so many periods, and what they complete.
type UnrolledRow = (&'static str, Series, TableRow, u64, &'static [OpRow], u64);

static UNROLLED: [UnrolledRow; 4] = [
    (
        "three periods of tasks",
        Series::Tasking,
        CHAIN_TABLE,
        3,
        &[
            Sent(0, 0, 0),
            Sent(0, 0, 1),
            Sent(0, 0, 2),
            Sent(1, 0, 2),
            Computed(1, 2),
            Sent(0, 0, 3),
            Sent(0, 0, 4),
            Sent(1, 0, 4),
            Computed(1, 4),
            Computed(2, 4),
            Sent(0, 0, 5),
        ],
        3,
    ),
    (
        "a period of tasks",
        Series::Tasking,
        CHAIN_TABLE,
        1,
        &[Sent(0, 0, 0), Sent(0, 0, 1)],
        0,
    ),
    ("no period", Series::Tasking, CHAIN_TABLE, 0, &[], 0),
    (
        "three periods of messages",
        Series::Scatter,
        SCATTER_TABLE,
        3,
        &[
            Sent(0, 0, 0),
            Sent(0, 1, 1),
            Sent(0, 0, 2),
            Sent(1, 1, 2),
            Sent(0, 1, 3),
            Sent(0, 0, 4),
            Sent(1, 1, 4),
            Sent(0, 1, 5),
        ],
        2,
    ),
];

/// The schedule of so many periods, or that it would have too many operations.
fn unrolled(
    alloc: Global,
    timed: &Timed,
    series: Series,
    table: &Table,
    periods: u64,
) -> Result<Result<Schedule, UnrollFault>, Fail> {
    if !table.fits(timed, series) || periods > 1000000 {
        return Err(Fail::new("the table doesn't fit"));
    }
    Ok(unroll(alloc, timed, series, table, periods))
}

/// Whether a schedule has the length and the operations of a row, and completes as much.
fn is_unrolled(timed: &Timed, schedule: &Schedule, row: &UnrolledRow) -> bool {
    if timed.platform().targets().is_empty() {
        return false;
    }
    schedule.ticks_per_unit == 1
        && schedule.length == 2 * u128::from(row.3)
        && are_of_op_rows(schedule.ops.as_slice(), row.4)
        && check_schedule(timed, row.1, schedule) == Ok(row.5)
}

fn unrolls(alloc: Global, timed: &Timed, table: &Table, row: &UnrolledRow) -> Result<bool, Fail> {
    let schedule = unrolled(alloc, timed, row.1, table, row.3)??;
    Ok(is_unrolled(timed, &schedule, row))
}

fn unrolls_row(alloc: Global, timed: &Timed, row: &UnrolledRow) -> Result<bool, Fail> {
    unrolls(alloc, timed, &table_of_row(alloc, &row.2)?, row)
}

fn tells_unrolled(alloc: Global, timed: &Timed) -> Result<(), Fail> {
    for row in &UNROLLED {
        holds(row.0, unrolls_row(alloc, timed, row)?)?;
    }
    Ok(())
}

/// A table's name, its row and a number of periods, and whether these have too many operations. Idle slots take no time, however many
/// periods there are.
static LENGTHS: [(&str, TableRow, u64, bool); 3] = [
    (
        "4,000,001 tasks a period",
        (
            [8, 4000001],
            0,
            &[(0, 4000001, 0, &[])],
            &[(5, &[]), (3, &[])],
        ),
        1,
        true,
    ),
    (
        "a million periods",
        ([8, 5], 0, &[(0, 5, 0, &[])], &[(5, &[]), (3, &[])]),
        1000000,
        true,
    ),
    (
        "two periods",
        ([8, 2], 0, &[(0, 2, 0, &[])], &[(5, &[]), (3, &[])]),
        2,
        false,
    ),
];

fn is_too_long(alloc: Global, timed: &Timed, table: &Table, periods: u64) -> Result<bool, Fail> {
    match unrolled(alloc, timed, Series::Tasking, table, periods)? {
        Ok(_) => Ok(false),
        Err(fault) => Ok(fault == UnrollFault::TooLong),
    }
}

fn is_row_too_long(
    alloc: Global,
    timed: &Timed,
    row: &TableRow,
    periods: u64,
) -> Result<bool, Fail> {
    is_too_long(alloc, timed, &table_of_row(alloc, row)?, periods)
}

pub(crate) fn tells_lengths(alloc: Global, timed: &Timed) -> Result<(), Fail> {
    for (name, row, periods, wanted) in &LENGTHS {
        holds(
            name,
            is_row_too_long(alloc, timed, row, *periods)? == *wanted,
        )?;
    }
    Ok(())
}

#[test]
fn tells_too_many_operations_at_once(rt: HostRuntime) -> Result<(), Fail> {
    tells_of(rt.alloc(), FINE_LONE, Told::Lengths)
}

/// Seven idle ticks.
fn idle_parts(alloc: Global) -> Result<Listed<SlotPart>, Fail>
    ensures { IfOk result (λ parts. parts ≡ record { duration = 7; edges = [] } ∷ []) }
{
    let mut parts = Listed::new(alloc);
    parts.push(SlotPart {
        duration: 7,
        edges: Listed::new(alloc),
    })?;
    Ok(parts)
}

/// Whether some slots are one of seven idle ticks.
fn are_idle(slots: &[Slot]) -> bool {
    match slots {
        [slot] => slot.duration == 7 && slot.pieces.is_empty(),
        _ => false,
    }
}

fn tells_cut(alloc: Global, timed: &Timed, parts: &[SlotPart]) -> Result<(), Fail>
    requires { parts.now ≡ record { duration = 7; edges = [] } ∷ [] }
{
    let slots = cut(alloc, timed, &[], parts)?;
    holds("one idle slot", are_idle(slots.as_slice()))
}

fn tells_idle_cut(alloc: Global, timed: &Timed) -> Result<(), Fail> {
    let parts = idle_parts(alloc)?;
    tells_cut(alloc, timed, parts.as_slice())
}

pub(crate) fn tells_periods(alloc: Global, timed: &Timed) -> Result<(), Fail> {
    tells_unrolled(alloc, timed)?;
    tells_idle_cut(alloc, timed)
}

#[test]
fn unrolls_and_cuts_a_chain(rt: HostRuntime) -> Result<(), Fail> {
    tells_of(rt.alloc(), CHAIN, Told::Periods)
}

#[test]
fn cites_laws_of_tables() {
    table_schedules_hold();
    fitting_tables_hold();
    cuts_keep_ports();
}

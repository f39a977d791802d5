//! The programme of a platform: its columns, its gains and its rows.

use crate::tests::fixtures::holds;
use crate::tests::lent::{Told, tells_of};
use linear_program::{Lp, Row};
use platform_file::Timed;
use std::alloc::Global;
use std::test::Fail;
use tasking_program::{
    Column, columns_are_looked_up, columns_of, counts_are_feasible, points_are_steady,
    prices_bound_rates, programmes_are_bounded, tasking_lp,
};

/// A computing master, a computing node behind a link of half a time unit, and a way back.
const HALVES: &str =
    "version = 1\nmaster = 'm'\nnode = [{name = 'm', time = 2}, {name = 'w', time = '3/2'}]\n\
    link = [{from = 'm', to = 'w', cost = '1/2'}, {from = 'w', to = 'm', cost = 1}]\n";

/// What a row limits, its cells and its right-hand side.
type LimitRow = (&'static str, &'static [(u32, i128)], i128);

/// The rows of the programme.
static ROWS: [LimitRow; 7] = [
    ("the tasks of m", &[(0, 4)], 1),
    ("the tasks of w", &[(1, 3)], 1),
    ("the sends of m", &[(2, 1)], 1),
    ("the sends of w", &[], 1),
    ("the receives of m", &[], 1),
    ("the receives of w", &[(2, 1)], 1),
    ("the supply of w", &[(1, 1), (2, -1)], 0),
];

fn is_row(row: &Row, wanted: &LimitRow) -> bool {
    row.cells() == wanted.1 && row.rhs() == wanted.2
}

fn tells_rows(rows: &[Row]) -> Result<(), Fail> {
    for (row, wanted) in rows.iter().zip(&ROWS) {
        holds(wanted.0, is_row(row, wanted))?;
    }
    Ok(())
}

/// Whether a programme has as many columns, gains and rows.
fn has_shape(lp: &Lp) -> bool {
    lp.columns() == 3 && lp.gain() == [1, 1, 0].as_slice() && lp.rows().len() == ROWS.len()
}

fn tells_programme(lp: &Lp) -> Result<(), Fail> {
    holds("the columns, gains and rows", has_shape(lp))?;
    tells_rows(lp.rows())
}

static COLUMNS: [Column; 3] = [Column::Computes(0), Column::Computes(1), Column::Flows(0)];

fn lists_columns(alloc: Global, timed: &Timed) -> Result<bool, Fail> {
    Ok(columns_of(alloc, timed)?.as_slice() == COLUMNS.as_slice())
}

pub(crate) fn tells_halves(alloc: Global, timed: &Timed) -> Result<(), Fail> {
    holds("the columns of halves", lists_columns(alloc, timed)?)?;
    tells_programme(&tasking_lp(alloc, timed)?)
}

#[test]
fn states_rows_of_ports_and_supplies(rt: HostRuntime) -> Result<(), Fail> {
    tells_of(rt.alloc(), HALVES, Told::Halves)
}

#[test]
fn cites_laws_of_programmes() {
    counts_are_feasible();
    programmes_are_bounded();
    prices_bound_rates();
    points_are_steady();
    columns_are_looked_up();
}

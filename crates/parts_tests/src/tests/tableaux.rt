//! Pivots of a tableau of whole rows, as worked out by hand.

use crate::tests::comparing::{fails_at, holds};
use crate::tests::models::crossing;
use dense_tableau::Dense;
use linear_program::{Lp, PivotFault, Tableau};
use std::alloc::Global;
use std::test::Fail;

/// A tableau's cells, row by row, and the basic column of each row.
type TableauRow = ([[i128; 6]; 3], [u32; 3]);

/// Fails where a row has other cells.
fn has_cells(tableau: &Dense, row: u32, cells: &[i128; 6]) -> Result<(), Fail> {
    if row >= tableau.rows() || tableau.columns() != 6 {
        return fails_at(&(tableau.rows(), tableau.columns()));
    }
    for column in 0..6u32 {
        if tableau.cell(row, column) != cells[column as usize] {
            return fails_at(&(row, column, cells));
        }
    }
    Ok(())
}

fn has_basic(tableau: &Dense, row: u32, basic: u32) -> Result<(), Fail> {
    if row >= tableau.rows() || tableau.basic(row) != basic {
        return fails_at(&(row, basic));
    }
    Ok(())
}

fn has_row(tableau: &Dense, row: u32, cells: &[i128; 6], basic: u32) -> Result<(), Fail> {
    has_cells(tableau, row, cells)?;
    has_basic(tableau, row, basic)
}

fn is_tableau(tableau: &Dense, wanted: &TableauRow) -> Result<(), Fail> {
    for row in 0..3u32 {
        has_row(
            tableau,
            row,
            &wanted.0[row as usize],
            wanted.1[row as usize],
        )?;
    }
    holds(tableau.rows() == 3, "three rows")
}

/// What a pivot ends with; none where there is no such cell above 0.
fn pivot(tableau: &mut Dense, row: u32, column: u32) -> Option<Result<(), PivotFault>> {
    if row >= tableau.rows() - 1 || column >= tableau.columns() || tableau.cell(row, column) <= 0 {
        return None;
    }
    Some(tableau.pivot(row, column))
}

const START: TableauRow = (
    [[2, 1, 1, 0, 0, 1], [2, 2, 0, 1, 0, 1], [-1, -1, 0, 0, 1, 0]],
    [2, 3, 4],
);

/// The row and the column of each pivot, and the tableau then.
const PIVOTS: [(u32, u32, TableauRow); 2] = [
    (
        0,
        0,
        (
            [[2, 1, 1, 0, 0, 1], [0, 1, -1, 1, 0, 0], [0, -1, 1, 0, 2, 1]],
            [0, 3, 4],
        ),
    ),
    (
        1,
        1,
        (
            [[2, 0, 2, -1, 0, 1], [0, 1, -1, 1, 0, 0], [0, 0, 0, 1, 2, 1]],
            [0, 1, 4],
        ),
    ),
];

fn pivots_at(tableau: &mut Dense, row: &(u32, u32, TableauRow)) -> Result<(), Fail> {
    if pivot(tableau, row.0, row.1) != Some(Ok(())) {
        return fails_at(row);
    }
    is_tableau(tableau, &row.2)
}

fn pivots_each(tableau: &mut Dense) -> Result<(), Fail> {
    tableau.known();
    is_tableau(tableau, &START)?;
    for row in &PIVOTS {
        pivots_at(tableau, row)?;
    }
    Ok(())
}

fn pivots_from(alloc: Global, lp: &Lp) -> Result<(), Fail> {
    pivots_each(&mut Dense::start(alloc, lp)?)
}

#[test]
fn pivots(rt: HostRuntime) -> Result<(), Fail> {
    pivots_from(rt.alloc(), &crossing(rt.alloc(), 2, 2)?)
}

const LONG: i128 = 1 << 100;

const LONG_START: TableauRow = (
    [
        [LONG, 1, 1, 0, 0, 1],
        [LONG - 1, LONG, 0, 1, 0, 1],
        [-1, -1, 0, 0, 1, 0],
    ],
    [2, 3, 4],
);

const OVERFLOW: PivotFault = PivotFault::Overflow { row: 1, column: 1 };

fn overflows(tableau: &mut Dense) -> Result<(), Fail> {
    if pivot(tableau, 0, 0) != Some(Err(OVERFLOW)) {
        return fails_at(&OVERFLOW);
    }
    is_tableau(tableau, &LONG_START)
}

fn overflows_from(alloc: Global, lp: &Lp) -> Result<(), Fail> {
    overflows(&mut Dense::start(alloc, lp)?)
}

#[test]
fn leaves_the_tableau_where_a_pivot_overflows(rt: HostRuntime) -> Result<(), Fail> {
    overflows_from(rt.alloc(), &crossing(rt.alloc(), LONG, LONG - 1)?)
}

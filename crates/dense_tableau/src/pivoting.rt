//! The pivot over rows that stand one after the other.

ghost use Rattle.std.specs.Prelude.{◌≡◌, ◌≢◌, ℕ, ℤ, pos, ◌+◌, ◌*◌, ◌^◌, ◌<◌, ◌≤◌, ◌<ℤ◌, length, None, IsSome, IsNone};
ghost use Rattle.linear_program.specs.Pivots.{changed_row, row_overflow, rows_overflow};
ghost use Rattle.dense_tableau.specs.Flat.{entry, cell_of, AreColumns};

use crate::row::{change_row, nonzero_columns, overflow_in_row, size_of};

/// The first cell, by rows and then by columns, at which rows overflow in a pivot on a given row.
fn overflow_among(
    cells: &[i128],
    pivot_row: &[i128],
    row: u32,
    column: u32,
    rows: u32,
) -> Option<(u32, u32)>
    requires whole { length cells.now ≡ rows * length pivot_row.now }
    requires narrow { length pivot_row.now < 2 ^ 32 }
    requires column { column < length pivot_row.now }
    requires positive { pos 0 <ℤ entry pivot_row.now column }
    ensures { result ≡ rows_overflow (length pivot_row.now) (entry pivot_row.now) (cell_of (length pivot_row.now) cells.now) row column rows }
{
    let width = pivot_row.len();
    let pivot_size = size_of(pivot_row);
    for other in 0..rows {
        if other != row {
            let start = other as usize * width;
            let line = &cells[start..start + width];
            if let Some(at) = overflow_in_row(line, pivot_row, pivot_size, column) {
                return Some((other, at));
            }
        }
    }
    None
}

/// The first cell, by rows and then by columns, at which a pivot overflows.
fn first_overflow(
    cells: &[i128],
    width: usize,
    row: u32,
    column: u32,
    rows: u32,
) -> Option<(u32, u32)>
    requires whole { length cells.now ≡ rows * width }
    requires narrow { width < 2 ^ 32 }
    requires row { row < rows }
    requires column { column < width }
    requires positive { pos 0 <ℤ cell_of width cells.now row column }
    ensures { result ≡ rows_overflow width (cell_of width cells.now row) (cell_of width cells.now) row column rows }
{
    let start = row as usize * width;
    overflow_among(cells, &cells[start..start + width], row, column, rows)
}

/// Changes one row as a pivot does, where it doesn't overflow. Only the time depends on its basic column.
fn change_at(
    cells: &mut [i128],
    pivot_row: &[i128],
    columns: &[u32],
    other: u32,
    column: u32,
    basic: u32,
)
    requires columns { AreColumns pivot_row.now columns.now }
    requires within { (other + 1) * length pivot_row.now ≤ length cells.old }
    requires column { column < length pivot_row.now }
    requires positive { pos 0 <ℤ entry pivot_row.now column }
    requires fits { row_overflow (length pivot_row.now) (entry pivot_row.now) (cell_of (length pivot_row.now) cells.old other) column ≡ None }
    ensures length { length cells.new ≡ length cells.old }
    ensures beside { (i j : ℕ) → i ≢ other → cell_of (length pivot_row.now) cells.new i j ≡ cell_of (length pivot_row.now) cells.old i j }
    ensures changed { (j : ℕ)
        → cell_of (length pivot_row.now) cells.new other j ≡ changed_row (length pivot_row.now) (entry pivot_row.now) (cell_of (length pivot_row.now) cells.old other) column j }
{
    let start = other as usize * pivot_row.len();
    let line = &mut cells[start..start + pivot_row.len()];
    change_row(line, pivot_row, columns, column, basic);
}

/// Changes all rows of a part of a tableau as a pivot does, where none overflows.
fn change_rows(
    cells: &mut [i128],
    pivot_row: &[i128],
    columns: &[u32],
    basics: &[u32],
    column: u32,
    rows: u32,
)
    requires columns { AreColumns pivot_row.now columns.now }
    requires basics { rows ≤ length basics.now }
    requires whole { length cells.old ≡ rows * length pivot_row.now }
    requires column { column < length pivot_row.now }
    requires positive { pos 0 <ℤ entry pivot_row.now column }
    requires fits { (i : ℕ) → i < rows
        → row_overflow (length pivot_row.now) (entry pivot_row.now) (cell_of (length pivot_row.now) cells.old i) column ≡ None }
    ensures length { length cells.new ≡ length cells.old }
    ensures changed { (i j : ℕ) → i < rows
        → cell_of (length pivot_row.now) cells.new i j ≡ changed_row (length pivot_row.now) (entry pivot_row.now) (cell_of (length pivot_row.now) cells.old i) column j }
{
    for other in 0..rows {
        change_at(
            cells,
            pivot_row,
            columns,
            other,
            column,
            basics[other as usize],
        );
    }
}

/// Changes the rows before the pivot's and those behind it as a pivot does, where none overflows.
fn change_others(
    cells: &mut [i128],
    basics: &[u32],
    columns: &mut [u32],
    width: usize,
    row: u32,
    column: u32,
    rows: u32,
)
    requires room { width ≤ length columns.old }
    requires narrow { width < 2 ^ 32 }
    requires basics { length basics.now ≡ rows }
    requires whole { length cells.old ≡ rows * width }
    requires row { row < rows }
    requires column { column < width }
    requires positive { pos 0 <ℤ cell_of width cells.old row column }
    requires fits { (i : ℕ) → i < rows → i ≢ row → row_overflow width (cell_of width cells.old row) (cell_of width cells.old i) column ≡ None }
    ensures length { length cells.new ≡ length cells.old }
    ensures room { length columns.new ≡ length columns.old }
    ensures kept { (j : ℕ) → cell_of width cells.new row j ≡ cell_of width cells.old row j }
    ensures changed { (i j : ℕ) → i < rows → i ≢ row
        → cell_of width cells.new i j ≡ changed_row width (cell_of width cells.old row) (cell_of width cells.old i) column j }
{
    let (before, rest) = cells.split_at_mut(row as usize * width);
    let (pivot_row, behind) = rest.split_at_mut(width);
    let (basics_before, basics_from) = basics.split_at(row as usize);
    let count = nonzero_columns(pivot_row, columns);
    let listed = &columns[..count];
    change_rows(before, pivot_row, listed, basics_before, column, row);
    change_rows(
        behind,
        pivot_row,
        listed,
        &basics_from[1..],
        column,
        rows - row - 1,
    );
}

/// Pivots on a row and a column, or tells the first cell at which that overflows and leaves the tableau.
pub fn pivot_cells(
    cells: &mut [i128],
    basics: &[u32],
    columns: &mut [u32],
    width: usize,
    row: u32,
    column: u32,
    rows: u32,
) -> Option<(u32, u32)>
    requires whole { length cells.old ≡ rows * width }
    requires basics { length basics.now ≡ rows }
    requires room { width ≤ length columns.old }
    requires narrow { width < 2 ^ 32 }
    requires row { row < rows }
    requires column { column < width }
    requires positive { pos 0 <ℤ cell_of width cells.old row column }
    ensures place { result ≡ rows_overflow width (cell_of width cells.old row) (cell_of width cells.old) row column rows }
    ensures refused { IsSome result → cells.new ≡ cells.old }
    ensures length { length cells.new ≡ length cells.old }
    ensures room { length columns.new ≡ length columns.old }
    ensures kept { IsNone result → (j : ℕ) → cell_of width cells.new row j ≡ cell_of width cells.old row j }
    ensures changed { IsNone result → (i j : ℕ) → i < rows → i ≢ row
        → cell_of width cells.new i j ≡ changed_row width (cell_of width cells.old row) (cell_of width cells.old i) column j }
{
    if let Some(place) = first_overflow(cells, width, row, column, rows) {
        return Some(place);
    }
    change_others(cells, basics, columns, width, row, column, rows);
    None
}

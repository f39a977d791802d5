//! The cells of a row, column by column.

ghost use Rattle.std.specs.Prelude.{◌≡◌, ◌<◌, ◌+◌, ◌^◌, ℕ, ℤ, nat_abs, pos, OnOk};
ghost use Rattle.programme_rows.specs.Cells.{where_true, cells_of, AreCells};

use listed::{Listed, NoMemory};

/// A number where a test holds, and 0 elsewhere.
pub fn where_true(test: bool, number: u64) -> i128
    ensures { result ≡ where_true test (pos number) }
{
    if test { i128::from(number) } else { 0 }
}

/// Appends a column's cell to those of the columns before it, unless it is 0. `NoMemory` leaves the cells as they were.
pub fn push_cell(cells: &mut Listed<(u32, i128)>, column: u32, cell: i128) -> Result<(), NoMemory>
    requires small { nat_abs cell < 2 ^ 127 }
    ensures value { OnOk result ((f : ℕ → ℤ) → f column ≡ cell → cells.old ≡ cells_of f column → cells.new ≡ cells_of f (column + 1)) }
    ensures cells { OnOk result (AreCells column cells.old → AreCells (column + 1) cells.new) }
{
    if cell != 0 {
        cells.push((column, cell))?;
    }
    Ok(())
}

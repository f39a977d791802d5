//! The start tableau, row after row.

ghost use Rattle.std.specs.Prelude.{◌≡◌, ◌≢◌, ℕ, ℤ, pos, neg_ℤ, ◌+◌, ◌*◌, ◌^◌, ◌<◌, ◌≤◌, nat_abs, All, length, cond, nat_lt, slice_index_or, IfOk};
ghost use Rattle.linear_program.specs.Programmes.{cell_at, gain_at};
ghost use Rattle.linear_program.specs.Starts.{start_cell};
ghost use Rattle.dense_tableau.specs.Flat.{entry, cell_of};

use linear_program::Lp;
use listed::NoMemory;
use std::alloc::Global;

/// Writes the cells of a programme's row into a row of zeros, from the last to the first.
fn write_cells(row: &mut [i128], cells: &[(u32, i128)])
    requires exist { All (λ c. c.0 < length row.old) cells.now }
    requires zeros { (j : ℕ) → entry row.old j ≡ pos 0 }
    ensures length { length row.new ≡ length row.old }
    ensures cells { (j : ℕ) → entry row.new j ≡ cell_at cells.now j }
{
    let mut left = cells.len();
    while left > 0 {
        left -= 1;
        let (column, cell) = cells[left];
        row[column as usize] = cell;
    }
}

/// Writes minus the gains into a row of zeros.
fn write_gains(row: &mut [i128], gain: &[i128])
    requires room { length gain.now ≤ length row.old }
    requires small { All (λ g. nat_abs g < 2 ^ 127) gain.now }
    requires zeros { (j : ℕ) → entry row.old j ≡ pos 0 }
    ensures length { length row.new ≡ length row.old }
    ensures cells { (j : ℕ) → entry row.new j ≡ cond (nat_lt j (length gain.now)) (neg_ℤ (slice_index_or gain.now j (pos 0))) (pos 0) }
{
    for j in 0..gain.len() {
        row[j] = -gain[j];
    }
}

/// Writes a constraint's row of the start tableau into zeros: its cells, 1 for its slack, and its right-hand side.
fn start_constraint(line: &mut [i128], lp: &Lp, row: u32)
    requires row { row < length lp.now.rows }
    requires wide { length line.old ≡ lp.now.columns + length lp.now.rows + 2 }
    requires zeros { (j : ℕ) → entry line.old j ≡ pos 0 }
    ensures length { length line.new ≡ length line.old }
    ensures cells { (j : ℕ) → j < length line.old → entry line.new j ≡ start_cell lp.now row j }
{
    lp.known();
    let constraint = &lp.rows()[row as usize];
    write_cells(line, constraint.cells());
    line[(lp.columns() + row) as usize] = 1;
    let side = line.len() - 1;
    line[side] = constraint.rhs();
}

/// Writes the objective's row of the start tableau into zeros: minus the gains, and 1 in its own column.
fn start_objective(line: &mut [i128], lp: &Lp)
    requires wide { length line.old ≡ lp.now.columns + length lp.now.rows + 2 }
    requires zeros { (j : ℕ) → entry line.old j ≡ pos 0 }
    ensures length { length line.new ≡ length line.old }
    ensures cells { (j : ℕ) → j < length line.old → entry line.new j ≡ start_cell lp.now (length lp.now.rows) j }
{
    lp.known();
    write_gains(line, lp.gain());
    let own = line.len() - 2;
    line[own] = 1;
}

/// Writes a row of the start tableau into zeros.
fn start_row(line: &mut [i128], lp: &Lp, row: u32)
    requires row { row ≤ length lp.now.rows }
    requires wide { length line.old ≡ lp.now.columns + length lp.now.rows + 2 }
    requires zeros { (j : ℕ) → entry line.old j ≡ pos 0 }
    ensures length { length line.new ≡ length line.old }
    ensures cells { (j : ℕ) → j < length line.old → entry line.new j ≡ start_cell lp.now row j }
{
    if (row as usize) < lp.rows().len() {
        start_constraint(line, lp, row);
    } else {
        start_objective(line, lp);
    }
}

/// Writes one row of the start tableau to its place among the rows.
fn start_at(cells: &mut [i128], lp: &Lp, width: usize, row: u32)
    requires row { row ≤ length lp.now.rows }
    requires width { width ≡ lp.now.columns + length lp.now.rows + 2 }
    requires within { (row + 1) * width ≤ length cells.old }
    requires zeros { (j : ℕ) → cell_of width cells.old row j ≡ pos 0 }
    ensures length { length cells.new ≡ length cells.old }
    ensures beside { (i j : ℕ) → i ≢ row → cell_of width cells.new i j ≡ cell_of width cells.old i j }
    ensures there { (j : ℕ) → j < width → cell_of width cells.new row j ≡ start_cell lp.now row j }
{
    let start = row as usize * width;
    let line = &mut cells[start..start + width];
    start_row(line, lp, row);
}

/// Writes the start tableau over zeros.
pub fn write_start(cells: &mut [i128], lp: &Lp, width: usize)
    requires width { width ≡ lp.now.columns + length lp.now.rows + 2 }
    requires whole { length cells.old ≡ (length lp.now.rows + 1) * width }
    requires zeros { (i j : ℕ) → cell_of width cells.old i j ≡ pos 0 }
    ensures length { length cells.new ≡ length cells.old }
    ensures cells { (i j : ℕ) → i ≤ length lp.now.rows → j < width → cell_of width cells.new i j ≡ start_cell lp.now i j }
{
    lp.known();
    for row in 0..lp.rows().len() as u32 + 1 {
        start_at(cells, lp, width, row);
    }
}

/// The basic columns of the start tableau, each row's own.
pub fn start_basics(alloc: Global, lp: &Lp) -> Result<Vec<u32>, NoMemory>
    ensures length { IfOk result (λ v. length v.items ≡ length lp.now.rows + 1) }
    ensures basics { IfOk result (λ v. (i : ℕ) → i ≤ length lp.now.rows → slice_index_or v.items i 0 ≡ lp.now.columns + i) }
{
    lp.known();
    let rows = lp.rows().len() as u32 + 1;
    let mut basics = Vec::with_capacity(alloc, rows as usize)?;
    for row in 0..rows {
        basics.push(lp.columns() + row)?;
    }
    Ok(basics)
}

//! For each row of a matrix, the columns of its positive cells.

ghost use Rattle.std.specs.Prelude.{◌≡◌, ℕ, ◌<◌, length, IfOk};
ghost use Rattle.bipartite_slots.specs.Squares.{cell};
ghost use Rattle.bipartite_slots.specs.Columns.{row_of, HasPositives, AreListed};

use crate::square::Square;
use listed::NoMemory;
use std::alloc::Global;
use std::marker::Model;

/// For each row the columns in which its cells may be positive, in ascending order. Where cells fall, they still serve.
#[derive(Drop)]
pub struct Columns {
    rows: Vec<Vec<usize>>,
}

impl Model for Columns {
    ghost use Rattle.std.specs.Prelude.{ℕ, List, map};

    ghost Value = { List (List ℕ) };

    ghost view = { λ a. map (λ row. row.items) a.rows.items };
}

impl Columns {
    /// The columns of the positive cells. Takes time in proportion to the cells.
    pub fn of_square(alloc: Global, square: &Square) -> Result<Columns, NoMemory>
        ensures { IfOk result (λ columns. AreListed columns square.now.size (cell square.now)) }
    {
        let mut rows = Vec::new(alloc);
        for row in 0..square.size() {
            let columns = positive_columns(alloc, square, row)?;
            rows.push(columns)?;
        }
        Ok(Columns { rows })
    }

    /// The columns of one row.
    pub fn of(&self, row: usize) -> &[usize]
        requires { row < length self.now }
        ensures { result.now ≡ row_of self.now row }
    {
        &self.rows[row]
    }
}

/// The columns of a row's positive cells.
fn positive_columns(alloc: Global, square: &Square, row: usize) -> Result<Vec<usize>, NoMemory>
    requires { row < square.now.size }
    ensures { IfOk result (λ columns. HasPositives square.now.size (cell square.now row) columns.items) }
{
    let mut columns = Vec::new(alloc);
    for column in 0..square.size() {
        if square.get(row, column) > 0 {
            columns.push(column)?;
        }
    }
    Ok(columns)
}

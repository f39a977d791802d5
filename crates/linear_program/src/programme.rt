//! Linear programmes.

ghost use Rattle.std.specs.Prelude.{◌≡◌, ℕ, ℤ, pos, ◌+◌, ◌<◌, ◌≤◌, length, cond, nat_eq, nat_lt, neg_ℤ};
ghost use Rattle.linear_program.specs.Programmes.{LpView, RowView, cell_at, row_at, gain_at, IsLp};
ghost use Rattle.linear_program.specs.Starts.{start_cell, start_side, value_cell};

use listed::Listed;
use std::marker::Model;

/// A row of a programme: the sum of its cells times the columns' amounts is at most its right-hand side.
#[derive(Drop)]
pub struct Row {
    cells: Listed<(u32, i128)>,
    rhs: i128,
}

impl Model for Row {
    ghost use Rattle.linear_program.specs.Programmes.{RowView};

    ghost Value = { RowView };

    ghost view = { λ a. record { cells = a.cells; rhs = a.rhs } };
}

/// A programme: the greatest gain of amounts of at least 0, one for each column, that keep to all rows.
#[derive(Drop)]
pub struct Lp {
    columns: u32,
    rows: Listed<Row>,
    gain: Listed<i128>,
}

impl Model for Lp {
    ghost use Rattle.linear_program.specs.Programmes.{LpView, IsLp};

    ghost Value = { LpView };

    ghost view = { λ a. record { columns = a.columns; rows = a.rows; gain = a.gain } };

    ghost invariant = { λ a. IsLp (record { columns = a.columns; rows = a.rows; gain = a.gain }) };
}

impl Row {
    /// A row of these cells, by ascending columns and without zeros, and this right-hand side.
    pub fn new(cells: Listed<(u32, i128)>, rhs: i128) -> Row
        ensures { result ≡ record { cells = cells; rhs = rhs } }
    {
        Row { cells, rhs }
    }

    /// The cells that are not 0, by ascending columns.
    pub fn cells(&self) -> &[(u32, i128)]
        ensures { result.now ≡ self.now.cells }
    {
        self.cells.as_slice()
    }

    /// The right-hand side.
    pub fn rhs(&self) -> i128
        ensures { result ≡ self.now.rhs }
    {
        self.rhs
    }
}

impl Lp {
    /// A programme of these rows and gains.
    pub fn new(columns: u32, rows: Listed<Row>, gain: Listed<i128>) -> Lp
        requires { IsLp (record { columns = columns; rows = rows; gain = gain }) }
        ensures { result ≡ record { columns = columns; rows = rows; gain = gain } }
    {
        Lp {
            columns,
            rows,
            gain,
        }
    }

    /// What is known of every programme.
    pub fn known(&self)
        ensures { IsLp self.now }
    {
        let _ = &self.columns;
    }

    /// The number of columns.
    pub fn columns(&self) -> u32
        ensures { result ≡ self.now.columns }
    {
        self.columns
    }

    /// The rows, in order.
    pub fn rows(&self) -> &[Row]
        ensures { result.now ≡ self.now.rows }
    {
        self.rows.as_slice()
    }

    /// What each column gains.
    pub fn gain(&self) -> &[i128]
        ensures { result.now ≡ self.now.gain }
    {
        self.gain.as_slice()
    }
}

//! A square matrix of whole numbers.

ghost use Rattle.std.specs.Prelude.{◌≡◌, ℕ, ◌+◌, ◌*◌, ◌<◌, ◌≤◌, ◌≢◌, ◌⊎◌, ◌-◌, ◌^◌, ◌&&◌, cond, nat_eq, length, IfOk};
ghost use Rattle.bipartite_slots.specs.Squares.{cell};

use listed::NoMemory;
use std::alloc::Global;
use std::marker::Model;

/// A square matrix, kept row by row.
#[derive(Drop)]
pub struct Square {
    size: usize,
    cells: Vec<u128>,
}

impl Model for Square {
    ghost use Rattle.bipartite_slots.specs.Squares.{SquareView, IsSquare};

    ghost Value = { SquareView };

    ghost view = { λ a. record { size = a.size; cells = a.cells.items } };

    ghost invariant = { λ a. IsSquare (record { size = a.size; cells = a.cells.items }) };
}

impl Square {
    /// A matrix of zeros.
    pub fn zeros(alloc: Global, size: usize) -> Result<Square, NoMemory>
        requires { size ≤ 2000 }
        ensures size { IfOk result (λ square. square.size ≡ size) }
        ensures zero { IfOk result (λ square. (row column : ℕ) → cell square row column ≡ 0) }
    {
        let cells = vec![in alloc; 0; size * size]?;
        Ok(Square { size, cells })
    }

    pub fn size(&self) -> usize
        ensures { result ≡ self.now.size }
    {
        self.size
    }

    pub fn get(&self, row: usize, column: usize) -> u128
        requires row { row < self.now.size }
        requires column { column < self.now.size }
        ensures { result ≡ cell self.now row column }
    {
        self.cells[row * self.size + column]
    }

    pub fn set(&mut self, row: usize, column: usize, value: u128)
        requires row { row < self.old.size }
        requires column { column < self.old.size }
        ensures size { self.new.size ≡ self.old.size }
        ensures value { cell self.new row column ≡ value }
        ensures others { (i j : ℕ) → (i ≢ row) ⊎ (j ≢ column) → cell self.new i j ≡ cell self.old i j }
    {
        let place = row * self.size + column;
        self.cells[place] = value;
    }

    /// Adds to one cell.
    pub fn raise(&mut self, row: usize, column: usize, by: u128)
        requires row { row < self.old.size }
        requires column { column < self.old.size }
        requires room { cell self.old row column + by < 2 ^ 128 }
        ensures size { self.new.size ≡ self.old.size }
        ensures cells { (i j : ℕ) → cell self.new i j ≡ cell self.old i j + cond (nat_eq row i && nat_eq column j) by 0 }
    {
        let sum = self.get(row, column) + by;
        self.set(row, column, sum);
    }

    /// Takes from one cell.
    pub fn lower(&mut self, row: usize, column: usize, by: u128)
        requires row { row < self.old.size }
        requires column { column < self.old.size }
        requires enough { by ≤ cell self.old row column }
        ensures size { self.new.size ≡ self.old.size }
        ensures cells { (i j : ℕ) → cell self.new i j ≡ cell self.old i j - cond (nat_eq row i && nat_eq column j) by 0 }
    {
        let rest = self.get(row, column) - by;
        self.set(row, column, rest);
    }
}

//! Tableaux that are pivoted.

ghost use Rattle.std.specs.Prelude.{◌≡◌, ℕ, ℤ, pos, ◌+◌, ◌<◌, ◌≤◌, ◌<ℤ◌, OnOk, OnErr, IfOk, Err};
ghost use Rattle.linear_program.specs.Tableaux.{TableauView, width, SameSolutions};
ghost use Rattle.linear_program.specs.Starts.{start_tableau};
ghost use Rattle.linear_program.specs.Pivots.{Pivoted, pivoted};

use crate::programme::Lp;
use listed::NoMemory;
use std::alloc::Global;

/// Why a pivot was refused. The tableau is then as before.
#[derive(Clone, Copy, Debug, PartialEq, Eq)]
pub enum PivotFault {
    /// A product or a difference exceeds 2^127 - 1 in size; this cell is the first such one, in the order of rows and then of columns.
    Overflow { row: u32, column: u32 },
    /// Memory ran out.
    NoMemory,
}

/// A tableau of whole numbers that starts from a programme and is pivoted, however it is kept.
pub trait Tableau: Drop {
    /// The tableau.
    ghost tableau: { Self → TableauView };

    /// The start tableau of a programme: its rows, a slack for each row, the objective, and the right-hand sides.
    fn start(alloc: Global, lp: &Lp) -> Result<Self, NoMemory>
        ensures { IfOk result (λ x. tableau x ≡ start_tableau lp.now) };

    /// The number of rows, the objective's included.
    fn rows(&self) -> u32
        ensures { result ≡ (tableau self.now).constraints + 1 };

    /// The number of columns, those of the objective and the right-hand sides included.
    fn columns(&self) -> u32
        ensures { result ≡ width (tableau self.now) };

    /// A cell.
    fn cell(&self, row: u32, column: u32) -> i128
        requires row { row ≤ (tableau self.now).constraints }
        requires column { column < width (tableau self.now) }
        ensures { result ≡ (tableau self.now).cell row column };

    /// A row's basic column.
    fn basic(&self, row: u32) -> u32
        requires { row ≤ (tableau self.now).constraints }
        ensures { result ≡ (tableau self.now).basic row };

    /// Makes a column basic in a row: every other row with a cell in the column is combined with this one, so that it is 0 there, and
    /// divided by the greatest common divisor of its cells.
    fn pivot(&mut self, row: u32, column: u32) -> Result<(), PivotFault>
        requires row { row < (tableau self.old).constraints }
        requires column { column < width (tableau self.old) }
        requires positive { pos 0 <ℤ (tableau self.old).cell row column }
        ensures ok { OnOk result (pivoted (tableau self.old) row column ≡ Pivoted.tableau (tableau self.new)) }
        ensures overflow { (i j : ℕ) → result ≡ Err (PivotFault.Overflow i j) → pivoted (tableau self.old) row column ≡ Pivoted.overflow i j }
        ensures refused { OnErr result (tableau self.new ≡ tableau self.old) };

    /// A pivot keeps the solutions, both ways.
    ghost keeps_solutions: { (x y : Self) (row column : ℕ) → row < (tableau x).constraints → pos 0 <ℤ (tableau x).cell row column → pivoted (tableau x) row column ≡ Pivoted.tableau (tableau y) → SameSolutions (tableau x) (tableau y) };
}

//! The tableau over one vector.

ghost use Rattle.std.specs.Prelude.{◌≡◌, ◌≢◌, ℕ, ℤ, pos, ◌+◌, ◌*◌, ◌^◌, ◌<◌, ◌≤◌, ◌<ℤ◌, length, OnOk, OnErr, IfOk, Err};
ghost use Rattle.linear_program.specs.Tableaux.{TableauView, width};
ghost use Rattle.linear_program.specs.Starts.{start_tableau};
ghost use Rattle.linear_program.specs.Pivots.{Pivoted, pivoted};
ghost use Rattle.linear_program.proofs.Pivots.{pivoted_keeps_solutions};
ghost use Rattle.dense_tableau.specs.Flat.{FlatView, IsFlat, flat_tableau, flat_width};

use crate::pivoting::pivot_cells;
use crate::starting::{start_basics, write_start};
use linear_program::{Lp, PivotFault, Tableau};
use listed::NoMemory;
use std::alloc::Global;
use std::marker::Model;

/// A tableau whose rows stand one after the other in one vector, 16 bytes a cell. A pivot takes no memory: it notes the columns of its row
/// in room that is there from the start.
#[derive(Drop)]
pub struct Dense {
    values: u32,
    constraints: u32,
    cells: Vec<i128>,
    basics: Vec<u32>,
    columns: Vec<u32>,
}

impl Model for Dense {
    ghost use Rattle.dense_tableau.specs.Flat.{FlatView, IsFlat};

    ghost Value = { FlatView };

    ghost view = { λ a. record { values = a.values; constraints = a.constraints; cells = a.cells.items; basics = a.basics.items; columns = a.columns.items } };

    ghost invariant = { λ a. IsFlat (record { values = a.values; constraints = a.constraints; cells = a.cells.items; basics = a.basics.items; columns = a.columns.items }) };
}

impl Dense {
    /// What is known of every tableau: its lists are whole, and its columns have 32-bit numbers.
    pub fn known(&self)
        ensures { IsFlat self.now }
    {
        let _ = &self.values;
    }
}

impl Tableau for Dense {
    ghost tableau = { λ x. flat_tableau x };

    ghost keeps_solutions = { λ x y row column. pivoted_keeps_solutions (flat_tableau x) (flat_tableau y) row column };

    fn start(alloc: Global, lp: &Lp) -> Result<Dense, NoMemory> {
        lp.known();
        let columns = lp.columns();
        let rows = lp.rows().len() as u32;
        let width = columns as usize + rows as usize + 2;
        let mut cells = vec![in alloc; 0; (rows as usize + 1) * width]?;
        write_start(cells.as_mut_slice(), lp, width);
        let basics = start_basics(alloc, lp)?;
        let room = vec![in alloc; 0; width]?;
        Ok(Dense {
            values: columns,
            constraints: rows,
            cells,
            basics,
            columns: room,
        })
    }

    fn rows(&self) -> u32 {
        self.known();
        self.constraints + 1
    }

    fn columns(&self) -> u32 {
        self.known();
        self.values + self.constraints + 2
    }

    fn cell(&self, row: u32, column: u32) -> i128 {
        self.known();
        let width = self.columns() as usize;
        self.cells[row as usize * width + column as usize]
    }

    fn basic(&self, row: u32) -> u32 {
        self.known();
        self.basics[row as usize]
    }

    fn pivot(&mut self, row: u32, column: u32) -> Result<(), PivotFault>
        requires row { row < self.old.constraints }
        requires column { column < flat_width self.old }
        requires positive { pos 0 <ℤ (flat_tableau self.old).cell row column }
        ensures ok { OnOk result (pivoted (flat_tableau self.old) row column ≡ Pivoted.tableau (flat_tableau self.new)) }
        ensures overflow { (i j : ℕ) → result ≡ Err (PivotFault.Overflow i j) → pivoted (flat_tableau self.old) row column ≡ Pivoted.overflow i j }
        ensures refused { OnErr result (flat_tableau self.new ≡ flat_tableau self.old) }
        ensures no_memory_taken { result ≢ Err PivotFault.NoMemory }
    {
        self.known();
        let rows = self.rows();
        let width = self.columns() as usize;
        if let Some((row, column)) = pivot_cells(
            self.cells.as_mut_slice(),
            self.basics.as_slice(),
            self.columns.as_mut_slice(),
            width,
            row,
            column,
            rows,
        ) {
            return Err(PivotFault::Overflow { row, column });
        }
        self.basics[row as usize] = column;
        Ok(())
    }
}

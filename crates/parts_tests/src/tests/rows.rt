//! Cells of rows, column by column.

use crate::tests::comparing::holds;
use listed::Listed;
use programme_rows::{push_cell, where_true};
use std::test::Fail;

fn keeps(cells: &mut Listed<(u32, i128)>) -> Result<(), Fail> {
    push_cell(cells, 0, where_true(true, 5))?;
    push_cell(cells, 1, where_true(false, 5))?;
    push_cell(cells, 2, -1)?;
    holds(
        cells.as_slice() == [(0, 5), (2, -1)].as_slice(),
        "the cells that aren't 0",
    )
}

#[test]
fn keeps_cells_that_are_not_zero(rt: HostRuntime) -> Result<(), Fail> {
    keeps(&mut Listed::new(rt.alloc()))
}

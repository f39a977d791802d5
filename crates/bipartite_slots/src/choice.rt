//! The first perfect matching, row by row.

ghost use Rattle.std.specs.Prelude.{◌≡◌, ℕ, ◌+◌, ◌*◌, ◌<◌, ◌≤◌, ◌≢◌, ◌↔◌, false, true, IsTrue, Some, length, EachIndex};
ghost use Rattle.bipartite_slots.specs.Columns.{AreListed};
ghost use Rattle.bipartite_slots.specs.Squares.{cell, HasEqualSums};
ghost use Rattle.bipartite_slots.specs.Searches.{holder, is_seen, IsMatching, IsPlaced};
ghost use Rattle.bipartite_slots.specs.Choices.{IsComplete, Excludes, IsLeastAt, KeepsEarlier, IsFirst, IsHeldBefore, SeesEarlier};

use crate::columns::Columns;
use crate::search::{place, seat};
use crate::square::Square;

/// Gives each row its column in the first perfect matching, beginning with a matching of any rows.
pub fn arrange(columns: &Columns, square: &Square, seen: &mut [bool], holders: &mut [Option<usize>])
    requires listed { AreListed columns.now square.now.size (cell square.now) }
    requires seen { length seen.old ≡ square.now.size }
    requires holders { length holders.old ≡ square.now.size }
    requires matching { IsMatching (cell square.now) holders.old }
    requires sums { HasEqualSums square.now.size (cell square.now) }
    ensures first { IsFirst square.now.size (cell square.now) holders.new }
    ensures complete { IsComplete square.now.size (cell square.now) holders.new }
{
    fill(columns, square, seen, holders);
    for row in 0..square.size() {
        settle(columns, square, row, seen, holders);
    }
}

/// Gives a column to each row that has none.
fn fill(columns: &Columns, square: &Square, seen: &mut [bool], holders: &mut [Option<usize>])
    requires listed { AreListed columns.now square.now.size (cell square.now) }
    requires seen { length seen.old ≡ square.now.size }
    requires holders { length holders.old ≡ square.now.size }
    requires matching { IsMatching (cell square.now) holders.old }
    requires sums { HasEqualSums square.now.size (cell square.now) }
    ensures { IsComplete square.now.size (cell square.now) holders.new }
{
    for row in 0..square.size() {
        if !is_placed(holders, row) {
            forget(seen);
            let _placed = place(columns, square, row, seen, holders);
        }
    }
}

/// Gives the row the least column that leaves columns to the rows after it, the rows before it keeping theirs.
fn settle(
    columns: &Columns,
    square: &Square,
    row: usize,
    seen: &mut [bool],
    holders: &mut [Option<usize>],
)
    requires listed { AreListed columns.now square.now.size (cell square.now) }
    requires row { row < square.now.size }
    requires seen { length seen.old ≡ square.now.size }
    requires holders { length holders.old ≡ square.now.size }
    requires complete { IsComplete square.now.size (cell square.now) holders.old }
    ensures complete { IsComplete square.now.size (cell square.now) holders.new }
    ensures kept { KeepsEarlier holders.old holders.new row }
    ensures least { IsLeastAt square.now.size (cell square.now) holders.new row }
{
    for &column in columns.of(row) {
        if holds(holders, row, column) {
            return;
        }
        if square.get(row, column) > 0 && exchange(columns, square, row, column, seen, holders) {
            return;
        }
    }
}

/// Tries to give the row this column in the place of its own, the rows before it keeping theirs.
fn exchange(
    columns: &Columns,
    square: &Square,
    row: usize,
    column: usize,
    seen: &mut [bool],
    holders: &mut [Option<usize>],
) -> bool
    requires listed { AreListed columns.now square.now.size (cell square.now) }
    requires row { row < square.now.size }
    requires column { column < square.now.size }
    requires seen { length seen.old ≡ square.now.size }
    requires holders { length holders.old ≡ square.now.size }
    requires complete { IsComplete square.now.size (cell square.now) holders.old }
    requires positive { 0 < cell square.now row column }
    requires other_column { holder holders.old column ≢ Some row }
    ensures complete { IsTrue result → IsComplete square.now.size (cell square.now) holders.new }
    ensures kept { IsTrue result → KeepsEarlier holders.old holders.new row }
    ensures exchanged { IsTrue result → holder holders.new column ≡ Some row }
    ensures unchanged { result ≡ false → holders.new ≡ holders.old }
    ensures excluded { result ≡ false → Excludes square.now.size (cell square.now) holders.old row column }
{
    if is_held_before(holders, row, column) {
        return false;
    }
    see_earlier(seen, holders, row);
    let own = column_of(holders, row);
    holders[own] = None;
    let exchanged = seat(columns, square, row, column, seen, holders);
    if !exchanged {
        holders[own] = Some(row);
    }
    exchanged
}

/// Tells whether the row holds this column.
fn holds(holders: &[Option<usize>], row: usize, column: usize) -> bool
    requires { column < length holders.now }
    ensures { IsTrue result ↔ (holder holders.now column ≡ Some row) }
{
    holders[column] == Some(row)
}

/// Tells whether the row holds a column.
fn is_placed(holders: &[Option<usize>], row: usize) -> bool
    ensures { IsTrue result ↔ IsPlaced holders.now row }
{
    holders.iter().any(|held| *held == Some(row))
}

/// The column that the row holds.
pub fn column_of(holders: &[Option<usize>], row: usize) -> usize
    requires { IsPlaced holders.now row }
    ensures inside { result < length holders.now }
    ensures held { holder holders.now result ≡ Some row }
{
    let mut column = 0;
    while holders[column] != Some(row) {
        column += 1;
    }
    column
}

/// Marks no column as seen.
fn forget(seen: &mut [bool])
    ensures { EachIndex seen.new (λ column. is_seen seen.new column ≡ false) }
{
    for mark in seen.iter_mut() {
        *mark = false;
    }
}

/// Marks the columns of the rows before this one as seen, and no others.
fn see_earlier(seen: &mut [bool], holders: &[Option<usize>], row: usize)
    requires { length seen.old ≡ length holders.now }
    ensures { SeesEarlier holders.now seen.new row }
{
    for column in 0..seen.len() {
        seen[column] = is_held_before(holders, row, column);
    }
}

/// Tells whether a row before this one holds the column.
fn is_held_before(holders: &[Option<usize>], row: usize, column: usize) -> bool
    requires { column < length holders.now }
    ensures { IsTrue result ↔ IsHeldBefore holders.now row column }
{
    match holders[column] {
        Some(held) => held < row,
        None => false,
    }
}

//! The search for a column of one more row.

ghost use Rattle.std.specs.Prelude.{◌≡◌, ℕ, ◌+◌, ◌*◌, ◌<◌, ◌≤◌, false, true, IsTrue, Some, length};
ghost use Rattle.bipartite_slots.specs.Columns.{AreListed};
ghost use Rattle.bipartite_slots.specs.Squares.{cell};
ghost use Rattle.bipartite_slots.specs.Searches.{holder, is_seen, IsMatching, IsUnplaced, Places, RowSeen, Searched};

use crate::columns::Columns;
use crate::square::Square;

/// Gives the row a column that the search has not seen, moving other rows where that is needed.
#[cycle(placing)]
pub fn place(
    columns: &Columns,
    square: &Square,
    row: usize,
    seen: &mut [bool],
    holders: &mut [Option<usize>],
) -> bool
    requires listed { AreListed columns.now square.now.size (cell square.now) }
    requires row { row < square.now.size }
    requires seen { length seen.old ≡ square.now.size }
    requires holders { length holders.old ≡ square.now.size }
    requires matching { IsMatching (cell square.now) holders.old }
    requires unplaced { IsUnplaced holders.old row }
    ensures placed { IsTrue result → Places (cell square.now) holders.old holders.new seen.old row }
    ensures unchanged { result ≡ false → holders.new ≡ holders.old }
    ensures searched { result ≡ false → Searched (cell square.now) holders.old seen.old seen.new }
    ensures blocked { result ≡ false → RowSeen (cell square.now) seen.new row }
{
    for &column in columns.of(row) {
        if !seen[column] && square.get(row, column) > 0 {
            if seat(columns, square, row, column, seen, holders) {
                return true;
            }
        }
    }
    false
}

/// Gives the row this column, and the row that held it another column.
#[cycle(placing)]
pub fn seat(
    columns: &Columns,
    square: &Square,
    row: usize,
    column: usize,
    seen: &mut [bool],
    holders: &mut [Option<usize>],
) -> bool
    requires listed { AreListed columns.now square.now.size (cell square.now) }
    requires row { row < square.now.size }
    requires column { column < square.now.size }
    requires seen { length seen.old ≡ square.now.size }
    requires holders { length holders.old ≡ square.now.size }
    requires matching { IsMatching (cell square.now) holders.old }
    requires unplaced { IsUnplaced holders.old row }
    requires unseen { is_seen seen.old column ≡ false }
    requires positive { 0 < cell square.now row column }
    ensures placed { IsTrue result → Places (cell square.now) holders.old holders.new seen.old row }
    ensures seated { IsTrue result → holder holders.new column ≡ Some row }
    ensures unchanged { result ≡ false → holders.new ≡ holders.old }
    ensures searched { result ≡ false → Searched (cell square.now) holders.old seen.old seen.new }
    ensures blocked { result ≡ false → is_seen seen.new column ≡ true }
{
    seen[column] = true;
    let displaced = holders[column];
    holders[column] = Some(row);
    let seated = match displaced {
        None => true,
        Some(other) => place(columns, square, other, seen, holders),
    };
    if !seated {
        holders[column] = displaced;
    }
    seated
}

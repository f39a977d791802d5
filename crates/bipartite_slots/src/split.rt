//! The split of weights into parts.

ghost use Rattle.std.specs.Prelude.{◌≡◌, ℕ, ◌+◌, ◌-◌, ◌*◌, ◌^◌, ◌<◌, ◌≤◌, ◌≢◌, ◌↔◌, Some, cond, length, All, IfOk, List, [], ◌∷◌, ◌++◌};
ghost use Rattle.bipartite_slots.specs.Columns.{AreListed};
ghost use Rattle.bipartite_slots.specs.Squares.{cell, HasEqualSums};
ghost use Rattle.bipartite_slots.specs.Searches.{holder, HoldsOnce, IsMatching};
ghost use Rattle.bipartite_slots.specs.Choices.{IsComplete};
ghost use Rattle.bipartite_slots.specs.Parts.{padded, edges_from, AreChosen, AreParts, Exist, AreApart, AreWithin};
ghost use Rattle.bipartite_slots.specs.declared.weights.Edge.{Edge};
ghost use Rattle.bipartite_slots.specs.Takings.{HasCells};
ghost use Rattle.bipartite_slots.specs.Takings.{is_holder, less_held, IsLeastHeld, AreHeld, TakesPart};

use crate::choice::{arrange, column_of};
use crate::columns::Columns;
use crate::square::Square;
use crate::weights::{Edge, SlotPart, Weights};
use listed::{Listed, NoMemory};
use std::alloc::Global;

/// Splits the weights into parts whose durations sum to the total, all in ticks.
///
/// In each part no two edges share a sender or a receiver, and the parts with an edge last as long as its weight.
/// There are at most (2 * nodes)² parts. The nodes' weights are filled up to a matrix of twice as many rows and columns,
/// each of which sums to the total. While time is left, a part is the first perfect matching over the positive cells,
/// in the order of the rows' columns, and lasts as long as its least cell: so equal weights give equal parts.
/// Where each row and column has the same sum there is such a matching (Hall; Birkhoff and von Neumann).
///
/// One matching is kept and mended: for each part an augmentation for each row that lost its cell, and one for each
/// column that comes before a row's own. Takes (2 * nodes)² numbers of 16 bytes.
///
/// # Errors
///
/// `NoMemory` where there is no memory for the matrix or the parts.
pub fn slots(alloc: Global, weights: &Weights, total: u128) -> Result<Vec<SlotPart>, NoMemory>
    requires some_node { 1 ≤ weights.now.nodes }
    requires few_nodes { weights.now.nodes ≤ 1000 }
    requires some_time { 1 ≤ total }
    requires little_time { total ≤ 2 ^ 100 }
    requires exist { Exist weights.now }
    requires apart { AreApart weights.now.edges }
    requires within { AreWithin weights.now total }
    ensures parts { IfOk result (λ parts. AreParts weights.now total parts.items) }
    ensures chosen { IfOk result
        (λ parts. AreChosen (2 * weights.now.nodes) weights.now.edges (padded weights.now total) total parts.items) }
{
    let mut square = padded(alloc, weights, total)?;
    let columns = Columns::of_square(alloc, &square)?;
    split(alloc, weights, total, &columns, &mut square)
}

/// Splits the filled up weights into parts.
fn split(
    alloc: Global,
    weights: &Weights,
    total: u128,
    columns: &Columns,
    square: &mut Square,
) -> Result<Vec<SlotPart>, NoMemory>
    requires few_nodes { weights.now.nodes ≤ 1000 }
    requires exist { Exist weights.now }
    requires apart { AreApart weights.now.edges }
    requires within { AreWithin weights.now total }
    requires size { square.old.size ≡ 2 * weights.now.nodes }
    requires some_size { 0 < square.old.size }
    requires cells { (row column : ℕ) → cell square.old row column ≡ padded weights.now total row column }
    requires listed { AreListed columns.now square.old.size (cell square.old) }
    ensures parts { IfOk result (λ parts. AreParts weights.now total parts.items) }
    ensures chosen { IfOk result
        (λ parts. AreChosen (2 * weights.now.nodes) weights.now.edges (padded weights.now total) total parts.items) }
{
    let mut seen = vec![in alloc; false; square.size()]?;
    let mut holders = vec![in alloc; None; square.size()]?;
    take_parts(
        alloc,
        weights,
        total,
        columns,
        square,
        &mut seen,
        &mut holders,
    )
}

/// Takes part after part from the filled up weights, until nothing is left.
fn take_parts(
    alloc: Global,
    weights: &Weights,
    total: u128,
    columns: &Columns,
    square: &mut Square,
    seen: &mut [bool],
    holders: &mut [Option<usize>],
) -> Result<Vec<SlotPart>, NoMemory>
    requires few_nodes { weights.now.nodes ≤ 1000 }
    requires exist { Exist weights.now }
    requires apart { AreApart weights.now.edges }
    requires within { AreWithin weights.now total }
    requires size { square.old.size ≡ 2 * weights.now.nodes }
    requires some_size { 0 < square.old.size }
    requires cells { (row column : ℕ) → cell square.old row column ≡ padded weights.now total row column }
    requires listed { AreListed columns.now square.old.size (cell square.old) }
    requires seen { length seen.old ≡ square.old.size }
    requires holders { length holders.old ≡ square.old.size }
    requires matching { IsMatching (cell square.old) holders.old }
    ensures parts { IfOk result (λ parts. AreParts weights.now total parts.items) }
    ensures chosen { IfOk result
        (λ parts. AreChosen (2 * weights.now.nodes) weights.now.edges (padded weights.now total) total parts.items) }
{
    let mut parts = Vec::new(alloc);
    let mut left = total;
    while left > 0 {
        let part = next_part(
            alloc,
            columns,
            weights.edges.as_slice(),
            square,
            seen,
            holders,
        )?;
        left -= part.duration;
        parts.push(part)?;
    }
    Ok(parts)
}

/// The weights by sender and receiver, filled up so that each row and column sums to the total.
fn padded(alloc: Global, weights: &Weights, total: u128) -> Result<Square, NoMemory>
    requires few_nodes { weights.now.nodes ≤ 1000 }
    requires exist { Exist weights.now }
    requires within { AreWithin weights.now total }
    requires little_time { total ≤ 2 ^ 100 }
    ensures size { IfOk result (λ square. square.size ≡ 2 * weights.now.nodes) }
    ensures cells { IfOk result (λ square. (row column : ℕ) → cell square row column ≡ padded weights.now total row column) }
{
    let nodes = weights.nodes as usize;
    let mut square = Square::zeros(alloc, 2 * nodes)?;
    for node in 0..nodes {
        square.raise(node, nodes + node, total);
        square.raise(nodes + node, node, total);
    }
    for edge in weights.edges.as_slice() {
        add_edge(&mut square, nodes, edge);
    }
    Ok(square)
}

/// Adds one edge to the matrix: its weight and that of its turned copy, and less idle time for both ends.
fn add_edge(square: &mut Square, nodes: usize, edge: &Edge)
    requires small { nodes ≤ 1000 }
    requires size { square.old.size ≡ 2 * nodes }
    requires exists { (edge.now.from < nodes) × (edge.now.to < nodes) }
    requires send { edge.now.weight ≤ cell square.old edge.now.from (nodes + edge.now.from) }
    requires receive { edge.now.weight ≤ cell square.old (nodes + edge.now.to) edge.now.to }
    requires room { cell square.old edge.now.from edge.now.to + edge.now.weight < 2 ^ 128 }
    requires turned_room { cell square.old (nodes + edge.now.to) (nodes + edge.now.from) + edge.now.weight < 2 ^ 128 }
    ensures size { square.new.size ≡ square.old.size }
    ensures added { (total : ℕ) (edges : List Edge) → HasCells square.old nodes edges total → HasCells square.new nodes (edges ++ edge.now ∷ []) total }
{
    let from = edge.from as usize;
    let to = edge.to as usize;
    let weight = edge.weight;
    square.raise(from, to, weight);
    square.raise(nodes + to, nodes + from, weight);
    square.lower(from, nodes + from, weight);
    square.lower(nodes + to, to, weight);
}

/// Takes the first perfect matching from the matrix, for as long as its least cell.
fn next_part(
    alloc: Global,
    columns: &Columns,
    edges: &[Edge],
    square: &mut Square,
    seen: &mut [bool],
    holders: &mut [Option<usize>],
) -> Result<SlotPart, NoMemory>
    requires listed { AreListed columns.now square.old.size (cell square.old) }
    requires size { 0 < square.old.size }
    requires seen { length seen.old ≡ square.old.size }
    requires holders { length holders.old ≡ square.old.size }
    requires matching { IsMatching (cell square.old) holders.old }
    requires sums { HasEqualSums square.old.size (cell square.old) }
    requires edges { All (λ e. (e.from < square.old.size) × (e.to < square.old.size)) edges.now }
    requires numbers { length edges.now < 2 ^ 32 }
    ensures size { square.new.size ≡ square.old.size }
    ensures part { IfOk result (λ part. TakesPart square.old.size edges.now (cell square.old) (cell square.new) part) }
    ensures matching { IfOk result (λ part. IsMatching (cell square.new) holders.new) }
{
    arrange(columns, square, seen, holders);
    let duration = least_held(square, holders);
    let taken = held_edges(alloc, edges, holders)?;
    take_away(square, holders, duration);
    Ok(SlotPart {
        duration,
        edges: taken,
    })
}

/// The least of the held cells.
fn least_held(square: &Square, holders: &[Option<usize>]) -> u128
    requires size { 0 < square.now.size }
    requires holders { length holders.now ≡ square.now.size }
    requires complete { IsComplete square.now.size (cell square.now) holders.now }
    ensures { IsLeastHeld (cell square.now) holders.now result }
{
    let mut least = square.get(0, column_of(holders, 0));
    for column in 0..square.size() {
        if let Some(row) = holders[column] {
            least = least.min(square.get(row, column));
        }
    }
    least
}

/// The numbers of the edges whose sender holds their receiver.
fn held_edges(
    alloc: Global,
    edges: &[Edge],
    holders: &[Option<usize>],
) -> Result<Listed<u32>, NoMemory>
    requires once { HoldsOnce holders.now }
    requires edges { All (λ e. (e.from < length holders.now) × (e.to < length holders.now)) edges.now }
    requires numbers { length edges.now < 2 ^ 32 }
    ensures { IfOk result
        (λ numbers. (columns : List ℕ) → AreHeld (length holders.now) holders.now columns → numbers ≡ edges_from 0 edges.now columns) }
{
    let mut numbers = Listed::new(alloc);
    for (number, edge) in edges.iter().enumerate() {
        if holders[edge.to as usize] == Some(edge.from as usize) {
            numbers.push(number as u32)?;
        }
    }
    Ok(numbers)
}

/// Takes a number from each held cell, and lets go of those that are 0 then.
fn take_away(square: &mut Square, holders: &mut [Option<usize>], by: u128)
    requires holders { length holders.old ≡ square.old.size }
    requires matching { IsMatching (cell square.old) holders.old }
    requires enough { (row column : ℕ) → holder holders.old column ≡ Some row → by ≤ cell square.old row column }
    ensures size { square.new.size ≡ square.old.size }
    ensures left { (row column : ℕ) → cell square.new row column ≡ less_held (cell square.old) holders.old by row column }
    ensures matching { IsMatching (cell square.new) holders.new }
{
    for column in 0..square.size() {
        take_one(square, &mut holders[column], column, by);
    }
}

/// Takes a number from the held cell of one column, and lets go of it where it is 0 then.
fn take_one(square: &mut Square, held: &mut Option<usize>, column: usize, by: u128)
    requires column { column < square.old.size }
    requires inside { (row : ℕ) → held.old ≡ Some row → row < square.old.size }
    requires enough { (row : ℕ) → held.old ≡ Some row → by ≤ cell square.old row column }
    ensures size { square.new.size ≡ square.old.size }
    ensures here { (row : ℕ)
        → cell square.new row column ≡ cond (is_holder held.old row) (cell square.old row column - by) (cell square.old row column) }
    ensures elsewhere { (row other : ℕ) → other ≢ column → cell square.new row other ≡ cell square.old row other }
    ensures kept { (row : ℕ) → held.new ≡ Some row → held.old ≡ Some row }
    ensures positive { (row : ℕ) → held.new ≡ Some row → held.old ≡ Some row → 0 < cell square.old row column → 0 < cell square.new row column }
{
    if let Some(row) = *held {
        let rest = square.get(row, column) - by;
        square.set(row, column, rest);
        if rest == 0 {
            *held = None;
        }
    }
}

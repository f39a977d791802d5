//! Routes, slots and tables as rows of plain numbers, and a chain whose tables they are.

use flow_routes::Route;
use listed::Listed;
use period_table::{Piece, Slot, Table};
use std::alloc::Global;
use std::test::Fail;

/// A master without a time, a node behind it, and one behind that; both compute in 2 and are targets; both links cost 1.
pub(crate) const CHAIN: &str =
    "version = 1\nmaster = 'm'\ntargets = ['a', 'b']\nnode = [{name = 'm'}, {name = 'a', time = 2}, {name = 'b', time = 2}]\n\
    link = [{from = 'm', to = 'a', cost = 1}, {from = 'a', to = 'b', cost = 1}, {from = 'b', to = 'a', cost = 1}, {from = 'a', to = 'm', cost = 1}]\n";

/// A master alone, beside a node that is not reached: the unit is 999,999,000,000.
pub(crate) const FINE_LONE: &str =
    "version = 1\nmaster = 'm'\nnode = [{name = 'm', time = '1/999999'}, {name = 'x', time = '1/1000000'}]\n";

/// A route's end, count, kind and links.
pub(crate) type RouteRow = (u32, u128, u32, &'static [u32]);

/// A slot's ticks, and each piece's lane and count.
pub(crate) type SlotRow = (u128, &'static [(u32, u128)]);

/// A table's period and tasks, its depth, its routes and its slots.
pub(crate) type TableRow = ([u128; 2], u32, &'static [RouteRow], &'static [SlotRow]);

/// The route of one task to each node of the chain.
pub(crate) const TO_A: RouteRow = (1, 1, 0, &[0]);

pub(crate) const TO_B: RouteRow = (2, 1, 0, &[0, 1]);

/// A slot in which the master sends to the first node, and that one to the second.
pub(crate) const FIRST: SlotRow = (1, &[(0, 1), (2, 1)]);

/// A slot in which the master sends what goes on to the second node.
pub(crate) const SECOND: SlotRow = (1, &[(1, 1)]);

pub(crate) const IDLE: SlotRow = (1, &[]);

pub(crate) const CHAIN_TABLE: TableRow = ([2, 2], 2, &[TO_A, TO_B], &[FIRST, SECOND]);

pub(crate) const SCATTER_TABLE: TableRow = (
    [2, 1],
    2,
    &[TO_A, (2, 1, 1, &[0, 1])],
    &[FIRST, SECOND],
);

fn links_of(alloc: Global, row: &[u32]) -> Result<Listed<u32>, Fail> {
    let mut links = Listed::new(alloc);
    for link in row {
        links.push(*link)?;
    }
    Ok(links)
}

fn pieces_of(alloc: Global, row: &[(u32, u128)]) -> Result<Listed<Piece>, Fail> {
    let mut pieces = Listed::new(alloc);
    for (lane, count) in row {
        pieces.push(Piece {
            lane: *lane,
            count: *count,
        })?;
    }
    Ok(pieces)
}

/// The route of a row.
pub(crate) fn route_of(alloc: Global, row: &RouteRow) -> Result<Route, Fail> {
    Ok(Route {
        links: links_of(alloc, row.3)?,
        end: row.0,
        count: row.1,
        kind: row.2,
    })
}

/// The slot of a row.
pub(crate) fn slot_of(alloc: Global, row: &SlotRow) -> Result<Slot, Fail> {
    Ok(Slot {
        duration: row.0,
        pieces: pieces_of(alloc, row.1)?,
    })
}

/// The routes of some rows.
pub(crate) fn routes_of(alloc: Global, rows: &[RouteRow]) -> Result<Listed<Route>, Fail> {
    let mut routes = Listed::new(alloc);
    for row in rows {
        routes.push(route_of(alloc, row)?)?;
    }
    Ok(routes)
}

fn slots_of(alloc: Global, rows: &[SlotRow]) -> Result<Listed<Slot>, Fail> {
    let mut slots = Listed::new(alloc);
    for row in rows {
        slots.push(slot_of(alloc, row)?)?;
    }
    Ok(slots)
}

/// The table of a row.
pub(crate) fn table_of_row(alloc: Global, row: &TableRow) -> Result<Table, Fail> {
    Ok(Table {
        period: row.0[0],
        tasks: row.0[1],
        depth: row.1,
        routes: routes_of(alloc, row.2)?,
        slots: slots_of(alloc, row.3)?,
    })
}

fn is_of_route(route: &Route, row: &RouteRow) -> bool {
    (route.end, route.count, route.kind) == (row.0, row.1, row.2) && route.links.as_slice() == row.3
}

pub(crate) fn are_of_routes(routes: &[Route], rows: &[RouteRow]) -> bool {
    for (route, row) in routes.iter().zip(rows) {
        if !is_of_route(route, row) {
            return false;
        }
    }
    routes.len() == rows.len()
}

fn are_of_pieces(pieces: &[Piece], row: &[(u32, u128)]) -> bool {
    for (piece, (lane, count)) in pieces.iter().zip(row) {
        if piece.lane != *lane || piece.count != *count {
            return false;
        }
    }
    pieces.len() == row.len()
}

fn are_of_slots(slots: &[Slot], rows: &[SlotRow]) -> bool {
    for (slot, row) in slots.iter().zip(rows) {
        if slot.duration != row.0 || !are_of_pieces(slot.pieces.as_slice(), row.1) {
            return false;
        }
    }
    slots.len() == rows.len()
}

/// Whether a table is that of a row.
pub(crate) fn is_of_row(table: &Table, row: &TableRow) -> bool {
    ([table.period, table.tasks], table.depth) == (row.0, row.1)
        && are_of_routes(table.routes.as_slice(), row.2)
        && are_of_slots(table.slots.as_slice(), row.3)
}

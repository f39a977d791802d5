//! Periodic tables.

use flow_routes::Route;
use listed::Listed;

/// How many tasks or messages of a lane a slot carries. A lane is one hop of one route; lanes are numbered route by route and
/// hop by hop.
#[derive(Clone, Copy, Debug, PartialEq, Eq)]
pub struct Piece {
    pub lane: u32,
    pub count: u128,
}

/// A part of the period, with what the lanes carry in it. In the tables that are planned each sender serves one receiver in it.
#[derive(Drop)]
pub struct Slot {
    /// How many ticks the slot lasts, at least 1.
    pub duration: u128,
    /// What the slot carries, by ascending lane; nothing where it is idle.
    pub pieces: Listed<Piece>,
}

/// A periodic table: what is sent and computed again and again.
#[derive(Drop)]
pub struct Table {
    /// How many ticks a period lasts.
    pub period: u128,
    /// How many tasks, or messages to each target, a period completes.
    pub tasks: u128,
    /// How many periods pass before the first one completes all of these: the length of the longest route.
    pub depth: u32,
    /// The routes.
    pub routes: Listed<Route>,
    /// The slots of a period, one after another.
    pub slots: Listed<Slot>,
}

//! Weighted edges from senders to receivers, and the parts that they split into.

use listed::Listed;

/// One edge: for how long one node is to send to another.
#[derive(Clone, Copy, Debug, PartialEq, Eq)]
pub struct Edge {
    /// The sender's number, from 0.
    pub from: u32,
    /// The receiver's number, from 0.
    pub to: u32,
    /// In ticks.
    pub weight: u128,
}

/// The edges among the nodes 0 to `nodes - 1`.
#[derive(Drop)]
pub struct Weights {
    /// How many nodes there are.
    pub nodes: u32,
    /// No two of them join the same nodes in the same direction.
    pub edges: Listed<Edge>,
}

/// A time in which each of these edges is used throughout, by their numbers in ascending order.
#[derive(Drop)]
pub struct SlotPart {
    /// In ticks, at least 1.
    pub duration: u128,
    /// Numbers of edges, the first one being 0. Without any the part is idle time.
    pub edges: Listed<u32>,
}

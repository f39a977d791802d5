//! Flows over links, and the routes into which they split.

use listed::Listed;

/// Amounts on links, and what each node keeps of them.
#[derive(Drop)]
pub struct Flow {
    /// How many nodes there are.
    pub nodes: u32,
    /// The node that has as many tasks as are wanted.
    pub master: u32,
    /// The links, each from its sender to its receiver.
    pub links: Listed<(u32, u32)>,
    /// How many tasks each link carries.
    pub amounts: Listed<u128>,
    /// How many tasks each node keeps.
    pub demands: Listed<u128>,
}

/// A simple walk from the master that carries tasks or messages.
#[derive(Drop)]
pub struct Route {
    /// The links, from the master on; none where the master keeps its own tasks.
    pub links: Listed<u32>,
    /// The node at the end.
    pub end: u32,
    /// How many tasks or messages go this way, at least 1.
    pub count: u128,
    /// For Scatter the number of the target, for Tasking 0.
    pub kind: u32,
}

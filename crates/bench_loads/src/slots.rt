//! The load of the slots: the period of a chain of nodes, cut.

ghost use Rattle.std.specs.Prelude.{◌≡◌, ◌<◌, ◌≤◌, IfOk};
ghost use Rattle.bipartite_slots.specs.Parts.{Exist, AreApart, AreWithin};

use crate::load::Size;
use bipartite_slots::{Edge, Weights, slots};
use listed::{Listed, NoMemory};
use std::alloc::Global;

/// The period, in ticks.
const PERIOD: u128 = 20000;

/// For how long a node sends to the next, in ticks.
fn weight_of(node: u32) -> u128
    ensures { result ≤ 20000 }
{
    u128::from(1 + node % 1000 * 7919 % 19997)
}

/// The transfers of a chain, in which each node sends to the next.
fn transfers(alloc: Global, nodes: u32) -> Result<Weights, NoMemory>
    requires some { 1 ≤ nodes }
    requires few { nodes ≤ 1000 }
    ensures nodes { IfOk result (λ weights. weights.nodes ≡ nodes) }
    ensures exist { IfOk result (λ weights. Exist weights) }
    ensures apart { IfOk result (λ weights. AreApart weights.edges) }
    ensures within { IfOk result (λ weights. AreWithin weights 20000) }
{
    let mut edges = Listed::new(alloc);
    for node in 0..nodes - 1 {
        edges.push(Edge {
            from: node,
            to: node + 1,
            weight: weight_of(node),
        })?;
    }
    Ok(Weights { nodes, edges })
}

/// Into how many slots a period is cut, as often as said; nothing where it isn't cut at all.
fn last_count(alloc: Global, weights: &Weights, times: u32) -> Option<usize>
    requires some { 1 ≤ weights.now.nodes }
    requires few { weights.now.nodes ≤ 1000 }
    requires exist { Exist weights.now }
    requires apart { AreApart weights.now.edges }
    requires within { AreWithin weights.now 20000 }
{
    let mut count = None;
    for _ in 0..times {
        count = Some(slots(alloc, weights, PERIOD).ok()?.len());
    }
    count
}

/// Into how many slots the period of a chain of so many nodes is cut, as often as said; nothing where it isn't cut at all.
pub fn slot_count(alloc: Global, size: Size) -> Option<usize> {
    if size.parts == 0 || size.parts > 1000 {
        return None;
    }
    let weights = transfers(alloc, size.parts).ok()?;
    last_count(alloc, &weights, size.times)
}

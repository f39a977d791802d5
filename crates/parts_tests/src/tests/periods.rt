//! Periods that are cut into slots, as worked out by hand.

ghost use Rattle.std.specs.Prelude.{◌≡◌, ◌≤◌, ◌^◌, IfOk};
ghost use Rattle.bipartite_slots.specs.Parts.{Exist, AreApart, AreWithin};

use crate::tests::comparing::fails_at;
use crate::tests::models::listed_of;
use bipartite_slots::{Edge, SlotPart, Weights, slots};
use std::alloc::Global;
use std::test::Fail;

/// These edges between so many nodes.
fn weights(alloc: Global, nodes: u32, edges: &[Edge]) -> Result<Weights, Fail>
    ensures { IfOk result (λ weights. weights ≡ record { nodes = nodes; edges = edges.now }) }
{
    Ok(Weights {
        nodes,
        edges: listed_of(alloc, edges)?,
    })
}

/// A part's duration and its edges.
type PartRow = (u128, &'static [u32]);

fn is_part(part: &SlotPart, row: &PartRow) -> bool {
    part.duration == row.0 && part.edges.as_slice() == row.1
}

fn are_parts(parts: &[SlotPart], rows: &[PartRow]) -> Result<(), Fail> {
    if parts.len() != rows.len() {
        return fails_at(&rows);
    }
    for (part, row) in parts.iter().zip(rows) {
        if !is_part(part, row) {
            return fails_at(row);
        }
    }
    Ok(())
}

fn cuts(alloc: Global, weights: &Weights, total: u128, rows: &[PartRow]) -> Result<(), Fail>
    requires some_node { 1 ≤ weights.now.nodes }
    requires few_nodes { weights.now.nodes ≤ 1000 }
    requires some_time { 1 ≤ total }
    requires little_time { total ≤ 2 ^ 100 }
    requires exist { Exist weights.now }
    requires apart { AreApart weights.now.edges }
    requires within { AreWithin weights.now total }
{
    are_parts(slots(alloc, weights, total)?.as_slice(), rows)
}

#[test]
fn serves_one_sender_in_turn(rt: HostRuntime) -> Result<(), Fail> {
    let first = Edge {
        from: 0,
        to: 1,
        weight: 1,
    };
    let second = Edge {
        from: 0,
        to: 2,
        weight: 2,
    };
    cuts(
        rt.alloc(),
        &weights(rt.alloc(), 3, &[first, second])?,
        3,
        &[(1, &[0]), (2, &[1])],
    )
}

#[test]
fn serves_one_receiver_in_turn(rt: HostRuntime) -> Result<(), Fail> {
    let first = Edge {
        from: 0,
        to: 2,
        weight: 1,
    };
    let second = Edge {
        from: 1,
        to: 2,
        weight: 1,
    };
    cuts(
        rt.alloc(),
        &weights(rt.alloc(), 3, &[first, second])?,
        2,
        &[(1, &[0]), (1, &[1])],
    )
}

#[test]
fn idles_without_edges(rt: HostRuntime) -> Result<(), Fail> {
    cuts(rt.alloc(), &weights(rt.alloc(), 2, &[])?, 5, &[(5, &[])])
}

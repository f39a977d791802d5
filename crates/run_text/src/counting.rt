//! How many tasks each node computes.

ghost use Rattle.std.specs.Prelude.{◌≡◌, ℕ, ◌≤◌, List, length, map, sum_by, count_by, IfOk};
ghost use Rattle.std.specs.List.{range_with_len};
ghost use Rattle.step_core.specs.Tasks.{is_done};
ghost use Rattle.actor_programs.specs.Programs.{actors_of, wiring_of};
ghost use Rattle.run_text.specs.Counts.{dones_of, dones_at, node_counts};

use actor_programs::{Actor, actors};
use listed::NoMemory;
use period_table::Table;
use platform_file::Timed;
use std::alloc::Global;
use step_core::{Event, Wiring};

/// How many of the events are Dones.
fn dones(program: &[Event]) -> u64
    ensures value { result ≡ count_by is_done program.now }
    ensures few { result ≤ length program.now }
{
    let mut count = 0;
    for event in program {
        if let Event::Done { .. } = event {
            count += 1;
        }
    }
    count
}

/// How many Dones of a program are at a node: none where its actor acts elsewhere.
fn dones_of(node: u32, program: &[Event], actor: Actor) -> u64
    ensures value { result ≡ dones_of node program.now actor }
    ensures few { result ≤ length program.now }
{
    match actor {
        Actor::Consumer { node: other } if other == node => dones(program),
        _ => 0,
    }
}

/// How many tasks are computed at a node.
fn dones_at(node: u32, actors: &[Actor], wiring: &Wiring) -> u64
    requires each { length actors.now ≡ length wiring.now.programs }
    requires short { sum_by length wiring.now.programs ≤ 4000000 }
    ensures { result ≡ dones_at node actors.now wiring.now }
{
    wiring.known();
    let mut count = 0;
    for number in 0..actors.len() {
        count += dones_of(node, wiring.program(number as u32), actors[number]);
    }
    count
}

/// How many tasks each node computes with these actors, in node order.
fn counts_of(
    alloc: Global,
    nodes: u32,
    actors: &[Actor],
    wiring: &Wiring,
) -> Result<Vec<u64>, NoMemory>
    requires each { length actors.now ≡ length wiring.now.programs }
    requires short { sum_by length wiring.now.programs ≤ 4000000 }
    ensures { IfOk result (λ counts. counts.items ≡ map (λ node. dones_at node actors.now wiring.now) (range_with_len 0 nodes)) }
{
    let mut counts = Vec::new(alloc);
    for node in 0..nodes {
        counts.push(dones_at(node, actors, wiring))?;
    }
    Ok(counts)
}

/// How many tasks each node of a platform computes in a run, in node order, by the programs of the run's wiring. Takes one pass over the
/// actors for each node, and one over the program of each node that computes.
///
/// # Errors
///
/// `NoMemory` where memory runs out.
pub fn node_counts(
    alloc: Global,
    timed: &Timed,
    table: &Table,
    chunks: u64,
    wiring: &Wiring,
) -> Result<Vec<u64>, NoMemory>
    requires wiring { wiring.now ≡ wiring_of timed.now table.now chunks }
    requires short { sum_by length wiring.now.programs ≤ 4000000 }
    ensures { IfOk result (λ counts. counts.items ≡ node_counts timed.now table.now chunks) }
{
    timed.known();
    // It names the wiring that the contract speaks of.
    let _ = chunks;
    let actors = actors(alloc, timed, table)?;
    counts_of(
        alloc,
        timed.platform().nodes().len() as u32,
        actors.as_slice(),
        wiring,
    )
}

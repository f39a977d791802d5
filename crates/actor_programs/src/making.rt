//! The wiring of a table.

ghost use Rattle.std.specs.Prelude.{◌≡◌, ◌+◌, ◌-◌, ◌^◌, ◌<◌, ◌≤◌, IfOk, IfErr, All, map, cond, nat_eq, max};
ghost use Rattle.schedule_model.specs.declared.schedule.Series.TheVariants.{Tasking};
ghost use Rattle.period_table.specs.Tables.{Fits};
ghost use Rattle.actor_programs.specs.Tasks.{batches_of};
ghost use Rattle.actor_programs.specs.Places.{places_of};
ghost use Rattle.actor_programs.specs.Programs.{runs_of, actors_of, wiring_of};
ghost use Rattle.actor_programs.specs.Carried.{HasNumbers, CanRun, IsRoomy};
ghost use Rattle.actor_programs.specs.Faults.{IsWiringFault, events_in};

use crate::gathering::{all_events, patterns, programs};
use crate::lanes::lanes;
use crate::places::{Place, places_of};
use crate::run::Run;
use listed::{Listed, NoMemory};
use period_table::{Piece, Slot, Table};
use platform_file::Timed;
use std::alloc::Global;
use step_core::Wiring;

/// Why a table has no wiring.
#[derive(Clone, Copy, Debug, PartialEq, Eq)]
pub enum WiringFault {
    /// Its programs would have more than 4,000,000 events together.
    TooLong {
        /// How many they would have, or 2^64 - 1 where they would have more.
        events: u64,
    },
    /// Memory ran out.
    NoMemory,
}

impl From<NoMemory> for WiringFault {
    ghost use Rattle.std.specs.Prelude.{◌≡◌};
    ghost use Rattle.actor_programs.specs.declared.making.WiringFault.TheVariants.{NoMemory as OutOfMemory};

    ghost from_gives = { λ _ fault. fault ≡ OutOfMemory };

    fn from(_error: NoMemory) -> WiringFault {
        WiringFault::NoMemory
    }
}

/// The most events of a wiring.
const MOST_EVENTS: u64 = 4_000_000;

/// A number has 32 bits.
fn is_known(number: u32)
    ensures { number < 2 ^ 32 }
{
    let _number = number;
}

/// A lane's number has 32 bits.
fn pieces_known(pieces: &[Piece])
    ensures { All (λ piece. piece.lane < 2 ^ 32) pieces.now }
{
    for piece in pieces {
        is_known(piece.lane);
    }
}

/// That of every piece's lane has.
fn slots_known(slots: &[Slot])
    ensures { All (λ slot. All (λ piece. piece.lane < 2 ^ 32) slot.pieces) slots.now }
{
    for slot in slots {
        pieces_known(slot.pieces.as_slice());
    }
}

/// How many batches the chunks fill.
fn batches_of(tasks: u128, chunks: u64) -> u64
    requires some { 1 ≤ tasks }
    requires bounded { tasks ≤ 2 ^ 107 }
    requires few { chunks ≤ 2 ^ 28 }
    ensures value { result ≡ batches_of tasks chunks }
    ensures few { result ≤ 2 ^ 28 }
{
    if chunks == 0 {
        return 0;
    }
    ((u128::from(chunks) + (tasks - 1)) / tasks) as u64
}

/// How many periods a run has.
fn periods_of(batches: u64, depth: u32, chunks: u64) -> u64
    requires { batches ≤ 2 ^ 28 }
    ensures { result ≡ cond (nat_eq chunks 0) 0 (batches + depth) }
{
    if chunks == 0 {
        return 0;
    }
    batches + u64::from(depth)
}

/// Lays out the lanes and the programs of what the actors do in each period.
fn laid(
    alloc: Global,
    timed: &Timed,
    table: &Table,
    chunks: u64,
    places: &[Place],
    runs: &[Listed<Run>],
) -> Result<Wiring, NoMemory>
    requires can { CanRun timed.now table.now chunks }
    requires few { chunks ≤ 2 ^ 28 }
    requires numbers { HasNumbers table.now }
    requires places { places.now ≡ places_of 0 table.now.routes }
    requires runs { runs.now ≡ map (runs_of table.now) (actors_of timed.now table.now) }
    ensures { IfOk result (λ wiring. wiring ≡ wiring_of timed.now table.now chunks) }
{
    timed.known();
    let tasks = table.tasks.max(1);
    let batches = batches_of(tasks, chunks);
    let periods = periods_of(batches, table.depth, chunks);
    let programs = programs(alloc, runs, tasks, chunks, batches, periods)?;
    let lanes = lanes(alloc, timed, table, chunks, places)?;
    let nodes = timed.platform().nodes().len() as u32;
    Ok(Wiring::new(nodes, lanes, programs))
}

/// The wiring of what the actors do in each period. The events are counted before any is laid out.
fn counted(
    alloc: Global,
    timed: &Timed,
    table: &Table,
    chunks: u64,
    places: &[Place],
    runs: &[Listed<Run>],
) -> Result<Wiring, WiringFault>
    requires can { CanRun timed.now table.now chunks }
    requires few { chunks ≤ 2 ^ 28 }
    requires numbers { HasNumbers table.now }
    requires places { places.now ≡ places_of 0 table.now.routes }
    requires runs { runs.now ≡ map (runs_of table.now) (actors_of timed.now table.now) }
    ensures wiring { IfOk result (λ wiring. wiring ≡ wiring_of timed.now table.now chunks) }
    ensures short { IfOk result (λ _. events_in timed.now table.now chunks ≤ 4000000) }
    ensures roomy { IfOk result (λ wiring. All IsRoomy wiring.lanes) }
    ensures fault { IfErr result (λ fault. IsWiringFault timed.now table.now chunks fault) }
{
    let events = all_events(runs, table.tasks.max(1), chunks);
    if events > MOST_EVENTS {
        return Err(WiringFault::TooLong { events });
    }
    Ok(laid(alloc, timed, table, chunks, places, runs)?)
}

/// The lanes of a table, and the programs of its actors, for a run of so many chunks. The actors are numbered as `actors` lists
/// them. A lane's capacity is in tasks. No event is laid out before all are counted.
pub fn wiring(
    alloc: Global,
    timed: &Timed,
    table: &Table,
    chunks: u64,
) -> Result<Wiring, WiringFault>
    requires fits { Fits timed.now Tasking table.now }
    requires few { chunks ≤ 2 ^ 28 }
    requires some { table.now.tasks ≡ 0 → chunks ≡ 0 }
    ensures wiring { IfOk result (λ wiring. wiring ≡ wiring_of timed.now table.now chunks) }
    ensures short { IfOk result (λ _. events_in timed.now table.now chunks ≤ 4000000) }
    ensures roomy { IfOk result (λ wiring. All IsRoomy wiring.lanes) }
    ensures fault { IfErr result (λ fault. IsWiringFault timed.now table.now chunks fault) }
{
    timed.known();
    slots_known(table.slots.as_slice());
    is_known(table.depth);
    let places = places_of(alloc, table.routes.as_slice())?;
    let runs = patterns(alloc, timed, table, places.as_slice())?;
    counted(
        alloc,
        timed,
        table,
        chunks,
        places.as_slice(),
        runs.as_slice(),
    )
}

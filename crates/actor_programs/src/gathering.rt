//! What the actors do, and their programs.

ghost use Rattle.std.specs.Prelude.{◌≡◌, ◌+◌, ◌-◌, ◌^◌, ◌<◌, ◌≤◌, IfOk, All, length, map, min, sum_by};
ghost use Rattle.schedule_model.specs.declared.schedule.Series.TheVariants.{Tasking};
ghost use Rattle.period_table.specs.Lanes.{lanes_of};
ghost use Rattle.period_table.specs.Tables.{Fits, longest};
ghost use Rattle.actor_programs.specs.Tasks.{batches_of};
ghost use Rattle.actor_programs.specs.Lengths.{program_length, programs_from};
ghost use Rattle.actor_programs.specs.Places.{places_of};
ghost use Rattle.actor_programs.specs.Programs.{runs_of, actors_of};

use crate::actor::{Actor, actors};
use crate::computing::computes_of;
use crate::laying::program;
use crate::measuring::program_length;
use crate::places::Place;
use crate::run::Run;
use crate::sending::sends_of;
use listed::{Listed, NoMemory};
use period_table::Table;
use platform_file::Timed;
use std::alloc::Global;
use step_core::Event;

/// What an actor does in each period.
fn runs_of(
    alloc: Global,
    timed: &Timed,
    table: &Table,
    places: &[Place],
    actor: Actor,
) -> Result<Listed<Run>, NoMemory>
    requires fits { Fits timed.now Tasking table.now }
    requires places { places.now ≡ places_of 0 table.now.routes }
    requires lanes { length (lanes_of table.now.routes) ≤ 2 ^ 32 }
    requires short { longest table.now.routes < 2 ^ 32 }
    ensures { IfOk result (λ runs. runs ≡ runs_of table.now actor) }
{
    match actor {
        Actor::Sender { link } => sends_of(alloc, timed, table, places, link),
        Actor::Consumer { node } => computes_of(alloc, table.routes.as_slice(), node),
    }
}

/// What each of some actors does in each period.
fn all_runs(
    alloc: Global,
    timed: &Timed,
    table: &Table,
    places: &[Place],
    actors: &[Actor],
) -> Result<Listed<Listed<Run>>, NoMemory>
    requires fits { Fits timed.now Tasking table.now }
    requires places { places.now ≡ places_of 0 table.now.routes }
    requires lanes { length (lanes_of table.now.routes) ≤ 2 ^ 32 }
    requires short { longest table.now.routes < 2 ^ 32 }
    ensures { IfOk result (λ patterns. patterns ≡ map (runs_of table.now) actors.now) }
{
    let mut out = Listed::new(alloc);
    for actor in actors {
        out.push(runs_of(alloc, timed, table, places, *actor)?)?;
    }
    Ok(out)
}

/// What each actor does in each period.
pub(crate) fn patterns(
    alloc: Global,
    timed: &Timed,
    table: &Table,
    places: &[Place],
) -> Result<Listed<Listed<Run>>, NoMemory>
    requires fits { Fits timed.now Tasking table.now }
    requires places { places.now ≡ places_of 0 table.now.routes }
    requires lanes { length (lanes_of table.now.routes) ≤ 2 ^ 32 }
    requires short { longest table.now.routes < 2 ^ 32 }
    ensures { IfOk result (λ patterns. patterns ≡ map (runs_of table.now) (actors_of timed.now table.now)) }
{
    let actors = actors(alloc, timed, table)?;
    all_runs(alloc, timed, table, places, actors.as_slice())
}

/// How many events all actors have, or 2^64 - 1 where they have more.
pub(crate) fn all_events(patterns: &[Listed<Run>], tasks: u128, chunks: u64) -> u64
    requires some { 1 ≤ tasks }
    requires few { chunks ≤ 2 ^ 28 }
    requires within { All (λ runs. All (λ run. run.offset + run.count ≤ tasks) runs) patterns.now }
    ensures { result ≡ min (sum_by (program_length tasks chunks) patterns.now) (2 ^ 64 - 1) }
{
    let mut events: u64 = 0;
    for runs in patterns {
        events = events.saturating_add(program_length(runs.as_slice(), tasks, chunks));
    }
    events
}

/// The programs of all actors.
pub(crate) fn programs(
    alloc: Global,
    patterns: &[Listed<Run>],
    tasks: u128,
    chunks: u64,
    batches: u64,
    periods: u64,
) -> Result<Listed<Listed<Event>>, NoMemory>
    requires some { 1 ≤ tasks }
    requires few { chunks ≤ 2 ^ 28 }
    requires batches { batches ≡ batches_of tasks chunks }
    requires actors { length patterns.now < 2 ^ 32 }
    requires offsets { All (λ runs. All (λ run. run.offset ≤ 2 ^ 108) runs) patterns.now }
    ensures { IfOk result (λ programs. programs ≡ programs_from tasks chunks periods 0 patterns.now) }
{
    let mut programs = Listed::new(alloc);
    let mut actor = 0;
    for runs in patterns {
        programs.push(program(
            alloc,
            actor,
            runs.as_slice(),
            tasks,
            chunks,
            batches,
            periods,
        )?)?;
        actor += 1;
    }
    Ok(programs)
}

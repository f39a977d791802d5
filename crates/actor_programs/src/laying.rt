//! Programs laid out event by event.

ghost use Rattle.std.specs.Prelude.{◌≡◌, ℕ, ◌+◌, ◌*◌, ◌^◌, ◌<◌, ◌≤◌, ◌++◌, OnOk, IfOk, All, filter, nat_lt};
ghost use Rattle.std.specs.List.{flat_map, range_with_len};
ghost use Rattle.actor_programs.specs.Tasks.{batches_of};
ghost use Rattle.actor_programs.specs.Runs.{taken, used, task_events, run_tasks, period_events, events_below};

use crate::run::Run;
use listed::{Listed, NoMemory};
use std::alloc::Global;
use step_core::Event;

/// Appends how a task comes to an actor.
fn push_taken(
    out: &mut Listed<Event>,
    actor: u32,
    take: Option<u32>,
    task: u64,
) -> Result<(), NoMemory>
    ensures ok { OnOk result (out.new ≡ out.old ++ taken actor take task) }
{
    match take {
        Some(lane) => out.push(Event::Take { actor, lane, task }),
        None => Ok(()),
    }
}

/// Appends what becomes of it.
fn push_used(
    out: &mut Listed<Event>,
    actor: u32,
    lane: Option<u32>,
    task: u64,
) -> Result<(), NoMemory>
    ensures ok { OnOk result (out.new ≡ out.old ++ used actor lane task) }
{
    match lane {
        Some(lane) => {
            out.push(Event::Open { actor, lane, task })?;
            out.push(Event::Close { actor, lane, task })
        }
        None => out.push(Event::Done { actor, task }),
    }
}

/// Appends an actor's events for a task.
fn push_task(out: &mut Listed<Event>, actor: u32, run: &Run, task: u64) -> Result<(), NoMemory>
    ensures ok { OnOk result (out.new ≡ out.old ++ task_events actor run.now task) }
{
    push_taken(out, actor, run.take, task)?;
    push_used(out, actor, run.lane, task)
}

/// Appends an actor's events for those tasks of a run that exist.
fn push_run(
    out: &mut Listed<Event>,
    actor: u32,
    run: &Run,
    first: u128,
    chunks: u64,
) -> Result<(), NoMemory>
    ensures ok { OnOk result (out.new ≡ out.old ++ flat_map (task_events actor run.now) (filter (λ t. nat_lt t chunks) (range_with_len first run.now.count))) }
{
    let mut task = first;
    let mut left = run.count;
    while left > 0 {
        if task >= u128::from(chunks) {
            return Ok(());
        }
        push_task(out, actor, run, task as u64)?;
        task += 1;
        left -= 1;
    }
    Ok(())
}

/// Appends an actor's events of a run in a period.
fn push_turn(
    out: &mut Listed<Event>,
    actor: u32,
    run: &Run,
    tasks: u128,
    chunks: u64,
    batches: u64,
    period: u64,
) -> Result<(), NoMemory>
    requires some { 1 ≤ tasks }
    requires few { chunks ≤ 2 ^ 28 }
    requires batches { batches ≡ batches_of tasks chunks }
    requires offset { run.now.offset ≤ 2 ^ 108 }
    ensures ok { OnOk result (out.new ≡ out.old ++ flat_map (task_events actor run.now) (run_tasks tasks chunks period run.now)) }
{
    let hop = u64::from(run.hop);
    if hop > period {
        return Ok(());
    }
    let batch = period - hop;
    if batch >= batches {
        return Ok(());
    }
    let first = u128::from(batch) * tasks + run.offset;
    push_run(out, actor, run, first, chunks)
}

/// Appends an actor's events of a period.
fn push_period(
    out: &mut Listed<Event>,
    actor: u32,
    runs: &[Run],
    tasks: u128,
    chunks: u64,
    batches: u64,
    period: u64,
) -> Result<(), NoMemory>
    requires some { 1 ≤ tasks }
    requires few { chunks ≤ 2 ^ 28 }
    requires batches { batches ≡ batches_of tasks chunks }
    requires offsets { All (λ run. run.offset ≤ 2 ^ 108) runs.now }
    ensures ok { OnOk result (out.new ≡ out.old ++ period_events tasks chunks actor runs.now period) }
{
    for run in runs {
        push_turn(out, actor, run, tasks, chunks, batches, period)?;
    }
    Ok(())
}

/// An actor's program.
pub(crate) fn program(
    alloc: Global,
    actor: u32,
    runs: &[Run],
    tasks: u128,
    chunks: u64,
    batches: u64,
    periods: u64,
) -> Result<Listed<Event>, NoMemory>
    requires some { 1 ≤ tasks }
    requires few { chunks ≤ 2 ^ 28 }
    requires batches { batches ≡ batches_of tasks chunks }
    requires offsets { All (λ run. run.offset ≤ 2 ^ 108) runs.now }
    ensures { IfOk result (λ events. events ≡ events_below tasks chunks actor runs.now periods) }
{
    let mut events = Listed::new(alloc);
    for period in 0..periods {
        push_period(&mut events, actor, runs, tasks, chunks, batches, period)?;
    }
    Ok(events)
}

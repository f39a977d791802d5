//! How long programs are, before they are laid out.

ghost use Rattle.std.specs.Prelude.{◌≡◌, ◌+◌, ◌-◌, ◌^◌, ◌≤◌, All, length, min};
ghost use Rattle.actor_programs.specs.Tasks.{all_tasks};
ghost use Rattle.actor_programs.specs.Runs.{task_events};
ghost use Rattle.actor_programs.specs.Lengths.{run_length, program_length};

use crate::run::Run;

/// How many tasks from a place on there are in all batches.
pub(crate) fn all_tasks(tasks: u128, chunks: u64, offset: u128, count: u128) -> u64
    requires some { 1 ≤ tasks }
    requires few { chunks ≤ 2 ^ 28 }
    requires within { offset + count ≤ tasks }
    ensures { result ≡ length (all_tasks tasks chunks offset count) }
{
    let chunks = u128::from(chunks);
    let whole = chunks / tasks;
    let rest = chunks % tasks;
    (whole * count + rest.saturating_sub(offset).min(count)) as u64
}

/// How many events a task of a run has.
fn task_length(run: &Run) -> u64
    ensures { result ≡ length (task_events 0 run.now 0) }
{
    match (run.take, run.lane) {
        (None, None) => 1,
        (None, Some(_)) => 2,
        (Some(_), None) => 2,
        (Some(_), Some(_)) => 3,
    }
}

/// How many events a run has.
fn run_length(run: &Run, tasks: u128, chunks: u64) -> u64
    requires some { 1 ≤ tasks }
    requires few { chunks ≤ 2 ^ 28 }
    requires within { run.now.offset + run.now.count ≤ tasks }
    ensures { result ≡ run_length tasks chunks run.now }
{
    task_length(run) * all_tasks(tasks, chunks, run.offset, run.count)
}

/// How many events an actor has, or 2^64 - 1 where it has more.
pub(crate) fn program_length(runs: &[Run], tasks: u128, chunks: u64) -> u64
    requires some { 1 ≤ tasks }
    requires few { chunks ≤ 2 ^ 28 }
    requires within { All (λ run. run.offset + run.count ≤ tasks) runs.now }
    ensures { result ≡ min (program_length tasks chunks runs.now) (2 ^ 64 - 1) }
{
    let mut events: u64 = 0;
    for run in runs {
        events = events.saturating_add(run_length(run, tasks, chunks));
    }
    events
}

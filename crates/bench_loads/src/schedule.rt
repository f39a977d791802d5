//! The load of the check of schedules: pairs of operations, each a task that is sent to a worker and computed there.

ghost use Rattle.std.specs.Prelude.{◌≡◌, ◌*◌, length, IfOk};

use crate::load::Size;
use listed::{Listed, NoMemory};
use platform_file::{Timed, read_platform, timed};
use schedule_model::{Op, Schedule, Series, check_schedule};
use std::alloc::Global;

/// A worker with a time of 2 behind a link of cost 3.
const ONE_WORKER: &str =
    "version = 1\nmaster = 'm'\nnode = [{name = 'm'}, {name = 'w', time = 2}]\n\
    link = [{from = 'm', to = 'w', cost = 3}]\n";

/// Sends without a pause, each task computed as it comes.
fn long_schedule(alloc: Global, pairs: u32) -> Result<Schedule, NoMemory>
    ensures { IfOk result (λ schedule. length schedule.ops ≡ 2 * pairs) }
{
    let mut ops = Listed::new(alloc);
    for pair in 0..pairs {
        let start = 3 * u128::from(pair);
        ops.push(Op::Send {
            link: 0,
            kind: 0,
            start,
        })?;
        ops.push(Op::Compute {
            node: 1,
            start: start + 3,
        })?;
    }
    Ok(Schedule {
        ticks_per_unit: 1,
        length: 3 * u128::from(pairs) + 2,
        ops,
    })
}

/// The platform of one worker, in ticks.
fn one_worker(alloc: Global) -> Option<Timed> {
    let platform = read_platform(alloc, ONE_WORKER.as_bytes()).ok()?;
    timed(alloc, platform).ok()
}

/// What the check of a schedule answers, made as often as said; nothing where it isn't made at all.
fn last_count(timed: &Timed, schedule: &Schedule, times: u32) -> Option<u64> {
    let mut count = None;
    for _ in 0..times {
        count = Some(check_schedule(timed, Series::Tasking, schedule).ok()?);
    }
    count
}

/// What the check of a schedule of so many pairs answers over a platform.
fn completed_over(alloc: Global, timed: &Timed, size: Size) -> Option<u64> {
    let schedule = long_schedule(alloc, size.parts).ok()?;
    last_count(timed, &schedule, size.times)
}

/// What the check of a schedule of so many pairs answers, made as often as said; nothing where it isn't made at all.
pub fn completed(alloc: Global, size: Size) -> Option<u64> {
    let timed = one_worker(alloc)?;
    completed_over(alloc, &timed, size)
}

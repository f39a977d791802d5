//! The lanes of a wiring.

ghost use Rattle.std.specs.Prelude.{◌≡◌, ◌+◌, ◌*◌, ◌^◌, ◌<◌, ◌≤◌, IfOk, length, map, max, min};
ghost use Rattle.std.specs.List.{range_with_len};
ghost use Rattle.schedule_model.specs.declared.schedule.Series.TheVariants.{Tasking};
ghost use Rattle.schedule_model.specs.Operations.{sender_of, receiver_of};
ghost use Rattle.period_table.specs.Lanes.{lanes_of};
ghost use Rattle.period_table.specs.Tables.{Fits};
ghost use Rattle.actor_programs.specs.Tasks.{all_tasks};
ghost use Rattle.actor_programs.specs.Places.{places_of, lane_with};
ghost use Rattle.actor_programs.specs.Programs.{lane_of};

use crate::measuring::all_tasks;
use crate::places::Place;
use listed::{Listed, NoMemory};
use period_table::Table;
use platform_file::Timed;
use std::alloc::Global;
use step_core::Lane;

/// The lane at a place.
fn lane_of(timed: &Timed, tasks: u128, chunks: u64, place: Place) -> Lane
    requires link { place.link < length timed.now.platform.links }
    requires some { 1 ≤ tasks }
    requires bounded { tasks ≤ 2 ^ 107 }
    requires few { chunks ≤ 2 ^ 28 }
    requires within { place.offset + place.count ≤ tasks }
    ensures { result ≡ lane_with timed.now tasks chunks place }
{
    timed.known();
    let link = &timed.platform().links()[place.link as usize];
    let moved = all_tasks(tasks, chunks, place.offset, place.count);
    let room = (2 * place.count).min(u128::from(moved)) as u64;
    Lane {
        sender: link.from(),
        receiver: link.to(),
        capacity: room.max(1),
    }
}

/// The lanes of a table.
pub(crate) fn lanes(
    alloc: Global,
    timed: &Timed,
    table: &Table,
    chunks: u64,
    places: &[Place],
) -> Result<Listed<Lane>, NoMemory>
    requires fits { Fits timed.now Tasking table.now }
    requires few { chunks ≤ 2 ^ 28 }
    requires places { places.now ≡ places_of 0 table.now.routes }
    ensures { IfOk result (λ lanes. lanes ≡ map (lane_of timed.now table.now chunks) (range_with_len 0 (length (lanes_of table.now.routes)))) }
{
    timed.known();
    let mut lanes = Listed::new(alloc);
    for place in places {
        lanes.push(lane_of(timed, table.tasks, chunks, *place))?;
    }
    Ok(lanes)
}

//! The cut of a period into slots.

ghost use Rattle.std.specs.Prelude.{◌≡◌, ℕ, ◌+◌, ◌^◌, ◌<◌, [], All, length, get_or, slice_index, sum_by, IfOk};
ghost use Rattle.period_table.specs.Cuts.{IsSeparate, room_in, overlap, pieces_from, cut_slots};
ghost use Rattle.period_table.specs.Lanes.{lanes_of};
ghost use Rattle.period_table.specs.Tables.{longest};

use crate::lane::{Lane, lanes_of};
use crate::table::{Piece, Slot};
use bipartite_slots::SlotPart;
use flow_routes::Route;
use listed::{Listed, NoMemory};
use platform_file::Timed;
use std::alloc::Global;

/// The most links that a platform has.
const LINKS: usize = 128;

/// How many tasks each link has time for in a part.
fn rooms_in(timed: &Timed, part: &SlotPart) -> [u128; LINKS]
    requires exist { All (λ link. link < length timed.now.platform.links) part.now.edges }
    ensures value { (link : ℕ) → link < 128 → get_or result link 0 ≡ room_in timed.now part.now link }
{
    timed.known();
    let mut rooms = [0; LINKS];
    for link in part.edges.as_slice() {
        rooms[*link as usize] = part.duration / u128::from(timed.cost(*link));
    }
    rooms
}

/// How many numbers two ranges share, each given by its first number and its size.
fn overlap(from: u128, count: u128, first: u128, size: u128) -> u128
    requires range { from + count < 2 ^ 128 }
    requires other { first + size < 2 ^ 128 }
    ensures { result ≡ overlap from count first size }
{
    (from + count)
        .min(first + size)
        .saturating_sub(from.max(first))
}

/// The pieces of a slot: of each link's tasks, in lane order, those for which it has room behind the first ones, which were moved before.
fn pieces_of(
    alloc: Global,
    lanes: &[Lane],
    first: &[u128],
    rooms: &[u128],
) -> Result<Listed<Piece>, NoMemory>
    requires firsts { length first.now ≡ 128 }
    requires sizes { length rooms.now ≡ 128 }
    requires links { All (λ lane. lane.link < 128) lanes.now }
    requires few { length lanes.now < 2 ^ 32 }
    requires short { sum_by (λ lane. lane.count) lanes.now < 2 ^ 128 }
    requires room { (link : ℕ) → link < 128 → get_or first.now link 0 + get_or rooms.now link 0 < 2 ^ 128 }
    ensures { IfOk result (λ pieces. pieces ≡ pieces_from (slice_index first.now) (slice_index rooms.now) 0 [] lanes.now) }
{
    let mut before = [0u128; LINKS];
    let mut pieces = Listed::new(alloc);
    let mut number = 0;
    for lane in lanes {
        let link = lane.link as usize;
        let count = overlap(before[link], lane.count, first[link], rooms[link]);
        if count > 0 {
            pieces.push(Piece {
                lane: number,
                count,
            })?;
        }
        before[link] += lane.count;
        number += 1;
    }
    Ok(pieces)
}

/// Adds what a slot moves over each link to what was moved before.
fn add_rooms(moved: &mut [u128], rooms: &[u128])
    requires firsts { length moved.old ≡ 128 }
    requires sizes { length rooms.now ≡ 128 }
    requires room { (link : ℕ) → link < 128 → get_or moved.old link 0 + get_or rooms.now link 0 < 2 ^ 128 }
    ensures firsts { length moved.new ≡ 128 }
    ensures sums { (link : ℕ) → link < 128 → get_or moved.new link 0 ≡ get_or moved.old link 0 + get_or rooms.now link 0 }
{
    for link in 0..LINKS {
        moved[link] += rooms[link];
    }
}

/// The slots into which parts cut a period of some routes: a slot a part, in which each of its links moves as many tasks as it has time
/// for. A link's lanes take their turns in their order.
///
/// Takes a pass over the lanes for each part.
///
/// # Errors
///
/// `NoMemory` where memory runs out.
pub fn cut(
    alloc: Global,
    timed: &Timed,
    routes: &[Route],
    parts: &[SlotPart],
) -> Result<Listed<Slot>, NoMemory>
    requires exist { All (λ lane. lane.link < length timed.now.platform.links) (lanes_of routes.now) }
    requires deep { longest routes.now < 2 ^ 32 }
    requires few { length (lanes_of routes.now) < 2 ^ 32 }
    requires short { sum_by (λ lane. lane.count) (lanes_of routes.now) < 2 ^ 128 }
    requires parts { All (IsSeparate timed.now) parts.now }
    requires time { sum_by (λ part. part.duration) parts.now < 2 ^ 128 }
    ensures { IfOk result (λ slots. slots ≡ cut_slots timed.now (lanes_of routes.now) parts.now) }
{
    timed.known();
    let lanes = lanes_of(alloc, routes)?;
    let mut moved = [0u128; LINKS];
    let mut slots = Listed::new(alloc);
    for part in parts {
        let rooms = rooms_in(timed, part);
        let pieces = pieces_of(alloc, lanes.as_slice(), &moved, &rooms)?;
        let duration = part.duration;
        slots.push(Slot { duration, pieces })?;
        add_rooms(&mut moved, &rooms);
    }
    Ok(slots)
}

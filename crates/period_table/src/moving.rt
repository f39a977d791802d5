//! Whether the slots of a table move what its routes carry.

ghost use Rattle.std.specs.Prelude.{◌≡◌, ℕ, ◌+◌, ◌^◌, ◌<◌, ◌≤◌, true, All, length, min, cond, nat_eq, get_or, sum_by};
ghost use Rattle.period_table.specs.Lanes.{lanes_of, lane_at};
ghost use Rattle.period_table.specs.Tables.{moved_over};

use crate::sums::lane_count;
use crate::table::{Piece, Slot};
use crate::walks::MOST_CARRIED;
use flow_routes::Route;

/// How many lanes are looked at in one pass over the slots.
const WINDOW: usize = 512;

/// Adds what some pieces move over the lanes from one on. Each sum is told up to one more than a lane carries.
fn add_pieces(moved: &mut [u128], pieces: &[Piece], first: u128)
    requires size { length moved.old ≡ 512 }
    ensures size { length moved.new ≡ 512 }
    ensures sums { (k : ℕ) → k < 512
        → min (get_or moved.new k 0) (2 ^ 100 + 1) ≡ min (get_or moved.old k 0 + sum_by (λ piece. cond (nat_eq piece.lane (first + k)) piece.count 0) pieces.now) (2 ^ 100 + 1) }
{
    for piece in pieces {
        let lane = u128::from(piece.lane);
        if first <= lane && lane - first < 512 {
            let k = (lane - first) as usize;
            moved[k] = moved[k].saturating_add(piece.count).min(MOST_CARRIED + 1);
        }
    }
}

/// Whether the lanes of a route, of which the first has a number, carry what is moved over those from one on.
fn is_route_moved(moved: &[u128], first: u128, lane: u128, route: &Route) -> bool
    requires size { length moved.now ≡ 512 }
    requires few { lane + length route.now.links < 2 ^ 128 }
    ensures yes { result ≡ true → (k : ℕ) → k < 512 → lane ≤ first + k → first + k < lane + length route.now.links
        → get_or moved.now k 0 ≡ route.now.count }
    ensures no { ((k : ℕ) → k < 512 → lane ≤ first + k → first + k < lane + length route.now.links → get_or moved.now k 0 ≡ route.now.count)
        → result ≡ true }
{
    let from = lane.saturating_sub(first).min(512) as usize;
    let end = lane + route.links.len() as u128;
    let to = end.saturating_sub(first).min(512) as usize;
    for k in from..to {
        if moved[k] != route.count {
            return false;
        }
    }
    true
}

/// Whether each of the lanes from one on carries what is moved over it.
fn is_window_moved(moved: &[u128], first: u128, routes: &[Route]) -> bool
    requires size { length moved.now ≡ 512 }
    requires few { length (lanes_of routes.now) < 2 ^ 128 }
    ensures yes { result ≡ true → (k : ℕ) → k < 512 → first + k < length (lanes_of routes.now)
        → get_or moved.now k 0 ≡ (lane_at (lanes_of routes.now) (first + k)).count }
    ensures no { ((k : ℕ) → k < 512 → first + k < length (lanes_of routes.now) → get_or moved.now k 0 ≡ (lane_at (lanes_of routes.now) (first + k)).count)
        → result ≡ true }
{
    let mut lane = 0;
    for route in routes {
        if !is_route_moved(moved, first, lane, route) {
            return false;
        }
        lane += route.links.len() as u128;
    }
    true
}

/// What the slots move over each of the lanes from one on, told up to one more than a lane carries.
fn moved_from(slots: &[Slot], first: u128) -> [u128; WINDOW]
    ensures { (k : ℕ) → k < 512 → min (get_or result k 0) (2 ^ 100 + 1) ≡ min (moved_over (first + k) slots.now) (2 ^ 100 + 1) }
{
    let mut moved = [0; WINDOW];
    for slot in slots {
        add_pieces(&mut moved, slot.pieces.as_slice(), first);
    }
    moved
}

/// Whether the slots move over each lane what its route carries. Takes no memory, and a pass over the slots for each 512 lanes.
pub fn are_moved(slots: &[Slot], routes: &[Route]) -> bool
    requires bounded { All (λ route. route.count ≤ 2 ^ 100) routes.now }
    ensures yes { result ≡ true → (lane : ℕ) → lane < length (lanes_of routes.now)
        → moved_over lane slots.now ≡ (lane_at (lanes_of routes.now) lane).count }
    ensures no { ((lane : ℕ) → lane < length (lanes_of routes.now) → moved_over lane slots.now ≡ (lane_at (lanes_of routes.now) lane).count)
        → result ≡ true }
{
    let lanes = lane_count(routes);
    let mut first = 0;
    while first < lanes {
        if !is_window_moved(&moved_from(slots, first), first, routes) {
            return false;
        }
        first = first.saturating_add(512);
    }
    true
}

//! Which tables fit a platform.

ghost use Rattle.std.specs.Prelude.{◌≡◌, ℕ, ◌*◌, ◌^◌, ◌<◌, ◌≤◌, true, All, length, Some, None, cond, nat_le, nat_eq, sum_by};
ghost use Rattle.ratio_core.specs.Fraction.{reduced};
ghost use Rattle.period_table.specs.Lanes.{lanes_of};
ghost use Rattle.period_table.specs.Tables.{IsPiece, IsSlot, HasTasks, Fits};

use crate::moving::are_moved;
use crate::sums::{
    MOST_TASKS, MOST_TICKS, kind_within, lane_count, longest, tasks_within, ticks_within,
};
use crate::table::{Piece, Slot, Table};
use crate::walks::{MOST_CARRIED, are_routes};
use flow_routes::Route;
use platform_file::Timed;
use ratio_core::{Ratio, product_within};
use schedule_model::Series;

/// The greatest part of a rate.
const MOST_RATE: u128 = 1 << 127;

/// Whether a piece is of a lane that exists, and carries from 1 to 2^100 tasks.
fn is_piece(lanes: u128, routes: &[Route], piece: &Piece) -> bool
    requires { lanes ≡ length (lanes_of routes.now) }
    ensures yes { result ≡ true → IsPiece (lanes_of routes.now) piece.now }
    ensures no { IsPiece (lanes_of routes.now) piece.now → result ≡ true }
{
    u128::from(piece.lane) < lanes && 1 <= piece.count && piece.count <= MOST_CARRIED
}

/// Whether a slot lasts, with pieces by ascending lane. It is given how many lanes the routes have, which [`lane_count`] tells.
///
/// Takes time in the number of its pieces.
pub fn is_slot(lanes: u128, routes: &[Route], slot: &Slot) -> bool
    requires { lanes ≡ length (lanes_of routes.now) }
    ensures yes { result ≡ true → IsSlot (lanes_of routes.now) slot.now }
    ensures no { IsSlot (lanes_of routes.now) slot.now → result ≡ true }
{
    let mut next = 0;
    for piece in slot.pieces.as_slice() {
        if !is_piece(lanes, routes, piece) || u64::from(piece.lane) < next {
            return false;
        }
        next = u64::from(piece.lane) + 1;
    }
    1 <= slot.duration
}

/// Whether all of some slots are such.
fn are_slots(routes: &[Route], slots: &[Slot]) -> bool
    ensures yes { result ≡ true → All (IsSlot (lanes_of routes.now)) slots.now }
    ensures no { All (IsSlot (lanes_of routes.now)) slots.now → result ≡ true }
{
    let lanes = lane_count(routes);
    for slot in slots {
        if !is_slot(lanes, routes, slot) {
            return false;
        }
    }
    true
}

/// Whether the routes of each kind carry a table's tasks.
fn each_kind_has(routes: &[Route], kinds: usize, tasks: u128) -> bool
    requires few { kinds ≤ 8 }
    requires tasks { tasks ≤ 2 ^ 107 }
    ensures yes { result ≡ true → (kind : ℕ) → kind < kinds → tasks ≡ sum_by (λ route. cond (nat_eq route.kind kind) route.count 0) routes.now }
    ensures no { ((kind : ℕ) → kind < kinds → tasks ≡ sum_by (λ route. cond (nat_eq route.kind kind) route.count 0) routes.now) → result ≡ true }
{
    for kind in 0..kinds {
        if kind_within(routes, kind as u32) != tasks {
            return false;
        }
    }
    true
}

/// Whether a table's tasks are those of its routes, for a Scatter those of each target's. Takes a pass over the routes, and one for each
/// target.
pub fn has_tasks(timed: &Timed, series: Series, table: &Table) -> bool
    requires { table.now.tasks ≤ 2 ^ 107 }
    ensures yes { result ≡ true → HasTasks timed.now series table.now }
    ensures no { HasTasks timed.now series table.now → result ≡ true }
{
    timed.known();
    let routes = table.routes.as_slice();
    let kinds = timed.platform().targets().len();
    match series {
        Series::Tasking => tasks_within(routes) == table.tasks,
        Series::Scatter => 0 < kinds && each_kind_has(routes, kinds, table.tasks),
    }
}

/// Whether the slots of a table make up its period, which is of at most 2^100 ticks. Takes a pass over the slots.
pub fn has_period(table: &Table) -> bool
    ensures yes { result ≡ true → (table.now.period ≡ sum_by (λ slot. slot.duration) table.now.slots) × (table.now.period ≤ 2 ^ 100) }
    ensures no { table.now.period ≡ sum_by (λ slot. slot.duration) table.now.slots → table.now.period ≤ 2 ^ 100 → result ≡ true }
{
    table.period <= MOST_TICKS && ticks_within(table.slots.as_slice()) == table.period
}

/// Whether the numerator of a table's rate is at most 2^127.
fn has_rate(timed: &Timed, table: &Table) -> bool
    ensures yes { result ≡ true → (reduced (table.now.tasks * timed.now.unit) table.now.period).num ≤ 2 ^ 127 }
    ensures no { 1 ≤ table.now.period → (reduced (table.now.tasks * timed.now.unit) table.now.period).num ≤ 2 ^ 127 → result ≡ true }
{
    1 <= table.period && table.rate(timed).is_some()
}

impl Table {
    /// The table's rate in tasks per time unit, where its numerator is at most 2^127.
    pub fn rate(&self, timed: &Timed) -> Option<Ratio>
        requires { 1 ≤ self.now.period }
        ensures { result
            ≡ cond (nat_le (reduced (self.now.tasks * timed.now.unit) self.now.period).num (2 ^ 127)) (Some (reduced (self.now.tasks * timed.now.unit) self.now.period)) None }
    {
        product_within(self.tasks, u128::from(timed.unit()), self.period, MOST_RATE)
    }

    /// Whether the table is one of this platform and series: its routes are simple walks from a master to where their tasks are used,
    /// its numbers are those of its routes and slots, and its slots move what the routes carry.
    ///
    /// Takes no memory; a pass over routes and slots, and one more for each 512 lanes.
    pub fn fits(&self, timed: &Timed, series: Series) -> bool
        ensures yes { result ≡ true → Fits timed.now series self.now }
        ensures no { Fits timed.now series self.now → result ≡ true }
    {
        let routes = self.routes.as_slice();
        let slots = self.slots.as_slice();
        are_routes(timed, series, routes)
            && self.tasks <= MOST_TASKS
            && has_tasks(timed, series, self)
            && longest(routes) as u64 == u64::from(self.depth)
            && !slots.is_empty()
            && slots.len() as u64 <= u64::from(u32::MAX)
            && are_slots(routes, slots)
            && has_period(self)
            && are_moved(slots, routes)
            && has_rate(timed, self)
    }
}

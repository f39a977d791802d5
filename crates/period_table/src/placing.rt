//! The operations of a period, in the order in which they are placed.

ghost use Rattle.std.specs.Prelude.{◌≡◌, ℕ, ◌+◌, ◌*◌, ◌^◌, ◌<◌, ◌≤◌, [], ◌++◌, OnOk, length, All, filter, sum_by};
ghost use Rattle.period_table.specs.BusySlots.{busy_slots};
ghost use Rattle.period_table.specs.Lanes.{lanes_of};
ghost use Rattle.period_table.specs.TableSchedules.{one_after_another, compute_at, sends_of_pieces, sends_of_slots, computes_of_routes, period_ops, has_batch, has_arrived};
ghost use Rattle.period_table.specs.Tables.{IsPiece, IsSlot, Fits};

use crate::busy::BusySlot;
use crate::lane::Lane;
use crate::placed::Placed;
use crate::table::{Piece, Slot, Table};
use flow_routes::Route;
use listed::NoMemory;
use platform_file::Timed;
use schedule_model::{Op, Series};

/// The most nodes that a platform has.
const NODES: usize = 32;

/// The most links that a platform has.
const LINKS: usize = 128;

/// Appends some sends over a lane, one after another.
fn place_sends(
    out: &mut Vec<Placed>,
    lane: u32,
    link: u32,
    kind: u32,
    lasts: u64,
    start: u128,
    count: u128,
) -> Result<(), NoMemory>
    requires short { start + count * lasts < 2 ^ 128 }
    ensures ok { OnOk result
        (out.new.items ≡ out.old.items ++ one_after_another (λ s. record { op = Op.Send link kind s; lane = lane }) lasts start count) }
{
    let mut left = count;
    let mut next = start;
    while left > 0 {
        let send = Op::Send {
            link,
            kind,
            start: next,
        };
        out.push(Placed::new(send, lane))?;
        next += u128::from(lasts);
        left -= 1;
    }
    Ok(())
}

/// Appends the sends of those pieces of a slot whose batch exists in a period.
fn place_pieces(
    out: &mut Vec<Placed>,
    timed: &Timed,
    lanes: &[Lane],
    pieces: &[Piece],
    period: u64,
    start: u128,
) -> Result<(), NoMemory>
    requires exist { All (IsPiece lanes.now) pieces.now }
    requires links { All (λ lane. lane.link < length timed.now.platform.links) lanes.now }
    requires few { sum_by (λ piece. piece.count) (filter (has_batch lanes.now period) pieces.now) ≤ 4000000 }
    requires short { start < 2 ^ 127 }
    ensures ok { OnOk result
        (out.new.items ≡ out.old.items ++ sends_of_pieces timed.now lanes.now start [] (filter (has_batch lanes.now period) pieces.now)) }
{
    timed.known();
    let mut used = [0u128; LINKS];
    for piece in pieces {
        let lane = &lanes[piece.lane as usize];
        if u64::from(lane.hop) <= period {
            let (link, lasts) = (lane.link, timed.cost(lane.link));
            let begin = start + used[link as usize] * u128::from(lasts);
            place_sends(out, piece.lane, link, lane.kind, lasts, begin, piece.count)?;
            used[link as usize] += piece.count;
        }
    }
    Ok(())
}

/// Appends some computations at a node, one after another.
fn place_computations(
    out: &mut Vec<Placed>,
    node: u32,
    lasts: u64,
    start: u128,
    count: u128,
) -> Result<(), NoMemory>
    requires short { start + count * lasts < 2 ^ 128 }
    ensures ok { OnOk result (out.new.items ≡ out.old.items ++ one_after_another (compute_at node) lasts start count) }
{
    let mut left = count;
    let mut next = start;
    while left > 0 {
        let compute = Op::Compute { node, start: next };
        out.push(Placed::new(compute, 0))?;
        next += u128::from(lasts);
        left -= 1;
    }
    Ok(())
}

/// Appends the computations of those routes whose first batch has come by a period.
fn place_computes(
    out: &mut Vec<Placed>,
    timed: &Timed,
    routes: &[Route],
    period: u64,
    start: u128,
) -> Result<(), NoMemory>
    requires nodes { All (λ route. route.end < length timed.now.platform.nodes) routes.now }
    requires few { sum_by (λ route. route.count) (filter (has_arrived period) routes.now) ≤ 4000000 }
    requires short { start < 2 ^ 127 }
    ensures ok { OnOk result
        (out.new.items ≡ out.old.items ++ computes_of_routes timed.now start [] (filter (has_arrived period) routes.now)) }
{
    timed.known();
    let mut used = [0u128; NODES];
    for route in routes {
        if route.links.len() as u64 <= period {
            let node = route.end;
            let lasts = timed.time(node).unwrap_or(0);
            let begin = start + used[node as usize] * u128::from(lasts);
            place_computations(out, node, lasts, begin, route.count)?;
            used[node as usize] += route.count;
        }
    }
    Ok(())
}

/// Appends the sends of a period's slots.
fn place_slots(
    out: &mut Vec<Placed>,
    timed: &Timed,
    lanes: &[Lane],
    slots: &[Slot],
    busy: &[BusySlot],
    period: u64,
    start: u128,
) -> Result<(), NoMemory>
    requires busy { busy.now ≡ busy_slots 0 0 slots.now }
    requires exist { All (IsSlot lanes.now) slots.now }
    requires links { All (λ lane. lane.link < length timed.now.platform.links) lanes.now }
    requires few { length (sends_of_slots timed.now lanes.now period start slots.now) ≤ 4000000 }
    requires short { start + sum_by (λ slot. slot.duration) slots.now < 2 ^ 127 }
    ensures ok { OnOk result (out.new.items ≡ out.old.items ++ sends_of_slots timed.now lanes.now period start slots.now) }
{
    for at in busy {
        let pieces = slots[at.slot as usize].pieces.as_slice();
        place_pieces(out, timed, lanes, pieces, period, start + at.start)?;
    }
    Ok(())
}

/// Appends the operations of a period.
pub(crate) fn place_period(
    out: &mut Vec<Placed>,
    timed: &Timed,
    series: Series,
    table: &Table,
    lanes: &[Lane],
    busy: &[BusySlot],
    period: u64,
) -> Result<(), NoMemory>
    requires fits { Fits timed.now series table.now }
    requires lanes { lanes.now ≡ lanes_of table.now.routes }
    requires busy { busy.now ≡ busy_slots 0 0 table.now.slots }
    requires period { period < 1000000 }
    requires few { length (period_ops timed.now series table.now period) ≤ 4000000 }
    ensures ok { OnOk result (out.new.items ≡ out.old.items ++ period_ops timed.now series table.now period) }
{
    timed.known();
    let start = u128::from(period) * table.period;
    place_slots(
        out,
        timed,
        lanes,
        table.slots.as_slice(),
        busy,
        period,
        start,
    )?;
    match series {
        Series::Tasking => place_computes(out, timed, table.routes.as_slice(), period, start),
        Series::Scatter => Ok(()),
    }
}

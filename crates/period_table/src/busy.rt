//! The slots of a table in which something moves.

ghost use Rattle.std.specs.Prelude.{◌≡◌, ◌^◌, ◌<◌, length, sum_by, IfOk};
ghost use Rattle.period_table.specs.BusySlots.{busy_slots};

use crate::table::Slot;
use listed::{Listed, NoMemory};
use std::alloc::Global;

/// A slot with pieces: how many ticks of the period are before it, and its number.
#[derive(Clone, Copy, Debug, PartialEq, Eq)]
pub(crate) struct BusySlot {
    pub(crate) start: u128,
    pub(crate) slot: u32,
}

/// The slots with pieces, in order.
pub(crate) fn busy_slots(alloc: Global, slots: &[Slot]) -> Result<Listed<BusySlot>, NoMemory>
    requires few { length slots.now < 2 ^ 32 }
    requires short { sum_by (λ slot. slot.duration) slots.now < 2 ^ 128 }
    ensures { IfOk result (λ busy. busy ≡ busy_slots 0 0 slots.now) }
{
    let mut busy = Listed::new(alloc);
    let mut start = 0;
    let mut number = 0;
    for slot in slots {
        if !slot.pieces.is_empty() {
            busy.push(BusySlot {
                start,
                slot: number,
            })?;
        }
        start += slot.duration;
        number += 1;
    }
    Ok(busy)
}

//! Lists, and want of memory.

use crate::tests::comparing::{fails_at, holds};
use listed::{Listed, NoMemory};
use std::alloc::AllocError;
use std::test::Fail;

/// What a list has after each of these is appended.
static ITEMS: [(u32, &[u32]); 2] = [(3, &[3]), (1, &[3, 1])];

fn has(list: &Listed<u32>, items: &[u32]) -> bool {
    list.as_slice() == items
}

fn keeps(list: &mut Listed<u32>) -> Result<(), Fail> {
    holds(list.is_empty(), "no item")?;
    for row in &ITEMS {
        list.push(row.0)?;
        if !has(list, row.1) {
            return fails_at(row);
        }
    }
    holds(list.len() == 2, "two items")
}

#[test]
fn keeps_items_in_order(rt: HostRuntime) -> Result<(), Fail> {
    keeps(&mut Listed::new(rt.alloc()))
}

#[test]
fn takes_the_want_of_memory_over() -> Result<(), Fail> {
    holds(NoMemory::from(AllocError) == NoMemory, "AllocError")
}

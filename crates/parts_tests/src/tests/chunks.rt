//! Chunks and their digests.

use crate::tests::comparing::{fails_at, holds};
use chunk_tasks::{Digested, Item, cut, digest_item};
use std::test::Fail;

/// Chunks of `abc`, with their numbers.
static TWOS: [(u64, &[u8]); 2] = [(0, b"ab"), (1, b"c")];

/// The digest of `abc`.
const ABC: [u8; 32] = [
    0xba, 0x78, 0x16, 0xbf, 0x8f, 0x01, 0xcf, 0xea, 0x41, 0x41, 0x40, 0xde, 0x5d, 0xae, 0x22, 0x23,
    0xb0, 0x03, 0x61, 0xa3, 0x96, 0x17, 0x7a, 0x9c, 0xb4, 0x10, 0xff, 0x61, 0xf2, 0x00, 0x15, 0xad,
];

fn is(item: &Item, row: (u64, &[u8])) -> bool {
    item.id() == row.0 && item.bytes() == row.1
}

fn are_twos(items: &[Item]) -> Result<(), Fail> {
    for (item, row) in items.iter().zip(&TWOS) {
        if !is(item, *row) {
            return fails_at(row);
        }
    }
    holds(items.len() == 2, "two chunks")
}

#[test]
fn cuts_into_twos(rt: HostRuntime) -> Result<(), Fail> {
    are_twos(cut(rt.alloc(), b"abc", 2)?.as_slice())
}

#[test]
fn cuts_nothing_out_of_nothing(rt: HostRuntime) -> Result<(), Fail> {
    holds(cut(rt.alloc(), b"", 2)?.is_empty(), "no chunk")
}

fn is_abc(digested: &Digested) -> bool {
    digested.id() == 0 && *digested.digest() == ABC
}

fn is_digested(mut items: Vec<Item>) -> bool {
    match items.pop() {
        Some(item) => is_abc(&digest_item(item)),
        None => false,
    }
}

#[test]
fn digests_a_chunk(rt: HostRuntime) -> Result<(), Fail> {
    holds(
        is_digested(cut(rt.alloc(), b"abc", 3)?),
        "the digest of abc",
    )
}

//! Cuts data into chunks, and digests each.
//!
//! A chunk is an `Item`: it is moved from hand to hand and never copied. Its digest can be had once, since taking it consumes the
//! item.
#![tactic(auto)]

mod chunks;
mod digests;

pub use chunks::{Item, chunk_count, cut};
pub use digests::{Digested, digest_chunks, digest_item};

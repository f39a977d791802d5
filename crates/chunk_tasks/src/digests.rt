//! Digests of chunks.

ghost use Rattle.std.specs.Prelude.{◌≡◌, ◌≤◌, IfOk};
ghost use Rattle.sha2.specs.Sha256.{sha256};
ghost use Rattle.chunk_tasks.specs.Chunks.{digests_of};

use crate::chunks::{Item, chunk_at, chunk_count};
use listed::NoMemory;
use sha2::{Digest, Sha256};
use std::alloc::Global;
use std::marker::Model;

/// The digest of a chunk, with the chunk's number. `digest_item` alone makes it.
#[derive(Drop)]
pub struct Digested {
    id: u64,
    digest: [u8; 32],
}

impl Model for Digested {
    ghost use Rattle.chunk_tasks.specs.Chunks.{DigestedView};

    ghost Value = { DigestedView };

    ghost view = { λ a. record { id = a.id; digest = a.digest } };
}

impl Digested {
    /// The chunk's number.
    pub fn id(&self) -> u64
        ensures { result ≡ self.now.id }
    {
        self.id
    }

    /// The SHA-256 digest of the chunk's bytes.
    pub fn digest(&self) -> &[u8; 32]
        ensures { result.now ≡ self.now.digest }
    {
        &self.digest
    }
}

/// Consumes a chunk and gives its SHA-256 digest, in time linear in its bytes. Takes no memory.
pub fn digest_item(item: Item) -> Digested
    ensures id { result.id ≡ item.id }
    ensures digest { result.digest ≡ sha256 item.bytes }
{
    Digested {
        id: item.id(),
        digest: Sha256::digest(item.bytes()),
    }
}

/// The SHA-256 digest of each chunk of `size` bytes of some data, in order, without a copy of a byte. Takes time linear in the data.
///
/// # Errors
///
/// `NoMemory` where memory runs out.
pub fn digest_chunks(alloc: Global, bytes: &[u8], size: u32) -> Result<Vec<[u8; 32]>, NoMemory>
    requires { 1 ≤ size }
    ensures { IfOk result (λ digests. digests.items ≡ digests_of size bytes.now) }
{
    let size = size as usize;
    let count = chunk_count(bytes, size);
    let mut digests = Vec::with_capacity(alloc, count)?;
    for number in 0..count {
        digests.push(Sha256::digest(chunk_at(bytes, size, number)))?;
    }
    Ok(digests)
}

//! Chunks of data.

ghost use Rattle.std.specs.Prelude.{◌≡◌, ℕ, ◌≤◌, ◌<◌, ◌*◌, ◌^◌, length, map, IfOk};
ghost use Rattle.sha2.specs.Sha256.{sha256};
ghost use Rattle.chunk_tasks.specs.Chunks.{chunk_at, chunk_count, items_of, chunks_of, digests_of};

use listed::NoMemory;
use std::alloc::Global;
use std::marker::Model;

/// A chunk with its number. It is moved and never copied.
#[derive(Drop)]
pub struct Item {
    id: u64,
    bytes: Vec<u8>,
}

impl Model for Item {
    ghost use Rattle.chunk_tasks.specs.Chunks.{ItemView};

    ghost Value = { ItemView };

    ghost view = { λ a. record { id = a.id; bytes = a.bytes.items } };
}

impl Item {
    /// The chunk's number, from 0.
    pub fn id(&self) -> u64
        ensures { result ≡ self.now.id }
    {
        self.id
    }

    /// The chunk's bytes.
    pub fn bytes(&self) -> &[u8]
        ensures { result.now ≡ self.now.bytes }
    {
        self.bytes.as_slice()
    }
}

/// How many chunks of `size` bytes some data are cut into, the last one perhaps shorter.
pub fn chunk_count(bytes: &[u8], size: usize) -> usize
    requires size { (1 ≤ size) × (size < 2 ^ 32) }
    ensures value { result ≡ chunk_count size bytes.now }
    ensures within { (number : ℕ) → number < result → number * size < length bytes.now }
    ensures few { result ≤ length bytes.now }
{
    (bytes.len() + (size - 1)) / size
}

/// The bytes of the chunk with this number.
pub(crate) fn chunk_at(bytes: &[u8], size: usize, number: usize) -> &[u8]
    requires size { (1 ≤ size) × (size < 2 ^ 32) }
    requires begins { number * size < length bytes.now }
    ensures { result.now ≡ chunk_at size bytes.now number }
{
    let start = number * size;
    let end = bytes.len().min(start + size);
    &bytes[start..end]
}

/// The chunk with this number, copied once into memory of its own.
fn chunk(alloc: Global, bytes: &[u8], size: usize, number: usize) -> Result<Item, NoMemory>
    requires size { (1 ≤ size) × (size < 2 ^ 32) }
    requires begins { number * size < length bytes.now }
    ensures { IfOk result (λ item. item ≡ record { id = number; bytes = chunk_at size bytes.now number }) }
{
    Ok(Item {
        id: number as u64,
        bytes: Vec::from_slice(alloc, chunk_at(bytes, size, number))?,
    })
}

/// Cuts data into chunks of `size` bytes, the last one perhaps shorter, numbered from 0; empty data gives none. Each byte is
/// copied once; the list takes one allocation, and so does each chunk.
///
/// # Errors
///
/// `NoMemory` where memory runs out.
pub fn cut(alloc: Global, bytes: &[u8], size: u32) -> Result<Vec<Item>, NoMemory>
    requires { 1 ≤ size }
    ensures items { IfOk result (λ cut. cut.items ≡ items_of size bytes.now) }
    ensures chunks { IfOk result (λ cut. map (λ item. item.bytes) cut.items ≡ chunks_of size bytes.now) }
    ensures digests { IfOk result (λ cut. map (λ item. sha256 item.bytes) cut.items ≡ digests_of size bytes.now) }
    ensures count { IfOk result (λ cut. length cut.items ≡ chunk_count size bytes.now) }
    ensures few { IfOk result (λ cut. length cut.items ≤ length bytes.now) }
{
    let size = size as usize;
    let count = chunk_count(bytes, size);
    let mut items = Vec::with_capacity(alloc, count)?;
    for number in 0..count {
        items.push(chunk(alloc, bytes, size, number)?)?;
    }
    Ok(items)
}

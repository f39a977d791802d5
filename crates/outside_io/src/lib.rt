//! What Steady reads and writes: files by name and a sink of bytes, in memory or outside.
//!
//! The objects in memory tell what they contain, so that a contract over them speaks of bytes. The ones outside are the
//! trusted edge: they count faults and opens and tell nothing of bytes.
#![tactic(auto)]

mod files;
mod memory_files;
mod memory_sink;
mod sink;
mod standard;

pub use files::{Files, ReadEnd, read_whole};
pub use memory_files::MemoryFiles;
pub use memory_sink::MemorySink;
pub use sink::{Failed, Sink, write_whole};
pub use standard::{StdFiles, StdSink};

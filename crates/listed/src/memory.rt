//! The error of a call that ran out of memory.

use std::alloc::{AllocError, AllocFailed};

/// Memory ran out. It may come at any point of a call that takes memory, and what the call was lent is then as before.
#[derive(Clone, Copy, Debug, PartialEq, Eq)]
pub struct NoMemory;

impl From<AllocError> for NoMemory {
    fn from(_error: AllocError) -> NoMemory {
        NoMemory
    }
}

impl<T: Drop> From<AllocFailed<T>> for NoMemory {
    fn from(_error: AllocFailed<T>) -> NoMemory {
        NoMemory
    }
}

//! The one cause of failure that every call may have: out of memory.
use std::alloc::{AllocError, AllocFailed};

/// Out of memory. It may come wherever a call takes memory, and is merged with no other answer.
#[derive(Clone, Copy, Debug, PartialEq, Eq)]
pub struct NoMemory;

impl From<AllocError> for NoMemory {
    fn from(_error: AllocError) -> NoMemory {
        NoMemory
    }
}

impl<T: Drop> From<AllocFailed<T>> for NoMemory {
    fn from(_failed: AllocFailed<T>) -> NoMemory {
        NoMemory
    }
}

//! Out of memory.

use std::alloc::{AllocError, AllocFailed};
use thiserror::Error;

/// An allocation failed.
///
/// A call that takes a heap fails so only where that heap may refuse, as its clauses say. Of a call that takes the
/// library's allocator no contract rules it out or asks for it: where one answers `Memory`, the clauses leave the
/// result open.
#[derive(Clone, Copy, Debug, PartialEq, Eq, Error)]
#[error("out of memory")]
pub struct Memory;

impl From<AllocError> for Memory {
    fn from(_error: AllocError) -> Self {
        Memory
    }
}

impl<T: Drop> From<AllocFailed<T>> for Memory {
    fn from(_error: AllocFailed<T>) -> Self {
        Memory
    }
}

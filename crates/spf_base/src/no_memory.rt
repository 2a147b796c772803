//! Want of memory.

use std::alloc::{AllocError, AllocFailed};
use thiserror::Error;

/// The answer for want of memory. It is free: no contract says when it comes.
#[derive(Debug, Drop, Error)]
#[error("memory")]
pub struct NoMemory;

impl From<AllocError> for NoMemory {
    fn from(_error: AllocError) -> NoMemory {
        NoMemory
    }
}

impl<T: Drop> From<AllocFailed<T>> for NoMemory {
    fn from(_error: AllocFailed<T>) -> NoMemory {
        NoMemory
    }
}

use std::alloc::{AllocError, AllocFailed};
use thiserror::Error;

/// Want of memory.
#[derive(Clone, Copy, Debug, PartialEq, Eq, Error)]
#[error("want of memory")]
pub struct NoMemory;

impl From<AllocError> for NoMemory {
    fn from(_error: AllocError) -> NoMemory {
        NoMemory
    }
}

impl<T: Drop> From<AllocFailed<T>> for NoMemory {
    fn from(_error: AllocFailed<T>) -> NoMemory {
        NoMemory
    }
}

/// A text that is no number without a unit, or one of a magnitude above 1,048,576.
#[derive(Clone, Copy, Debug, PartialEq, Eq, Error)]
#[error("no number from -1048576 to 1048576")]
pub struct BadNumber;

/// A text that is no name of at most 58 bytes.
#[derive(Clone, Copy, Debug, PartialEq, Eq, Error)]
#[error("no name of at most 58 bytes")]
pub struct BadName;

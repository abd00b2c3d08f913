//! The error of what only want of memory can hinder.
use std::alloc::AllocError;
use thiserror::Error;

/// Memory ran out.
#[derive(Clone, Copy, Debug, PartialEq, Eq, Error)]
#[error("out of memory")]
pub struct NoMemory;

/// What a call answers that only want of memory can hinder.
pub type Mem<T> = Result<T, NoMemory>;

impl From<AllocError> for NoMemory {
    fn from(_error: AllocError) -> NoMemory {
        NoMemory
    }
}

//! Why a call on a disk fails, and why it makes no room.
use std::alloc::{AllocError, AllocFailed};
use thiserror::Error;

/// A call on a disk met a fault. The disk fails until it has settled.
#[derive(Clone, Copy, Debug, PartialEq, Eq, Error)]
#[error("a call on a disk failed")]
pub struct Failed;

/// Memory ran out. The disk is as before.
#[derive(Clone, Copy, Debug, PartialEq, Eq, Error)]
#[error("out of memory")]
pub struct NoMemory;

/// What a call answers that only want of memory can hinder.
pub type Mem<T> = Result<T, NoMemory>;

impl From<AllocError> for NoMemory {
    fn from(_error: AllocError) -> NoMemory {
        NoMemory
    }
}

impl<T: Drop> From<AllocFailed<T>> for NoMemory {
    fn from(_error: AllocFailed<T>) -> NoMemory {
        NoMemory
    }
}

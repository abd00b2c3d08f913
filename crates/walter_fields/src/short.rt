//! The error of bytes that end before a field does.
use thiserror::Error;

/// The bytes end before the field does.
#[derive(Clone, Copy, Debug, PartialEq, Eq, Error)]
#[error("a byte is wanting at {at}")]
pub struct Short {
    /// How many bytes there are in all: the place of the first byte that is wanting.
    pub at: usize,
}

//! The place of a write.

/// Where a write put bytes, and how many.
#[derive(Clone, Copy, Debug, PartialEq, Eq)]
pub(crate) struct Place {
    pub at: usize,
    pub count: usize,
}

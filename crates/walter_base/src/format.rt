//! The two formats in which a journal spells transactions.

/// How transactions are spelled in a journal: by which vector.
#[derive(Clone, Copy, Debug, PartialEq, Eq)]
pub enum Format {
    /// A vector has a number for each of eight sites, 0 for those that there aren't.
    First,
    /// It has its width, and so many numbers.
    Second,
}

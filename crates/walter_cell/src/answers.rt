//! What the calls of a cell come to.

/// What a client's turn came to.
#[derive(Clone, Copy, Debug, PartialEq, Eq)]
pub enum Serve {
    /// One call was read, and answered.
    Served,
    /// No call follows.
    Ended,
    /// The client's bytes end inside a frame, or its connection has failed, now or before: where it failed within the
    /// reply to a call, the call was read.
    Broken,
    /// The trail has no place for another entry.
    Spent,
}

/// What a delivery came to.
#[derive(Clone, Copy, Debug, PartialEq, Eq)]
pub enum Moved {
    /// An entry came to the trail.
    Did,
    /// No packet of this number has arrived.
    Nothing,
    /// The trail has no place for another entry.
    Spent,
}

/// What another event came to.
#[derive(Clone, Copy, Debug, PartialEq, Eq)]
pub enum Acted {
    /// An entry came to the trail.
    Did,
    /// The trail has no place for another entry.
    Spent,
}

/// What a pump came to.
#[derive(Clone, Copy, Debug, PartialEq, Eq)]
pub enum Pumped {
    /// An entry came to the trail.
    Did,
    /// Nothing was to be done.
    Idle,
    /// The trail has no place for another entry.
    Spent,
}

//! What a client sent, and the error of a connection that isn't used on.
use thiserror::Error;
use walter_base::Call;

/// What a client sent.
#[derive(Debug, Drop)]
pub enum Next {
    /// A frame, and what its body calls for.
    Frame(Call),
    /// No frame follows.
    Ended,
    /// A call on the source or the sink failed, or the source ended inside a frame.
    Broken,
}

/// A connection that isn't used on.
#[derive(Clone, Copy, Debug, PartialEq, Eq, Error)]
#[error("the connection is broken")]
pub struct BrokenConn;

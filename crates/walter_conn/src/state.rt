//! Whether a connection is used on.

/// Whether a connection is used on.
#[derive(Clone, Copy, Debug)]
pub(crate) enum State {
    Open,
    /// A length was above that of a frame: nothing is read behind it.
    Closed,
    Broken,
}

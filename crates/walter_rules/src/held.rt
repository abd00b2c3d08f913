//! What a site holds of a commit, and how far ahead of a peer's acknowledgement its own are sent.
use walter_base::Tx;

/// How many own commits above what a peer has acknowledged are sent to it.
pub const WINDOW: u64 = 64;

/// A committed transaction that a site holds, with its number among the commits of its own site.
#[derive(Debug, Drop)]
pub struct Held {
    pub seq: u64,
    pub tx: Tx,
}

//! What comes of an event beside its entry, and why a site doesn't begin or restart.
use thiserror::Error;
use walter_packet::Framed;

/// What comes of an event beside what its entry tells: the frames of what is to be put out; and why a restart was
/// refused, where it was.
#[derive(Drop)]
pub struct Effect {
    pub frames: Vec<Framed>,
    pub refused: Option<RefusedRestart>,
}

/// Why a journal makes no site.
#[derive(Clone, Copy, Debug, PartialEq, Eq, Error)]
pub enum RefusedRestart {
    #[error("the disk has no journal")]
    Foreign,
    #[error("the journal is damaged: behind the gate at {at} stands the length {length}")]
    Damaged { at: u64, length: u32 },
    /// The body with this index, from 0, spells no record, or one that cannot follow.
    #[error("the body {index} of the journal is no record that can stand there")]
    Unreadable { index: u64 },
    #[error("the site has had its last epoch")]
    LastEpoch,
}

/// Why a site did not begin.
#[derive(Clone, Copy, Debug, PartialEq, Eq, Error)]
pub enum BeginFault {
    #[error("a call on the disk failed")]
    Failed,
    #[error("the disk has no journal")]
    Foreign,
    #[error("the journal is damaged: behind the gate at {at} stands the length {length}")]
    Damaged { at: u64, length: u32 },
    #[error("the journal has records")]
    Used,
    #[error("out of memory")]
    NoMemory,
}

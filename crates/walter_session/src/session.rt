//! The transaction of a client, and why none is started.
use thiserror::Error;
use walter_base::{Tid, Update, Vts};

/// The transaction of a client. It has the number of its slow commit, 0 while it is open.
#[derive(Debug, Drop)]
pub struct Session {
    pub tid: Tid,
    pub snapshot: Vts,
    pub updates: Vec<Update>,
    pub slow: u64,
}

/// Why no session starts.
#[derive(Clone, Copy, Debug, PartialEq, Eq, Error)]
pub enum StartFault {
    #[error("the client has a session")]
    TxOpen,
    #[error("there are as many sessions as there may be")]
    SessionsFull,
    #[error("out of memory")]
    NoMemory,
}

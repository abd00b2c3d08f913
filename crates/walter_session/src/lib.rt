//! The sessions of clients: at most one each, and at most 256.
#![tactic(auto)]

mod floors;
mod session;
mod sessions;
mod slot;

pub use session::{Session, StartFault};
pub use sessions::{MOST_SESSIONS, Sessions};

//! A lane from one site to another: what was put on it, and what of that has arrived.
#![tactic(auto)]

mod inbound;
mod meeting;
mod outbound;
mod posted;

pub use inbound::Inbound;
pub use meeting::{compare, meet, pair};
pub use outbound::Outbound;
pub use posted::Posted;

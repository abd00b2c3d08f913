//! Faults of what may fail: how many there were, and, where a test plans them, which calls they come at. They are counted
//! in proofs alone.
#![tactic(auto)]

mod ghost_count;
mod schedule;
#[cfg(test)]
mod tests;

pub use ghost_count::GhostCount;
pub use schedule::Schedule;

//! Parallel snapshot isolation, as a definition over histories, and the laws of one more step.
//! Every legal history has the three properties that define it.
#![tactic(auto)]

mod checker;
mod laws;
mod properties;
mod step;

pub use checker::first_illegal;
pub use laws::{one_more_step, state_after_step};
pub use properties::{causality, no_concurrent_writers, snapshot_reads, timestamps};
pub use step::{Answer, Level, Notice, Step};

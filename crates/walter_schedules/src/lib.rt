//! What the programs of tests make and say as text: scenarios at random, and long texts in brief.
#![tactic(auto)]

mod numbers;
mod schedule;
mod texts;
mod threaded;

pub use schedule::Schedule;
pub use texts::{cut, end_of, expanded};
pub use threaded::scenario_of;

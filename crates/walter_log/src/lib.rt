//! The transactions that a site holds, its own and received ones, in order, found by number and by name.
#![tactic(auto)]

mod log;
mod names;
mod places;

pub use log::Log;

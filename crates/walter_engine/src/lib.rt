//! A site over its journal: what it answers is safe before it answers, and a restart makes it anew from its records.
#![tactic(auto)]

mod answers;
mod beginning;
mod engine;
mod replaying;
mod restarting;
mod store;
mod writing;

pub use answers::{BeginFault, Effect, RefusedRestart};
pub use engine::Engine;

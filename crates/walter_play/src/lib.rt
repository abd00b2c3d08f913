//! The script of a scenario, played on a bench.
#![tactic(auto)]

mod lines;
mod playing;

pub use lines::{Line, open_lines};
pub use playing::play;

//! What is kept of the versions of each object, and what a vector sees of it.
#![tactic(auto)]

mod folding;
mod history;
mod line;
mod lines;
mod reach;
mod room;
mod rows;
mod steps;
mod versions;

pub use history::History;
pub use rows::Kept;
pub use steps::Step;

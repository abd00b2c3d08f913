//! Bytes that a seed makes of valid ones by changing, cutting and joining them, for tests of what reads bytes.
#![tactic(auto)]

mod hostile;

pub use hostile::Hostile;

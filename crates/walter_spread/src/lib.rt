//! How commits spread: which a site takes from others, which of them it commits here, and which of its own it sends.
#![tactic(auto)]

mod spread;

pub use spread::Spread;

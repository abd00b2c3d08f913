//! Scenarios that are made from a number: what clients ask is drawn by the words of a generator.
#![tactic(auto)]

mod calls;
mod clients;
mod draws;
mod making;
mod requests;

pub use making::make;

//! A site apart from where its records lie. An event is made ready: what it comes to, the record that is to be stable
//! first, and the packets. Then its record is kept, or fails, or finds no place.
#![tactic(auto)]

mod debts;
mod following;
mod losing;
mod machine;
mod outcomes;
mod places;
mod preparing;
mod ready;

pub use machine::Machine;
pub use ready::{BootFault, Ready};

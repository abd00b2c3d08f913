//! A transaction's own updates laid over what its snapshot holds: the value of a regular object, and the counts of a
//! set.
#![tactic(auto)]

mod counting;
mod laws;
mod laying;
mod reading;

pub use counting::{count, counts};
pub use laws::earlier_and_own;
pub use reading::value;

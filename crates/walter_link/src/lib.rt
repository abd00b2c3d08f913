//! The scripted link: what becomes of the packets that arrive at a site, and what a site does that is pumped.
#![tactic(auto)]

mod chooser;
mod pump;

pub use chooser::{Choice, Chooser, Link, Rates};
pub use pump::{Pump, Waiting};

//! The rules of a site among others, as definitions: what comes to a site, what it knows, what is to come of an
//! event, and which trails are right and linked.
#![tactic(auto)]

mod entry;
mod event;
mod held;
mod laws;
mod outcome;

pub use entry::{Came, Entry};
pub use event::{Event, Input};
pub use held::{Held, WINDOW};
pub use laws::rules_are_allowed;
pub use outcome::Outcome;

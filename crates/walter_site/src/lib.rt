//! A site among others that is up: what comes of an input by its tables, and what applying that leaves.
#![tactic(auto)]

mod applying;
mod maybe_made;
mod plan;
mod planning;
mod readying;
mod site;

pub use maybe_made::MaybeMade;
pub use plan::Plan;
pub use site::Site;

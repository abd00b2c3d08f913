//! What an audit reads of the disks of all sites, and the text of what it finds.
#![tactic(auto)]

mod inspecting;
mod writing;

pub use inspecting::{Inspected, Unread, read_contents};
pub use writing::write_finding;

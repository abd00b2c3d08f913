//! Disks in memory, and a rack of them. A disk keeps its calls, and fails where it is told to.
#![tactic(auto)]

mod content;
mod event;
mod memory_disk;
mod memory_rack;
mod past;
mod place;
mod stops;

pub use memory_disk::{MemoryDisk, unarmed_never_failed};
pub use memory_rack::MemoryRack;

//! A disk as the store sees it: a trait with the model of what a read gives and of what a crash may leave. And where
//! disks are taken from.
#![tactic(auto)]

mod disk;
mod fault;
mod rack;
mod step;

pub use disk::Disk;
pub use fault::{Failed, Mem, NoMemory};
pub use rack::Rack;
pub use step::write_and_sync;

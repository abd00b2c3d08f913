//! The program: reads a scenario or makes one, plays it, lets threads run it or audits its journals, and writes what
//! came of it.
#![tactic(auto)]

mod auditing;
mod disks;
mod ended;
mod file_fault;
mod host;
mod memory;
mod program;
mod running;
mod saying;
mod taking;

pub use ended::{Ended, Fault, JournalCause};
pub use file_fault::FileFault;
pub use host::{UsedRack, top_on_host};
pub use memory::top_in_memory;
pub use program::top;

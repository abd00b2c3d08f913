//! Disks over files of the system, and a rack that has its disks in memory or in a folder.
#![tactic(auto)]

mod file_disk;
mod folder;
mod handed_disks;
mod host_disk;
mod host_rack;

pub use file_disk::FileDisk;
pub use folder::JournalName;
pub use host_disk::HostDisk;
pub use host_rack::HostRack;

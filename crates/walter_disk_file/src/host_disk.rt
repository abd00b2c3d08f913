//! A disk of either kind: in memory, or over a file.
use crate::file_disk::FileDisk;
use walter_disk::{Disk, Failed, Mem};
use walter_disk_memory::{MemoryDisk, unarmed_never_failed};

/// A disk in memory, or one over a file.
#[derive(Drop)]
pub enum HostDisk {
    Memory(MemoryDisk),
    File(FileDisk),
}

impl HostDisk {
    ghost use Rattle.walter_disk_file.specs.HostDisks.{FailsOnlyIfArmed};

    /// A disk in memory without an arm has never failed. A law of each disk, which does nothing.
    pub fn unarmed_never_failed(&self)
        ensures { FailsOnlyIfArmed self.now }
    {
        if let HostDisk::Memory(disk) = self {
            unarmed_never_failed(disk);
        }
    }
}

impl Disk for HostDisk {
    ghost use Rattle.walter_disk_file.specs.HostDisks as host;

    ghost known = { host.known_of };

    ghost room_end = { host.room_end_of };

    ghost room_calls = { host.room_calls_of };

    ghost may_leave = { host.may_leave_of };

    ghost moment = { host.moment_of };

    ghost device_calls = { host.device_calls_of };

    ghost left_since = { host.left_since_of };

    ghost size_is = { host.size_is };

    ghost leaves_what_reads = { host.leaves_what_reads };

    ghost counts_now = { host.counts_now };

    ghost only_now = { host.only_now };

    fn size(&self) -> u64 {
        match self {
            HostDisk::Memory(disk) => disk.size(),
            HostDisk::File(disk) => disk.size(),
        }
    }

    fn reserve(&mut self, end: u64, calls: u64) -> Mem<()> {
        match self {
            HostDisk::Memory(disk) => disk.reserve(end, calls),
            HostDisk::File(disk) => disk.reserve(end, calls),
        }
    }

    fn read(&mut self, at: u64, into: &mut [u8]) -> Result<(), Failed> {
        match self {
            HostDisk::Memory(disk) => disk.read(at, into),
            HostDisk::File(disk) => disk.read(at, into),
        }
    }

    fn write_at(&mut self, at: u64, from: &[u8]) -> Result<(), Failed> {
        match self {
            HostDisk::Memory(disk) => disk.write_at(at, from),
            HostDisk::File(disk) => disk.write_at(at, from),
        }
    }

    fn sync(&mut self) -> Result<(), Failed> {
        match self {
            HostDisk::Memory(disk) => disk.sync(),
            HostDisk::File(disk) => disk.sync(),
        }
    }

    fn settle(&mut self) -> Result<(), Failed> {
        match self {
            HostDisk::Memory(disk) => disk.settle(),
            HostDisk::File(disk) => disk.settle(),
        }
    }

    fn arm(&mut self, nth: u64, choice: u64) -> Mem<()> {
        match self {
            HostDisk::Memory(disk) => disk.arm(nth, choice),
            HostDisk::File(disk) => disk.arm(nth, choice),
        }
    }
}

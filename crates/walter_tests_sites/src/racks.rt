//! A rack whose disks are looked at behind a run.
use std::alloc::Global;
use walter_disk::{Failed, Rack};
use walter_disk_memory::MemoryDisk;
use walter_faults::GhostCount;

/// A rack of empty disks in memory. Those that are given back can be taken out of it, in their order.
#[derive(Drop)]
pub(crate) struct KeepingRack {
    alloc: Global,
    given: Vec<MemoryDisk>,
    taken: GhostCount,
    faults: GhostCount,
}

impl KeepingRack {
    pub(crate) fn new(alloc: Global) -> KeepingRack {
        KeepingRack {
            alloc,
            given: Vec::new(alloc),
            taken: GhostCount::zero(),
            faults: GhostCount::zero(),
        }
    }

    /// The disks that were given back.
    pub(crate) fn into_given(self) -> Vec<MemoryDisk> {
        self.given
    }
}

impl Rack for KeepingRack {
    type D = MemoryDisk;

    ghost use Rattle.std.specs.Prelude.{None};

    ghost faults = { λ r. r.faults.count };

    ghost disks = { λ _. None };

    ghost folder = { λ _. None };

    ghost taken = { λ r. r.taken.count };

    ghost given = { λ _. None };

    ghost handed = { λ _. None };

    ghost unfailing = { λ _. 0 };

    fn take(&mut self, _site: u8, _dir: Option<&str>) -> Result<MemoryDisk, Failed> {
        self.taken = self.taken.next();
        Ok(MemoryDisk::new(self.alloc))
    }

    fn give(&mut self, _site: u8, disk: MemoryDisk) -> Result<(), Failed> {
        match self.given.push(disk) {
            Ok(()) => Ok(()),
            Err(_) => {
                self.faults = self.faults.next();
                Err(Failed)
            }
        }
    }
}

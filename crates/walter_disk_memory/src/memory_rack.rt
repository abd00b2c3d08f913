//! A rack of disks in memory, which fails where it is told to.
ghost use Rattle.std.specs.Prelude.{◌≡◌, ◌+◌, ◌<◌, ◌≤◌, ◌++◌, ◌∷◌, [], length, All, IsOk, IsErr, IfOk, OnOk, OnErr};
ghost use Rattle.walter_disk_memory.specs.MemoryDisks.{FailsOnlyIfArmed};
ghost use Rattle.walter_disk_memory.specs.MemoryRacks.{contents_of, disk_of, rack_of, unfailing_of, HandsOutNoBytes};
ghost use Rattle.walter_faults.specs.Schedules.{planned, NextFails, AddsCall};

use crate::event::Event;
use crate::memory_disk::{MemoryDisk, unarmed_never_failed};
use crate::past::Past;
use std::alloc::Global;
use std::marker::Model;
use walter_disk::{Failed, Mem, Rack};
use walter_faults::{GhostCount, Schedule};

/// A rack of disks in memory, some of whose calls fail. It hands out the same disks for every folder, as often as
/// they are asked for, and keeps those that are given back.
#[derive(Drop)]
pub struct MemoryRack {
    alloc: Global,
    contents: Vec<Vec<u8>>,
    taken: GhostCount,
    given: Vec<(u8, MemoryDisk)>,
    handed: Past,
    schedule: Schedule,
}

impl Model for MemoryRack {
    ghost use Rattle.std.specs.Prelude.{◌-◌, All, vec_len, vec_capacity};
    ghost use Rattle.walter_disk_memory.specs.MemoryDisks.{FailsOnlyIfArmed};
    ghost use Rattle.walter_disk_memory.specs.MemoryRacks.{RackState, contents_of};

    ghost Value = { RackState };

    ghost view = { λ s. record {
      contents = contents_of s.contents.items;
      taken = s.taken.count;
      given = s.given.items;
      handed = s.handed.disks;
      room = vec_capacity s.given - vec_len s.given;
      schedule = s.schedule;
    } };

    ghost invariant = { λ s.
        All (λ it. FailsOnlyIfArmed it.1) s.given.items × All (λ it. FailsOnlyIfArmed it.1) s.handed.disks };
}

impl MemoryRack {
    /// A rack of empty disks.
    pub fn new(alloc: Global) -> MemoryRack
        ensures rack { result ≡ rack_of [] 0 }
        ensures no_bytes { HandsOutNoBytes result }
    {
        MemoryRack::holding(alloc, Vec::new(alloc))
    }

    /// A rack of empty disks, with room for so many of them to be given back.
    pub fn with_room(alloc: Global, gives: usize) -> Mem<MemoryRack>
        ensures rack { IfOk result (λ rack. rack ≡ rack_of [] gives) }
        ensures no_bytes { IfOk result (λ rack. HandsOutNoBytes rack) }
    {
        let given = Vec::with_capacity(alloc, gives)?;
        Ok(MemoryRack {
            given,
            ..MemoryRack::new(alloc)
        })
    }

    /// A rack of disks that hold these bytes, from site 0 on. The disks behind them are empty.
    pub fn holding(alloc: Global, contents: Vec<Vec<u8>>) -> MemoryRack
        ensures { result ≡ rack_of (contents_of contents.items) 0 }
    {
        MemoryRack {
            alloc,
            contents,
            taken: GhostCount::zero(),
            given: Vec::new(alloc),
            handed: Past::of(&Event::Begin),
            schedule: Schedule::new(Vec::new(alloc)),
        }
    }

    /// The calls of `take` and `give` whose numbers are listed fail, counted over both from now on, beginning at 1.
    pub fn set_failing(&mut self, failing: Vec<u64>)
        ensures { self.new ≡ record self.old {
          schedule = record (planned failing.items) { faults = self.old.schedule.faults };
        } }
    {
        self.schedule.plan(failing);
    }

    /// The disks that were given back, in order, each with its site.
    pub fn given(&self) -> &[(u8, MemoryDisk)]
        ensures { result.now ≡ self.now.given }
    {
        &self.given
    }

    /// Those that were given back without an arm have never failed, nor have those that were lost so. A law of each rack,
    /// which does nothing.
    pub fn given_unarmed_never_failed(&self)
        ensures given { All (λ it. FailsOnlyIfArmed it.1) self.now.given }
        ensures handed { All (λ it. FailsOnlyIfArmed it.1) self.now.handed }
    {
        let _given = &self.given;
    }

    fn disk_of(&self, site: u8) -> Mem<MemoryDisk>
        ensures disk { IfOk result (λ disk. disk ≡ disk_of self.now.contents site) }
        ensures sure { length self.now.contents ≤ site → IsOk result }
    {
        match self.contents.get(site as usize) {
            Some(bytes) => MemoryDisk::holding(self.alloc, bytes.to_vec(self.alloc)?),
            None => Ok(MemoryDisk::new(self.alloc)),
        }
    }
}

impl Rack for MemoryRack {
    type D = MemoryDisk;

    ghost use Rattle.std.specs.Prelude.{None, Some};
    ghost use Rattle.walter_disk.specs.Racks.{IsFresh};
    ghost use Rattle.walter_disk_memory.specs.MemoryDisks.{known_of, may_leave_of};

    ghost faults = { λ r. r.schedule.faults };

    ghost disks = { λ r. Some (λ dir site. disk_of r.contents site) };

    ghost folder = { λ _. None };

    ghost taken = { λ r. r.taken };

    ghost given = { λ r. Some r.given };

    ghost handed = { λ r. Some r.handed };

    ghost unfailing = { unfailing_of };

    /// Takes memory for a disk that holds bytes. Want of it is a fault.
    fn take(&mut self, site: u8, _dir: Option<&str>) -> Result<MemoryDisk, Failed>
        ensures disk { IfOk result (λ disk. disk ≡ disk_of self.old.contents site) }
        ensures fresh { IfOk result (λ disk. IsFresh (known_of disk) (may_leave_of disk)) }
        ensures taken { OnOk result (self.new.taken ≡ self.old.taken + 1) }
        ensures same_taken { OnErr result (self.new.taken ≡ self.old.taken) }
        ensures faultless { OnOk result (self.new.schedule.faults ≡ self.old.schedule.faults) }
        ensures sure { 0 < unfailing_of self.old
            → IsOk result × (unfailing_of self.old ≤ unfailing_of self.new + 1) }
        ensures cause { OnErr result (self.old.schedule.faults < self.new.schedule.faults) }

        // It fails where it is planned, and not otherwise where the disk is empty. It takes no room.
        ensures fails { NextFails self.old.schedule → IsErr result }
        ensures never { ¬ NextFails self.old.schedule → length self.old.contents ≤ site → IsOk result }
        ensures calls { AddsCall self.old.schedule self.new.schedule }
        ensures same { self.new ≡ record self.old { taken = self.new.taken; schedule = self.new.schedule } }
    {
        if self.schedule.fails() {
            return Err(Failed);
        }
        match self.disk_of(site) {
            Ok(disk) => {
                self.taken = self.taken.next();
                Ok(disk)
            }
            Err(_) => {
                self.schedule.add_fault();
                Err(Failed)
            }
        }
    }

    /// Takes memory to keep the disk where no room is left. Want of it is a fault.
    fn give(&mut self, site: u8, disk: MemoryDisk) -> Result<(), Failed>
        ensures given { OnOk result (self.new.given ≡ self.old.given ++ (site, disk) ∷ []) }
        ensures same_given { OnErr result (self.new.given ≡ self.old.given) }
        ensures handed { self.new.handed ≡ self.old.handed ++ (site, disk) ∷ [] }
        ensures same_taken { self.new.taken ≡ self.old.taken }
        ensures same_disks { self.new.contents ≡ self.old.contents }
        ensures faultless { OnOk result (self.new.schedule.faults ≡ self.old.schedule.faults) }
        ensures sure { 0 < unfailing_of self.old
            → IsOk result × (unfailing_of self.old ≤ unfailing_of self.new + 1) }
        ensures cause { OnErr result (self.old.schedule.faults < self.new.schedule.faults) }

        // It fails where it is planned, and not otherwise where there is room. It takes the room of one disk at most.
        ensures fails { NextFails self.old.schedule → IsErr result }
        ensures never { ¬ NextFails self.old.schedule → 0 < self.old.room → IsOk result }
        ensures calls { AddsCall self.old.schedule self.new.schedule }
        ensures room { self.old.room ≤ self.new.room + 1 }
    {
        unarmed_never_failed(&disk);
        self.handed = Past::of(&Event::Hand(&self.handed, site, &disk));
        if self.schedule.fails() {
            return Err(Failed);
        }
        match self.given.push((site, disk)) {
            Ok(()) => Ok(()),
            Err(_) => {
                self.schedule.add_fault();
                Err(Failed)
            }
        }
    }
}

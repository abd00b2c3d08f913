//! A rack of disks in memory, or of those over the files of a folder.
ghost use Rattle.std.specs.Prelude.{◌≡◌, ◌+◌, ◌<◌, ◌≤◌, ◌++◌, ◌∷◌, [], None, Some, All, IsOk, IfOk, IfSome, OnOk, OnErr};
ghost use Rattle.std.specs.Prelude.{option_map, string_bytes};
ghost use Rattle.std.specs.Option.{option_copied};
ghost use Rattle.walter_disk.specs.Racks.{IsFresh};
ghost use Rattle.walter_disk_file.specs.HostDisks.{empty_disk, known_of, may_leave_of, FailsOnlyIfArmed};
ghost use Rattle.walter_disk_file.specs.HostRacks.{disks_of, fresh_rack, unfailing_of};

use crate::folder::Folder;
use crate::handed_disks::{HandedDisks, Handover};
use crate::host_disk::HostDisk;
use std::alloc::Global;
use std::fs::{File, Files};
use std::marker::Model;
use walter_disk::{Failed, Mem, Rack};
use walter_disk_memory::MemoryDisk;
use walter_faults::GhostCount;

/// A rack of empty disks in memory, or of disks over the files of a folder. It keeps those that are given back.
#[derive(Drop)]
pub struct HostRack<X: Files<File = File> + Drop> {
    alloc: Global,
    folder: Option<Folder<X>>,
    taken: GhostCount,
    given: Vec<(u8, HostDisk)>,
    handed: HandedDisks,
    faults: GhostCount,
}

impl<X: Files<File = File> + Drop> Model for HostRack<X> {
    ghost use Rattle.std.specs.Prelude.{◌-◌, All, option_map, string_bytes, vec_len, vec_capacity};
    ghost use Rattle.walter_disk_file.specs.HostDisks.{FailsOnlyIfArmed};
    ghost use Rattle.walter_disk_file.specs.HostRacks.{RackState};

    ghost Value = { RackState };

    ghost view = { λ s. record {
      folder = option_map (λ f. string_bytes f.path) s.folder;
      taken = s.taken.count;
      given = s.given.items;
      handed = s.handed.disks;
      room = vec_capacity s.given - vec_len s.given;
      faults = s.faults.count;
    } };

    ghost invariant = { λ s.
        All (λ it. FailsOnlyIfArmed it.1) s.given.items × All (λ it. FailsOnlyIfArmed it.1) s.handed.disks };
}

impl<X: Files<File = File> + Drop> HostRack<X> {
    /// A rack of empty disks in memory.
    pub fn in_memory(alloc: Global) -> HostRack<X>
        ensures { result ≡ fresh_rack None 0 }
    {
        HostRack {
            alloc,
            folder: None,
            taken: GhostCount::zero(),
            given: Vec::new(alloc),
            handed: HandedDisks::of(&Handover::Begin),
            faults: GhostCount::zero(),
        }
    }

    /// The same, with room for so many of them to be given back.
    pub fn with_room(alloc: Global, gives: usize) -> Mem<HostRack<X>>
        ensures { IfOk result (λ rack. rack ≡ fresh_rack None gives) }
    {
        let given = Vec::with_capacity(alloc, gives)?;
        Ok(HostRack {
            given,
            ..HostRack::in_memory(alloc)
        })
    }

    /// A rack of the disks over the files `site-0.journal`, `site-1.journal` and so on of a folder. It must be there.
    pub fn over(alloc: Global, files: X, path: String) -> HostRack<X>
        ensures { result ≡ fresh_rack (Some (string_bytes path)) 0 }
    {
        HostRack {
            folder: Some(Folder { files, path }),
            ..HostRack::in_memory(alloc)
        }
    }

    /// The path of the folder whose files its disks are, if they are files.
    pub fn folder(&self) -> Option<&str>
        ensures { option_map (λ path. path.now) result ≡ self.now.folder }
    {
        match &self.folder {
            Some(folder) => Some(folder.path.as_str()),
            None => None,
        }
    }

    /// The disks that were given back, in order, each with its site.
    pub fn given(&self) -> &[(u8, HostDisk)]
        ensures { result.now ≡ self.now.given }
    {
        &self.given
    }

    /// Those in memory that were given back without an arm have never failed, nor have those that were lost so. A law
    /// of each rack, which does nothing.
    pub fn given_unarmed_never_failed(&self)
        ensures given { All (λ it. FailsOnlyIfArmed it.1) self.now.given }
        ensures handed { All (λ it. FailsOnlyIfArmed it.1) self.now.handed }
    {
        let _given = &self.given;
    }

    fn disk_of(&self, site: u8, dir: Option<&str>) -> Result<HostDisk, Failed>
        ensures memory { self.now.folder ≡ None → result ≡ Ok empty_disk }
        ensures fresh { IfOk result (λ disk. IsFresh (known_of disk) (may_leave_of disk)) }
    {
        match &self.folder {
            Some(folder) => Ok(HostDisk::File(folder.open(self.alloc, site, dir)?)),
            None => Ok(HostDisk::Memory(MemoryDisk::new(self.alloc))),
        }
    }
}

impl<X: Files<File = File> + Drop> Rack for HostRack<X> {
    type D = HostDisk;

    ghost faults = { λ r. r.faults };

    ghost disks = { disks_of };

    ghost folder = { λ r. r.folder };

    ghost taken = { λ r. r.taken };

    ghost given = { λ r. Some r.given };

    ghost handed = { λ r. Some r.handed };

    ghost unfailing = { unfailing_of };

    /// In memory the disk is the same for every folder. Among files a folder that is named goes before the rack's own.
    fn take(&mut self, site: u8, dir: Option<&str>) -> Result<HostDisk, Failed>
        ensures disk { IfOk result (λ disk.
            IfSome (disks_of self.old) (λ told. disk ≡ told (option_copied dir.entry) site)) }
        ensures fresh { IfOk result (λ disk. IsFresh (known_of disk) (may_leave_of disk)) }
        ensures taken { OnOk result (self.new.taken ≡ self.old.taken + 1) }
        ensures same_taken { OnErr result (self.new.taken ≡ self.old.taken) }
        ensures faultless { OnOk result (self.new.faults ≡ self.old.faults) }
        ensures sure { 0 < unfailing_of self.old
            → IsOk result × (unfailing_of self.old ≤ unfailing_of self.new + 1) }
        ensures cause { OnErr result (self.old.faults < self.new.faults) }

        // In memory it never fails. It takes no room.
        ensures never { self.old.folder ≡ None → IsOk result }
        ensures same { self.new ≡ record self.old { taken = self.new.taken; faults = self.new.faults } }
    {
        match self.disk_of(site, dir) {
            Ok(disk) => {
                self.taken = self.taken.next();
                Ok(disk)
            }
            Err(Failed) => {
                self.faults = self.faults.next();
                Err(Failed)
            }
        }
    }

    /// Takes memory to keep the disk where no room is left. Want of it is a fault.
    fn give(&mut self, site: u8, disk: HostDisk) -> Result<(), Failed>
        ensures given { OnOk result (self.new.given ≡ self.old.given ++ (site, disk) ∷ []) }
        ensures same_given { OnErr result (self.new.given ≡ self.old.given) }
        ensures handed { self.new.handed ≡ self.old.handed ++ (site, disk) ∷ [] }
        ensures same_taken { self.new.taken ≡ self.old.taken }
        ensures same_disks { self.new.folder ≡ self.old.folder }
        ensures faultless { OnOk result (self.new.faults ≡ self.old.faults) }
        ensures sure { 0 < unfailing_of self.old
            → IsOk result × (unfailing_of self.old ≤ unfailing_of self.new + 1) }
        ensures cause { OnErr result (self.old.faults < self.new.faults) }

        // It fails only where no room is left, and takes the room of one disk at most.
        ensures never { 0 < self.old.room → IsOk result }
        ensures room { self.old.room ≤ self.new.room + 1 }
    {
        disk.unarmed_never_failed();
        self.handed = HandedDisks::of(&Handover::Hand(&self.handed, site, &disk));
        match self.given.push((site, disk)) {
            Ok(()) => Ok(()),
            Err(_) => {
                self.faults = self.faults.next();
                Err(Failed)
            }
        }
    }
}

//! The disks that a rack was handed, kept in proofs alone.
ghost use Rattle.std.specs.Prelude.{◌≡◌, ℕ, List};
ghost use Rattle.std.specs.Borrow.{ftrue};
ghost use Rattle.walter_disk_file.specs.Codes.{disks_code};
ghost use Rattle.walter_disk_file.specs.declared.host_disk.HostDisk.{HostDisk};

use crate::host_disk::HostDisk;
use std::marker::Model;

/// The disks that a rack was handed, each with its site. They exist in proofs alone, in order, and take no memory.
#[derive(Drop)]
pub(crate) struct HandedDisks {
    pub ghost disks: { List (ℕ × HostDisk) } by { disks_code },
}

impl Model for HandedDisks {
    ghost also_owns = { λ _. ftrue };
}

/// What the disks that were handed begin with, or what comes to them: one more, for a site.
#[derive(Clone, Copy, Drop)]
pub(crate) enum Handover<'a> {
    Begin,
    Hand(&'a HandedDisks, u8, &'a HostDisk),
}

impl HandedDisks {
    ghost use Rattle.walter_disk_file.specs.HandedDisks.{handed_after};

    pub(crate) fn of(handover: &Handover<'_>) -> HandedDisks
        ensures { result ≡ handed_after handover.now }
    {
        HandedDisks {}
    }
}

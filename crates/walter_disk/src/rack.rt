//! Where the disks of sites come from, and where they go: a trait.
ghost use Rattle.std.specs.Prelude.{◌≡◌, ◌+◌, ◌<◌, ◌≤◌, ◌++◌, ◌∷◌, [], ℕ, List, Option, option_map, IsOk, IfSome, IfOk, OnOk, OnErr};
ghost use Rattle.std.specs.Option.{option_copied};
ghost use Rattle.walter_disk.specs.Racks.{IsFresh};

use crate::disk::Disk;
use crate::fault::Failed;

/// Where the disks of sites are taken from, and given back to.
pub trait Rack {
    type D: Disk + Send + Drop;

    /// How often a call has failed. It never falls.
    ghost faults: { Self → ℕ };

    /// The disk that is taken for a folder, if one is named, and a site, where the rack tells it.
    ghost disks: { Self → Option (Option (List ℕ) → ℕ → Self.D) };

    /// The path of the folder that its disks lie in where no other is named, if they lie in one.
    ghost folder: { Self → Option (List ℕ) };

    /// How many disks were taken.
    ghost taken: { Self → ℕ };

    /// The disks that were given back, each with its site, in order, where the rack tells them.
    ghost given: { Self → Option (List (ℕ × Self.D)) };

    /// The disks that `give` was handed, each with its site, in order, whether the rack kept them or lost them, where it
    /// tells them.
    ghost handed: { Self → Option (List (ℕ × Self.D)) };

    /// So many of the following calls of `take` and `give` don't fail.
    ghost unfailing: { Self → ℕ };

    /// Takes a site's disk.
    fn take(&mut self, site: u8, dir: Option<&str>) -> Result<Self::D, Failed>
        ensures disk { IfOk result (λ disk.
            IfSome (disks self.old) (λ told. disk ≡ told (option_copied dir.entry) site)) }
        ensures fresh { IfOk result (λ disk. IsFresh (Self.D.known disk) (Self.D.may_leave disk)) }
        ensures same_disks { disks self.new ≡ disks self.old }
        ensures same_folder { folder self.new ≡ folder self.old }
        ensures taken { OnOk result (taken self.new ≡ taken self.old + 1) }
        ensures same_taken { OnErr result (taken self.new ≡ taken self.old) }
        ensures same_given { given self.new ≡ given self.old }
        ensures same_handed { handed self.new ≡ handed self.old }
        ensures faultless { OnOk result (faults self.new ≡ faults self.old) }
        ensures sure { 0 < unfailing self.old → IsOk result × (unfailing self.old ≤ unfailing self.new + 1) }
        ensures cause { OnErr result (faults self.old < faults self.new) };

    /// Gives a site's disk back. After a fault the disk is gone, and known as it was handed.
    fn give(&mut self, site: u8, disk: Self::D) -> Result<(), Failed>
        ensures given { OnOk result (
            given self.new ≡ option_map (λ told. told ++ (site, disk) ∷ []) (given self.old)) }
        ensures same_given { OnErr result (given self.new ≡ given self.old) }
        ensures handed { handed self.new ≡ option_map (λ told. told ++ (site, disk) ∷ []) (handed self.old) }
        ensures same_taken { taken self.new ≡ taken self.old }
        ensures same_disks { disks self.new ≡ disks self.old }
        ensures same_folder { folder self.new ≡ folder self.old }
        ensures faultless { OnOk result (faults self.new ≡ faults self.old) }
        ensures sure { 0 < unfailing self.old → IsOk result × (unfailing self.old ≤ unfailing self.new + 1) }
        ensures cause { OnErr result (faults self.old < faults self.new) };
}

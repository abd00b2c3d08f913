//! The disks of a run: they are taken from a rack, and given back.
ghost use Rattle.std.specs.Prelude.{◌≡◌, ◌<◌, ◌≤◌, ◌+◌, length, IfOk, IfErr, OnOk, OnErr};
ghost use Rattle.walter_base.specs.Vectors.{most_sites};
ghost use Rattle.walter_cli.specs.Auditing.{IsWhyUntaken};
ghost use Rattle.walter_cli.specs.Audits.{IsKept};
ghost use Rattle.walter_cli.specs.Disks.{AreTaken, AreGiven, IsFirstLost, lost_after};
ghost use Rattle.walter_cli.specs.Ending.{EndsEarly};
ghost use Rattle.walter_cli.specs.Racks.{rack_at, racked};

use crate::ended::Fault;
use std::alloc::Global;
use walter_disk::Rack;
use walter_scenario::Scenario;

/// Takes the disks of a scenario's sites, in order. Where one can't be taken, those that were are given back.
pub fn take_all<R: Rack>(
    alloc: Global,
    rack: &mut R,
    scenario: &Scenario,
) -> Result<Vec<R::D>, Fault>
    requires few { scenario.now.catalog.sites ≤ most_sites }
    ensures taken { IfOk result (λ disks. (length disks.items ≡ scenario.now.catalog.sites) × AreTaken R.D.Disk
        (rack_at R.Rack rack.old) (rack_at R.Rack rack.new)
        disks.items) }
    ensures fault { IfErr result (EndsEarly (racked R.D.Disk (rack_at R.Rack rack.old) (rack_at R.Rack rack.new))
        scenario.now) }
    ensures untaken { IfErr result (IsWhyUntaken (racked R.D.Disk (rack_at R.Rack rack.old) (rack_at R.Rack rack.new))
        scenario.now) }
    ensures same_folder { R.folder rack.new ≡ R.folder rack.old }
    ensures kept { OnErr result ((racked R.D.Disk (rack_at R.Rack rack.old) (rack_at R.Rack rack.new)).each
        (IsKept (racked R.D.Disk (rack_at R.Rack rack.old) (rack_at R.Rack rack.new)))) }
{
    let sites = scenario.catalog.sites;
    let Ok(mut disks) = Vec::with_capacity(alloc, usize::from(sites)) else {
        return Err(Fault::Memory);
    };
    for site in 0..sites {
        match rack.take(site, None) {
            Ok(disk) => disks.push_reserved(disk),
            Err(_) => {
                // The first cause decides the status.
                let _ = give_all(rack, disks);
                return Err(Fault::Rack { site });
            }
        }
    }
    Ok(disks)
}

/// Gives the disks of the first sites back, in order, or answers the first site whose disk the rack lost.
pub fn give_all<R: Rack>(rack: &mut R, disks: Vec<R::D>) -> Result<(), u8>
    requires few { length disks.items ≤ most_sites }
    ensures given { AreGiven
        (rack_at R.Rack rack.old) (rack_at R.Rack rack.new)
        0 disks.items }
    ensures same_folder { R.folder rack.new ≡ R.folder rack.old }
    ensures ok { OnOk result (R.faults rack.new ≡ R.faults rack.old) }
    ensures lost { IfErr result (IsFirstLost
        (rack_at R.Rack rack.old) (rack_at R.Rack rack.new)
        disks.items) }
{
    let mut lost = Ok(());
    let mut next = 0;
    for disk in disks {
        let site = next;
        let given = rack.give(site, disk);
        next += 1;
        lost = first_lost(lost, given.is_err(), site);
    }
    lost
}

// The first site whose disk the rack lost, where it may have lost that of one more.
fn first_lost(lost: Result<(), u8>, loses: bool, site: u8) -> Result<(), u8>
    ensures { result ≡ lost_after lost loses site }
{
    if loses && lost.is_ok() {
        Err(site)
    } else {
        lost
    }
}

//! What the other sites have put out arrives at a site.
ghost use Rattle.std.specs.Prelude.{◌≡◌, ◌≢◌, ◌<◌, ◌≤◌, ◌⊎◌, ℕ, length, OnOk};
ghost use Rattle.walter_base.specs.Vectors.{most_sites};
ghost use Rattle.walter_cluster.specs.Meetings.{HaveLanes, HaveAllMet, HaveStayed, HasArrived, IsAsBefore};

use crate::lending::lend_two;
use walter_base::{Mem, SiteId};
use walter_cell::Cell;
use walter_disk::Disk;
use walter_stream::{Sink, Source};

/// All that the other sites have put for this one arrives there.
pub fn meet_all<D: Disk + Drop, S: Source + Drop, K: Sink + Drop>(
    cells: &mut [Cell<D, S, K>],
    to: usize,
) -> Mem<()>
    requires few { length cells.old ≤ most_sites }
    requires lanes { HaveLanes cells.old }
    requires to { to < length cells.old }
    ensures stays { HaveStayed cells.old cells.new }
    ensures arrives { OnOk result ((from : ℕ) → from < length cells.old → from ≢ to
        → HasArrived cells.old cells.new to from) }
    ensures elsewhere { (i j : ℕ) → (i ≢ to) ⊎ (j ≡ to) → IsAsBefore cells.old cells.new i j }
    ensures met { HaveAllMet cells.old → HaveAllMet cells.new }
{
    for from in 0..cells.len() {
        meet_one(cells, to, from)?;
    }
    Ok(())
}

// All that one site has put for another arrives there; a site puts nothing for itself.
fn meet_one<D: Disk + Drop, S: Source + Drop, K: Sink + Drop>(
    cells: &mut [Cell<D, S, K>],
    to: usize,
    from: usize,
) -> Mem<()>
    requires few { length cells.old ≤ most_sites }
    requires lanes { HaveLanes cells.old }
    requires to { to < length cells.old }
    requires from { from < length cells.old }
    ensures stays { HaveStayed cells.old cells.new }
    ensures arrives { OnOk result (from ≢ to → HasArrived cells.old cells.new to from) }
    ensures elsewhere { (i j : ℕ) → (i ≢ to) ⊎ ((j ≢ from) ⊎ (j ≡ to)) → IsAsBefore cells.old cells.new i j }
    ensures met { HaveAllMet cells.old → HaveAllMet cells.new }
{
    if to == from {
        return Ok(());
    }
    let (receiver, sender) = lend_two(cells, to, from);
    receiver.meet(SiteId(to as u8), sender, SiteId(from as u8))
}

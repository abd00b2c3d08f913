//! Takes a bench apart, into trails, disks and connections.
ghost use Rattle.std.specs.Prelude.{◌≡◌, ◌≢◌, ◌<◌, ◌≤◌, ℕ, length};
ghost use Rattle.walter_base.specs.Vectors.{most_sites};
ghost use Rattle.walter_rules.specs.Merges.{AreLinked};
ghost use Rattle.walter_cell.specs.Cells.{IsCell};
ghost use Rattle.walter_cell.specs.Nodes.{IsSound};
ghost use Rattle.walter_cluster.specs.Benches.{AtEach, IsBench};
ghost use Rattle.walter_cluster.specs.Builds.{GivesBack};
ghost use Rattle.walter_cluster.specs.Meetings.{HaveLanes, Begins};

use crate::bench::Bench;
use crate::lending::lend_two;
use walter_base::SiteId;
use walter_cell::{Cell, Remains};
use walter_disk::Disk;
use walter_stream::{Sink, Source};
use walter_trail::Trail;

/// What is left of a bench: the trails, the disks, and what remains of the cells, with the connections of the clients,
/// each by the numbers of the sites.
#[derive(Drop)]
pub struct Closed<D: Disk, S: Source + Drop, K: Sink + Drop> {
    pub trails: Vec<Trail>,
    pub disks: Vec<D>,
    pub remains: Vec<Remains<S, K>>,
}

impl<D: Disk + Drop, S: Source + Drop, K: Sink + Drop> Bench<D, S, K> {
    /// Takes a bench apart. It takes no memory. What was delivered anywhere had been put out by its sender.
    pub fn close(self) -> Closed<D, S, K>
        ensures gives { GivesBack self.cells result }
        ensures linked { AreLinked result.trails.items }
        ensures bench { IsBench self }
        ensures sound { AtEach self.cells (λ i c. IsSound D.Disk c.node × IsCell c) }
    {
        let Bench {
            mut cells,
            trails,
            disks,
            remains,
            ..
        } = self;
        compare_all(&mut cells);
        let mut closed = Closed {
            trails,
            disks,
            remains,
        };
        for cell in cells {
            let (disk, trail, remains) = cell.into_parts();
            closed.trails.push_reserved(trail);
            closed.disks.push_reserved(disk);
            closed.remains.push_reserved(remains);
        }
        closed
    }
}

// What has arrived at each site is a beginning of what was put for it. Nothing changes.
fn compare_all<D: Disk + Drop, S: Source + Drop, K: Sink + Drop>(cells: &mut [Cell<D, S, K>])
    requires few { length cells.old ≤ most_sites }
    requires lanes { HaveLanes cells.old }
    ensures same { cells.new ≡ cells.old }
    ensures begins { (to from : ℕ) → to < length cells.old → from < length cells.old → to ≢ from
        → Begins cells.old to from }
{
    for to in 0..cells.len() {
        compare_with_all(cells, to);
    }
}

// What has arrived at one site.
fn compare_with_all<D: Disk + Drop, S: Source + Drop, K: Sink + Drop>(
    cells: &mut [Cell<D, S, K>],
    to: usize,
)
    requires few { length cells.old ≤ most_sites }
    requires lanes { HaveLanes cells.old }
    requires to { to < length cells.old }
    ensures same { cells.new ≡ cells.old }
    ensures begins { (from : ℕ) → from < length cells.old → to ≢ from → Begins cells.old to from }
{
    for from in 0..cells.len() {
        compare_one(cells, to, from);
    }
}

// What has arrived at one site from another.
fn compare_one<D: Disk + Drop, S: Source + Drop, K: Sink + Drop>(
    cells: &mut [Cell<D, S, K>],
    to: usize,
    from: usize,
)
    requires few { length cells.old ≤ most_sites }
    requires lanes { HaveLanes cells.old }
    requires to { to < length cells.old }
    requires from { from < length cells.old }
    ensures same { cells.new ≡ cells.old }
    ensures begins { to ≢ from → Begins cells.old to from }
{
    if to != from {
        let (receiver, sender) = lend_two(cells, to, from);
        receiver.compare(SiteId(to as u8), sender, SiteId(from as u8));
    }
}

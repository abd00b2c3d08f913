//! The cells of all sites, each behind a lock of its own.
ghost use Rattle.std.specs.Prelude.{◌≡◌, ◌<◌, ◌≤◌, ◌+◌, [], length, min, is_some, nat_lt, slice_get, Some, true, vec_len, vec_capacity};
ghost use Rattle.walter_base.specs.Vectors.{most_sites};
ghost use Rattle.walter_cell.specs.Lines.{is_here};
ghost use Rattle.walter_cluster.specs.Benches.{HasRoom, IsBench};
ghost use Rattle.walter_cluster.specs.Shared.{AreHeld, CanWork, Origin, bench_before, origins_of};
ghost use Rattle.walter_scenario.specs.declared.scenario.Scenario.{Scenario};

use crate::bench::Bench;
use crate::held::Held;
use crate::name::Name;
use std::alloc::Global;
use std::marker::{Model, PhantomData};
use std::sync::{Mutex, Wait};
use walter_base::{Mem, SiteId};
use walter_cell::{Cell, Pumped, Remains, Serve};
use walter_disk::Disk;
use walter_link::Pump;
use walter_stream::{Sink, Source};
use walter_trail::Trail;

// The cell of a site with its pump behind their lock; none where there is no such site.
type Locked<N, D, S, K, const I: usize> = Option<Mutex<Held<N, D, S, K, I>>>;

/// The cells of all sites with their pumps, each behind a lock, for as many sites as there may be. Contracts see the home of
/// each client.
#[derive(Drop)]
pub struct Cluster<N: Name, D: Disk, S: Source + Drop, K: Sink + Drop> {
    homes: Vec<SiteId>,
    site_0: Locked<N, D, S, K, 0>,
    site_1: Locked<N, D, S, K, 1>,
    site_2: Locked<N, D, S, K, 2>,
    site_3: Locked<N, D, S, K, 3>,
    site_4: Locked<N, D, S, K, 4>,
    site_5: Locked<N, D, S, K, 5>,
    site_6: Locked<N, D, S, K, 6>,
    site_7: Locked<N, D, S, K, 7>,
    site_8: Locked<N, D, S, K, 8>,
    site_9: Locked<N, D, S, K, 9>,
    site_10: Locked<N, D, S, K, 10>,
    site_11: Locked<N, D, S, K, 11>,
    site_12: Locked<N, D, S, K, 12>,
    site_13: Locked<N, D, S, K, 13>,
    site_14: Locked<N, D, S, K, 14>,
    site_15: Locked<N, D, S, K, 15>,
    room: Mutex<Room<N, D, S, K>>,
}

impl<N: Name, D: Disk, S: Source + Drop, K: Sink + Drop> Model for Cluster<N, D, S, K> {
    ghost use Rattle.std.specs.Prelude.{◌≡◌, ◌≤◌, List, is_some, length, nat_lt};
    ghost use Rattle.walter_base.specs.declared.names.SiteId.{SiteId};
    ghost use Rattle.walter_cluster.specs.Benches.{IsBench};
    ghost use Rattle.walter_cluster.specs.Shared.{bench_before};

    ghost Value = { List SiteId };

    ghost view = { λ c. c.homes.items };

    ghost invariant = { λ c. IsBench (bench_before N.origins c.homes.items)
        × (is_some c.site_0 ≡ nat_lt 0 (length N.origins))
        × (is_some c.site_1 ≡ nat_lt 1 (length N.origins))
        × (is_some c.site_2 ≡ nat_lt 2 (length N.origins))
        × (is_some c.site_3 ≡ nat_lt 3 (length N.origins))
        × (is_some c.site_4 ≡ nat_lt 4 (length N.origins))
        × (is_some c.site_5 ≡ nat_lt 5 (length N.origins))
        × (is_some c.site_6 ≡ nat_lt 6 (length N.origins))
        × (is_some c.site_7 ≡ nat_lt 7 (length N.origins))
        × (is_some c.site_8 ≡ nat_lt 8 (length N.origins))
        × (is_some c.site_9 ≡ nat_lt 9 (length N.origins))
        × (is_some c.site_10 ≡ nat_lt 10 (length N.origins))
        × (is_some c.site_11 ≡ nat_lt 11 (length N.origins))
        × (is_some c.site_12 ≡ nat_lt 12 (length N.origins))
        × (is_some c.site_13 ≡ nat_lt 13 (length N.origins))
        × (is_some c.site_14 ≡ nat_lt 14 (length N.origins))
        × (is_some c.site_15 ≡ nat_lt 15 (length N.origins)) };
}

// What a bench has besides, which waits for the cells to come back. It lies behind a lock, since not all of it may be
// shared by reference.
#[derive(Drop)]
struct Room<N: Name, D: Disk, S: Source + Drop, K: Sink + Drop> {
    cells: Vec<Cell<D, S, K>>,
    pumps: Vec<Pump>,
    trails: Vec<Trail>,
    disks: Vec<D>,
    remains: Vec<Remains<S, K>>,
    of: PhantomData<N>,
}

impl<N: Name, D: Disk, S: Source + Drop, K: Sink + Drop> Model for Room<N, D, S, K> {
    ghost use Rattle.std.specs.Prelude.{length};
    ghost use Rattle.walter_cluster.specs.Benches.{HasRoom};

    ghost Value = { Unit {0} };

    ghost view = { λ _. tt };

    ghost invariant = { λ r. HasRoom (length N.origins) r.cells × HasRoom (length N.origins) r.pumps
        × HasRoom (length N.origins) r.trails × HasRoom (length N.origins) r.disks
        × HasRoom (length N.origins) r.remains };
}

impl<N: Name, D: Disk + Drop, S: Source + Drop, K: Sink + Drop> Room<N, D, S, K> {
    fn new(
        cells: Vec<Cell<D, S, K>>,
        pumps: Vec<Pump>,
        trails: Vec<Trail>,
        disks: Vec<D>,
        remains: Vec<Remains<S, K>>,
    ) -> Room<N, D, S, K>
        requires cells { HasRoom (length N.origins) cells }
        requires pumps { HasRoom (length N.origins) pumps }
        requires trails { HasRoom (length N.origins) trails }
        requires disks { HasRoom (length N.origins) disks }
        requires remains { HasRoom (length N.origins) remains }
    {
        Room {
            cells,
            pumps,
            trails,
            disks,
            remains,
            of: PhantomData,
        }
    }

    // A bench without cells, and a list of pumps without any, with room for all.
    fn into_lists(
        self,
    ) -> (
        Vec<Cell<D, S, K>>,
        Vec<Pump>,
        Vec<Trail>,
        Vec<D>,
        Vec<Remains<S, K>>,
    )
        ensures cells { HasRoom (length N.origins) result.0 }
        ensures pumps { HasRoom (length N.origins) result.1 }
        ensures trails { HasRoom (length N.origins) result.2 }
        ensures disks { HasRoom (length N.origins) result.3 }
        ensures remains { HasRoom (length N.origins) result.4 }
    {
        let Room {
            cells,
            pumps,
            trails,
            disks,
            remains,
            ..
        } = self;
        (cells, pumps, trails, disks, remains)
    }
}

// Puts the cell of site `I`, if there is one, behind its lock.
fn lock_last<N: Name, D: Disk + Drop, S: Source + Drop, K: Sink + Drop, const I: usize>(
    cells: &mut Vec<Cell<D, S, K>>,
    pumps: &mut Vec<Pump>,
) -> Locked<N, D, S, K, I>
    requires cells { vec_len cells.old ≡ min (I + 1) (length N.origins) }
    requires pumps { vec_len pumps.old ≡ min (I + 1) (length N.origins) }
    requires held { AreHeld D.Disk N.origins cells.old.items pumps.old.items }
    ensures held { AreHeld D.Disk N.origins cells.new.items pumps.new.items }
    ensures cells { vec_len cells.new ≡ min I (length N.origins) }
    ensures pumps { vec_len pumps.new ≡ min I (length N.origins) }
    ensures there { is_some result ≡ nat_lt I (length N.origins) }
    ensures cells_room { vec_capacity cells.new ≡ vec_capacity cells.old }
    ensures pumps_room { vec_capacity pumps.new ≡ vec_capacity pumps.old }
{
    if cells.len() <= I {
        return None;
    }
    let cell = cells.pop().unwrap();
    let pump = pumps.pop().unwrap();
    Some(Mutex::new(Held::new(cell, pump)))
}

// Takes the cell of site `I`, if there is one, out of its lock.
fn unlock_next<N: Name, D: Disk + Drop, S: Source + Drop, K: Sink + Drop, const I: usize>(
    locked: Locked<N, D, S, K, I>,
    cells: &mut Vec<Cell<D, S, K>>,
    pumps: &mut Vec<Pump>,
)
    requires there { is_some locked ≡ nat_lt I (length N.origins) }
    requires cells { vec_len cells.old ≡ min I (length N.origins) }
    requires pumps { vec_len pumps.old ≡ min I (length N.origins) }
    requires cells_room { length N.origins ≤ vec_capacity cells.old }
    requires pumps_room { length N.origins ≤ vec_capacity pumps.old }
    requires held { AreHeld D.Disk N.origins cells.old.items pumps.old.items }
    ensures held { AreHeld D.Disk N.origins cells.new.items pumps.new.items }
    ensures cells { vec_len cells.new ≡ min (I + 1) (length N.origins) }
    ensures pumps { vec_len pumps.new ≡ min (I + 1) (length N.origins) }
    ensures cells_room { vec_capacity cells.new ≡ vec_capacity cells.old }
    ensures pumps_room { vec_capacity pumps.new ≡ vec_capacity pumps.old }
{
    if let Some(mutex) = locked {
        let (cell, pump) = mutex.into_inner().into_parts();
        cells.push_reserved(cell);
        pumps.push_reserved(pump);
    }
}

impl<N: Name, D: Disk + Drop, S: Source + Drop, K: Sink + Drop> Cluster<N, D, S, K> {
    /// Puts each cell with its pump behind a lock. It takes no memory.
    pub fn share(bench: Bench<D, S, K>, pumps: Vec<Pump>) -> Cluster<N, D, S, K>
        requires { (t : Scenario) × (N.origins ≡ origins_of D.Disk t bench.cells) × CanWork D.Disk t bench pumps.items }
        ensures { result ≡ bench.homes }
    {
        let Bench {
            mut cells,
            homes,
            trails,
            disks,
            remains,
        } = bench;
        let mut pumps = pumps;
        let site_15 = lock_last::<N, D, S, K, 15>(&mut cells, &mut pumps);
        let site_14 = lock_last::<N, D, S, K, 14>(&mut cells, &mut pumps);
        let site_13 = lock_last::<N, D, S, K, 13>(&mut cells, &mut pumps);
        let site_12 = lock_last::<N, D, S, K, 12>(&mut cells, &mut pumps);
        let site_11 = lock_last::<N, D, S, K, 11>(&mut cells, &mut pumps);
        let site_10 = lock_last::<N, D, S, K, 10>(&mut cells, &mut pumps);
        let site_9 = lock_last::<N, D, S, K, 9>(&mut cells, &mut pumps);
        let site_8 = lock_last::<N, D, S, K, 8>(&mut cells, &mut pumps);
        let site_7 = lock_last::<N, D, S, K, 7>(&mut cells, &mut pumps);
        let site_6 = lock_last::<N, D, S, K, 6>(&mut cells, &mut pumps);
        let site_5 = lock_last::<N, D, S, K, 5>(&mut cells, &mut pumps);
        let site_4 = lock_last::<N, D, S, K, 4>(&mut cells, &mut pumps);
        let site_3 = lock_last::<N, D, S, K, 3>(&mut cells, &mut pumps);
        let site_2 = lock_last::<N, D, S, K, 2>(&mut cells, &mut pumps);
        let site_1 = lock_last::<N, D, S, K, 1>(&mut cells, &mut pumps);
        let site_0 = lock_last::<N, D, S, K, 0>(&mut cells, &mut pumps);
        Cluster {
            homes,
            site_0,
            site_1,
            site_2,
            site_3,
            site_4,
            site_5,
            site_6,
            site_7,
            site_8,
            site_9,
            site_10,
            site_11,
            site_12,
            site_13,
            site_14,
            site_15,
            room: Mutex::new(Room::new(cells, pumps, trails, disks, remains)),
        }
    }

    /// Takes the cells and the pumps out of their locks. It takes no memory.
    pub fn unshare(self) -> (Bench<D, S, K>, Vec<Pump>)
        ensures homes { result.0.homes ≡ self }
        ensures sites { length result.0.cells ≡ length N.origins }
        ensures pumps { length result.1.items ≡ length N.origins }
        ensures held { AreHeld D.Disk N.origins result.0.cells result.1.items }
    {
        let Cluster {
            homes,
            site_0,
            site_1,
            site_2,
            site_3,
            site_4,
            site_5,
            site_6,
            site_7,
            site_8,
            site_9,
            site_10,
            site_11,
            site_12,
            site_13,
            site_14,
            site_15,
            room,
        } = self;
        let (mut cells, mut pumps, trails, disks, remains) = room.into_inner().into_lists();
        unlock_next::<N, D, S, K, 0>(site_0, &mut cells, &mut pumps);
        unlock_next::<N, D, S, K, 1>(site_1, &mut cells, &mut pumps);
        unlock_next::<N, D, S, K, 2>(site_2, &mut cells, &mut pumps);
        unlock_next::<N, D, S, K, 3>(site_3, &mut cells, &mut pumps);
        unlock_next::<N, D, S, K, 4>(site_4, &mut cells, &mut pumps);
        unlock_next::<N, D, S, K, 5>(site_5, &mut cells, &mut pumps);
        unlock_next::<N, D, S, K, 6>(site_6, &mut cells, &mut pumps);
        unlock_next::<N, D, S, K, 7>(site_7, &mut cells, &mut pumps);
        unlock_next::<N, D, S, K, 8>(site_8, &mut cells, &mut pumps);
        unlock_next::<N, D, S, K, 9>(site_9, &mut cells, &mut pumps);
        unlock_next::<N, D, S, K, 10>(site_10, &mut cells, &mut pumps);
        unlock_next::<N, D, S, K, 11>(site_11, &mut cells, &mut pumps);
        unlock_next::<N, D, S, K, 12>(site_12, &mut cells, &mut pumps);
        unlock_next::<N, D, S, K, 13>(site_13, &mut cells, &mut pumps);
        unlock_next::<N, D, S, K, 14>(site_14, &mut cells, &mut pumps);
        unlock_next::<N, D, S, K, 15>(site_15, &mut cells, &mut pumps);
        let bench = Bench {
            cells,
            homes,
            trails,
            disks,
            remains,
        };
        (bench, pumps)
    }

    /// Gives a client its turn at its site, under that site's lock.
    pub fn turn(&self, rt: &impl Wait, alloc: Global, client: u32) -> Mem<Serve>
        requires { client < length self.now }
    {
        match self.homes[client as usize].0 {
            0 => turn_at(rt, alloc, &self.site_0, client),
            1 => turn_at(rt, alloc, &self.site_1, client),
            2 => turn_at(rt, alloc, &self.site_2, client),
            3 => turn_at(rt, alloc, &self.site_3, client),
            4 => turn_at(rt, alloc, &self.site_4, client),
            5 => turn_at(rt, alloc, &self.site_5, client),
            6 => turn_at(rt, alloc, &self.site_6, client),
            7 => turn_at(rt, alloc, &self.site_7, client),
            8 => turn_at(rt, alloc, &self.site_8, client),
            9 => turn_at(rt, alloc, &self.site_9, client),
            10 => turn_at(rt, alloc, &self.site_10, client),
            11 => turn_at(rt, alloc, &self.site_11, client),
            12 => turn_at(rt, alloc, &self.site_12, client),
            13 => turn_at(rt, alloc, &self.site_13, client),
            14 => turn_at(rt, alloc, &self.site_14, client),
            15 => turn_at(rt, alloc, &self.site_15, client),
            _ => unreachable!(),
        }
    }

    /// What has been put for a site arrives there, and the site does the first that can be done; and so again, so many
    /// times at most, until nothing is done. The lock of the site is taken once for all. What the last came to.
    pub fn pump(&self, rt: &impl Wait, alloc: Global, site: SiteId, most: u32) -> Mem<Pumped>
        requires { site.0 < length N.origins }
    {
        match site.0 {
            0 => pump_at(rt, alloc, &self.site_0, most),
            1 => pump_at(rt, alloc, &self.site_1, most),
            2 => pump_at(rt, alloc, &self.site_2, most),
            3 => pump_at(rt, alloc, &self.site_3, most),
            4 => pump_at(rt, alloc, &self.site_4, most),
            5 => pump_at(rt, alloc, &self.site_5, most),
            6 => pump_at(rt, alloc, &self.site_6, most),
            7 => pump_at(rt, alloc, &self.site_7, most),
            8 => pump_at(rt, alloc, &self.site_8, most),
            9 => pump_at(rt, alloc, &self.site_9, most),
            10 => pump_at(rt, alloc, &self.site_10, most),
            11 => pump_at(rt, alloc, &self.site_11, most),
            12 => pump_at(rt, alloc, &self.site_12, most),
            13 => pump_at(rt, alloc, &self.site_13, most),
            14 => pump_at(rt, alloc, &self.site_14, most),
            15 => pump_at(rt, alloc, &self.site_15, most),
            _ => unreachable!(),
        }
    }
}

fn turn_at<N: Name, D: Disk + Drop, S: Source + Drop, K: Sink + Drop, const I: usize>(
    rt: &impl Wait,
    alloc: Global,
    locked: &Locked<N, D, S, K, I>,
    client: u32,
) -> Mem<Serve>
    requires there { is_some locked.now ≡ true }
    requires home { (o : Origin) → slice_get N.origins I ≡ Some o → is_here o.cell.lines client ≡ true }
{
    match locked {
        Some(mutex) => mutex.lock(rt).turn(alloc, client),
        None => unreachable!(),
    }
}

fn pump_at<N: Name, D: Disk + Drop, S: Source + Drop, K: Sink + Drop, const I: usize>(
    rt: &impl Wait,
    alloc: Global,
    locked: &Locked<N, D, S, K, I>,
    most: u32,
) -> Mem<Pumped>
    requires { is_some locked.now ≡ true }
{
    match locked {
        Some(mutex) => mutex.lock(rt).pump_on(alloc, most),
        None => unreachable!(),
    }
}

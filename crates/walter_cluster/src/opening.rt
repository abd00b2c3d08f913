//! Builds the bench of a scenario over disks.
ghost use Rattle.std.specs.Prelude.{◌≡◌, ◌<◌, ◌≤◌, ◌+◌, ◌∷◌, ◌++◌, ℕ, List, [], length, map, slice_get, vec_capacity, Option, Some, IsSome, IfOk, IfErr, OnOk, All};
ghost use Rattle.walter_base.specs.Sizes.{most_in};
ghost use Rattle.walter_scenario.specs.declared.scenario.Client.{Client};
ghost use Rattle.walter_cell.specs.Lines.{LineValue};
ghost use Rattle.walter_checkpoint.specs.Loads.{IsAreas};
ghost use Rattle.walter_cluster.specs.Benches.{IsOf, IsToldAt, AreRoomy, AreAllConnected, AreAllAnswered, AreMet, calls_at, disks_of};
ghost use Rattle.walter_cluster.specs.Lanes.{rows_in, columns_in};
ghost use Rattle.walter_cluster.specs.Seats.{lists_in};
ghost use Rattle.walter_cluster.specs.Builds.{AreUnread, AreUnwritten, AreUnarmed, AreCallsOnceBegun, LeavesDisks, HadNoRecords, AreLaid, IsWhyNone};
ghost use Rattle.walter_cluster.specs.Moments.{IsFirst, moment_of};
ghost use Rattle.walter_cluster.specs.Openings.{HasPlaces, ArePrepared, IsBegunBench};

use crate::bench::Bench;
use crate::connecting::connect;
use crate::seating::seat_all;
use std::alloc::Global;
use walter_base::{Mem, SiteId};
use walter_cell::{Cell, Line, Remains};
use walter_disk::Disk;
use walter_engine::BeginFault;
use walter_lane::{Inbound, Outbound};
use walter_scenario::{Client, Scenario};
use walter_stream::{Sink, Source};
use walter_trail::Trail;

/// Why no bench was built: the first site that doesn't begin with its disk, and why; or memory ran out. The disks come
/// back, in order.
#[derive(Drop)]
pub struct Unbuilt<D> {
    pub disks: Vec<D>,
    pub site: SiteId,
    pub why: BeginFault,
}

// Lists without elements, with room for what a bench has.
#[derive(Drop)]
pub(crate) struct Room<D: Disk, S: Source + Drop, K: Sink + Drop> {
    pub(crate) cells: Vec<Cell<D, S, K>>,
    pub(crate) trails: Vec<Trail>,
    pub(crate) disks: Vec<D>,
    pub(crate) remains: Vec<Remains<S, K>>,
}

// What the cells are made of beside their disks, by the sites' numbers, the site of each client, and room.
#[derive(Drop)]
pub(crate) struct Parts<D: Disk, S: Source + Drop, K: Sink + Drop> {
    pub(crate) rows: Vec<Vec<Outbound>>,
    pub(crate) columns: Vec<Vec<Inbound>>,
    pub(crate) lists: Vec<Vec<Option<Line<S, K>>>>,
    pub(crate) homes: Vec<SiteId>,
    pub(crate) room: Room<D, S, K>,
}

/// The sites of a scenario over these disks, in order, each up in its first epoch, with a lane from each to each, and
/// with these connections of the scenario's clients.
pub fn build<D: Disk + Drop, S: Source + Drop, K: Sink + Drop>(
    alloc: Global,
    scenario: &Scenario,
    disks: Vec<D>,
    conns: Vec<Line<S, K>>,
) -> Result<Bench<D, S, K>, Unbuilt<D>>
    requires some { 0 < scenario.now.catalog.sites }
    requires few { scenario.now.catalog.sites ≤ most_in scenario.now.format }
    requires fewer { scenario.now.catalog.tolerated < scenario.now.catalog.sites }
    requires place { 19 ≤ scenario.now.capacity }
    requires areas { IsAreas scenario.now.areas scenario.now.capacity }
    requires within { All (λ (client : Client). client.site.0 < scenario.now.catalog.sites) scenario.now.clients }
    requires disks { length disks.items ≡ scenario.now.catalog.sites }
    requires conns { length conns.items ≡ length scenario.now.clients }
    ensures of { IfOk result (IsOf scenario.now) }
    ensures roomy { IfOk result (AreRoomy scenario.now) }
    ensures told { (i : ℕ) (disk : D) → slice_get disks.items i ≡ Some disk → IsSome (D.known disk).reads
        → IfOk result (IsToldAt D.Disk i) }
    ensures connected { AreUnread scenario.now.clients conns.items → IfOk result (AreAllConnected scenario.now) }
    ensures answered { (before : ℕ → List ℕ) → AreUnwritten before conns.items
        → IfOk result (AreAllAnswered scenario.now before) }
    ensures met { IfOk result AreMet }
    ensures first { AreUnarmed D.Disk disks.items
        → IfOk result (λ bench. IsFirst scenario.now.catalog.sites (moment_of D.Disk bench.cells)) }
    ensures calls { IfOk result (λ bench.
        AreCallsOnceBegun D.Disk scenario.now disks.items (calls_at D.Disk bench.cells)) }
    ensures leaves { LeavesDisks D.Disk scenario.now disks.items result }
    ensures had_none { OnOk result (HadNoRecords D.Disk scenario.now disks.items) }
    ensures laid { IfOk result (λ bench. AreLaid D.Disk scenario.now disks.items bench.cells) }
    ensures why { IfErr result (λ unbuilt. IsWhyNone D.Disk scenario.now disks.items unbuilt) }
{
    let Ok(parts) = prepare(alloc, scenario, conns) else {
        return Err(Unbuilt {
            disks,
            site: SiteId(0),
            why: BeginFault::NoMemory,
        });
    };
    begin_all(alloc, scenario, disks, parts)
}

// All that takes memory but the sites' own.
fn prepare<D: Disk + Drop, S: Source + Drop, K: Sink + Drop>(
    alloc: Global,
    scenario: &Scenario,
    conns: Vec<Line<S, K>>,
) -> Mem<Parts<D, S, K>>
    requires within { All (λ (client : Client). client.site.0 < scenario.now.catalog.sites) scenario.now.clients }
    requires conns { length conns.items ≡ length scenario.now.clients }
    ensures { IfOk result (λ parts. ArePrepared scenario.now conns.items parts) }
{
    let sites = usize::from(scenario.catalog.sites);
    let clients = scenario.clients.as_slice();
    let (rows, columns) = connect(alloc, sites)?;
    let lists = seat_all(alloc, clients, conns, sites)?;
    Ok(Parts {
        rows,
        columns,
        lists,
        homes: find_homes(alloc, clients)?,
        room: make_room(alloc, sites)?,
    })
}

// Room for what so many sites have.
fn make_room<D: Disk + Drop, S: Source + Drop, K: Sink + Drop>(
    alloc: Global,
    sites: usize,
) -> Mem<Room<D, S, K>>
    ensures { IfOk result (HasPlaces sites) }
{
    Ok(Room {
        cells: Vec::with_capacity(alloc, sites)?,
        trails: Vec::with_capacity(alloc, sites)?,
        disks: Vec::with_capacity(alloc, sites)?,
        remains: Vec::with_capacity(alloc, sites)?,
    })
}

// The site of each client.
fn find_homes(alloc: Global, clients: &[Client]) -> Mem<Vec<SiteId>>
    ensures { IfOk result (λ homes. homes.items ≡ map (λ (client : Client). client.site) clients.now) }
{
    let mut homes = Vec::new(alloc);
    for client in clients {
        homes.push(client.site)?;
    }
    Ok(homes)
}

// Begins the sites, one after another, until one doesn't.
fn begin_all<D: Disk + Drop, S: Source + Drop, K: Sink + Drop>(
    alloc: Global,
    scenario: &Scenario,
    mut disks: Vec<D>,
    parts: Parts<D, S, K>,
) -> Result<Bench<D, S, K>, Unbuilt<D>>
    requires few { scenario.now.catalog.sites ≤ most_in scenario.now.format }
    requires fewer { scenario.now.catalog.tolerated < scenario.now.catalog.sites }
    requires place { 19 ≤ scenario.now.capacity }
    requires areas { IsAreas scenario.now.areas scenario.now.capacity }
    requires within { All (λ (client : Client). client.site.0 < scenario.now.catalog.sites) scenario.now.clients }
    requires disks { length disks.items ≡ scenario.now.catalog.sites }
    requires ready { (conns : List LineValue) × ArePrepared scenario.now conns parts }
    ensures begun { IfOk result (IsBegunBench D.Disk scenario.now disks.items (rows_in parts.rows.items)
        (columns_in parts.columns.items) (lists_in parts.lists.items) parts.homes.items) }
    ensures leaves { LeavesDisks D.Disk scenario.now disks.items result }
    ensures why { IfErr result (λ unbuilt. IsWhyNone D.Disk scenario.now disks.items unbuilt) }
{
    let Parts {
        mut rows,
        mut columns,
        mut lists,
        homes,
        room,
    } = parts;
    let Room {
        mut cells,
        trails,
        disks: back,
        remains,
    } = room;
    for number in 0..scenario.catalog.sites {
        let disk = disks.remove(0);
        let outs = rows.remove(0);
        let ins = columns.remove(0);
        let lines = lists.remove(0);
        let site = SiteId(number);
        match Cell::begin(
            alloc,
            disk,
            &scenario.catalog,
            site,
            scenario.capacity,
            scenario.areas,
            scenario.format,
            scenario.room,
            outs,
            ins,
            lines,
        ) {
            Ok(cell) => cells.push_reserved(cell),
            Err((disk, why)) => {
                return Err(Unbuilt {
                    disks: give_back(cells, back, disk, disks),
                    site,
                    why,
                });
            }
        }
    }
    Ok(Bench {
        cells,
        homes,
        trails,
        disks: back,
        remains,
    })
}

// The disks of the cells, the one of the site that didn't begin, and those behind it. There is room for them.
fn give_back<D: Disk + Drop, S: Source + Drop, K: Sink + Drop>(
    cells: Vec<Cell<D, S, K>>,
    mut back: Vec<D>,
    disk: D,
    rest: Vec<D>,
) -> Vec<D>
    requires none { back.items ≡ [] }
    requires room { length cells.items + 1 + length rest.items ≤ vec_capacity back }
    ensures { map (λ (d : D). Some d) result.items
        ≡ disks_of cells.items ++ map (λ (d : D). Some d) (disk ∷ rest.items) }
{
    take_disks(&mut back, cells);
    back.push_reserved(disk);
    push_all(&mut back, rest);
    back
}

// The disks of the cells come behind those that are there.
fn take_disks<D: Disk + Drop, S: Source + Drop, K: Sink + Drop>(
    back: &mut Vec<D>,
    cells: Vec<Cell<D, S, K>>,
)
    requires { length back.old.items + length cells.items ≤ vec_capacity back.old }
    ensures disks { map (λ (d : D). Some d) back.new.items
        ≡ map (λ (d : D). Some d) back.old.items ++ disks_of cells.items }
    ensures room { vec_capacity back.new ≡ vec_capacity back.old }
{
    for cell in cells {
        let (disk, _, _) = cell.into_parts();
        back.push_reserved(disk);
    }
}

fn push_all<D: Drop>(disks: &mut Vec<D>, rest: Vec<D>)
    requires { length disks.old.items + length rest.items ≤ vec_capacity disks.old }
    ensures { disks.new.items ≡ disks.old.items ++ rest.items }
{
    for disk in rest {
        disks.push_reserved(disk);
    }
}

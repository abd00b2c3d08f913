//! A site over its disk, with its trail and its ends of the lanes to the others.
ghost use Rattle.std.specs.Prelude.{◌≡◌, ◌<◌, ◌≤◌, true, ◌-◌, ◌+◌, ◌≢◌, [], ℕ, max, slice_get, length};
ghost use Rattle.std.specs.Prelude.{vec_capacity, IsOk, option_map, Some, OnErr, OnOk, IfOk, IfErr, IfSome, IfNone};
ghost use mathlib.Core.List.{IsPrefix};
ghost use Rattle.walter_base.specs.Sizes.{most_in};
ghost use Rattle.walter_engine.specs.declared.answers.BeginFault.TheVariants as unbegun;
ghost use Rattle.walter_machine.specs.States.{IsSizedEvent};
ghost use Rattle.walter_cell.specs.Builds.{Begins, HasOpened, IsNewEngine};
ghost use Rattle.walter_checkpoint.specs.Areas.{shape_by};
ghost use Rattle.walter_checkpoint.specs.Loads.{IsAreas};
ghost use Rattle.walter_cell.specs.Entries.{IsSpent, HasPlace};
ghost use Rattle.walter_outbox.specs.Lanes.{put_to, met_to, mets, ring_to, out_rings};
ghost use Rattle.walter_rules.specs.Trails.{opening};

use std::alloc::Global;
use std::marker::Model;
use walter_base::{Catalog, Format, Mem, Record, RecordPlace, SiteId};
use walter_disk::Disk;
use walter_engine::{BeginFault, Effect, Engine};
use walter_lane::{Inbound, Outbound, compare, meet};
use walter_machine::Machine;
use walter_outbox::put_out;
use walter_rules::{Came, Entry, Event, Outcome};
use walter_trail::Trail;

/// The most entries that a trail may have.
const MOST_ENTRIES: usize = 100_000;

/// The first stamp that no entry has.
const END_OF_STAMPS: u64 = 1 << 62;

/// A site over its disk with its trail, and its ends of the lanes to the other sites. All but what the site knows outlives
/// a stop.
#[derive(Drop)]
pub struct Node<D: Disk> {
    // Behind a box, so that the size of what has a node doesn't depend on the disk's.
    engine: Box<Engine<D>>,
    entries: Vec<Entry>,
    // The stamp of the last entry.
    clock: u64,
    outs: Vec<Outbound>,
}

impl<D: Disk> Model for Node<D> {
    ghost use Rattle.std.specs.Prelude.{◌-◌, vec_len, vec_capacity};
    ghost use Rattle.std.specs.Coded.{codes};
    ghost use Rattle.walter_base.specs.contracts.catalog.Catalog as coded_catalog;
    ghost use Rattle.walter_lane.specs.Lanes.{sending_code};
    ghost use Rattle.walter_rules.specs.contracts.entry.Entry as coded_entry;
    ghost use Rattle.walter_cell.specs.Nodes.{NodeValue, IsWhole, seen};

    ghost Value = { NodeValue D };

    ghost coded = { Prim.hlevel (codes, coded_catalog.the_row.coded, coded_entry.the_row.coded, sending_code) };

    ghost view = { λ n. seen (vec_capacity n.entries - vec_len n.entries) (record {
      engine = n.engine.value;
      trail = n.entries.items;
      clock = n.clock;
      outs = n.outs.items;
    }) };

    ghost invariant = { λ n. IsWhole D.Disk (record {
      engine = n.engine.value;
      trail = n.entries.items;
      clock = n.clock;
      outs = n.outs.items;
    }) };
}

impl<D: Disk + Drop> Node<D> {
    ghost use Rattle.walter_rules.specs.Deliveries.{IsLeastEnabled};
    ghost use Rattle.walter_rules.specs.Layouts.{header_of};
    ghost use Rattle.walter_rules.specs.Trails.{IsNextStamp};
    ghost use Rattle.walter_cell.specs.Nodes.{clock_in, places_in, standing_of, IsReady, IsSameButRoom, IsSameButLanes, IsSameButDisk};
    ghost use Rattle.walter_cell.specs.Nodes.{IsSound, Takes, arms_under, armed_under, calls_under, is_told};

    /// A site over its disk, up in its first epoch, with memory for so many entries. Where it doesn't begin the disk
    /// comes back.
    #[tactic(auto, using(crate::proofs::Nodes::has_disk))]
    pub fn begin(
        alloc: Global,
        disk: D,
        catalog: &Catalog,
        site: SiteId,
        capacity: u64,
        areas: u8,
        format: Format,
        room: u32,
        outs: Vec<Outbound>,
    ) -> Result<Node<D>, (D, BeginFault)>
        requires here { site.0 < catalog.now.sites }
        requires most { catalog.now.sites ≤ most_in format }
        requires fewer { catalog.now.tolerated < catalog.now.sites }
        requires place { 19 ≤ capacity }
        requires areas { IsAreas areas capacity }
        requires lanes { length outs.items ≡ catalog.now.sites }
        requires empty { (k : ℕ) → k < catalog.now.sites → put_to outs.items k ≡ [] }
        ensures opens { IfOk result (HasOpened D.Disk catalog.now capacity areas format site disk outs.items) }
        ensures begins { Begins D.Disk (λ node. node.disk) (shape_by capacity catalog.now.sites format) areas disk result }
        ensures room { IfOk result (λ node. room ≤ places_in node) }
    {
        let Ok((mut entries, place)) = open(alloc, room) else {
            return Err((disk, BeginFault::NoMemory));
        };
        let mut engine = new_engine(alloc, disk, catalog, site, capacity, areas, format)?;
        if let Err(why) = engine.begin() {
            return Err((Box::into_inner(engine).into_disk(), why));
        }
        entries.push_reserved(opening_of(alloc, place));
        Ok(Node {
            engine,
            entries,
            clock: 1,
            outs,
        })
    }

    /// The format that the header of its journal names.
    pub fn header(&self) -> Format
        ensures header { result ≡ header_of self.now.layout }
        ensures places { self.now.catalog.sites ≤ most_in result }
    {
        self.engine.header()
    }

    /// The disk, the trail so far, and what the site knew.
    pub fn into_parts(self) -> (D, Trail, Machine)
        ensures disk { Some result.0 ≡ self.disk }
        ensures trail { result.1 ≡ self.trail }
        ensures sound { IsSound D.Disk self }
    {
        let Node {
            engine,
            entries,
            ..
        } = self;
        let (disk, machine) = Box::into_inner(engine).into_parts();
        (disk, Trail::from(entries), machine)
    }

    /// The last entry of the trail.
    pub fn last(&self) -> Option<&Entry>
        ensures { option_map (λ e. e.now) result ≡ slice_get self.now.trail (length self.now.trail - 1) }
    {
        self.entries.last()
    }

    /// Whether the site is up.
    pub fn is_up(&self) -> bool
        ensures { is_told D.Disk self.now.disk ≡ true → result ≡ (standing_of self.now).up }
    {
        self.engine.is_up()
    }

    /// The least peer whose next commit can be committed here; none where the site is down.
    pub fn least_enabled(&self) -> Option<SiteId>
        ensures { is_told D.Disk self.now.disk ≡ true → (standing_of self.now).up ≡ true
            → IsLeastEnabled self.now.catalog self.now.site (standing_of self.now).knows result }
    {
        self.engine.least_enabled()
    }

    /// The stamp of the next entry, which brings a packet that was put out with this stamp, or none, where the stamp is
    /// 0. None where the trail is spent.
    pub fn next_stamp(&self, put: u64) -> Option<u64>
        ensures some { IfSome result (λ stamp. (stamp ≡ max (clock_in self.now) put + 1)
            × HasPlace stamp self.now.trail) }
        ensures none { IfNone result (IsSpent (max (clock_in self.now) put + 1) self.now.trail) }
    {
        let last = self.clock.max(put);
        if self.entries.len() >= MOST_ENTRIES || last >= END_OF_STAMPS - 1 {
            return None;
        }
        Some(last + 1)
    }

    /// Takes the memory for one more entry, where there is none.
    pub fn make_ready(&mut self) -> Mem<()>
        ensures ready { OnOk result (IsReady self.new) }
        ensures had { IsReady self.old → IsOk result }
        ensures same { IsSameButRoom self.old self.new }
    {
        self.entries.reserve(1)?;
        Ok(())
    }

    /// An event comes to the site, with this stamp: its entry comes to the trail, and what it puts out to the lanes.
    pub fn take(&mut self, stamp: u64, event: Event)
        requires ready { IsReady self.old }
        requires place { HasPlace stamp self.old.trail }
        requires next { IsNextStamp event (clock_in self.old) stamp }
        requires sized { IsSizedEvent self.old.catalog.sites event }
        ensures { Takes D.Disk stamp event self.old self.new }
    {
        // What comes of it is written where it stays, in its entry.
        let came = Came::only(*self.entries.allocator(), Outcome::Passed);
        self.entries.push_reserved(Entry { stamp, event, came });
        let Some(entry) = self.entries.last_mut() else {
            unreachable!()
        };
        let Effect { frames, .. } = self.engine.take(&entry.event, &mut entry.came);
        entry.came.dropped = put_out(&mut self.outs, stamp, &mut entry.came.sends, frames);
        self.clock = stamp;
    }

    /// Does to the disk what `Disk::arm` does.
    pub fn arm(&mut self, nth: u64, choice: u64) -> Mem<()>
        requires { 0 < nth }
        ensures armed { OnOk result (
            arms_under D.Disk self.new.disk ≡ armed_under D.Disk nth choice self.old.disk) }
        ensures unarmed { OnErr result (arms_under D.Disk self.new.disk ≡ arms_under D.Disk self.old.disk) }
        ensures calls { calls_under D.Disk self.new.disk ≡ calls_under D.Disk self.old.disk }
        ensures told { is_told D.Disk self.new.disk ≡ is_told D.Disk self.old.disk }
        ensures same { IsSameButDisk self.old self.new }
    {
        self.engine.arm(nth, choice)
    }

    /// All that was put for a site arrives at the other end of its lane.
    pub fn meet(&mut self, to: SiteId, inbound: &mut Inbound) -> Mem<()>
        requires to { to.0 < length self.old.outs }
        requires ring { ring_to self.old.outs to.0 ≡ inbound.old.ring }
        ensures same { IsSameButLanes self.old self.new }
        ensures rings { (out_rings self.new.outs ≡ out_rings self.old.outs) × (inbound.new.ring ≡ inbound.old.ring) }
        ensures put { (k : ℕ) → put_to self.new.outs k ≡ put_to self.old.outs k }
        ensures more { IsPrefix inbound.old.arrived inbound.new.arrived }
        ensures met { OnOk result ((inbound.new.arrived ≡ put_to self.old.outs to.0)
            × (met_to self.new.outs to.0 ≡ length (put_to self.old.outs to.0))) }
        ensures other_mets { (k : ℕ) → k ≢ to.0 → met_to self.new.outs k ≡ met_to self.old.outs k }
        ensures unmet { OnErr result ((inbound.new ≡ inbound.old) × (mets self.new.outs ≡ mets self.old.outs)) }
        ensures sound { IsSound D.Disk self.old }
    {
        meet(&mut self.outs[usize::from(to.0)], inbound)
    }

    /// What has arrived at the other end of the lane to a site is a beginning of what was put for that one.
    pub fn compare(&mut self, to: SiteId, inbound: &mut Inbound)
        requires to { to.0 < length self.old.outs }
        requires ring { ring_to self.old.outs to.0 ≡ inbound.old.ring }
        ensures same { (self.new ≡ self.old) × (inbound.new ≡ inbound.old) }
        ensures begins { IsPrefix inbound.old.arrived (put_to self.old.outs to.0) }
        ensures sound { IsSound D.Disk self.old }
    {
        compare(&mut self.outs[usize::from(to.0)], inbound);
    }
}

// The site, down over its disk. Where there is no memory for it the disk comes back.
fn new_engine<D: Disk + Drop>(
    alloc: Global,
    disk: D,
    catalog: &Catalog,
    site: SiteId,
    capacity: u64,
    areas: u8,
    format: Format,
) -> Result<Box<Engine<D>>, (D, BeginFault)>
    requires here { site.0 < catalog.now.sites }
    requires most { catalog.now.sites ≤ most_in format }
    requires fewer { catalog.now.tolerated < catalog.now.sites }
    requires areas { IsAreas areas capacity }
    ensures ok { IfOk result (λ engine. IsNewEngine catalog.now capacity areas format site disk engine.value) }
    ensures back { IfErr result (λ back. (back.0 ≡ disk) × (back.1 ≡ unbegun.NoMemory)) }
{
    let engine = match Engine::new(alloc, disk, catalog, site, capacity, areas, format) {
        Ok(engine) => engine,
        Err(disk) => return Err((disk, BeginFault::NoMemory)),
    };
    match Box::new(alloc, engine) {
        Ok(engine) => Ok(engine),
        Err(failed) => Err((failed.value.into_disk(), BeginFault::NoMemory)),
    }
}

// The first entry of each trail.
fn opening_of(alloc: Global, place: RecordPlace) -> Entry
    ensures { result ≡ opening }
{
    Entry {
        stamp: 1,
        event: Event::Restart,
        came: Came {
            wrote: place.fill(Record::Boot(1)),
            ..Came::only(alloc, Outcome::Taken)
        },
    }
}

// An empty trail with memory for so many entries, and for the first one with its record.
fn open(alloc: Global, room: u32) -> Mem<(Vec<Entry>, RecordPlace)>
    ensures entries { IfOk result (λ parts. parts.0.items ≡ []) }
    ensures place { IfOk result (λ parts. 0 < vec_capacity parts.0) }
    ensures room { IfOk result (λ parts. room ≤ vec_capacity parts.0) }
{
    let room = room.max(1) as usize;
    Ok((Vec::with_capacity(alloc, room)?, RecordPlace::new(alloc)?))
}

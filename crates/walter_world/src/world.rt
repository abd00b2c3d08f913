//! The sites of a catalog without disks.
ghost use Rattle.std.specs.Prelude.{◌≡◌, ◌<◌, ◌≤◌, ◌+◌, ◌↔◌, ◌∷◌, [], IsTrue, ℕ, length, false, IfOk, OnErr, OnOk};
ghost use Rattle.walter_base.specs.Vectors.{most_sites};
ghost use Rattle.walter_linked.specs.Catalogs.{IsWhole};
ghost use Rattle.walter_rules.specs.declared.event.Event.TheVariants as event;
ghost use Rattle.walter_world.specs.declared.events.Fate.TheVariants as fate;
ghost use Rattle.walter_world.specs.Comings.{entry_of};
ghost use Rattle.walter_world.specs.Events.{IsWithin};
ghost use Rattle.walter_world.specs.Seats.{IsSeat};
ghost use Rattle.walter_world.specs.Worlds.{AreEarly, HaveOpened, trails_of};

use crate::events::{Fate, What, WorldEvent};
use crate::happening::{Happening, happening_of};
use crate::seat::Seat;
use std::alloc::Global;
use std::marker::Model;
use walter_base::{Catalog, Format, Mem, SiteId};
use walter_machine::Machine;
use walter_rules::Event;
use walter_trail::Trail;

/// The longest body of a frame, in bytes.
const LONGEST_BODY: usize = 65_536;

/// The least stamp behind which there is no step. A site's epoch is at most its last stamp, and has four bytes.
const END_OF_STAMPS: u64 = 4_294_967_295;

/// The sites of a catalog without disks. Contracts see the catalog, the format that the header of each site's journal
/// names, and the trail of each site.
#[derive(Drop)]
pub struct World {
    alloc: Global,
    catalog: Catalog,
    format: Format,
    seats: Vec<Seat>,
    // Without trails: its room is for all of them.
    trails: Vec<Trail>,
}

impl Model for World {
    ghost use Rattle.std.specs.Prelude.{◌≡◌, ◌≤◌, [], length, vec_capacity};
    ghost use Rattle.std.specs.Coded.{code_by, coded×, coded_list};
    ghost use Rattle.std.specs.Prelude.{List, refl};
    ghost use Rattle.walter_base.specs.contracts.catalog.Catalog as coded_catalog;
    ghost use Rattle.walter_base.specs.contracts.format.Format as coded_format;
    ghost use Rattle.walter_base.specs.declared.catalog.Catalog.{Catalog};
    ghost use Rattle.walter_base.specs.declared.format.Format.{Format};
    ghost use Rattle.walter_rules.specs.contracts.entry.Entry as coded_entry;
    ghost use Rattle.walter_rules.specs.declared.entry.Entry.{Entry};
    ghost use Rattle.walter_world.specs.Worlds.{WorldValue, IsWorld, trails_of};

    ghost Value = { WorldValue };

    ghost coded = { code_by (Catalog × (Format × List (List Entry)))
        (coded× coded_catalog.the_row.coded
        (coded× coded_format.the_row.coded (coded_list (coded_list coded_entry.the_row.coded))))
        (λ w. (w.catalog, (w.format, w.trails)))
        (λ p. record { catalog = p.0; format = p.1.0; trails = p.1.1 }) (λ _. refl) };

    ghost view = { λ w. record { catalog = w.catalog; format = w.format; trails = trails_of w.seats.items } };

    ghost invariant = { λ w. IsWorld w.format w.catalog w.seats.items × (w.trails.items ≡ [])
        × (length w.seats.items ≤ vec_capacity w.trails) };
}

impl World {
    ghost use Rattle.walter_world.specs.Worlds.{CanCome, StepsTo, AreEarly, AreOpenings, KeepPromises};

    /// Each site of the catalog is up, in its first epoch. The header of each site's journal is to name this format.
    pub fn new(alloc: Global, catalog: &Catalog, format: Format) -> Mem<World>
        requires whole { IsWhole catalog.now }
        requires most { catalog.now.sites ≤ most_sites }
        requires fewer { catalog.now.tolerated < catalog.now.sites }
        ensures catalog { IfOk result (λ world. world.catalog ≡ catalog.now) }
        ensures format { IfOk result (λ world. world.format ≡ format) }
        ensures openings { IfOk result (λ world. AreOpenings format catalog.now world.trails) }
        ensures promises { IfOk result (λ world. KeepPromises world.format world.catalog world.trails) }
    {
        Ok(World {
            alloc,
            catalog: catalog.clone()?,
            format,
            seats: seats_of(alloc, catalog, format)?,
            trails: Vec::with_capacity(alloc, usize::from(catalog.sites))?,
        })
    }

    /// What is said to happen happens, or nothing, where it is the delivery of a packet that was never put out. For want
    /// of memory nothing has happened.
    pub fn step(&mut self, event: WorldEvent) -> Mem<()>
        requires { CanCome self.old event }
        ensures steps { OnOk result (StepsTo self.old.format self.old.catalog self.old.trails event self.new.trails) }
        ensures same { OnErr result (self.new ≡ self.old) }
        ensures catalog { self.new.catalog ≡ self.old.catalog }
        ensures format { self.new.format ≡ self.old.format }
        // No stamp is greater than the number of steps and one.
        ensures later { (bound : ℕ) → AreEarly bound self.old.trails → AreEarly (bound + 1) self.new.trails }
        ensures promises { KeepPromises self.new.format self.new.catalog self.new.trails }
    {
        let WorldEvent { site, what, fate } = event;
        let Some(Happening { event, put, keeps }) = happening_of(
            self.alloc,
            &self.seats,
            site,
            what,
        )?
        else {
            return Ok(());
        };
        let seat = &mut self.seats[usize::from(site.0)];
        let stamp = seat.clock().max(put) + 1;
        seat.take(self.alloc, self.format, stamp, event, keeps, fate)
    }

    /// Whether the event can come: its sites are of the catalog, the body of a call fits its frame, and there are stamps
    /// left.
    pub fn takes(&self, event: &WorldEvent) -> bool
        ensures { IsTrue result ↔ CanCome self.now event.now }
    {
        event.site.0 < self.catalog.sites
            && is_within(self.catalog.sites, &event.what)
            && are_early(&self.seats)
    }

    /// The trails of the sites, in order. It takes no memory.
    pub fn into_trails(self) -> Vec<Trail>
        ensures { result.items ≡ self.trails }
    {
        let World {
            seats,
            mut trails,
            ..
        } = self;
        for seat in seats {
            trails.push_reserved(Trail::from(seat.entries));
        }
        trails
    }
}

// Whether a body fits its frame, and another site is one of so many.
fn is_within(sites: u8, what: &What) -> bool
    ensures { IsTrue result ↔ IsWithin sites what.now }
{
    match what {
        What::Call { body, .. } => body.as_slice().len() <= LONGEST_BODY,
        What::Deliver { from, .. } | What::Advance { from } => from.0 < sites,
        What::Tick | What::Upgrade | What::Stop | What::Restart { .. } => true,
    }
}

// Whether each trail has stamps left.
fn are_early(seats: &[Seat]) -> bool
    ensures { IsTrue result ↔ AreEarly 4294967295 (trails_of seats.now) }
{
    for seat in seats {
        if seat.clock() >= END_OF_STAMPS {
            return false;
        }
    }
    true
}

// Each site, up in its first epoch.
fn seats_of(alloc: Global, catalog: &Catalog, format: Format) -> Mem<Vec<Seat>>
    requires most { catalog.now.sites ≤ most_sites }
    requires fewer { catalog.now.tolerated < catalog.now.sites }
    ensures { IfOk result (λ seats. HaveOpened format catalog.now catalog.now.sites seats.items) }
{
    let mut seats = Vec::with_capacity(alloc, usize::from(catalog.sites))?;
    for site in 0..catalog.sites {
        seats.push_reserved(seat_of(alloc, catalog, format, SiteId(site))?);
    }
    Ok(seats)
}

// A site that is up, in its first epoch.
fn seat_of(alloc: Global, catalog: &Catalog, format: Format, id: SiteId) -> Mem<Seat>
    requires here { id.0 < catalog.now.sites }
    requires most { catalog.now.sites ≤ most_sites }
    requires fewer { catalog.now.tolerated < catalog.now.sites }
    ensures seat { IfOk result (IsSeat catalog.now id) }
    ensures opening { IfOk result (λ seat.
        seat.entries.items ≡ entry_of format catalog.now id [] event.Restart 0 false fate.Fine ∷ []) }
{
    let mut seat = Seat {
        machine: Machine::new(alloc, catalog.clone()?, id),
        entries: Vec::new(alloc),
    };
    seat.take(alloc, format, 1, Event::Restart, false, Fate::Fine)?;
    Ok(seat)
}

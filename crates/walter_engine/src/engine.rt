//! A site with its disk: events come to it, and what they bring is journaled.
ghost use Rattle.std.specs.Prelude.{◌≡◌, ◌≢◌, ◌+◌, ◌<◌, ◌≤◌, ℕ, List, ◌∷◌, [], true, false, not, None, Some, map, is_ok, is_some, IsSome, IfSome, IfOk, IfErr, OnOk, OnErr};
ghost use Rattle.walter_base.specs.Sizes.{most_in};
ghost use Rattle.walter_checkpoint.specs.Loads.{IsAreas};
ghost use Rattle.walter_disk.specs.Disks.{armed_at};
ghost use Rattle.walter_engine.specs.Props.{props};
ghost use Rattle.walter_engine.specs.Stores.{header_under};
ghost use Rattle.walter_machine.specs.Machines.{is_up as is_up_machine, catalog_in as machine_catalog};

use crate::answers::{BeginFault, Effect, RefusedRestart};
use crate::beginning::{begin_over, not_loaded};
use crate::replaying::later_of;
use crate::restarting::{raise, unloaded};
use crate::store::{arm, close_unless, into_disk};
use crate::writing::write;
use std::alloc::Global;
use std::mem;
use walter_base::{Catalog, Format, MaybeRecord, Mem, NoMemory, SiteId};
use walter_checkpoint::{Book, books_differ, load};
use walter_disk::Disk;
use walter_machine::{Machine, Ready};
use walter_rules::{Came, Event};

/// A site with its disk. Contracts say by `Stands` how it stands.
#[derive(Drop)]
pub struct Engine<D: Disk> {
    alloc: Global,
    machine: Machine,
    capacity: u64,
    // Of how many areas the journal is, and the format that its header names: as it was asked for, or, once the site has
    // begun, as it was found.
    areas: u8,
    format: Format,
    // The journal of a site that is up, or the bare disk of one that is down. Neither is there only within a call.
    book: Option<Book<D>>,
    disk: Option<D>,
    // What is ready for an event is made in the same place for each.
    ready: Ready,
    ghost open: { is_some book ≡ is_up_machine machine },
    ghost bare: { is_some disk ≡ not (is_up_machine machine) },
    ghost laid: { IsAreas areas capacity } by { Prim.hlevel props },
    ghost most: { (machine_catalog machine).sites ≤ most_in format },
    ghost places: { (machine_catalog machine).sites ≤ most_in (header_under book format) },
}

impl<D: Disk + Drop> Engine<D> {
    ghost use Rattle.walter_disk.specs.Images.{LeavesOnly};
    ghost use Rattle.walter_engine.specs.Begins.{HasOnly, MayHaveBegun, IsBegun, IsFaultOfBegin, IsLaidOver};
    ghost use Rattle.walter_engine.specs.Contents.{AreSpelled, MayHaveNext};
    ghost use Rattle.walter_engine.specs.Effects.{HasCome, HasTaken, IsRefusedFor, AreCalls, AreCallsToRestart};
    ghost use Rattle.walter_engine.specs.Engines.{catalog_in, site_in, capacity_in, layout_for, layout_in, shape_in, disk_in, tables_in, is_up, OfDisk, OfDisks};
    ghost use Rattle.walter_engine.specs.Engines.{IsFresh, IsOfSameSite, IsSameEngine, Stands};
    ghost use Rattle.walter_engine.specs.Restarts.{RestartsOver};
    ghost use Rattle.walter_engine.specs.Stores.{IsOnDisk};
    ghost use Rattle.walter_checkpoint.specs.Loads.{calls_of_load};
    ghost use Rattle.walter_machine.specs.Comings.{IsOutcomeAlone, IsSized, IsFaulty};
    ghost use Rattle.walter_machine.specs.States.{AreTold, IsSizedEvent};
    ghost use Rattle.walter_packet.specs.Framed.{frame_of};
    ghost use Rattle.walter_rules.specs.Deliveries.{IsLeastEnabled};
    ghost use Rattle.walter_rules.specs.Layouts.{header_of};
    ghost use Rattle.walter_rules.specs.Standing.{Standing};
    ghost use Rattle.walter_rules.specs.Trails.{standing, opening};
    ghost use Rattle.walter_rules.specs.declared.event.Event.TheVariants as happens;
    ghost use Rattle.walter_rules.specs.declared.event.Input.TheVariants as inputs;
    ghost use Rattle.walter_rules.specs.declared.outcome.Outcome.TheVariants as outcome;
    ghost use Rattle.walter_tables.specs.Folding.{IsTidy};

    /// A site that is down, with a disk that it knows nothing of. A new journal is of so many areas, and its header names
    /// this format. Where there is no memory the disk comes back. Over a
    /// journal with the records of a site it stands as these tell. How a new site goes on, over a disk of no bytes or a
    /// journal without records, `begin` says by the disk alone.
    pub fn new(
        alloc: Global,
        disk: D,
        catalog: &Catalog,
        site: SiteId,
        capacity: u64,
        areas: u8,
        format: Format,
    ) -> Result<Engine<D>, D>
        requires here { site.0 < catalog.now.sites }
        requires most { catalog.now.sites ≤ most_in format }
        requires fewer { catalog.now.tolerated < catalog.now.sites }
        requires areas { IsAreas areas capacity }
        ensures disk { IfOk result (λ engine. disk_in engine ≡ Some disk) }
        ensures down { IfOk result (λ engine. is_up engine ≡ false) }
        ensures catalog { IfOk result (λ engine. catalog_in engine ≡ catalog.now) }
        ensures site { IfOk result (λ engine. site_in engine ≡ site) }
        ensures capacity { IfOk result (λ engine. capacity_in engine ≡ capacity) }
        ensures layout { IfOk result (λ engine. layout_in engine ≡ layout_for areas capacity catalog.now.sites format) }
        ensures areas { IfOk result (λ engine. engine.areas ≡ areas) }
        ensures format { IfOk result (λ engine. engine.format ≡ format) }
        ensures fresh { IfOk result IsFresh }
        ensures back { IfErr result (λ back. back ≡ disk) }
        // over a journal with the records of a site that is down, and owes no client anything
        ensures stands { (S : Standing) → S.up ≡ false → S.flight ≡ None → ((client : ℕ) → S.gone client ≡ None)
            → AreTold catalog.now site S → AreSpelled format catalog.now.sites S
            → IsOnDisk D.Disk (layout_for areas capacity catalog.now.sites format) S disk
            → IfOk result (λ engine. Stands engine S) }
    {
        let Ok(copy) = catalog.clone() else {
            return Err(disk);
        };
        Ok(Engine {
            alloc,
            machine: Machine::new(alloc, copy, site),
            capacity,
            areas,
            format,
            book: None,
            disk: Some(disk),
            ready: Ready::none(alloc),
        })
    }

    pub fn is_up(&self) -> bool
        ensures { result ≡ is_up self.now }
    {
        self.machine.is_up()
    }

    /// The format that the header of its journal names: the one that was asked for, or, once the site has begun, the one
    /// that was found.
    pub fn header(&self) -> Format
        ensures header { result ≡ header_of (layout_in self.now) }
        ensures places { (catalog_in self.now).sites ≤ most_in result }
    {
        self.format
    }

    fn sites(&self) -> u8
        ensures { result ≡ (catalog_in self.now).sites }
    {
        self.machine.catalog().sites
    }

    /// The least peer whose next commit can be committed here; none where the site is down.
    pub fn least_enabled(&self) -> Option<SiteId>
        ensures { (S : Standing) → Stands self.now S → S.up ≡ true
            → IsLeastEnabled (catalog_in self.now) (site_in self.now) S.knows result }
    {
        self.machine.least_enabled()
    }

    /// The disk, as it is, and the machine, which has all that the site knew.
    pub fn into_parts(self) -> (D, Machine)
        ensures { Some result.0 ≡ disk_in self }
    {
        let Engine {
            book,
            disk,
            machine,
            ..
        } = self;
        (into_disk(book, disk), machine)
    }

    /// The disk, as it is.
    pub fn into_disk(self) -> D
        ensures { Some result ≡ disk_in self }
    {
        let (disk, _) = self.into_parts();
        disk
    }

    /// Does to the disk what `Disk::arm` does.
    pub fn arm(&mut self, nth: u64, choice: u64) -> Mem<()>
        requires { 0 < nth }
        ensures armed { OnOk result (OfDisks self.old self.new (λ old new.
            D.known new ≡ armed_at (D.device_calls old) nth choice (D.known old))) }
        ensures same { OnErr result (OfDisks self.old self.new (λ old new. D.known new ≡ D.known old)) }
        ensures device { OfDisks self.old self.new (λ old new. D.device_calls new ≡ D.device_calls old) }
        ensures engine { IsSameEngine self.old self.new }
        ensures up { is_up self.new ≡ is_up self.old }
        ensures stands { (S : Standing) → Stands self.old S → Stands self.new S }
    {
        arm(&mut self.book, &mut self.disk, nth, choice)
    }

    /// An event comes to the site. It takes all its memory before it writes to the journal. What comes of it is written
    /// where it stays.
    pub fn take(&mut self, event: &Event, came: &mut Came) -> Effect
        requires alone { IsOutcomeAlone came.old }
        requires sized { IsSizedEvent (catalog_in self.old).sites event.now }
        ensures comes { (S : Standing) → Stands self.old S
            → HasCome (catalog_in self.old) (layout_in self.old) (site_in self.old) S event.now
            came.new result.refused self.new }
        // what a crash at any moment of it leaves
        ensures any_moment { (S : Standing) → Stands self.old S → OfDisks self.old self.new (λ old new.
            LeavesOnly D.moment D.left_since old new
            (MayHaveNext (catalog_in self.old) (layout_in self.old) (site_in self.old) S event.now came.new.kept)) }
        // where a restart is refused, the bytes that the disk has are the cause
        ensures refused { OfDisk self.new (λ disk. IfSome (D.known disk).reads (λ bytes.
            IfSome result.refused (IsRefusedFor (catalog_in self.old) (shape_in self.old) (site_in self.old) bytes))) }
        ensures why { came.new.outcome ≡ outcome.Refused → IsSome result.refused }
        // what a restart comes to over any disk that tells what it holds, whoever left that there
        ensures restarts { is_up self.old ≡ false → event.now ≡ happens.Restart → OfDisk self.old (λ disk.
            IfSome (D.known disk).reads (λ bytes. RestartsOver (catalog_in self.old) (shape_in self.old)
            (layout_in self.old) (site_in self.old) bytes (D.may_leave disk) came.new result.refused)) }
        ensures sized { IsSized (catalog_in self.old).sites came.new }
        ensures framed { result.frames.items
            ≡ map (λ s. frame_of (catalog_in self.old).sites s.1) came.new.sends }
        ensures none_dropped { came.new.dropped ≡ 0 }
        ensures faults { OfDisks self.old self.new (λ old new.
            IsFaulty came.new (D.known old).faults (D.known new).faults) }
        // how many calls of the disk an arm counts
        ensures device { (is_up self.old ≡ false → event.now ≢ happens.Restart) → OfDisks self.old self.new (λ old new.
            AreCalls came.new (D.device_calls old) (D.device_calls new)) }
        ensures loads { is_up self.old ≡ false → event.now ≡ happens.Restart → OfDisks self.old self.new (λ old new.
            AreCallsToRestart (shape_in self.old) self.old.areas (D.known old).size came.new
            (D.device_calls old) (D.device_calls new)) }
        ensures arms { OfDisks self.old self.new (λ old new. (D.known new).arms ≡ (D.known old).arms) }
        ensures tells { OfDisks self.old self.new (λ old new.
            is_some (D.known new).reads ≡ is_some (D.known old).reads) }
        // a stop, and what comes to a site that is down, leave the disk as it is
        ensures stops { event.now ≡ happens.Stop → disk_in self.new ≡ disk_in self.old }
        ensures rests { is_up self.old ≡ false → event.now ≢ happens.Restart → disk_in self.new ≡ disk_in self.old }
        // behind a tick all rows are folded
        ensures tidy { event.now ≡ happens.Given inputs.Tick → IfSome (tables_in self.new) IsTidy }
        ensures engine { IsSameEngine self.old self.new }
    {
        if self.is_up() {
            return self.act(event, came);
        }
        match event {
            Event::Restart => self.restart(came),
            _ => self.decline(event, came),
        }
    }

    // An event comes to a site that is up.
    fn act(&mut self, event: &Event, came: &mut Came) -> Effect
        requires alone { IsOutcomeAlone came.old }
        requires sized { IsSizedEvent (catalog_in self.old).sites event.now }
        requires up { is_up self.old ≡ true }
        ensures taken { HasTaken self.old self.new event.now came.new result }
        ensures device { OfDisks self.old self.new (λ old new.
            AreCalls came.new (D.device_calls old) (D.device_calls new)) }
        ensures stops { event.now ≡ happens.Stop → disk_in self.new ≡ disk_in self.old }
        ensures tidy { event.now ≡ happens.Given inputs.Tick → IfSome (tables_in self.new) IsTidy }
    {
        let Some(book) = &mut self.book else {
            unreachable!()
        };
        let ready = &mut self.ready;
        let header = book.format();
        let format = later_of(header, self.machine.format());
        let Ok(()) = self.machine.prepare(event, header, ready) else {
            self.machine.want(event, came);
            return Effect {
                frames: Vec::new(self.alloc),
                refused: None,
            };
        };
        let frames = write(
            self.alloc,
            &mut self.machine,
            book,
            format,
            event,
            ready,
            came,
        );
        close_unless(self.machine.is_up(), &mut self.book, &mut self.disk);
        Effect {
            frames,
            refused: None,
        }
    }

    // What comes to a site that is down and isn't to restart.
    fn decline(&self, event: &Event, came: &mut Came) -> Effect
        requires alone { IsOutcomeAlone came.old }
        requires down { is_up self.now ≡ false }
        requires stays { event.now ≢ happens.Restart }
        ensures taken { HasTaken self.now self.now event.now came.new result }
        ensures device { OfDisks self.now self.now (λ old new.
            AreCalls came.new (D.device_calls old) (D.device_calls new)) }
    {
        self.machine.decline(event, came);
        Effect {
            frames: Vec::new(self.alloc),
            refused: None,
        }
    }

    // The site is made anew from its journal.
    fn restart(&mut self, came: &mut Came) -> Effect
        requires alone { IsOutcomeAlone came.old }
        requires down { is_up self.old ≡ false }
        ensures taken { HasTaken self.old self.new happens.Restart came.new result }
        ensures restarts { OfDisk self.old (λ disk. IfSome (D.known disk).reads (λ bytes.
            RestartsOver (catalog_in self.old) (shape_in self.old) (layout_in self.old) (site_in self.old) bytes
            (D.may_leave disk) came.new result.refused)) }
        ensures loads { OfDisks self.old self.new (λ old new.
            AreCallsToRestart (shape_in self.old) self.old.areas (D.known old).size came.new
            (D.device_calls old) (D.device_calls new)) }
    {
        // What is loaded is then what the site left.
        books_differ();
        let sites = self.sites();
        let Some(disk) = mem::replace(&mut self.disk, None) else {
            unreachable!()
        };
        let (mut book, bodies) = match load(
            self.alloc,
            disk,
            self.capacity,
            self.areas,
            sites,
            self.format,
        ) {
            Ok(loaded) => loaded,
            Err((disk, fault)) => {
                self.disk = Some(disk);
                let (outcome, refused) = unloaded(fault);
                self.machine.rest(outcome, came);
                return Effect {
                    frames: Vec::new(self.alloc),
                    refused,
                };
            }
        };
        let bodies = bodies.as_slice();
        let kept = self.machine.settle(bodies.len() as u64);
        let refused = raise(self.alloc, &mut self.machine, &mut book, bodies, came);
        came.kept = kept;
        self.book = Some(book);
        close_unless(self.machine.is_up(), &mut self.book, &mut self.disk);
        Effect {
            frames: Vec::new(self.alloc),
            refused,
        }
    }

    /// The first restart of a site: over a disk of no bytes, which gets its journal, or over a journal without records,
    /// whose layout stays as it is. The journal is loaded once. One that has records is left as it is.
    pub fn begin(&mut self) -> Result<(), BeginFault>
        requires down { is_up self.old ≡ false }
        requires place { 19 ≤ capacity_in self.old }
        ensures up { is_up self.new ≡ is_ok result }
        // where nothing has happened to the site, and the disk tells what it holds
        ensures stands { IsFresh self.old → OfDisk self.old (λ disk. IsSome (D.known disk).reads)
            → OnOk result (Stands self.new (standing (catalog_in self.old) (site_in self.old) (opening ∷ []))) }
        // what it answers, by the bytes that the disk has, where a crash leaves nothing else
        ensures begins { (bytes : List ℕ) → OfDisk self.old (HasOnly D.Disk bytes) → IsBegun (shape_in self.old) bytes result }
        // and how the journal is laid out
        ensures laid { (bytes : List ℕ) → OfDisk self.old (HasOnly D.Disk bytes)
            → OnOk result (IsLaidOver bytes (layout_in self.old) (layout_in self.new)) }
        // and what a crash at any moment of it leaves
        ensures any_moment { (bytes : List ℕ) → OfDisk self.old (HasOnly D.Disk bytes)
            → OfDisks self.old self.new (λ old new. LeavesOnly D.moment D.left_since old new
            (MayHaveBegun (shape_in self.old) self.old.areas bytes)) }
        ensures faults { OfDisks self.old self.new (λ old new.
            IsFaultOfBegin result (D.known old).faults (D.known new).faults) }
        // how many calls of the disk an arm counts
        ensures device { OnOk result (OfDisks self.old self.new (λ old new.
            D.device_calls new ≡ D.device_calls old
            + calls_of_load (shape_in self.old) self.old.areas (D.known old).size + 4)) }
        ensures at_most { OfDisks self.old self.new (λ old new.
            D.device_calls new ≤ D.device_calls old
            + calls_of_load (shape_in self.old) self.old.areas (D.known old).size + 4) }
        ensures arms { OfDisks self.old self.new (λ old new. (D.known new).arms ≡ (D.known old).arms) }
        ensures tells { OfDisks self.old self.new (λ old new.
            is_some (D.known new).reads ≡ is_some (D.known old).reads) }
        ensures engine { IsOfSameSite self.old self.new }
    {
        let sites = self.sites();
        let Some(disk) = mem::replace(&mut self.disk, None) else {
            unreachable!()
        };
        let (mut book, bodies) = match load(
            self.alloc,
            disk,
            self.capacity,
            self.areas,
            sites,
            self.format,
        ) {
            Ok(loaded) => loaded,
            Err((disk, fault)) => {
                self.disk = Some(disk);
                return Err(not_loaded(fault));
            }
        };
        self.areas = book.areas();
        self.format = book.format();
        let begun = begin_over(self.alloc, &mut self.machine, &mut book, bodies.as_slice());
        self.book = Some(book);
        close_unless(self.machine.is_up(), &mut self.book, &mut self.disk);
        begun
    }
}

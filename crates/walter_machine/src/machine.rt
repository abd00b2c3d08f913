//! A site apart from where its records lie.
ghost use Rattle.std.specs.Prelude.{◌≡◌, ◌≢◌, ◌≤◌, ◌<◌, ◌+◌, ◌^◌, ℕ, None, Some, false, true, is_some, vec_len, IfSome, IfNone, IsSome, IfOk, OnErr, OnOk};
ghost use Rattle.walter_base.specs.contracts.catalog.Catalog as coded_catalog;
ghost use Rattle.walter_base.specs.declared.format.Format.{Format as Header};
ghost use Rattle.walter_rules.specs.Records.{IsRecordAmong};
ghost use Rattle.walter_base.specs.Vectors.{most_sites};
ghost use Rattle.walter_machine.specs.Props.{props};
ghost use Rattle.walter_machine.specs.States.{IsOf, IsRoom};
ghost use Rattle.walter_rules.specs.Layouts.{Layout, FitsIn, header_of, left_behind, need_in};

use crate::debts::{debt_of, forgive, owe_lost};
use crate::following::{count_in, follow, rec_of};
use crate::losing::lose;
use crate::outcomes::{failure, fullness, outcome_of_down, want};
use crate::places::{make_places, place};
use crate::preparing::{make_answer, make_fall, prepare_input};
use crate::ready::{Kind, Ready};
use indexmap::IndexMap;
use std::alloc::Global;
use std::mem;
use walter_base::{Catalog, Format, MaybeRecord, Mem, Record, RecordPlace, Sends, SiteId, Tid};
use walter_packet::Framed;
use walter_rules::{Came, Event, Outcome};
use walter_session::Sessions;
use walter_site::Site;

/// A site apart from where its records lie: whether it is up, what it knows, how many records it has and which one is in
/// flight, and whom it owes the news that a stop ended its transaction. Contracts say by `HasStanding` how it stands.
#[derive(Drop)]
pub struct Machine {
    alloc: Global,
    catalog: Catalog,
    id: SiteId,
    // There while it is up.
    site: Option<Site>,
    // Known while it is up, and where a record is in flight.
    records: u64,
    flight: MaybeRecord,
    debts: IndexMap<u32, Tid>,
    // What a stop lost; it goes into the debts as soon as there is memory for that.
    lost: Option<Sessions>,
    places: Vec<RecordPlace>,
    ghost here: { id.0 < catalog.sites },
    ghost most: { catalog.sites ≤ most_sites },
    ghost fewer: { catalog.tolerated < catalog.sites },
    ghost of: { IfSome site (IsOf catalog id) } by { Prim.hlevel (props, coded_catalog.the_row.coded) },
    ghost sized: { IfSome flight (IsRecordAmong catalog.sites) } by { Prim.hlevel props },
    // A site that is up has what its fall takes.
    ghost roomy: { is_some site ≡ true → IsRoom (is_some lost) (vec_len places) } by { Prim.hlevel props },
}

impl Machine {
    ghost use Rattle.walter_machine.specs.Comings.{IsRest, IsOutcomeAlone, IsSized, is_faulty};
    ghost use Rattle.walter_machine.specs.Machines.{catalog_in, site_in, tables_in, is_up, flight_in, records_in};
    ghost use Rattle.walter_machine.specs.Machines.{HasStanding, HasRoom, IsSameSite, AreFound, Settles};
    ghost use Rattle.walter_machine.specs.Machines.{IsCountable, IsCounted};
    ghost use Rattle.walter_machine.specs.Readiness.{IsReadyFor, IsReadyAnyway, rec_in, came_in};
    ghost use Rattle.walter_machine.specs.States.{AreTold, IsSizedEvent};
    ghost use Rattle.walter_rules.specs.Deliveries.{IsLeastEnabled};
    ghost use Rattle.walter_rules.specs.declared.event.Event.TheVariants as happens;
    ghost use Rattle.walter_rules.specs.declared.event.Input.TheVariants as inputs;
    ghost use Rattle.walter_rules.specs.Rule.{rule};
    ghost use Rattle.walter_rules.specs.Standing.{Standing, stands_after, up_after};
    ghost use Rattle.walter_rules.specs.Trails.{Comes, TakesMemory, failure, fullness, only, want};
    ghost use Rattle.walter_tables.specs.Folding.{IsTidy};

    /// A site that is down, of which nothing is known. It stands so as its records say.
    pub fn new(alloc: Global, catalog: Catalog, id: SiteId) -> Machine
        requires here { id.0 < catalog.sites }
        requires most { catalog.sites ≤ most_sites }
        requires fewer { catalog.tolerated < catalog.sites }
        ensures catalog { catalog_in result ≡ catalog }
        ensures id { site_in result ≡ id }
        ensures down { tables_in result ≡ None }
        ensures flight { flight_in result ≡ None }
        ensures stands { (S : Standing) → S.up ≡ false → S.flight ≡ None → ((client : ℕ) → S.gone client ≡ None)
            → AreTold catalog id S → HasStanding result S }
    {
        Machine {
            alloc,
            catalog,
            id,
            site: None,
            records: 0,
            flight: MaybeRecord::none(),
            debts: IndexMap::new(alloc),
            lost: None,
            places: Vec::new(alloc),
        }
    }

    pub fn is_up(&self) -> bool
        ensures { result ≡ is_up self.now }
    {
        self.site.is_some()
    }

    pub fn catalog(&self) -> &Catalog
        ensures { result.now ≡ catalog_in self.now }
    {
        &self.catalog
    }

    pub fn id(&self) -> SiteId
        ensures { result ≡ site_in self.now }
    {
        self.id
    }

    /// How many records there are, while the site is up or one is in flight.
    pub fn records(&self) -> u64
        ensures { result ≡ records_in self.now }
    {
        self.records
    }

    /// The record in flight.
    pub fn flight(&self) -> Option<&Record>
        ensures some { IfSome result (λ rec. flight_in self.now ≡ Some rec.now) }
        ensures none { IfNone result (flight_in self.now ≡ None) }
    {
        self.flight.as_ref()
    }

    /// The format that the records of a site that is up tell: the second behind the record that says so. The one in
    /// force is the later one of this and the header's.
    pub fn format(&self) -> Format
        ensures { (S : Standing) → HasStanding self.now S → S.up ≡ true → result ≡ S.knows.format }
    {
        match &self.site {
            Some(site) => site.format(),
            None => Format::First,
        }
    }

    /// The least peer whose next commit can be committed here; none where the site is down.
    pub fn least_enabled(&self) -> Option<SiteId>
        ensures { (S : Standing) → HasStanding self.now S → S.up ≡ true
            → IsLeastEnabled (catalog_in self.now) (site_in self.now) S.knows result }
    {
        self.site.as_ref()?.least_enabled()
    }

    /// Takes the memory with which a site comes up: a place for a record in flight, and one for each debt that the last
    /// fall left.
    pub fn make_room(&mut self) -> Mem<()>
        ensures room { OnOk result (HasRoom self.new) }
        ensures stands { (S : Standing) → HasStanding self.old S → HasStanding self.new S }
        ensures tables { tables_in self.new ≡ tables_in self.old }
        ensures flight { flight_in self.new ≡ flight_in self.old }
        ensures records { records_in self.new ≡ records_in self.old }
        ensures same { IsSameSite self.old self.new }
    {
        make_places(self.alloc, &mut self.places)?;
        owe_lost(&mut self.debts, &mut self.lost)
    }

    /// What is to come of an event at a site that is up, over a journal whose header names this format, with the record
    /// that is to be stable first and the frames of what is put out. At a tick the rows are folded first. How a site
    /// comes up that is down `Ready::boot` says.
    pub fn prepare(&mut self, event: &Event, header: Format, ready: &mut Ready) -> Mem<()>
        requires sized { IsSizedEvent (catalog_in self.old).sites event.now }
        requires up { is_up self.old ≡ true }
        ensures ready { (S : Standing) → HasStanding self.old S
            → OnOk result
            (IsReadyFor header (catalog_in self.old) (site_in self.old) (tables_in self.new) S event.now ready.new) }
        ensures anyway { OnOk result
            (IsReadyAnyway (catalog_in self.old) (site_in self.old) (tables_in self.new) event.now ready.new) }
        ensures countable { OnOk result (IsCountable self.new ready.new) }
        ensures free { OnErr result (TakesMemory true event.now) }
        ensures tidy { event.now ≡ happens.Given inputs.Tick → IfSome (tables_in self.new) IsTidy }
        ensures stands { (S : Standing) → HasStanding self.old S → HasStanding self.new S }
        ensures up { is_up self.new ≡ true }
        ensures flight { flight_in self.new ≡ flight_in self.old }
        ensures records { records_in self.new ≡ records_in self.old }
        ensures same { IsSameSite self.old self.new }
    {
        let alloc = self.alloc;
        let Some(site) = &mut self.site else {
            unreachable!()
        };
        match event {
            Event::Given(input) => {
                let owed = debt_of(&self.debts, input);
                let sites = self.catalog.sites;
                prepare_input(alloc, site, owed, sites, self.records, input, header, ready)
            }
            Event::Stop => {
                make_fall(alloc, ready);
                Ok(())
            }
            Event::Restart => {
                make_answer(alloc, ready, Outcome::Passed);
                Ok(())
            }
        }
    }

    /// What comes to a site that is down, but for a restart: it is answered so, and nothing is done. It takes no
    /// memory.
    pub fn decline(&self, event: &Event, came: &mut Came)
        requires down { is_up self.now ≡ false }
        requires stays { event.now ≢ happens.Restart }
        requires alone { IsOutcomeAlone came.old }
        ensures alone { IsOutcomeAlone came.new }
        ensures ruled { (header : Header) (S : Standing) → S.up ≡ false
            → came.new.outcome ≡ (rule header (catalog_in self.now) (site_in self.now) S event.now).outcome }
        ensures sized { IsSized (catalog_in self.now).sites came.new }
        ensures fine { is_faulty came.new.outcome ≡ false }
        ensures comes { (layout : Layout) (S : Standing) → HasStanding self.now S
            → Comes (catalog_in self.now) layout (site_in self.now) S event.now came.new }
        ensures stands { (S : Standing) → HasStanding self.now S
            → HasStanding self.now (stands_after (catalog_in self.now) (site_in self.now) S event.now came.new) }
        ensures down { up_after event.now came.new.outcome false ≡ false }
    {
        came.outcome = outcome_of_down(event);
    }

    /// A restart found so many records, by which the record in flight is decided. It comes back where it is one of them.
    pub fn settle(&mut self, found: u64) -> MaybeRecord
        requires down { is_up self.old ≡ false }
        requires count { found + 1 < 2 ^ 64 }
        ensures settles { (S : Standing) → HasStanding self.old S → AreFound S found → Settles S found result self.new }
        ensures sized { IfSome result (IsRecordAmong (catalog_in self.old).sites) }
        ensures records { records_in self.new ≡ found }
        ensures room { HasRoom self.old → HasRoom self.new }
        ensures down { tables_in self.new ≡ None }
        ensures same { IsSameSite self.old self.new }
    {
        let before = self.records;
        self.records = found;
        let Some(_) = self.flight.as_ref() else {
            return MaybeRecord::none();
        };
        if found <= before {
            return MaybeRecord::none();
        }
        mem::replace(&mut self.flight, MaybeRecord::none())
    }

    /// The event comes; its record, if there is one, is stable. What is to be put out has its frames. It takes no memory.
    pub fn keep(&mut self, event: &Event, ready: &mut Ready, came: &mut Came) -> Vec<Framed>
        requires room { is_up self.old ≡ false → HasRoom self.old }
        requires countable { IsCountable self.old ready.old }
        requires anyway { IsReadyAnyway (catalog_in self.old) (site_in self.old) (tables_in self.old) event.now
            ready.old }
        requires alone { IsOutcomeAlone came.old }
        ensures came { came.new ≡ came_in ready.old }
        ensures framed { result.items ≡ ready.old.frames.items }
        ensures comes { (layout : Layout) (S : Standing)
            → IsReadyFor (header_of layout) (catalog_in self.old) (site_in self.old) (tables_in self.old) S event.now
            ready.old
            → IfSome (rec_in ready.old) (FitsIn layout S)
            → Comes (catalog_in self.old) layout (site_in self.old) S event.now came.new }
        ensures stands { (header : Header) (S : Standing) → HasStanding self.old S
            → IsCounted self.old S (rec_in ready.old)
            → IsReadyFor header (catalog_in self.old) (site_in self.old) (tables_in self.old) S event.now ready.old
            → HasStanding self.new (stands_after (catalog_in self.old) (site_in self.old) S event.now came.new) }
        ensures up { is_up self.new ≡ up_after event.now came.new.outcome (is_up self.old) }
        ensures tick { event.now ≡ happens.Given inputs.Tick → tables_in self.new ≡ tables_in self.old }
        ensures same { IsSameSite self.old self.new }
    {
        let kind = mem::replace(&mut ready.kind, Kind::Fall);
        let wrote = mem::replace(&mut ready.rec, MaybeRecord::none());
        let flight = mem::replace(&mut self.flight, MaybeRecord::none());
        let (records, flight) = count_in(&wrote, self.records, flight);
        self.records = records;
        self.flight = flight;
        let plan = &mut ready.plan;
        follow(
            self.alloc,
            &mut self.site,
            &mut self.lost,
            event,
            kind,
            plan,
        );
        forgive(&mut self.debts, event, &plan.planned.outcome);
        came.outcome = mem::replace(&mut plan.planned.outcome, Outcome::Taken);
        came.wrote = wrote;
        came.sends = mem::replace(&mut plan.planned.sends, Sends::from(Vec::new(self.alloc)));
        mem::replace(&mut ready.frames, Vec::new(self.alloc))
    }

    /// The record of the event met a fault of the disk: it is in flight, and the site is down. It takes no memory.
    pub fn fail(&mut self, event: &Event, ready: &mut Ready, came: &mut Came)
        requires room { is_up self.old ≡ false → HasRoom self.old }
        requires anyway { IsReadyAnyway (catalog_in self.old) (site_in self.old) (tables_in self.old) event.now
            ready.old }
        requires flies { IsSome (rec_in ready.old) }
        requires alone { IsOutcomeAlone came.old }
        ensures came { IfSome (rec_in ready.old) (λ rec.
            came.new ≡ record (only (failure event.now rec)) { flight = Some rec }) }
        ensures comes { (layout : Layout) (S : Standing)
            → IsReadyFor (header_of layout) (catalog_in self.old) (site_in self.old) (tables_in self.old) S event.now
            ready.old
            → IfSome (rec_in ready.old) (FitsIn layout S)
            → Comes (catalog_in self.old) layout (site_in self.old) S event.now came.new }
        ensures stands { (header : Header) (S : Standing) → HasStanding self.old S
            → IsCounted self.old S (rec_in ready.old)
            → IsReadyFor header (catalog_in self.old) (site_in self.old) (tables_in self.old) S event.now ready.old
            → HasStanding self.new (stands_after (catalog_in self.old) (site_in self.old) S event.now came.new) }
        ensures down { tables_in self.new ≡ None }
        ensures same { IsSameSite self.old self.new }
    {
        let kind = mem::replace(&mut ready.kind, Kind::Fall);
        let rec = mem::replace(&mut ready.rec, MaybeRecord::none());
        let Some(failed) = rec.as_ref() else {
            unreachable!()
        };
        let outcome = failure(event, failed);
        self.flight = place(&mut self.places, rec_of(kind, &mut ready.plan));
        lose(&mut self.site, &mut self.lost, event, &outcome);
        came.outcome = outcome;
        came.flight = rec;
    }

    /// The record of the event found no place: so many bytes are needed, and so many left. The site stands as before.
    pub fn overflow(&mut self, event: &Event, ready: &Ready, need: u64, left: u64, came: &mut Came)
        requires flies { IsSome (rec_in ready.now) }
        requires alone { IsOutcomeAlone came.old }
        ensures came { came.new ≡ only (fullness event.now need left) }
        ensures comes { (layout : Layout) (S : Standing)
            → IsReadyFor (header_of layout) (catalog_in self.old) (site_in self.old) (tables_in self.old) S event.now
            ready.now
            → IfSome (rec_in ready.now)
            (λ rec. (need ≡ need_in layout S rec) × (left ≡ left_behind layout S) × (left < need))
            → Comes (catalog_in self.old) layout (site_in self.old) S event.now came.new }
        ensures stands { (header : Header) (S : Standing) → HasStanding self.old S
            → IsReadyFor header (catalog_in self.old) (site_in self.old) (tables_in self.old) S event.now ready.now
            → HasStanding self.new (stands_after (catalog_in self.old) (site_in self.old) S event.now came.new) }
        ensures tables { tables_in self.new ≡ tables_in self.old }
        ensures same { IsSameSite self.old self.new }
    {
        // Where it is known that there is no place for a record behind it, none is in flight.
        self.flight = MaybeRecord::none();
        came.outcome = fullness(event, need, left);
    }

    /// What an event comes to that wants memory. The site stands as before.
    pub fn want(&self, event: &Event, came: &mut Came)
        requires alone { IsOutcomeAlone came.old }
        ensures came { came.new ≡ only (want event.now) }
        ensures comes { (layout : Layout) (S : Standing) → TakesMemory S.up event.now
            → Comes (catalog_in self.now) layout (site_in self.now) S event.now came.new }
        ensures stands { (S : Standing) → HasStanding self.now S → TakesMemory S.up event.now
            → HasStanding self.now (stands_after (catalog_in self.now) (site_in self.now) S event.now came.new) }
    {
        came.outcome = want(event);
    }

    /// What a restart comes to that takes no epoch. The site stands as before.
    pub fn rest(&self, outcome: Outcome, came: &mut Came)
        requires rest { IsRest outcome }
        requires alone { IsOutcomeAlone came.old }
        ensures came { came.new ≡ only outcome }
        ensures stands { (S : Standing) → HasStanding self.now S → S.up ≡ false
            → HasStanding self.now (stands_after (catalog_in self.now) (site_in self.now) S happens.Restart came.new) }
    {
        came.outcome = outcome;
    }
}

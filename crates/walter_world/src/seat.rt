//! A site without a disk, with its trail.
ghost use Rattle.std.specs.Prelude.{◌≡◌, ◌<◌, ◌++◌, ◌∷◌, [], ℕ, false, None, reverse, IfOk, OnErr, OnOk};
ghost use Rattle.walter_base.specs.declared.format.Format.{Format};
ghost use Rattle.walter_machine.specs.Machines.{catalog_in, site_in, tables_in, is_up, HasRoom, HasStanding, IsCountable, IsCounted};
ghost use Rattle.walter_machine.specs.Posts.{stamp_behind};
ghost use Rattle.walter_machine.specs.Readiness.{IsReadyFor, IsReadyAnyway, rec_in};
ghost use Rattle.walter_rules.specs.declared.event.Event.TheVariants.{Restart};
ghost use Rattle.walter_rules.specs.Knowledge.{Knowledge};
ghost use Rattle.walter_rules.specs.Standing.{Standing, settled};
ghost use Rattle.walter_rules.specs.Trails.{clock};
ghost use Rattle.walter_tables.specs.Sites.{site_of, catalog_of, Stands};
ghost use Rattle.walter_world.specs.Comings.{breaks, entry_of, found_by};
ghost use Rattle.walter_world.specs.Records.{IsTold};
ghost use Rattle.walter_world.specs.Seats.{CanTake, HasCome, IsSeat, standing_of};

use crate::events::Fate;
use crate::replaying::{Recovery, replay, told_by};
use std::alloc::Global;
use walter_base::{Format, Mem, NoMemory};
use walter_machine::{BootFault, Machine, Ready};
use walter_rules::{Came, Entry, Event, Outcome};
use walter_tables::Tables;

/// A site without a disk, with its trail.
#[derive(Drop)]
pub(crate) struct Seat {
    pub machine: Machine,
    pub entries: Vec<Entry>,
}

impl Seat {
    /// The stamp of the last entry.
    pub fn clock(&self) -> u64
        ensures { result ≡ clock (reverse self.now.entries.items) }
    {
        match self.entries.last() {
            Some(entry) => entry.stamp,
            None => 0,
        }
    }

    /// An event comes to the site, whose journal's header names this format, with this stamp; a restart finds the
    /// record in flight or doesn't.
    pub fn take(
        &mut self,
        alloc: Global,
        format: Format,
        stamp: u64,
        event: Event,
        keeps: bool,
        fate: Fate,
    ) -> Mem<()>
        requires { CanTake (catalog_in self.old.machine) (site_in self.old.machine) self.old event keeps }
        ensures takes { (put : ℕ) → stamp ≡ stamp_behind (clock (reverse self.old.entries.items)) put
            → OnOk result (self.new.entries.items ≡ self.old.entries.items
            ++ entry_of format (catalog_in self.old.machine) (site_in self.old.machine) self.old.entries.items event
            put keeps fate ∷ []) }
        ensures same { OnErr result (self.new.entries.items ≡ self.old.entries.items) }
        ensures seat { IsSeat (catalog_in self.old.machine) (site_in self.old.machine) self.new }
    {
        self.entries.reserve(1)?;
        let came = self.came_of(alloc, format, &event, keeps, fate)?;
        self.entries.push_reserved(Entry { stamp, event, came });
        Ok(())
    }

    // What comes of an event; the site is then as it leaves it.
    fn came_of(
        &mut self,
        alloc: Global,
        format: Format,
        event: &Event,
        keeps: bool,
        fate: Fate,
    ) -> Mem<Came>
        requires { CanTake (catalog_in self.old.machine) (site_in self.old.machine) self.old event.now keeps }
        ensures comes { IfOk result (λ came. HasCome format (catalog_in self.old.machine) (site_in self.old.machine)
            (standing_of self.old) event.now (found_by keeps (standing_of self.old)) fate came self.new.machine) }
        ensures left { OnErr result (IsSeat (catalog_in self.old.machine) (site_in self.old.machine) self.new) }
        ensures entries { self.new.entries ≡ self.old.entries }
    {
        if self.machine.is_up() {
            let mut ready = Ready::none(alloc);
            self.machine.prepare(event, format, &mut ready)?;
            return Ok(come(alloc, &mut self.machine, event, ready, fate));
        }
        match event {
            Event::Restart => self.rise(alloc, keeps, fate),
            _ => {
                let mut came = Came::only(alloc, Outcome::Passed);
                self.machine.decline(event, &mut came);
                Ok(came)
            }
        }
    }

    // What comes of the restart of a site that is down.
    fn rise(&mut self, alloc: Global, keeps: bool, fate: Fate) -> Mem<Came>
        requires can { CanTake (catalog_in self.old.machine) (site_in self.old.machine) self.old Restart keeps }
        requires down { is_up self.old.machine ≡ false }
        ensures comes { (format : Format) → IfOk result (λ came. HasCome format (catalog_in self.old.machine)
            (site_in self.old.machine) (standing_of self.old) Restart (found_by keeps (standing_of self.old)) fate came
            self.new.machine) }
        ensures left { OnErr result (IsSeat (catalog_in self.old.machine) (site_in self.old.machine) self.new) }
        ensures entries { self.new.entries ≡ self.old.entries }
    {
        let Recovery { tables, count } = self.told(alloc, keeps)?;
        let ready = boot(alloc, tables)?;
        self.machine.make_room()?;
        let kept = self.machine.settle(count);
        let came = come(alloc, &mut self.machine, &Event::Restart, ready, fate);
        Ok(Came { kept, ..came })
    }

    // What the records of a site that is down tell, with the one in flight behind them where that is to be found.
    fn told(&self, alloc: Global, keeps: bool) -> Mem<Recovery>
        requires seat { IsSeat (catalog_in self.now.machine) (site_in self.now.machine) self.now }
        requires down { is_up self.now.machine ≡ false }
        ensures { IfOk result (IsTold (catalog_in self.now.machine) (site_in self.now.machine)
            (settled (catalog_in self.now.machine) (site_in self.now.machine) (found_by keeps (standing_of self.now))
            (standing_of self.now)).records) }
    {
        let mut told = told_by(
            alloc,
            self.machine.catalog(),
            self.machine.id(),
            &self.entries,
        )?;
        if !keeps {
            return Ok(told);
        }
        let Some(rec) = self.machine.flight() else {
            return Ok(told);
        };
        replay(&mut told, rec)?;
        Ok(told)
    }
}

// The next epoch of a site that has one, whose records tell these tables.
fn boot(alloc: Global, tables: Tables) -> Mem<Ready>
    requires { (K : Knowledge) × Stands tables K × (K.epoch < 4294967295) }
    ensures ready { (format : Format) (S : Standing) → S.up ≡ false → Stands tables S.knows
        → IfOk result (IsReadyFor format (catalog_of tables) (site_of tables) None S Restart) }
    ensures anyway { IfOk result (IsReadyAnyway (catalog_of tables) (site_of tables) None Restart) }
{
    match Ready::boot(alloc, tables) {
        Ok(ready) => Ok(ready),
        Err(BootFault::NoMemory) => Err(NoMemory),
        Err(BootFault::LastEpoch) => unreachable!(),
    }
}

// What comes of the event that this is ready for: its record is stable, or it meets a fault.
fn come(alloc: Global, machine: &mut Machine, event: &Event, mut ready: Ready, fate: Fate) -> Came
    requires room { is_up machine.old ≡ false → HasRoom machine.old }
    requires countable { IsCountable machine.old ready }
    requires anyway { IsReadyAnyway (catalog_in machine.old) (site_in machine.old) (tables_in machine.old) event.now
        ready }
    ensures { (format : Format) (S : Standing) → HasStanding machine.old S → IsCounted machine.old S (rec_in ready)
        → IsReadyFor format (catalog_in machine.old) (site_in machine.old) (tables_in machine.old) S event.now ready
        → HasCome format (catalog_in machine.old) (site_in machine.old) S event.now None fate result machine.new }
{
    let mut came = Came::only(alloc, Outcome::Passed);
    if breaks(fate, &ready) {
        machine.fail(event, &mut ready, &mut came);
        return came;
    }
    machine.keep(event, &mut ready, &mut came);
    came
}

// Whether there is a record that meets a fault.
fn breaks(fate: Fate, ready: &Ready) -> bool
    ensures { result ≡ breaks fate (rec_in ready.now) }
{
    match (fate, ready.record()) {
        (Fate::Broken, Some(_)) => true,
        _ => false,
    }
}

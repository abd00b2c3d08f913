//! What a site does that is pumped: all that has arrived is taken, as the link chooses; then comes the packet in front, or
//! the next commit of a peer, or a tick.
ghost use Rattle.std.specs.Prelude.{◌≡◌, ◌<◌, ◌≤◌, ◌∷◌, [], ℕ, None, List, true, drop, length, slice_get, Some, IsSome, IfOk, OnErr, OnOk};
ghost use Rattle.walter_base.specs.Vectors.{most_sites};
ghost use Rattle.walter_cell.specs.Cells.{HasSameTrail, Proceeds, arrival};
ghost use Rattle.walter_cell.specs.Pumps.{IsLeastAt, Pumps, TakesSome, WorksAt, acted_so, counts_in};
ghost use Rattle.walter_link.specs.Pumps.{HasTaken, KeepsPump, take_arrived, taken_from};

use crate::answers::{Acted, Moved, Pumped};
use crate::cell::Cell;
use std::alloc::Global;
use walter_base::{Mem, SiteId};
use walter_disk::Disk;
use walter_link::{Pump, Waiting};
use walter_stream::{Sink, Source};

impl<D: Disk + Drop, S: Source + Drop, K: Sink + Drop> Cell<D, S, K> {
    /// The site, which is up, does the first of these that can be done: the packet in front is delivered, and leaves; the
    /// least peer's next commit is committed; a tick is made, while any are left.
    pub fn pump_arrived(&mut self, alloc: Global, pump: &mut Pump) -> Mem<Pumped>
        requires few { length self.old.ins ≤ most_sites }
        requires site { pump.old.site ≡ self.old.node.site }
        requires senders { length pump.old.senders ≡ length self.old.ins }
        // What was taken has arrived.
        requires taken { (from : ℕ) → taken_from pump.old from ≤ counts_in self.old.ins from }
        ensures proceeds { Proceeds D.Disk self.old self.new }
        ensures pumps { IfOk result (Pumps D.Disk self.old self.new pump.old pump.new) }
        ensures kept { OnErr result (HasSameTrail self.old self.new) }
        ensures taken { OnErr result (TakesSome self.old.node.site (counts_in self.old.ins) pump.old pump.new) }
        ensures pump { KeepsPump (counts_in self.old.ins) pump.old pump.new }
    {
        self.take_arrived(pump)?;
        match pump.first() {
            Some(first) => self.hand(alloc, pump, first),
            None => self.advance_least(pump),
        }
    }

    // The least peer's next commit is committed, or a tick is made.
    fn advance_least(&mut self, pump: &mut Pump) -> Mem<Pumped>
        requires none { pump.old.waiting ≡ [] }
        ensures proceeds { Proceeds D.Disk self.old self.new }
        ensures works { IfOk result (WorksAt D.Disk self.old self.new pump.old pump.new) }
        ensures kept { OnErr result (HasSameTrail self.old self.new) }
        ensures same { pump.new ≡ record pump.old { ticks = pump.new.ticks } }
        ensures unmoved { OnErr result (pump.new ≡ pump.old) }
    {
        match self.least_enabled() {
            Some(from) => Ok(pumped(self.advance(from)?)),
            None => self.tick_left(pump),
        }
    }

    // Takes all that has arrived, of one sender after another.
    fn take_arrived(&self, pump: &mut Pump) -> Mem<()>
        requires few { length self.now.ins ≤ most_sites }
        requires site { pump.old.site ≡ self.now.node.site }
        requires senders { length pump.old.senders ≡ length self.now.ins }
        ensures taken { OnOk result
            (pump.new ≡ take_arrived self.now.node.site (counts_in self.now.ins) pump.old) }
        ensures some { OnErr result (TakesSome self.now.node.site (counts_in self.now.ins) pump.old pump.new) }
        ensures pump { KeepsPump (counts_in self.now.ins) pump.old pump.new }
    {
        for from in 0..self.sites() {
            let from = SiteId(from as u8);
            if from != pump.site() {
                pump.take(from, self.count_from(from))?;
            }
        }
        Ok(())
    }

    // The packet in front is delivered, and leaves.
    fn hand(&mut self, alloc: Global, pump: &mut Pump, first: Waiting) -> Mem<Pumped>
        requires site { pump.old.site ≡ self.old.node.site }
        requires senders { length pump.old.senders ≡ length self.old.ins }
        requires first { slice_get pump.old.waiting 0 ≡ Some first }
        requires taken { HasTaken pump.old first }
        requires there { IsSome (arrival self.old.ins first.from first.number) }
        ensures proceeds { Proceeds D.Disk self.old self.new }
        ensures works { IfOk result (WorksAt D.Disk self.old self.new pump.old pump.new) }
        ensures kept { OnErr result (HasSameTrail self.old self.new) }
        ensures same { pump.new ≡ record pump.old { waiting = pump.new.waiting } }
        ensures unmoved { OnErr result (pump.new ≡ pump.old) }
    {
        match self.deliver(alloc, first.from, first.number)? {
            Moved::Did => {
                pump.leave();
                Ok(Pumped::Did)
            }
            Moved::Nothing => Ok(Pumped::Idle),
            Moved::Spent => Ok(Pumped::Spent),
        }
    }

    // A tick is made, while any are left.
    fn tick_left(&mut self, pump: &mut Pump) -> Mem<Pumped>
        requires none { pump.old.waiting ≡ [] }
        requires least { IsLeastAt D.Disk self.old None }
        ensures proceeds { Proceeds D.Disk self.old self.new }
        ensures works { IfOk result (WorksAt D.Disk self.old self.new pump.old pump.new) }
        ensures kept { OnErr result (HasSameTrail self.old self.new) }
        ensures same { pump.new ≡ record pump.old { ticks = pump.new.ticks } }
        ensures unmoved { OnErr result (pump.new ≡ pump.old) }
    {
        if !pump.can_tick() {
            return Ok(Pumped::Idle);
        }
        match self.tick()? {
            Acted::Did => {
                pump.tick();
                Ok(Pumped::Did)
            }
            Acted::Spent => Ok(Pumped::Spent),
        }
    }
}

/// What a pump says of an event.
pub fn pumped(acted: Acted) -> Pumped
    ensures { result ≡ acted_so acted }
{
    match acted {
        Acted::Did => Pumped::Did,
        Acted::Spent => Pumped::Spent,
    }
}

//! The cell of a site with its pump, as they stand behind the site's lock.
ghost use Rattle.std.specs.Prelude.{◌≡◌, Some, slice_get, true};
ghost use Rattle.walter_cell.specs.Lines.{is_here};
ghost use Rattle.walter_cluster.specs.Shared.{IsHeld, Origin};

use crate::name::Name;
use std::alloc::Global;
use std::marker::{Model, PhantomData};
use walter_base::Mem;
use walter_cell::{Cell, Pumped, Serve, pumped};
use walter_disk::Disk;
use walter_link::Pump;
use walter_stream::{Sink, Source};

/// The cell of site `I` and its pump. Whenever their lock is free the cell has gone on from what it was, and works.
#[derive(Drop)]
pub struct Held<N: Name, D: Disk, S: Source + Drop, K: Sink + Drop, const I: usize> {
    cell: Cell<D, S, K>,
    pump: Pump,
    of: PhantomData<N>,
}

impl<N: Name, D: Disk, S: Source + Drop, K: Sink + Drop, const I: usize> Model
    for Held<N, D, S, K, I> {
    ghost use Rattle.std.specs.Coded.{codes};
    ghost use Rattle.walter_base.specs.contracts.catalog.Catalog as coded_catalog;
    ghost use Rattle.walter_lane.specs.Lanes.{sending_code, receiving_code};
    ghost use Rattle.walter_rules.specs.contracts.entry.Entry as coded_entry;
    ghost use Rattle.walter_cluster.specs.Shared.{IsHeld, HeldValue};

    ghost Value = { HeldValue D };

    ghost coded = { Prim.hlevel
        (codes, coded_catalog.the_row.coded, coded_entry.the_row.coded, sending_code, receiving_code) };

    ghost view = { λ h. record { cell = h.cell; pump = h.pump } };

    ghost invariant = { λ h. IsHeld D.Disk N.origins I (record { cell = h.cell; pump = h.pump }) };
}

impl<N: Name, D: Disk + Drop, S: Source + Drop, K: Sink + Drop, const I: usize> Held<
    N,
    D,
    S,
    K,
    I,
> {
    pub fn new(cell: Cell<D, S, K>, pump: Pump) -> Held<N, D, S, K, I>
        requires { IsHeld D.Disk N.origins I (record { cell = cell; pump = pump }) }
        ensures { result ≡ record { cell = cell; pump = pump } }
    {
        Held {
            cell,
            pump,
            of: PhantomData,
        }
    }

    /// The cell and the pump, which stand as the site's lock wants them.
    pub fn into_parts(self) -> (Cell<D, S, K>, Pump)
        ensures cell { result.0 ≡ self.cell }
        ensures pump { result.1 ≡ self.pump }
        ensures held { IsHeld D.Disk N.origins I self }
    {
        let Held { cell, pump, .. } = self;
        (cell, pump)
    }

    /// Gives a client of the site its turn.
    pub fn turn(&mut self, alloc: Global, client: u32) -> Mem<Serve>
        requires { (o : Origin) → slice_get N.origins I ≡ Some o → is_here o.cell.lines client ≡ true }
    {
        self.cell.serve(alloc, client)
    }

    /// What the lanes hold arrives, and the site does the first that can be done.
    pub fn pump(&mut self, alloc: Global) -> Mem<Pumped> {
        if self.cell.is_spent() {
            return Ok(Pumped::Spent);
        }
        if !self.cell.is_up() {
            return Ok(pumped(self.cell.restart()?));
        }
        self.cell.poll()?;
        self.cell.pump_arrived(alloc, &mut self.pump)
    }

    /// The same again and again, so many times at most, until nothing is done. What the last came to.
    pub fn pump_on(&mut self, alloc: Global, most: u32) -> Mem<Pumped> {
        for _ in 1..most {
            let pumped = self.pump(alloc)?;
            if !matches!(pumped, Pumped::Did) {
                return Ok(pumped);
            }
        }
        self.pump(alloc)
    }
}

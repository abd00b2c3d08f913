//! The log of a site: its transactions in order, by number and by name.
ghost use Rattle.std.specs.Prelude.{◌≡◌, ◌<◌, ◌≤◌, ◌+◌, ◌++◌, ◌∷◌, [], IfOk, OnOk, IsOk};
ghost use Rattle.std.specs.Option.{option_copied};
ghost use Rattle.walter_base.specs.declared.names.SiteId.{SiteId as Site};
ghost use Rattle.walter_rules.specs.Log.{commit_at, seq_in, has_seen};
ghost use Rattle.walter_log.specs.Logged.{room_of, AreWithin};

use crate::names::keep_first;
use crate::places::{make_room, no_places, put_place};
use indexmap::IndexMap;
use std::alloc::Global;
use std::marker::Model;
use walter_base::{Mem, SiteId, Tid, Tx, Vts};
use walter_rules::Held;

/// The transactions that a site holds, in order, with the places of each site's and the numbers of all by their names.
/// Contracts see the list of them, and the room for more.
#[derive(Drop)]
pub struct Log {
    site: SiteId,
    held: Vec<Held>,
    places: Vec<Vec<usize>>,
    numbers: IndexMap<Tid, u64>,
}

impl Model for Log {
    ghost use Rattle.std.specs.Prelude.{◌-◌, length, map, vec_len, vec_capacity};
    ghost use Rattle.indexmap.specs.IndexMap.{spare};
    ghost use Rattle.walter_log.specs.Logged.{Logged};
    ghost use Rattle.walter_log.specs.Kept.{AreKept};

    ghost Value = { Logged };

    ghost view = { λ l. record {
      site = l.site;
      sites = length l.places.items;
      log = l.held.items;
      room = vec_capacity l.held - vec_len l.held;
      places = map (λ list. vec_capacity list - vec_len list) l.places.items;
      numbers = spare l.numbers;
    } };

    ghost invariant = { λ l. AreKept l.held.items l.places.items l.numbers.entries };
}

impl Log {
    /// No transaction.
    pub fn new(alloc: Global, site: SiteId, sites: u8) -> Mem<Log>
        ensures log { IfOk result (λ log. log.log ≡ []) }
        ensures site { IfOk result (λ log. log.site ≡ site) }
        ensures sites { IfOk result (λ log. log.sites ≡ sites) }
    {
        let places = no_places(alloc, sites)?;
        Ok(Log {
            site,
            held: Vec::new(alloc),
            places,
            numbers: IndexMap::new(alloc),
        })
    }

    /// The transactions, in order.
    pub fn held(&self) -> &[Held]
        ensures log { result.now ≡ self.entry.now.log }
        ensures within { AreWithin self.entry.now.sites self.entry.now.log }
    {
        &self.held
    }

    /// The commit of this number of the site, counted from 1, if it is held. Number 0 stands for 1.
    pub fn commit_at(&self, site: SiteId, seq: u64) -> Option<&Tx>
        ensures { option_copied result ≡ commit_at site seq self.entry.now.log }
    {
        let places = self.places.get(usize::from(site.0))?;
        let place = places.get(seq.saturating_sub(1) as usize)?;
        let held = self.held.get(*place)?;
        Some(&held.tx)
    }

    /// The number of the first commit of its site that is this transaction, if it is held.
    pub fn number_of(&self, tid: Tid) -> Option<u64>
        ensures { result ≡ seq_in tid.site self.now.log tid }
    {
        self.numbers.get(&tid).copied()
    }

    /// The number of the first own commit that is this transaction.
    pub fn seq_of(&self, tid: Tid) -> Option<u64>
        ensures { result ≡ seq_in self.now.site self.now.log tid }
    {
        if tid.site != self.site {
            return None;
        }
        self.number_of(tid)
    }

    /// Whether the transaction is held, under a number that the vector sees.
    pub fn has_seen(&self, vector: &Vts, tid: Tid) -> bool
        ensures { result ≡ has_seen vector.now tid self.now.log }
    {
        match self.number_of(tid) {
            Some(seq) => seq <= vector.get(tid.site),
            None => false,
        }
    }

    /// Makes room for one more transaction of the site.
    pub fn reserve(&mut self, site: SiteId) -> Mem<()>
        requires { site.0 < self.old.sites }
        ensures enough { OnOk result (0 < room_of self.new site) }
        ensures had { 0 < room_of self.old site → IsOk result }
        ensures log { self.new.log ≡ self.old.log }
        ensures site { self.new.site ≡ self.old.site }
        ensures sites { self.new.sites ≡ self.old.sites }
        ensures room { (other : Site) → room_of self.old other ≤ room_of self.new other }
    {
        self.held.reserve(1)?;
        self.numbers.reserve(1)?;
        make_room(&mut self.places, site)
    }

    /// Holds one more transaction, behind the others, without taking memory.
    pub fn append(&mut self, held: Held)
        requires within { held.tx.tid.site.0 < self.old.sites }
        requires room { 0 < room_of self.old held.tx.tid.site }
        ensures log { self.new.log ≡ self.old.log ++ held ∷ [] }
        ensures site { self.new.site ≡ self.old.site }
        ensures sites { self.new.sites ≡ self.old.sites }
        ensures room { (other : Site) → room_of self.old other ≤ room_of self.new other + 1 }
    {
        let tid = held.tx.tid;
        keep_first(&mut self.numbers, tid, held.seq);
        put_place(&mut self.places, tid.site, self.held.len());
        self.held.push_reserved(held);
    }
}

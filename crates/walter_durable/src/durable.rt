//! How far the own commits are held and seen, and the marks of both that were journaled.
ghost use Rattle.std.specs.Prelude.{◌≡◌, ◌<◌, ◌≤◌, ◌+◌, List, length, IsOk, OnOk, ◌↔◌, IsTrue};
ghost use Rattle.walter_base.specs.declared.names.SiteId.{SiteId as Site};
ghost use Rattle.walter_base.specs.Vectors.{most_sites, entry_at};
ghost use Rattle.walter_durable.specs.Marks.{unbegun, own, heard, AreVisible, IsGreatest, IsDurableMark, IsVisibleMark, IsPossible, with_own, with_acknowledged, with_visible, with_floors, CanJournal};
ghost use Rattle.walter_durable.specs.Counted.{IsCounted};

use crate::copies::Copies;
use crate::preferred::PreferredSites;
use std::alloc::Global;
use std::marker::Model;
use walter_base::{Mem, SiteId, Vts};

/// How far the own commits are held and seen, and the marks that were journaled. Contracts see the holdings, and the
/// room for more.
#[derive(Drop)]
pub struct Durable {
    copies: Copies,
    /// By site, how many own commits it has acknowledged.
    acknowledged: Vts,
    visible: Vts,
    /// How many own commits are held one after another, from the first on.
    counted: u64,
    /// How many own commits each peer has called visible. Without peers it is all.
    seen_by_all: u64,
    durable_floor: u64,
    visible_floor: u64,
}

impl Model for Durable {
    ghost use Rattle.std.specs.Prelude.{◌-◌, vec_len, vec_capacity};
    ghost use Rattle.walter_durable.specs.Marks.{HoldingsWithRoom, IsPossible, AreVisible, IsGreatest};

    ghost Value = { HoldingsWithRoom };

    ghost use Rattle.walter_durable.specs.Counted.{kept_in, IsCounted};

    ghost view = { λ d. record {
      holdings = kept_in d;
      room = vec_capacity d.copies.preferred - vec_len d.copies.preferred;
    } };

    ghost invariant = { λ d. IsPossible (kept_in d) × IsCounted (kept_in d) d.counted
        × IsGreatest (AreVisible (kept_in d)) d.seen_by_all };
}

/// What peers have said, where one says a number: a greater one than before is believed, up to the most.
fn after_hearing(mut said: Vts, most: u64, peer: SiteId, number: u64) -> Vts
    requires { peer.0 < length said }
    ensures { result ≡ heard most said peer number }
{
    if number <= most {
        said.raise(peer, number);
    }
    said
}

impl Durable {
    /// No own commits.
    pub fn new(alloc: Global, site: SiteId, sites: u8, tolerated: u8) -> Durable
        requires here { site.0 < sites }
        requires few { sites ≤ most_sites }
        requires fewer { tolerated < sites }
        ensures { result.holdings ≡ unbegun site sites tolerated }
    {
        Durable {
            copies: Copies {
                site,
                sites,
                tolerated,
                preferred: Vec::new(alloc),
            },
            acknowledged: Vts::zero(sites),
            visible: Vts::zero(sites),
            counted: 0,
            seen_by_all: 0,
            durable_floor: 0,
            visible_floor: 0,
        }
    }

    /// How many own commits there are.
    pub fn own(&self) -> u64
        ensures own { result ≡ own self.now.holdings }
        ensures possible { IsPossible self.now.holdings }
    {
        self.copies.own()
    }

    /// How many own commits the site has acknowledged.
    pub fn acknowledged(&self, peer: SiteId) -> u64
        ensures { result ≡ entry_at self.now.holdings.acknowledged peer }
    {
        self.acknowledged.get(peer)
    }

    /// How many own commits the site has called visible.
    pub fn visible(&self, peer: SiteId) -> u64
        ensures { result ≡ entry_at self.now.holdings.visible peer }
    {
        self.visible.get(peer)
    }

    /// Makes room for one more own commit.
    pub fn reserve(&mut self) -> Mem<()>
        ensures enough { OnOk result (0 < self.new.room) }
        ensures had { 0 < self.old.room → IsOk result }
        ensures holdings { self.new.holdings ≡ self.old.holdings }
        ensures room { self.old.room ≤ self.new.room }
    {
        self.copies.preferred.reserve(1)?;
        Ok(())
    }

    /// Keeps one more own commit, with the preferred sites of the objects that it changed, without taking memory.
    pub fn commit_own(&mut self, preferred: PreferredSites)
        requires { 0 < self.old.room }
        ensures holdings { self.new.holdings ≡ with_own preferred self.old.holdings }
        ensures room { self.new.room + 1 ≡ self.old.room }
    {
        let counted = self.counted_with_own(&preferred);
        let seen_by_all = self.seen_with_own();
        self.copies.preferred.push_reserved(preferred);
        self.counted = counted;
        self.seen_by_all = seen_by_all;
    }

    /// Takes in that the site has received so many own commits.
    pub fn hear_acknowledged(&mut self, peer: SiteId, got: u64)
        requires { peer.0 < self.old.holdings.sites }
        ensures holdings { self.new.holdings ≡ with_acknowledged peer got self.old.holdings }
        ensures possible { IsPossible self.old.holdings }
        ensures room { self.new.room ≡ self.old.room }
    {
        self.acknowledged = after_hearing(self.acknowledged, self.copies.own(), peer, got);
        self.counted = self.copies.count_on(self.counted, &self.acknowledged);
    }

    /// Takes in that the site has committed so many own commits.
    pub fn hear_visible(&mut self, peer: SiteId, committed: u64)
        requires { peer.0 < self.old.holdings.sites }
        ensures holdings { self.new.holdings ≡ with_visible peer committed self.old.holdings }
        ensures possible { IsPossible self.old.holdings }
        ensures room { self.new.room ≡ self.old.room }
    {
        let visible = after_hearing(self.visible, self.copies.own(), peer, committed);
        self.seen_by_all = self.seen(&visible);
        self.visible = visible;
    }

    /// How many own commits are durable.
    pub fn durable_mark(&self) -> u64
        ensures mark { IsDurableMark self.now.holdings result }
        ensures rises { self.now.holdings.durable_floor ≤ result }
        ensures within { result ≤ own self.now.holdings }
    {
        self.durable_floor.max(self.counted)
    }

    /// How many would be, with one more that changed objects of these preferred sites.
    pub fn durable_mark_with_own(&self, preferred: &PreferredSites) -> u64
        ensures mark { IsDurableMark (with_own preferred.now self.now.holdings) result }
        ensures rises { self.now.holdings.durable_floor ≤ result }
        ensures within { result ≤ own self.now.holdings + 1 }
    {
        self.durable_floor.max(self.counted_with_own(preferred))
    }

    /// How many would be, if the site had received so many own commits. It looks at those that the mark moves over, and
    /// at the next.
    pub fn durable_mark_with_acknowledged(&self, peer: SiteId, got: u64) -> u64
        requires { peer.0 < self.now.holdings.sites }
        ensures mark { IsDurableMark (with_acknowledged peer got self.now.holdings) result }
        ensures rises { self.now.holdings.durable_floor ≤ result }
        ensures within { result ≤ own self.now.holdings }
        ensures possible { IsPossible self.now.holdings }
    {
        let acknowledged = after_hearing(self.acknowledged, self.copies.own(), peer, got);
        let counted = self.copies.count_on(self.counted, &acknowledged);
        self.durable_floor.max(counted)
    }

    /// How many own commits are held one after another, with one more that changed objects of these preferred sites.
    fn counted_with_own(&self, preferred: &PreferredSites) -> u64
        ensures { IsCounted (with_own preferred.now self.now.holdings) result }
    {
        let next = self.copies.own() + 1;
        if self.counted + 1 == next && self.copies.is_held_at(next, preferred, &self.acknowledged) {
            next
        } else {
            self.counted
        }
    }

    /// How many own commits are visible everywhere.
    pub fn visible_mark(&self) -> u64
        ensures mark { IsVisibleMark self.now.holdings result }
        ensures rises { self.now.holdings.visible_floor ≤ result }
        ensures within { result ≤ own self.now.holdings }
    {
        self.visible_floor.max(self.seen_by_all)
    }

    /// How many would be, if the site had committed so many own commits.
    pub fn visible_mark_with_visible(&self, peer: SiteId, committed: u64) -> u64
        requires { peer.0 < self.now.holdings.sites }
        ensures mark { IsVisibleMark (with_visible peer committed self.now.holdings) result }
        ensures rises { self.now.holdings.visible_floor ≤ result }
        ensures within { result ≤ own self.now.holdings }
        ensures possible { IsPossible self.now.holdings }
    {
        let visible = after_hearing(self.visible, self.copies.own(), peer, committed);
        self.visible_floor.max(self.seen(&visible))
    }

    /// How many own commits each peer has called visible, with one more that none has.
    fn seen_with_own(&self) -> u64
        ensures { (preferred : List Site) → IsGreatest (AreVisible (with_own preferred self.now.holdings)) result }
    {
        if self.copies.sites == 1 {
            self.copies.own() + 1
        } else {
            self.seen_by_all
        }
    }

    /// How many own commits each peer has called visible, where they have called so many visible.
    fn seen(&self, visible: &Vts) -> u64
        ensures greatest { IsGreatest (AreVisible (record self.now.holdings { visible = visible.now })) result }
        ensures possible { IsPossible self.now.holdings }
    {
        let mut least = self.copies.own();
        for site in 0..self.copies.sites {
            if site != self.copies.site.0 {
                least = least.min(visible.get(SiteId(site)));
            }
        }
        least
    }

    /// Whether these marks can be journaled: they don't fall, and are of own commits.
    pub fn can_journal(&self, durable: u64, visible: u64) -> bool
        ensures { IsTrue result ↔ CanJournal self.now.holdings durable visible }
    {
        self.durable_floor <= durable
            && durable <= self.copies.own()
            && self.visible_floor <= visible
            && visible <= self.copies.own()
    }

    /// Takes in that these marks are journaled.
    pub fn journal(&mut self, durable: u64, visible: u64)
        requires durable_rises { self.old.holdings.durable_floor ≤ durable }
        requires durable_within { durable ≤ own self.old.holdings }
        requires visible_rises { self.old.holdings.visible_floor ≤ visible }
        requires visible_within { visible ≤ own self.old.holdings }
        ensures holdings { self.new.holdings ≡ with_floors durable visible self.old.holdings }
        ensures room { self.new.room ≡ self.old.room }
    {
        self.durable_floor = durable;
        self.visible_floor = visible;
    }
}

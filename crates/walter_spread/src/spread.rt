//! How far a site has come with the commits of each site, and which it takes, commits or sends next.
ghost use Rattle.std.specs.Prelude.{◌≡◌, ◌≢◌, ◌+◌, ◌^◌, ◌<◌, ◌≤◌, ◌↔◌, length, IsTrue};
ghost use Rattle.walter_base.specs.Vectors.{most_sites, entry_at};
ghost use Rattle.walter_spread.specs.Propagation.{unbegun, own, IsPossible, IsAccepted, IsEnabled, IsWithin, in_window, into_window, with_received, with_committed, with_own, with_durable};

use std::marker::Model;
use walter_base::{SiteId, Vts};

/// How far a site has come with the commits of each site. Contracts see the progress.
#[derive(Drop)]
pub struct Spread {
    site: SiteId,
    window: u64,
    got: Vts,
    committed: Vts,
    durable: Vts,
}

impl Model for Spread {
    ghost use Rattle.walter_spread.specs.Propagation.{Progress, IsPossible};

    ghost Value = { Progress };

    ghost use Rattle.walter_spread.specs.Kept.{progress_in};

    ghost view = { progress_in };

    ghost invariant = { λ s. IsPossible (progress_in s) };
}

impl Spread {
    /// No commit of any site.
    pub fn new(site: SiteId, sites: u8, window: u64) -> Spread
        requires here { site.0 < sites }
        requires few { sites ≤ most_sites }
        requires some { 0 < window }
        ensures { result ≡ unbegun site sites window }
    {
        Spread {
            site,
            window,
            got: Vts::zero(sites),
            committed: Vts::zero(sites),
            durable: Vts::zero(sites),
        }
    }

    /// How many commits of each site are received.
    pub fn got(&self) -> &Vts
        ensures got { result.now ≡ self.entry.now.got }
        ensures possible { IsPossible self.entry.now }
    {
        &self.got
    }

    /// How many commits of each site are committed here.
    pub fn committed(&self) -> &Vts
        ensures { result.now ≡ self.entry.now.committed }
    {
        &self.committed
    }

    /// How many of its commits each site has called durable.
    pub fn durable(&self) -> &Vts
        ensures { result.now ≡ self.entry.now.durable }
    {
        &self.durable
    }

    /// How many own commits there are.
    pub fn own(&self) -> u64
        ensures { result ≡ own self.now }
    {
        self.committed.get(self.site)
    }

    /// Whether a commit that a peer sends is taken.
    pub fn accepts(&self, from: SiteId, seq: u64, start: &[u64]) -> bool
        ensures { IsTrue result ↔ IsAccepted self.now from seq start.now }
    {
        0 < seq && seq - 1 == self.got.get(from) && self.got.covers(start)
    }

    /// Whether the next commit of the site is to be committed here, whose snapshot is `start`.
    pub fn enabled(&self, from: SiteId, start: &[u64]) -> bool
        ensures { IsTrue result ↔ IsEnabled self.now from start.now }
    {
        let committed = self.committed.get(from);
        committed < self.got.get(from)
            && committed < self.durable.get(from)
            && self.committed.covers(start)
    }

    /// Whether the next own commit is sent at once to a peer that has acknowledged so many.
    pub fn is_within(&self, acknowledged: u64) -> bool
        ensures { IsTrue result ↔ IsWithin self.now acknowledged }
    {
        let own = self.own();
        own <= acknowledged || own - acknowledged < self.window
    }

    /// The first and the last of the own numbers that a peer needs, that has acknowledged so many.
    pub fn needs(&self, acknowledged: u64) -> Option<(u64, u64)>
        ensures { result ≡ in_window self.now.window (own self.now) acknowledged }
    {
        let own = self.own();
        if acknowledged >= own {
            return None;
        }
        let last = acknowledged + self.window.min(own - acknowledged);
        Some((acknowledged + 1, last))
    }

    /// The first and the last of the own numbers that a peer comes to need, that acknowledged `before` and now `now`.
    pub fn enters(&self, before: u64, now: u64) -> Option<(u64, u64)>
        ensures { result ≡ into_window self.now.window (own self.now) before now }
    {
        let own = self.own();
        let sent = before.saturating_add(self.window).max(now);
        if sent >= own {
            return None;
        }
        let last = now + self.window.min(own - now);
        if sent < last {
            Some((sent + 1, last))
        } else {
            None
        }
    }

    /// Receives the next commit of another site.
    pub fn receive(&mut self, from: SiteId)
        requires other { from.0 ≢ self.old.site.0 }
        requires within { from.0 < length self.old.got }
        requires fits { entry_at self.old.got from + 1 < 2 ^ 64 }
        ensures { self.new ≡ with_received from self.old }
    {
        let next = self.got.get(from) + 1;
        self.got.raise(from, next);
    }

    /// Commits the next commit of another site here.
    pub fn commit(&mut self, from: SiteId)
        requires within { from.0 < length self.old.committed }
        requires received { entry_at self.old.committed from < entry_at self.old.got from }
        ensures { self.new ≡ with_committed from self.old }
    {
        let received = self.got.get(from);
        let next = received.min(self.committed.get(from) + 1);
        self.committed.raise(from, next);
    }

    /// Commits one more own commit.
    pub fn commit_own(&mut self)
        requires { own self.old + 1 < 2 ^ 64 }
        ensures { self.new ≡ with_own self.old }
    {
        let next = self.own() + 1;
        self.got.raise(self.site, next);
        self.committed.raise(self.site, next);
    }

    /// Takes in that the site has called so many of its commits durable.
    pub fn hear(&mut self, from: SiteId, durable: u64)
        requires { from.0 < length self.old.got }
        ensures { self.new ≡ with_durable from durable self.old }
    {
        self.durable.raise(from, durable);
    }
}

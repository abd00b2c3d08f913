//! The own commits, and which sites hold each.
use crate::preferred::PreferredSites;
use walter_base::{MOST_SITES, SiteId, Vts};

/// The own commits, and the sites that are to hold them. This one holds all of them, and a peer those that it has
/// acknowledged: how many, is an argument.
#[derive(Drop)]
pub struct Copies {
    pub site: SiteId,
    pub sites: u8,
    /// How many sites may be lost.
    pub tolerated: u8,
    /// By own commit, the preferred sites of the objects that it changed.
    pub preferred: Vec<PreferredSites>,
}

impl Copies {
    ghost use Rattle.std.specs.Prelude.{◌≡◌, ◌<◌, ◌≤◌, ◌↔◌, true, length, All, IsTrue};
    ghost use Rattle.walter_base.specs.Vectors.{most_sites};
    ghost use Rattle.walter_durable.specs.Marks.{own, holds, holders, IsHeldAt, IsHeld, AreHeld};
    ghost use Rattle.walter_durable.specs.Counted.{copies_in, IsCounted};

    /// How many own commits there are.
    pub fn own(&self) -> u64
        ensures { result ≡ length self.now.preferred.items }
    {
        self.preferred.len() as u64
    }

    /// Whether the site holds own commit `q`.
    fn holds(&self, q: u64, site: SiteId, acknowledged: &Vts) -> bool
        ensures { result ≡ holds (copies_in self.now acknowledged.now) q site }
    {
        site.0 == self.site.0 || q <= acknowledged.get(site)
    }

    /// How many sites hold it.
    fn holders(&self, q: u64, acknowledged: &Vts) -> u8
        ensures { result ≡ holders (copies_in self.now acknowledged.now) q }
    {
        let mut count = 0;
        for site in 0..self.sites {
            let holds = self.holds(q, SiteId(site), acknowledged);
            if holds {
                count += 1;
            }
        }
        count
    }

    /// Whether each of the sites holds it. Those that no catalog has hold nothing, and the first of these is looked at
    /// for all of them.
    fn are_holders(&self, q: u64, sites: &PreferredSites, acknowledged: &Vts) -> bool
        requires some { 0 < q }
        requires here { self.now.site.0 < most_sites }
        requires few { length acknowledged.now ≤ most_sites }
        ensures { IsTrue result ↔ All (λ site. holds (copies_in self.now acknowledged.now) q site ≡ true) sites.now }
    {
        for place in 0..=MOST_SITES as u8 {
            if sites.has(place) && !self.holds(q, SiteId(place), acknowledged) {
                return false;
            }
        }
        true
    }

    /// Whether it may be called durable, as far as the ones before it may, where these are the preferred sites of the
    /// objects that it changed.
    pub fn is_held_at(&self, q: u64, preferred: &PreferredSites, acknowledged: &Vts) -> bool
        requires some { 0 < q }
        requires here { self.now.site.0 < most_sites }
        requires few { length acknowledged.now ≤ most_sites }
        ensures { IsTrue result ↔ IsHeldAt (copies_in self.now acknowledged.now) q preferred.now }
    {
        self.holders(q, acknowledged) > self.tolerated
            && self.are_holders(q, preferred, acknowledged)
    }

    /// The same of one that is kept.
    fn is_held(&self, q: u64, acknowledged: &Vts) -> bool
        requires some { 0 < q }
        requires within { q ≤ own (copies_in self.now acknowledged.now) }
        requires here { self.now.site.0 < most_sites }
        requires few { length acknowledged.now ≤ most_sites }
        ensures { IsTrue result ↔ IsHeld (copies_in self.now acknowledged.now) q }
    {
        let preferred = &self.preferred[(q - 1) as usize];
        self.is_held_at(q, preferred, acknowledged)
    }

    /// Counts on from a number up to which the own commits are held. It looks at each that it counts, and at the next.
    pub fn count_on(&self, from: u64, acknowledged: &Vts) -> u64
        requires held { AreHeld (copies_in self.now acknowledged.now) from }
        requires here { self.now.site.0 < most_sites }
        requires few { length acknowledged.now ≤ most_sites }
        ensures { IsCounted (copies_in self.now acknowledged.now) result }
    {
        let mut counted = from;
        while counted < self.own() {
            if !self.is_held(counted + 1, acknowledged) {
                break;
            }
            counted += 1;
        }
        counted
    }
}

//! Vectors: how many commits of each site are meant.
ghost use Rattle.std.specs.Prelude.{◌≡◌, ◌<◌, ◌≤◌, ◌↔◌, IsTrue, ℕ, max, replicate, length, slice_set};
ghost use Rattle.walter_base.specs.Vectors.{most_sites, entry_at, IsSeenBy, Covers, NoneFrom};

use crate::names::{SiteId, Version};
use std::marker::Model;

/// How many sites there may be.
pub const MOST_SITES: usize = 16;

/// A number for each site: how many of its commits are meant, from the first on. Contracts see the list of them.
#[derive(Clone, Copy, Debug)]
pub struct Vts {
    sites: u8,
    entries: [u64; MOST_SITES],
}

impl Model for Vts {
    ghost use Rattle.std.specs.Prelude.{◌≡◌, ◌+◌, ◌-◌, ◌≤◌, ◌++◌, ℕ, List, take, length, replicate};
    ghost use Rattle.std.proofs.Common.{sym, subst};
    ghost use Rattle.std.proofs.lemmas.List.{length-take-le};
    ghost use Rattle.walter_base.specs.Vectors.{most_sites, NoneFrom};
    ghost use Rattle.walter_base.specs.Padding.{filled};

    ghost Value = { List ℕ };

    ghost view = { λ v. take v.sites v.entries };

    ghost invariant = { λ v. (v.sites ≤ most_sites) × (length v.entries ≡ most_sites) × NoneFrom v.sites v.entries };

    ghost inverse = { λ xs. record { sites = length xs; entries = xs ++ replicate (most_sites - length xs) 0 } };

    ghost inverse_ok = { λ a h. λ i. record { sites = length-take-le a.sites a.entries (subst (λ n. a.sites ≤ n) (sym h.1) h.0) i; entries = filled a.sites a.entries h.0 h.1 h.2 i } };
}

impl Vts {
    /// No commit of any site.
    pub fn zero(sites: u8) -> Vts
        requires { sites ≤ most_sites }
        ensures { result ≡ replicate sites 0 }
    {
        Vts {
            sites,
            entries: [0; MOST_SITES],
        }
    }

    /// The vector of these numbers, one for each site.
    pub fn from_slice(numbers: &[u64]) -> Vts
        requires { length numbers.now ≤ most_sites }
        ensures { result ≡ numbers.now }
    {
        let mut entries = [0; MOST_SITES];
        entries[..numbers.len()].copy_from_slice(numbers);
        Vts {
            sites: numbers.len() as u8,
            entries,
        }
    }

    /// The numbers of the sites that it has.
    pub fn as_slice(&self) -> &[u64]
        ensures same { result.now ≡ self.now }
        ensures few { length self.now ≤ most_sites }
    {
        &self.entries[..usize::from(self.sites)]
    }

    /// The number of the site, 0 for one that the vector doesn't have.
    #[tactic(auto, using(crate::specs::Padding::at_front))]
    pub fn get(&self, site: SiteId) -> u64
        ensures { result ≡ entry_at self.now site }
    {
        self.entries.get(usize::from(site.0)).copied().unwrap_or(0)
    }

    /// Whether it is at least as great as these numbers at each site that they have.
    #[tactic(auto, using(crate::specs::Padding::at_front))]
    pub fn covers(&self, other: &[u64]) -> bool
        ensures { IsTrue result ↔ Covers self.now other.now }
    {
        for (site, theirs) in other.iter().enumerate() {
            if self.entries.get(site).copied().unwrap_or(0) < *theirs {
                return false;
            }
        }
        true
    }

    /// Whether the version is among the commits that are meant.
    pub fn sees(&self, version: Version) -> bool
        ensures { IsTrue result ↔ IsSeenBy self.now version }
    {
        version.seq <= self.get(version.site)
    }

    /// The entry of the site becomes the greater of what it is and `to`.
    pub fn raise(&mut self, site: SiteId, to: u64)
        requires { site.0 < length self.old }
        ensures { self.new ≡ slice_set self.old site.0 (max (entry_at self.old site) to) }
    {
        let at = usize::from(site.0);
        self.entries[at] = self.entries[at].max(to);
    }
}

//! The preferred sites of an own commit, as bits.
ghost use Rattle.std.specs.Prelude.{◌≡◌, ◌<◌, ◌++◌, ◌∷◌, []};
ghost use Rattle.walter_durable.specs.Bits.{has_place, place_of};

use crate::ghost_sites::{GhostSites, Listing};
use std::marker::Model;
use walter_base::{MOST_SITES, SiteId};

/// The preferred sites of the objects that an own commit changed, in four bytes. Contracts see the list of them.
#[derive(Drop)]
pub struct PreferredSites {
    bits: u32,
    sites: GhostSites,
}

impl Model for PreferredSites {
    ghost use Rattle.std.specs.Prelude.{List};
    ghost use Rattle.walter_base.specs.declared.names.SiteId.{SiteId};
    ghost use Rattle.walter_durable.specs.Bits.{AreBitsOf};

    ghost Value = { List SiteId };

    ghost view = { λ p. p.sites.sites };

    ghost invariant = { λ p. AreBitsOf p.bits p.sites.sites };
}

/// The place of the bit that tells of the site. All sites that no catalog has share the last.
fn place_of(site: SiteId) -> u8
    ensures { result ≡ place_of site }
{
    site.0.min(MOST_SITES as u8)
}

impl PreferredSites {
    /// No site.
    pub fn none() -> PreferredSites
        ensures { result ≡ [] }
    {
        PreferredSites {
            bits: 0,
            sites: GhostSites::of(&Listing::Begin),
        }
    }

    /// One more site comes behind the others.
    pub fn push(&mut self, site: SiteId)
        ensures { self.new ≡ self.old ++ (site ∷ []) }
    {
        self.bits |= 1 << place_of(site);
        self.sites = GhostSites::of(&Listing::Add(&self.sites, site));
    }

    /// Whether a site of them has the place.
    pub(crate) fn has(&self, place: u8) -> bool
        requires { place < 32 }
        ensures { result ≡ has_place self.now place }
    {
        self.bits >> place & 1 == 1
    }
}

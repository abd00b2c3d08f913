//! Sites that exist in proofs alone.
ghost use Rattle.std.specs.Prelude.{◌≡◌, List};
ghost use Rattle.std.specs.Borrow.{ftrue};
ghost use Rattle.walter_base.specs.declared.names.SiteId.{SiteId as Site};
ghost use Rattle.walter_durable.specs.Codes.{sites_code};

use std::marker::Model;
use walter_base::SiteId;

/// Sites in some order. They exist in proofs alone, and take no memory.
#[derive(Drop)]
pub struct GhostSites {
    pub ghost sites: { List Site } by { sites_code },
}

impl Model for GhostSites {
    ghost also_owns = { λ _. ftrue };
}

// It owns nothing.
unsafe impl Send for GhostSites {}

/// What the sites begin with, or what comes to them: one more.
#[derive(Clone, Copy, Drop)]
pub enum Listing<'a> {
    Begin,
    Add(&'a GhostSites, SiteId),
}

impl GhostSites {
    ghost use Rattle.walter_durable.specs.Listings.{listed_after};

    /// The sites after the listing.
    pub fn of(listing: &Listing<'_>) -> GhostSites
        ensures { result ≡ listed_after listing.now }
    {
        GhostSites {}
    }
}

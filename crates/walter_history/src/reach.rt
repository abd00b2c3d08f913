//! A vector that sees some versions, if one is known. One stands beside each object's versions and at each change of a
//! set, so it has entries for the first eight sites alone: most catalogs have no more, and where a version is of another
//! site none is known, and who asks looks at all versions.
ghost use Rattle.std.specs.Prelude.{◌≡◌, ◌<◌, true, IsTrue, ℕ, slice_index};
ghost use Rattle.walter_base.specs.declared.names.Version.{Version as Named};
ghost use Rattle.walter_base.specs.Conflicts.{sees_version};
ghost use Rattle.walter_base.specs.Vectors.{Covers};
ghost use Rattle.walter_history.specs.Reaches.{Reaches};

use std::marker::Model;
use walter_base::{SiteId, Version, Vts};

/// How many sites have an entry.
const PLACES: usize = 8;

/// A number for each of the first sites: how many of its commits are seen. Contracts see the list of them.
#[derive(Clone, Copy, Debug)]
pub struct Reach {
    entries: [u64; PLACES],
}

impl Model for Reach {
    ghost use Rattle.std.specs.Prelude.{◌≡◌, ℕ, List, length, refl};

    ghost Value = { List ℕ };

    ghost view = { λ v. v.entries };

    ghost invariant = { λ v. length v.entries ≡ 8 };

    ghost inverse = { λ xs. record { entries = xs } };

    ghost inverse_ok = { λ a h. refl };
}

impl Reach {
    /// Sees the version, and what it saw.
    fn raise(&mut self, version: Version)
        requires { version.site.0 < PLACES }
        ensures sees { sees_version self.new version ≡ true }
        ensures keeps { (other : Named) → sees_version self.old other ≡ true → sees_version self.new other ≡ true }
    {
        let at = usize::from(version.site.0);
        self.entries[at] = self.entries[at].max(version.seq);
    }

    /// Whether the vector is at least as great at each site.
    fn is_covered(&self, by: &Vts) -> bool
        ensures { IsTrue result → Covers by.now self.now }
    {
        for (site, seen) in self.entries.iter().enumerate() {
            if by.get(SiteId(site as u8)) < *seen {
                return false;
            }
        }
        true
    }
}

/// What sees no version.
pub fn no_reach() -> Option<Reach> {
    Some(Reach {
        entries: [0; PLACES],
    })
}

/// The vector raised so that it sees the version, where it has an entry for its site.
pub fn with_version(vector: Option<Reach>, version: Version) -> Option<Reach>
    ensures sees { Reaches result version }
    ensures keeps { (other : Named) → Reaches vector other → Reaches result other }
{
    let Some(mut reach) = vector else {
        return None;
    };
    if usize::from(version.site.0) >= PLACES {
        return None;
    }
    reach.raise(version);
    Some(reach)
}

/// Whether `by` sees whatever the vector sees.
pub fn is_covered(vector: &Option<Reach>, by: &Vts) -> bool
    ensures { IsTrue result → (version : Named) → Reaches vector.now version → sees_version by.now version ≡ true }
{
    match vector {
        Some(vector) => vector.is_covered(by),
        None => false,
    }
}

//! How far back the snapshots of sessions look.
ghost use Rattle.std.specs.Prelude.{◌≡◌, ◌≤◌, length};
ghost use Rattle.walter_base.specs.declared.names.SiteId.{SiteId as Site};
ghost use Rattle.walter_base.specs.Vectors.{most_sites, entry_at};
ghost use Rattle.walter_session.specs.Floors.{IsFloor, IsLeastOf};
ghost use Rattle.walter_session.specs.Sessions.{sessions_of};

use crate::sessions::Sessions;
use walter_base::{SiteId, Vts};

impl Sessions {
    /// The floor of a site among so many, which has committed this: whoever reads there, now or later, covers it.
    pub fn floor(&self, sites: u8, committed: &Vts) -> Vts
        requires most { sites ≤ most_sites }
        requires among { length committed.now ≡ sites }
        ensures floor { IsFloor committed.now (sessions_of self.now) result }
        ensures among { length result ≡ sites }
    {
        let mut floor = Vts::zero(sites);
        for k in 0..sites {
            let site = SiteId(k);
            floor.raise(site, self.least(site, committed.get(site)));
        }
        floor
    }

    /// The least of a number and of those that the snapshots have of the site.
    fn least(&self, site: SiteId, most: u64) -> u64
        ensures { IsLeastOf most (sessions_of self.now) site result }
    {
        let mut least = most;
        for place in 0..self.len() {
            if let Some(session) = self.at(place) {
                least = least.min(session.snapshot.get(site));
            }
        }
        least
    }
}

//! Where in the log the transactions of each site stand.
ghost use Rattle.std.specs.Prelude.{◌≡◌, ◌<◌, ◌≤◌, ◌+◌, ◌++◌, ◌∷◌, [], length, IfOk, OnOk, IsOk, if◌then◌else◌};
ghost use Rattle.walter_base.specs.declared.names.SiteId.{SiteId as Site};
ghost use Rattle.walter_base.specs.Names.{same_site};
ghost use Rattle.walter_log.specs.Places.{places_of, room_at};

use std::alloc::Global;
use walter_base::{Mem, SiteId};

/// No place of so many sites.
pub fn no_places(alloc: Global, sites: u8) -> Mem<Vec<Vec<usize>>>
    ensures sites { IfOk result (λ places. length places.items ≡ sites) }
    ensures none { IfOk result (λ places. (site : Site) → places_of places.items site ≡ []) }
{
    let mut places = Vec::new(alloc);
    for _site in 0..sites {
        places.push(Vec::new(alloc))?;
    }
    Ok(places)
}

/// Makes room for one more place of the site.
pub fn make_room(places: &mut Vec<Vec<usize>>, site: SiteId) -> Mem<()>
    requires { site.0 < length places.old.items }
    ensures sites { length places.new.items ≡ length places.old.items }
    ensures enough { OnOk result (0 < room_at places.new.items site) }
    ensures had { 0 < room_at places.old.items site → IsOk result }
    ensures places { (other : Site) → places_of places.new.items other ≡ places_of places.old.items other }
    ensures room { (other : Site) → room_at places.old.items other ≤ room_at places.new.items other }
{
    let Some(list) = places.get_mut(usize::from(site.0)) else {
        return Ok(());
    };
    list.reserve(1)?;
    Ok(())
}

/// Puts one more place of the site behind its others, without taking memory.
pub fn put_place(places: &mut Vec<Vec<usize>>, site: SiteId, place: usize)
    requires { 0 < room_at places.old.items site }
    ensures sites { length places.new.items ≡ length places.old.items }
    ensures places { (other : Site) → places_of places.new.items other
        ≡ (if same_site site other then places_of places.old.items site ++ place ∷ []
        else places_of places.old.items other) }
    ensures room { (other : Site) → room_at places.old.items other ≤ room_at places.new.items other + 1 }
{
    let Some(list) = places.get_mut(usize::from(site.0)) else {
        return;
    };
    list.push_reserved(place);
}

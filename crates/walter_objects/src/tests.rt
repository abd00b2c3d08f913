//! Whether updates, locks and sites fit the catalog.
ghost use Rattle.std.specs.Prelude.{◌≡◌};
ghost use Rattle.walter_objects.specs.Preferred.{is_lockable_at, are_lockable_at};
ghost use Rattle.walter_rules.specs.Declarations.{is_of_kind, is_declared, are_declared};
ghost use Rattle.walter_rules.specs.Deliveries.{is_peer};

use walter_base::{Catalog, Kind, ObjId, SiteId, Update};

/// Whether the object's container is in the catalog, and of this kind.
fn is_of_kind(catalog: &Catalog, kind: Kind, oid: ObjId) -> bool
    ensures { result ≡ is_of_kind catalog.now kind oid }
{
    catalog.kind(oid) == Some(kind)
}

/// Whether the update's object is in the catalog, and of its kind.
fn is_declared(catalog: &Catalog, update: &Update) -> bool
    ensures { result ≡ is_declared catalog.now update.now }
{
    match update {
        Update::Write(oid, _) => is_of_kind(catalog, Kind::Regular, *oid),
        Update::Add(oid, _) | Update::Del(oid, _) => is_of_kind(catalog, Kind::Cset, *oid),
    }
}

/// Whether all are.
pub fn are_declared(catalog: &Catalog, updates: &[Update]) -> bool
    ensures { result ≡ are_declared catalog.now updates.now }
{
    updates.iter().all(|update| is_declared(catalog, update))
}

/// Whether the object is regular, and preferred at the site.
fn is_lockable(catalog: &Catalog, site: SiteId, oid: ObjId) -> bool
    ensures { result ≡ is_lockable_at catalog.now site oid }
{
    is_of_kind(catalog, Kind::Regular, oid) && catalog.preferred(oid).unwrap_or(SiteId(0)) == site
}

/// Whether all objects are regular, and preferred at the site.
pub fn are_lockable(catalog: &Catalog, site: SiteId, objects: &[ObjId]) -> bool
    ensures { result ≡ are_lockable_at catalog.now site objects.now }
{
    objects.iter().all(|oid| is_lockable(catalog, site, *oid))
}

/// Whether it is another site of the catalog.
pub fn is_peer(catalog: &Catalog, site: SiteId, other: SiteId) -> bool
    ensures { result ≡ is_peer catalog.now site other }
{
    other.0 < catalog.sites && other != site
}

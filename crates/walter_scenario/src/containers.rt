//! The containers that values spell, as a catalog.
ghost use Rattle.std.specs.Prelude.{◌≡◌, ◌≢◌, ◌<◌, ◌≤◌, map, IfSome, IfNone, IfOk, IfErr};
ghost use Rattle.serde_json.specs.Data.{string};
ghost use Rattle.serde_json.specs.View.{view};
ghost use Rattle.walter_base.specs.declared.names.Kind.{Kind};
ghost use Rattle.walter_scenario.specs.Faults.{IsContainersFault};
ghost use Rattle.walter_scenario.specs.Fronts.{IsContainer, SpellsNoContainer, IsFront, IsCatalog};
ghost use Rattle.walter_scenario.specs.Parts.{kind_word, container_spelled};
ghost use Rattle.walter_base.specs.Vectors.{most_sites};

use crate::place::{Place, ReadFault};
use crate::values::{items_of, string_of, triple_of, whole_of};
use serde_json::Value;
use std::alloc::{AllocError, Global};
use walter_base::{Catalog, CatalogFault, Kind, SiteId};

/// The kind whose word the value is.
fn kind_of(value: &Value) -> Option<Kind>
    ensures some { IfSome result (λ kind. view value.now ≡ string (kind_word kind)) }
    ensures none { IfNone result ((kind : Kind) → view value.now ≢ string (kind_word kind)) }
{
    match string_of(value)? {
        "regular" => Some(Kind::Regular),
        "cset" => Some(Kind::Cset),
        _ => None,
    }
}

/// The container that the value spells.
fn container_of(value: &Value) -> Option<(u32, Kind, SiteId)>
    ensures some { IfSome result (λ c. IsContainer c × (view value.now ≡ container_spelled c)) }
    ensures none { IfNone result (SpellsNoContainer (view value.now)) }
{
    let (number, kind, site) = triple_of(value)?;
    let number = u32::try_from(whole_of(number)?).ok()?;
    let site = u8::try_from(whole_of(site)?).ok()?;
    Some((number, kind_of(kind)?, SiteId(site)))
}

/// The containers that the values in front spell, up to the first value that spells none.
fn front_of(alloc: Global, values: &[Value]) -> Result<Vec<(u32, Kind, SiteId)>, AllocError>
    ensures { IfOk result (λ front. IsFront (map view values.now) front.items) }
{
    let mut front = Vec::new(alloc);
    for value in values {
        match container_of(value) {
            Some(container) => front.push(container)?,
            None => return Ok(front),
        }
    }
    Ok(front)
}

/// The catalog of the containers that the value spells, for so many sites, of which so many may be lost.
pub fn catalog_of(
    alloc: Global,
    sites: u8,
    tolerated: u8,
    value: &Value,
) -> Result<Catalog, ReadFault>
    requires some { 0 < sites }
    requires most { sites ≤ most_sites }
    requires fewer { tolerated < sites }
    ensures ok { IfOk result (IsCatalog sites tolerated (view value.now)) }
    ensures fault { IfErr result (IsContainersFault sites (view value.now)) }
{
    let values = items_of(value).ok_or(Place::Containers(0))?;
    let front = front_of(alloc, values)?;
    match Catalog::build(alloc, sites, tolerated, &front) {
        Ok(catalog) if front.len() == values.len() => Ok(catalog),
        Ok(_) => Err(ReadFault::from(Place::Containers(front.len()))),
        Err(CatalogFault::Bad { index }) => Err(ReadFault::from(Place::Containers(index))),
        Err(CatalogFault::NoMemory) => Err(ReadFault::NoMemory),
    }
}

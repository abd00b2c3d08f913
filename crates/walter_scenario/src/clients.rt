//! The clients that values spell.
ghost use Rattle.std.specs.Prelude.{◌≡◌, ◌≢◌, ◌<◌, ◌↔◌, ◌∷◌, [], ℕ, List, count_by, nat_eq, IsTrue, MatchOption, IfSome, IfNone, IfOk, IfErr};
ghost use Rattle.hex.specs.Hex.{decode_of};
ghost use Rattle.serde_json.specs.Data.{string};
ghost use Rattle.serde_json.specs.View.{view};
ghost use Rattle.walter_scenario.specs.declared.scenario.Client.{Client};
ghost use Rattle.walter_scenario.specs.Faults.{IsClientsFault};
ghost use Rattle.walter_scenario.specs.Fronts.{MayFollow, ListsClients};
ghost use Rattle.walter_scenario.specs.Parts.{list, whole, SpellsClient};

use crate::place::{Place, ReadFault};
use crate::scenario::{Client, MOST_CLIENTS};
use crate::values::{items_of, pair_of, string_of, whole_of};
use hex::FromHexError;
use serde_json::Value;
use std::alloc::Global;
use walter_base::{Mem, NoMemory, SharedBytes, SiteId};

/// The site and the hex text of a client.
fn site_and_hex_of(value: &Value) -> Option<(SiteId, &str)>
    ensures some { IfSome result
        (λ found. view value.now ≡ list (whole found.0.0 ∷ string found.1.now ∷ [])) }
    ensures none { IfNone result ((site : ℕ) (hex : List ℕ) → site < 256
        → view value.now ≢ list (whole site ∷ string hex ∷ [])) }
{
    let (site, hex) = pair_of(value)?;
    let site = u8::try_from(whole_of(site)?).ok()?;
    Some((SiteId(site), string_of(hex)?))
}

/// The bytes of the hex text, where it is one.
fn bytes_of(alloc: Global, hex: &str) -> Mem<Option<SharedBytes>>
    ensures { IfOk result (λ found. MatchOption found
        ((bytes : List ℕ) → decode_of hex.now ≢ Ok bytes)
        (λ bytes. decode_of hex.now ≡ Ok bytes)) }
{
    match hex::decode(alloc, hex) {
        Ok(bytes) => Ok(Some(SharedBytes::from_vec(bytes)?)),
        Err(FromHexError::OutOfMemory) => Err(NoMemory),
        Err(_) => Ok(None),
    }
}

/// Whether the site of the client is there and has room for one more.
fn may_follow(sites: u8, clients: &[Client], site: SiteId) -> bool
    ensures { IsTrue result ↔ ((site.0 < sites)
        × (count_by (λ client. nat_eq client.site.0 site.0) clients.now < 1024)) }
{
    site.0 < sites && clients.iter().filter(|client| client.site == site).count() < MOST_CLIENTS
}

/// The client that the value spells, where it may stand behind these.
fn next_client(alloc: Global, sites: u8, clients: &[Client], value: &Value) -> Mem<Option<Client>>
    ensures { IfOk result (λ found. MatchOption found
        ((client : Client) → MayFollow sites clients.now client
        → ¬ SpellsClient (view value.now) client)
        (λ client. MayFollow sites clients.now client × SpellsClient (view value.now) client)) }
{
    let Some((site, hex)) = site_and_hex_of(value) else {
        return Ok(None);
    };
    if !may_follow(sites, clients, site) {
        return Ok(None);
    }
    match bytes_of(alloc, hex)? {
        Some(bytes) => Ok(Some(Client { site, bytes })),
        None => Ok(None),
    }
}

/// The clients that the value spells, of so many sites.
pub fn clients_of(alloc: Global, sites: u8, value: &Value) -> Result<Vec<Client>, ReadFault>
    ensures ok { IfOk result (λ clients. ListsClients sites (view value.now) clients.items) }
    ensures fault { IfErr result (IsClientsFault sites (view value.now)) }
{
    let values = items_of(value).ok_or(Place::Clients(0))?;
    let mut clients = Vec::new(alloc);
    for (index, value) in values.iter().enumerate() {
        let client = next_client(alloc, sites, &clients, value)?;
        clients.push(client.ok_or(Place::Clients(index))?)?;
    }
    Ok(clients)
}

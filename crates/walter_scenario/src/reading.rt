//! Reads a scenario from its bytes.
ghost use Rattle.std.specs.Prelude.{◌≤◌, ◌^◌, length, IfOk, IfErr};
ghost use Rattle.walter_scenario.specs.Members.{IsReadingOf, IsFaultOf, IsReadingOn, IsFaultOn};
ghost use Rattle.walter_scenario.specs.Scenarios.{IsReading, IsReadFault};

use crate::arms::given_arms;
use crate::grounds::{Grounds, grounds_of};
use crate::lists::{Arms, Steps};
use crate::members::{Parts, other_key, parts_of};
use crate::place::{Place, ReadFault};
use crate::scenario::{LONGEST_TEXT, Scenario};
use crate::settings::settings_of;
use crate::steps::steps_of;
use crate::text::{members_of, value_of};
use std::alloc::Global;

/// The scenario that the parts spell, where they spell these grounds.
fn scenario_on(alloc: Global, grounds: Grounds, parts: Parts<'_>) -> Result<Scenario, ReadFault>
    requires { length grounds.clients ≤ 2 ^ 32 }
    ensures ok { IfOk result (IsReadingOn grounds parts.entry) }
    ensures fault { IfErr result (IsFaultOn grounds parts.entry) }
{
    let settings = settings_of(parts)?;
    let sites = grounds.catalog.sites;
    let clients = grounds.clients.as_slice().len();
    let arms = given_arms(alloc, sites, parts.arms)?;
    let steps = steps_of(alloc, sites, clients, parts.steps)?;
    Ok(Scenario {
        catalog: grounds.catalog,
        clients: grounds.clients,
        capacity: grounds.capacity,
        areas: grounds.areas,
        room: grounds.room,
        format: grounds.format,
        link: settings.link,
        ticks: settings.ticks,
        threads: settings.threads,
        arms: Arms::from(arms),
        steps: Steps::from(steps),
    })
}

/// The scenario that the parts spell.
fn scenario_of(alloc: Global, parts: Parts<'_>) -> Result<Scenario, ReadFault>
    ensures ok { IfOk result (IsReadingOf parts.entry) }
    ensures fault { IfErr result (IsFaultOf parts.entry) }
{
    let grounds = grounds_of(alloc, parts)?;
    scenario_on(alloc, grounds, parts)
}

/// The scenario that the bytes spell. Where they spell none, it is the first place that is wrong. The bytes are let go
/// before what the clients send is made of their text: at no time are there all three.
pub fn read(alloc: Global, bytes: Vec<u8>) -> Result<Scenario, ReadFault>
    ensures ok { IfOk result (IsReading bytes.items) }
    ensures fault { IfErr result (IsReadFault bytes.items) }
{
    if bytes.len() > LONGEST_TEXT {
        return Err(ReadFault::from(Place::TooLong));
    }
    let value = value_of(alloc, bytes)?;
    let members = members_of(&value).ok_or(Place::Json)?;
    let Some(parts) = parts_of(members) else {
        return Err(ReadFault::Refused {
            place: Place::Key,
            detail: other_key(alloc, members),
        });
    };
    scenario_of(alloc, parts)
}

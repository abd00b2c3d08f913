//! The events of a run once more, at the sites without disks.
use anyhow::{Result, bail};
use std::alloc::Global;
use walter_base::{Bytes, MOST_SITES, Mem, SiteId};
use walter_rules::{Entry, Event, Input, Outcome};
use walter_scenario::{Scenario, read};
use walter_trail::{Trail, merge};
use walter_world::{Fate, What, World, WorldEvent};

// The frames of a client that weren't taken yet.
#[derive(Drop)]
struct Frames {
    bytes: Vec<u8>,
    taken: usize,
}

impl Frames {
    // The body of the next one, which is empty where there is none.
    fn next(&mut self, alloc: Global) -> Mem<Bytes> {
        let left = self.bytes.get(self.taken..).unwrap_or(&[]);
        let Some((head, rest)) = left.split_at_checked(4) else {
            return Ok(Bytes::from(Vec::new(alloc)));
        };
        let length = u32::from_be_bytes([head[0], head[1], head[2], head[3]]) as usize;
        let body = rest.get(..length).unwrap_or(rest);
        self.taken = self.taken.saturating_add(4).saturating_add(body.len());
        Ok(Bytes::from_slice(alloc, body)?)
    }
}

// What an event is at a world, where it isn't the first of its site.
fn what_of(alloc: Global, entry: &Entry, clients: &mut [Frames]) -> Mem<What> {
    Ok(match &entry.event {
        Event::Given(Input::Call { client, .. }) => {
            let client = *client;
            let body = match clients.get_mut(client as usize) {
                Some(frames) => frames.next(alloc)?,
                None => Bytes::from(Vec::new(alloc)),
            };
            What::Call { client, body }
        }
        Event::Given(Input::Deliver { from, number, .. }) => What::Deliver {
            from: *from,
            number: *number,
        },
        Event::Given(Input::Advance { from }) => What::Advance { from: *from },
        Event::Given(Input::Tick) => What::Tick,
        Event::Given(Input::Upgrade) => What::Upgrade,
        Event::Stop => What::Stop,
        Event::Restart => What::Restart {
            kept: entry.came.kept.as_ref().is_some(),
        },
    })
}

fn fate_of(entry: &Entry) -> Fate {
    match entry.came.flight.as_ref() {
        Some(_) => Fate::Broken,
        None => Fate::Fine,
    }
}

// Whether the entry can stand in a world: there each disk can be read.
fn can_stand(entry: &Entry) -> bool {
    match (&entry.came.outcome, entry.came.flight.as_ref()) {
        (Outcome::Failed, None) => false,
        _ => true,
    }
}

// The frames of all clients.
fn frames_of(alloc: Global, scenario: &Scenario) -> Mem<Vec<Frames>> {
    let mut all = Vec::new(alloc);
    for client in scenario.clients.as_slice() {
        all.push(Frames {
            bytes: client.bytes.as_slice().to_vec(alloc)?,
            taken: 0,
        })?;
    }
    Ok(all)
}

// The trails of a world to which the same came, or none where an entry can't stand there.
fn again(alloc: Global, text: &str, merged: &[(SiteId, Entry)]) -> Result<Option<Vec<Trail>>> {
    let Ok(scenario) = read(alloc, text.as_bytes().to_vec(alloc)?) else {
        bail!("no scenario");
    };
    let mut clients = frames_of(alloc, &scenario)?;
    let mut world = World::new(alloc, &scenario.catalog, scenario.format)?;
    for (site, entry) in merged {
        if !can_stand(entry) {
            return Ok(None);
        }
        if entry.stamp > 1 {
            let event = WorldEvent {
                site: *site,
                what: what_of(alloc, entry, &mut clients)?,
                fate: fate_of(entry),
            };
            if !world.takes(&event) {
                bail!("an event can't come to sites without disks");
            }
            world.step(event)?;
        }
    }
    Ok(Some(world.into_trails()))
}

/// Has all that happened in a run of a scenario happen at sites without disks, whose trails are then the same; and whether
/// it could: not where a disk couldn't be read.
pub(crate) fn is_same_in_a_world(alloc: Global, text: &str, trails: &[Trail]) -> Result<bool> {
    if trails.len() > MOST_SITES {
        bail!("there are more than sixteen sites");
    }
    let merged = merge(alloc, trails)?;
    let Some(others) = again(alloc, text, merged.as_slice())? else {
        return Ok(false);
    };
    let (mine, theirs) = (
        format!(in alloc; "{trails:?}")?,
        format!(in alloc; "{others:?}")?,
    );
    if mine != theirs {
        bail!("the trails are others at sites without disks");
    }
    Ok(true)
}

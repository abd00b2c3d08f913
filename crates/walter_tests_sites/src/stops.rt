//! A stop at each device call: the disk of each site is armed at each of its calls in turn.
use crate::journals::Flights;
use crate::playing::play;
use crate::worlds::is_same_in_a_world;
use anyhow::{Result, bail};
use std::alloc::Global;
use std::sync::Wait;
use std::thread::Threads;
use walter_rules::Outcome;
use walter_scenario::read;
use walter_trail::Trail;

/// What is left of what was written since the last sync: nothing, all of it, or bytes 7 in its places.
const CHOICES: [u64; 3] = [0, 1, 7];

/// The choice for a call goes by its number and by that of the pass: behind so many passes each call had each choice.
pub(crate) const PASSES: usize = 3;

/// No scenario of these tests has a disk with so many calls.
const MOST_CALLS: usize = 1_000;

// The scenario, in which a disk is armed before the first step.
fn armed(alloc: Global, scenario: &str, site: u8, nth: usize, choice: u64) -> Result<String> {
    let Some(rest) = scenario.strip_prefix('{') else {
        bail!("no scenario");
    };
    Ok(format!(in alloc; r#"{{"arms":[[{site},{nth},{choice}]],{rest}"#)?)
}

// Whether a call of the site's disk failed.
fn has_failed(trail: &Trail) -> bool {
    for entry in trail.as_slice() {
        if matches!(entry.came.outcome, Outcome::Failed) || entry.came.flight.as_ref().is_some() {
            return true;
        }
    }
    false
}

// What runs with stops came to.
#[derive(Clone, Copy, Debug)]
struct Stops {
    runs: usize,
    // How many of them came to the same at sites without disks.
    same: usize,
    flights: Flights,
}

impl Stops {
    // Plays a scenario in which the disk of a site is armed. Whether the arm came.
    fn play(
        &mut self,
        rt: &(impl AllocGlobal + Threads + Wait + Sync),
        scenario: &str,
        site: u8,
    ) -> Result<bool> {
        let alloc = rt.alloc();
        let run = play(rt, false, scenario)?;
        let Some(trail) = run.trails.get(usize::from(site)) else {
            bail!("no such site");
        };
        if !has_failed(trail) {
            return Ok(false);
        }
        self.runs = self.runs.saturating_add(1);
        if is_same_in_a_world(alloc, scenario, &run.trails)? {
            self.same = self.same.saturating_add(1);
        }
        self.flights.count(alloc, scenario, run)?;
        Ok(true)
    }

    // Stops the disk of a site at each of its calls, and says how many these are.
    fn pass(
        &mut self,
        rt: &(impl AllocGlobal + Threads + Wait + Sync),
        scenario: &str,
        site: u8,
        pass: usize,
    ) -> Result<usize> {
        for stopped in 0..MOST_CALLS {
            let (nth, choice) = (stopped + 1, CHOICES[stopped.wrapping_add(pass) % 3]);
            let armed = armed(rt.alloc(), scenario, site, nth, choice)?;
            match self.play(rt, &armed, site) {
                Ok(true) => {}
                Ok(false) => return Ok(stopped),
                Err(wrong) => bail!("site {site}, call {nth}, choice {choice}: {wrong}"),
            }
        }
        bail!("the calls have no end");
    }

    // The same in so many passes.
    fn stop_site(
        &mut self,
        rt: &(impl AllocGlobal + Threads + Wait + Sync),
        scenario: &str,
        site: u8,
        passes: usize,
    ) -> Result<usize> {
        let mut calls = 0;
        for pass in 0..passes {
            calls = self.pass(rt, scenario, site, pass)?;
        }
        Ok(calls)
    }
}

fn sites_of(alloc: Global, scenario: &str) -> Result<u8> {
    match read(alloc, scenario.as_bytes().to_vec(alloc)?) {
        Ok(scenario) => Ok(scenario.catalog.sites),
        Err(_) => bail!("no scenario"),
    }
}

/// Plays a scenario with a stop at each device call of each site, in so many passes, and says how many calls of each
/// site were stopped, and what the runs came to. Each ends with the status 0, and each disk that is given back has the
/// records that its trail tells, with the one in flight or without it.
pub(crate) fn stop_all(
    rt: &(impl AllocGlobal + Threads + Wait + Sync),
    scenario: &str,
    passes: usize,
) -> Result<String> {
    let alloc = rt.alloc();
    let mut said = String::from_str(alloc, "calls that were stopped:")?;
    let mut stops = Stops {
        runs: 0,
        same: 0,
        flights: Flights::none(),
    };
    for site in 0..sites_of(alloc, scenario)? {
        let calls = stops.stop_site(rt, scenario, site, passes)?;
        said.push_str(&format!(in alloc; " {calls}")?)?;
    }
    let Stops {
        runs,
        same,
        flights: Flights { count, found },
    } = stops;
    said.push_str(&format!(in alloc;
        "; runs: {runs}, {same} of them the same without disks; in flight at the end: {count}, {found} of them found"
    )?)?;
    Ok(said)
}

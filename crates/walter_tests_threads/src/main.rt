//! Runs scenarios by threads, and says what came of it. A line of the input that begins with `#` is said again. What a line
//! comes to is the same whichever thread comes first.
//!
//! | line | what is shown |
//! |---|---|
//! | `run SCENARIO` | `run` ends with the status 0, the trails spell a legal history, and what was written is their report |
//! | `got SCENARIO` | the same, and each trail has the commit of another site |
//! | `gate SCENARIO` | the first turns of the clients 0 and 1 are held until both have come: two threads run at once |
//! | `sources SCENARIO` | each read of these clients waits for the other's, while their sites are locked: they are so too |
//! | `random SEEDS` | so many scenarios at random come to what `run` shows |
#![tactic(auto)]

mod meeting;
mod random;
mod reports;
mod running;
mod working;

use crate::meeting::Meeting;
use crate::random::run_at_random;
use crate::running::{check_history, run};
use crate::working::work;
use anyhow::{Result, bail};
use std::sync::Wait;
use std::thread::Threads;
use walter_base::Record;
use walter_trail::Trail;

fn has_got(trail: &Trail) -> bool {
    for entry in trail.as_slice() {
        if matches!(entry.came.wrote.as_ref(), Some(Record::Got(_, _, _))) {
            return true;
        }
    }
    false
}

fn check_got(trails: &[Trail]) -> Result<()> {
    for trail in trails {
        if !has_got(trail) {
            bail!("a trail has no commit of another site");
        }
    }
    Ok(())
}

// A run of two clients. Those who wait for each other do so at one of these meetings.
fn meet(
    rt: &(impl AllocGlobal + Threads + Wait + Sync),
    scenario: &str,
    gate: &Meeting,
    sources: &Meeting,
) -> Result<()> {
    let trails = work(rt, scenario, gate, sources)?;
    check_history(rt.alloc(), &trails)?;
    if !gate.is_held() || !sources.is_held() {
        bail!("one waited for the other in vain");
    }
    Ok(())
}

// What a line of this kind shows.
fn show(
    rt: &(impl AllocGlobal + Threads + Wait + Sync),
    kind: &str,
    rest: &str,
) -> Result<&'static str> {
    match kind {
        "run" => {
            run(rt, rest)?;
            Ok("legal, and reported")
        }
        "got" => {
            check_got(&run(rt, rest)?)?;
            Ok("legal, and reported; all have the commit of another site")
        }
        "gate" => {
            meet(rt, rest, &Meeting::new(), &Meeting::over())?;
            Ok("both first turns came at once")
        }
        "sources" => {
            meet(rt, rest, &Meeting::over(), &Meeting::new())?;
            Ok("both sources were read at once")
        }
        "random" => {
            run_at_random(rt, rest.parse().unwrap_or(0))?;
            Ok("all are legal, and reported")
        }
        _ => bail!("no line of this kind"),
    }
}

fn main(rt: HostRuntime) -> Result<()> {
    for line in rt.lines(rt.alloc()) {
        let line = line?;
        let (kind, rest) = line.as_str().split_once(' ').unwrap_or(("", ""));
        if kind == "#" {
            println!(rt; "{line}")?;
        } else {
            match show(&rt, kind, rest) {
                Ok(text) => println!(rt; "{text}")?,
                Err(wrong) => println!(rt; "wrong: {wrong}")?,
            }
        }
    }
    Ok(())
}

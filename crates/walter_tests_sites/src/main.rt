//! Plays the runs of its input by the program, and says what came of them. A line that begins with `#` is said again.
//! In what stands behind the first word of a line `<3*piece>` is three times the piece.
//!
//! | line | what is said |
//! |---|---|
//! | `report SCENARIO`, `trace SCENARIO` | what `play`, or `play --trace`, writes of it; that its history is legal; and that its events come to the same at sites without disks |
//! | `brief SCENARIO` | the last three lines of what `play` writes of it, each without its middle where it is long |
//! | `ends GIVEN.. SCENARIO` | how `play` ends over sources, sinks, racks and disks that are given: see `ending` |
//! | `runs GIVEN.. SCENARIO`, `audits GIVEN.. SCENARIO` | the same of `run`, and of `audit` |
//! | `called WORDS..` | how the program ends that is called with these words, where nothing can be read |
//! | `read SCENARIO`, `bytes HEX` | the scenario that the text or the bytes spell, or what is wrong with them |
//! | `memory` | what is said where memory runs out |
//! | `stops SCENARIO`, `stops-in-turn SCENARIO` | what becomes of it where the disk of each site is stopped at each of its calls, by each of three choices, or by these in turn: see `stops` |
//! | `random SEEDS` | whether so many runs at random are so, and enough happens in them |
//! | `spread SEEDS` | whether behind so many runs at random all commits come to all sites |
//! | `files SCENARIO` | how `play` ends over the files of a folder: an empty one, the same again, and once it is gone |
//! | `sinks GIVEN.. SCENARIO` | what the turns of a bench's two clients come to, what their sinks hold, and what the trails say |
#![tactic(auto)]

mod benches;
mod ending;
mod files;
mod journals;
mod playing;
mod racks;
mod schedules;
mod stops;
mod worlds;

use crate::benches::answers_and_held;
use crate::ending::{end, numbers_given, reading, want_of_memory};
use crate::files::play_over_files;
use crate::journals::Flights;
use crate::playing::{Run, legal_history, play};
use crate::schedules::{play_at_random, spread_all};
use crate::stops::{PASSES, stop_all};
use crate::worlds::is_same_in_a_world;
use anyhow::{Result, bail};
use std::alloc::Global;
use std::fs::{File, Files};
use std::path::PathBuf;
use std::sync::Wait;
use std::thread::Threads;
use std::{env, process};
use walter_schedules::{end_of, expanded};

// What is said of the run of a scenario, behind its report.
fn told(rt: &impl AllocGlobal, scenario: &str, run: &Run) -> Result<&'static str> {
    legal_history(rt.alloc(), &run.trails)?;
    if is_same_in_a_world(rt.alloc(), scenario, &run.trails)? {
        Ok("legal, and the same without disks")
    } else {
        Ok("legal; a disk could not be read")
    }
}

fn play_line(
    rt: &(impl AllocGlobal + Threads + Wait + Sync),
    command: &str,
    scenario: &str,
) -> Result<String> {
    let run = play(rt, command == "trace", scenario)?;
    let told = told(rt, scenario, &run)?;
    let said = format!(in rt.alloc(); "{}{told}", run.report)?;
    Flights::none().count(rt.alloc(), scenario, run)?;
    Ok(said)
}

fn play_in_brief(
    rt: &(impl AllocGlobal + Threads + Wait + Sync),
    scenario: &str,
) -> Result<String> {
    let run = play(rt, false, scenario)?;
    Ok(end_of(rt.alloc(), &run.report)?)
}

// How the command ends. What is given stands before the scenario, which has no space.
fn end_line(
    rt: &(impl AllocGlobal + Threads + Wait + Sync),
    command: &str,
    given_and_scenario: &str,
) -> Result<String> {
    let (given, scenario) = given_and_scenario
        .rsplit_once(' ')
        .unwrap_or(("", given_and_scenario));
    end(rt, command, given, scenario)
}

// What is given stands before the scenario here too.
fn sinks_line(alloc: Global, given_and_scenario: &str) -> Result<String> {
    let (given, scenario) = given_and_scenario
        .rsplit_once(' ')
        .unwrap_or(("", given_and_scenario));
    answers_and_held(alloc, numbers_given(alloc, given, "reads=")?, scenario)
}

// What a command comes to. The folder is where `files` makes one.
fn answer(
    rt: &(impl AllocGlobal + Threads + Wait + Sync + Files<File = File>),
    folder: &str,
    command: &str,
    rest: &str,
) -> Result<String> {
    let alloc = rt.alloc();
    match command {
        "report" | "trace" => play_line(rt, command, rest),
        "brief" => play_in_brief(rt, rest),
        "ends" => end_line(rt, "play", rest),
        "runs" => end_line(rt, "run", rest),
        "audits" => end_line(rt, "audit", rest),
        "called" => end(rt, rest, "", ""),
        "read" => Ok(reading(alloc, rest.as_bytes())?),
        "bytes" => Ok(reading(alloc, &hex::decode(alloc, rest)?)?),
        "memory" => Ok(want_of_memory(alloc)?),
        "stops" => stop_all(rt, rest, PASSES),
        "stops-in-turn" => stop_all(rt, rest, 1),
        "random" => play_at_random(rt, rest.parse().unwrap_or(0)),
        "spread" => spread_all(rt, rest.parse().unwrap_or(0)),
        "sinks" => sinks_line(alloc, rest),
        "files" => play_over_files(rt, folder, rest),
        _ => bail!("no line of this kind"),
    }
}

// What a line of input comes to.
fn answer_line(
    rt: &(impl AllocGlobal + Threads + Wait + Sync + Files<File = File>),
    folder: &str,
    line: &str,
) -> Result<String> {
    match line.split_once(' ') {
        Some(("#", _)) => Ok(String::from_str(rt.alloc(), line)?),
        Some((command, rest)) => answer(rt, folder, command, &expanded(rt.alloc(), rest)?),
        None => answer(rt, folder, line, ""),
    }
}

// A path among the temporary files that no other program has.
fn new_path(rt: &HostRuntime) -> Result<PathBuf> {
    let mut path = env::temp_dir(rt)?;
    path.push(format!(in rt.alloc(); "walter_tests_sites_{}", process::id(rt.process()))?)?;
    Ok(path)
}

fn main(rt: HostRuntime) -> Result<()> {
    let folder = new_path(&rt)?.into_string();
    for line in rt.lines(rt.alloc()) {
        match answer_line(&rt, folder.as_str(), line?.as_str()) {
            Ok(text) => println!(rt; "{text}")?,
            Err(wrong) => println!(rt; "wrong: {wrong}")?,
        }
    }
    Ok(())
}

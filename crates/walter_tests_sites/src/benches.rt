//! A bench of two clients, of whom one has a source that fails, and whose sinks keep what is written to them.
ghost use Rattle.std.specs.Prelude.{◌≡◌, ◌<◌, length, IfOk, All};
ghost use Rattle.walter_scenario.specs.declared.scenario.Client.{Client};

use anyhow::{Result, bail};
use std::alloc::Global;
use std::sync::ArcSlice;
use walter_cell::Line;
use walter_cluster::{Bench, Closed, build};
use walter_conn::Conn;
use walter_disk_memory::MemoryDisk;
use walter_scenario::read;
use walter_stream::{MemorySink, MemorySource};
use walter_trail::Trail;

type MemoryLine = Line<MemorySource, MemorySink>;

type MemoryBench = Bench<MemoryDisk, MemorySource, MemorySink>;

/// How many bytes the sinks of the two clients have room for, and in which order the clients have their turns.
const ROOMS: [usize; 2] = [100, 20];

const TURNS: [u32; 6] = [0, 1, 1, 0, 1, 0];

/// A connection with a client that sends these bytes, of a source that fails at these reads, to a sink with room for so
/// many.
fn line(alloc: Global, bytes: &[u8], failing: Vec<u64>, room: usize) -> Result<MemoryLine> {
    let source = MemorySource::new(ArcSlice::from_slice(alloc, bytes)?, failing);
    let sink = MemorySink::with_room(alloc, room, Vec::new(alloc))?;
    match Conn::new(alloc, source, sink) {
        Ok(conn) => Ok(Line::new(conn)),
        Err(_) => bail!("no memory for a connection"),
    }
}

/// The two sites of a scenario over empty disks, with the connections of its two clients.
fn bench_of(
    alloc: Global,
    scenario: &walter_scenario::Scenario,
    first: MemoryLine,
    second: MemoryLine,
) -> Result<MemoryBench>
    requires within { All (λ (client : Client). client.site.0 < scenario.now.catalog.sites) scenario.now.clients }
    ensures { IfOk result (λ bench. length bench.homes ≡ length scenario.now.clients) }
{
    let catalog = &scenario.catalog;
    let clients = scenario.clients.as_slice().len();
    if catalog.sites != 2 || catalog.tolerated > 1 || clients != 2 {
        bail!("the scenario hasn't two sites with a client each");
    }
    if scenario.capacity < 19 || scenario.areas != 1 {
        bail!("a journal hasn't one area with place for an epoch");
    }
    let disks = vec![in alloc; MemoryDisk::new(alloc), MemoryDisk::new(alloc)]?;
    let lines = vec![in alloc; first, second]?;
    match build(alloc, scenario, disks, lines) {
        Ok(bench) => Ok(bench),
        Err(_) => bail!("no site begins"),
    }
}

/// Gives each of these clients a turn, in order, and says in a line what each came to.
fn turn_all(
    alloc: Global,
    bench: &mut MemoryBench,
    clients: usize,
    numbers: &[u32],
) -> Result<String>
    requires { length bench.old.homes ≡ clients }
{
    let mut said = String::new(alloc);
    for number in numbers {
        if *number as usize >= clients {
            bail!("no such client");
        }
        let answer = bench.turn(alloc, *number)?;
        said.push_str(&format!(in alloc; "{number}: {answer:?}\n")?)?;
    }
    Ok(said)
}

/// What the sinks of a site's clients hold comes behind this, each in a line as hex.
fn push_held(alloc: Global, held: &mut String, lines: Vec<Option<MemoryLine>>) -> Result<()> {
    for line in lines {
        if let Some(line) = line {
            let (_, sink) = line.into_conn().into_parts();
            held.push_str(&hex::encode(alloc, sink.as_slice())?)?;
            held.push_str("\n")?;
        }
    }
    Ok(())
}

/// What came of each event of a trail, in a line.
fn outcomes_of(alloc: Global, trail: &Trail) -> Result<String> {
    let mut outcomes = String::from_str(alloc, "trail:")?;
    for entry in trail.as_slice() {
        outcomes.push_str(&format!(in alloc; " {:?}", entry.came.outcome)?)?;
    }
    Ok(outcomes)
}

/// The same of all trails comes behind this.
fn push_outcomes(alloc: Global, said: &mut String, trails: &[Trail]) -> Result<()> {
    for trail in trails {
        said.push_str(&outcomes_of(alloc, trail)?)?;
        said.push_str("\n")?;
    }
    Ok(())
}

/// What the turns of the two clients of a scenario come to, what their sinks hold then, and what the trails say. The
/// source of the first client fails at these reads.
pub(crate) fn answers_and_held(alloc: Global, failing: Vec<u64>, text: &str) -> Result<String> {
    let Ok(scenario) = read(alloc, text.as_bytes().to_vec(alloc)?) else {
        bail!("no scenario");
    };
    let clients = scenario.clients.as_slice().len();
    let [first, second] = scenario.clients.as_slice() else {
        bail!("the scenario hasn't two clients");
    };
    let first = line(alloc, first.bytes.as_slice(), failing, ROOMS[0])?;
    let second = line(alloc, second.bytes.as_slice(), Vec::new(alloc), ROOMS[1])?;
    let mut bench = bench_of(alloc, &scenario, first, second)?;
    let mut said = turn_all(alloc, &mut bench, clients, &TURNS)?;
    let Closed {
        trails,
        remains,
        ..
    } = bench.close();
    for remains in remains {
        push_held(alloc, &mut said, remains.into_lines())?;
    }
    push_outcomes(alloc, &mut said, &trails)?;
    Ok(said)
}

//! Two clients of two sites, served by threads over a bench whose sources come to a meeting.
ghost use Rattle.std.specs.Prelude.{◌≡◌, [], IfOk};
ghost use Rattle.walter_cell.specs.Lines.{IsLine};
ghost use Rattle.walter_cli.specs.Ending.{IsPlayable};

use crate::meeting::{Meeting, MeetingSource};
use anyhow::{Result, bail};
use std::alloc::Global;
use std::sync::Wait;
use std::thread::Threads;
use walter_base::SharedBytes;
use walter_cell::Line;
use walter_cluster::{Bench, Closed, build};
use walter_conn::Conn;
use walter_disk_memory::MemoryDisk;
use walter_scenario::{Client, Scenario, read};
use walter_stream::{BytesSource, NullSink};
use walter_trail::Trail;
use walter_workers::run;

type MeetingLine<'a> = Line<MeetingSource<'a>, NullSink>;

type MeetingBench<'a> = Bench<MemoryDisk, MeetingSource<'a>, NullSink>;

fn scenario_of(alloc: Global, text: &str) -> Result<Scenario>
    ensures { IfOk result IsPlayable }
{
    match read(alloc, text.as_bytes().to_vec(alloc)?) {
        Ok(scenario) => Ok(scenario),
        Err(_) => bail!("no scenario"),
    }
}

// A connection with the client of this number, who comes to the meeting.
fn line<'a>(
    alloc: Global,
    bytes: &SharedBytes,
    number: u32,
    meeting: &'a Meeting,
) -> Result<MeetingLine<'a>>
    ensures { IfOk result (λ line. IsLine bytes.now [] line) }
{
    let source = MeetingSource {
        source: BytesSource::from(bytes.share()?),
        number,
        meeting,
    };
    match Conn::new(alloc, source, NullSink) {
        Ok(conn) => Ok(Line::new(conn)),
        Err(_) => bail!("no memory for a connection"),
    }
}

/// The trails of a scenario of two sites with a client each, behind the gate of a meeting, and with sources that come to
/// another.
pub(crate) fn work(
    rt: &(impl AllocGlobal + Threads + Wait + Sync),
    text: &str,
    gate: &Meeting,
    sources: &Meeting,
) -> Result<Vec<Trail>> {
    let alloc = rt.alloc();
    let scenario = scenario_of(alloc, text)?;
    let [first, second] = scenario.clients.as_slice() else {
        bail!("the scenario hasn't two clients");
    };
    if scenario.catalog.sites != 2 {
        bail!("the scenario hasn't two sites");
    }
    let first = line(alloc, &first.bytes, 0, sources)?;
    let second = line(alloc, &second.bytes, 1, sources)?;
    let lines = vec![in alloc; first, second]?;
    let disks = vec![in alloc; MemoryDisk::new(alloc), MemoryDisk::new(alloc)]?;
    let Ok(bench) = build(alloc, &scenario, disks, lines) else {
        bail!("no site begins");
    };
    let (bench, worked) = run(rt, alloc, bench, &scenario, gate);
    worked?;
    let Closed { trails, .. } = bench.close();
    Ok(trails)
}

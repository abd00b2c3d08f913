//! Runs a scenario over the disks of a rack, and writes what is to be said of it.
ghost use Rattle.std.specs.Prelude.{◌≡◌, ◌≤◌, ◌<◌, ◌++◌, All, length, IfOk, OnOk, IfErr};
ghost use Rattle.walter_base.specs.declared.format.Format.{Format as Header};
ghost use Rattle.walter_base.specs.Sizes.{most_in};
ghost use Rattle.walter_base.specs.Vectors.{most_sites};
ghost use Rattle.walter_cluster.specs.Benches.{AreAllConnected, AreMet, EachKeeps, IsOf, IsToldAt};
ghost use Rattle.walter_cluster.specs.Moments.{IsFirst, moment_of};
ghost use Rattle.walter_play.specs.Scripts.{ArmsMore, arms_of};
ghost use Rattle.walter_report.specs.Reports.{HaveFrames};
ghost use Rattle.walter_page.specs.Unwritten.{IsUnwritten};
ghost use Rattle.walter_report.specs.Traces.{HaveSpellings};
ghost use Rattle.walter_stream.specs.Streams.{Appends};
ghost use Rattle.walter_cli.specs.Ending.{Drives, EndsRun, EndsEarly, HasStepsFor, IsBuilt, IsPlayable, IsWriteFault, fault_of};
ghost use Rattle.walter_cli.specs.Racks.{rack_at, racked};
ghost use Rattle.walter_cli.specs.Statuses.{status_of};
ghost use Rattle.walter_cli.specs.Words.{CanBeRun, written_by};

use crate::disks::{give_all, take_all};
use crate::ended::{Ended, Fault, JournalCause};
use std::alloc::Global;
use std::mem;
use std::sync::Wait;
use std::thread::Threads;
use walter_base::{Format, Mem};
use walter_cluster::{Bench, Closed, Unbuilt, build};
use walter_disk::{Disk, Rack};
use walter_engine::BeginFault;
use walter_page::WriteFault;
use walter_play::{open_lines, play};
use walter_report::{write_report, write_summary};
use walter_scenario::Scenario;
use walter_stream::{BytesSource, NullSink, Sink};
use walter_trail::Trail;
use walter_words::Command;
use walter_workers::OpenGate;

/// Runs a scenario over the rack's disks, gives these back, and writes what the command says of it.
pub fn run<X: Threads + Wait + Sync, K: Sink, R: Rack>(
    rt: &X,
    alloc: Global,
    scenario: &Scenario,
    command: &Command,
    sink: &mut K,
    rack: &mut R,
) -> Ended
    requires running { CanBeRun command.now }
    requires playable { IsPlayable scenario.now }
    requires driven { HasStepsFor command.now scenario.now }
    ensures status { result.status ≡ status_of result.fault }
    ensures same_folder { R.folder rack.new ≡ R.folder rack.old }
    ensures given_back { (racked R.D.Disk (rack_at R.Rack rack.old) (rack_at R.Rack rack.new)).balanced }
    ensures unfailing { 32 ≤ R.unfailing rack.old → ¬ (R.faults rack.old < R.faults rack.new) }
    ensures run { EndsRun (racked R.D.Disk (rack_at R.Rack rack.old) (rack_at R.Rack rack.new))
        command.now scenario.now (K.holds sink.old) (K.holds sink.new) (K.faults sink.old) (K.faults sink.new)
        result.trails.items result.fault }
{
    let bench = match build_over(alloc, scenario, rack) {
        Ok(bench) => bench,
        Err(fault) => return Ended::early(alloc, fault),
    };
    let (bench, driven) = drive(rt, alloc, command, bench, scenario);
    let headers = bench.headers(alloc);
    let Closed {
        trails,
        disks,
        remains,
    } = bench.close();
    // The process is about to end: what the sites knew isn't freed piece by piece.
    mem::forget(remains);
    let given = give_all(rack, disks);
    if driven.is_err() {
        return Ended::late(trails, Some(Fault::Memory));
    }
    let Ok(headers) = headers else {
        return Ended::late(trails, Some(Fault::Memory));
    };
    if let Err(site) = given {
        return Ended::late(trails, Some(Fault::Rack { site }));
    }
    match write_result(alloc, scenario, command, &headers, &trails, sink) {
        Ok(()) => Ended::late(trails, None),
        Err(fault) => Ended::late(trails, Some(fault)),
    }
}

// Drives the sites to the end: by threads, or by the steps of the scenario. Where memory runs out, what was done so far
// stands.
fn drive<X: Threads + Wait + Sync, D: Disk + Drop + Send>(
    rt: &X,
    alloc: Global,
    command: &Command,
    bench: Bench<D, BytesSource, NullSink>,
    scenario: &Scenario,
) -> (Bench<D, BytesSource, NullSink>, Mem<()>)
    requires running { CanBeRun command.now }
    requires playable { IsPlayable scenario.now }
    requires of { IsOf scenario.now bench }
    requires connected { AreAllConnected scenario.now bench }
    requires met { AreMet bench }
    requires first { IsFirst scenario.now.catalog.sites (moment_of D.Disk bench.cells) }
    requires driven { HasStepsFor command.now scenario.now }
    ensures cells { EachKeeps D.Disk bench.cells result.0.cells }
    ensures homes { result.0.homes ≡ bench.homes }
    ensures driven { OnOk result.1 (Drives command.now (λ i. IsToldAt D.Disk i bench) scenario.now
        (moment_of D.Disk bench.cells) (moment_of D.Disk result.0.cells)) }
    ensures arms { ArmsMore (moment_of D.Disk bench.cells) (moment_of D.Disk result.0.cells)
        (scenario.now.arms ++ arms_of scenario.now.steps) }
{
    if let Command::Run { .. } = command {
        return walter_workers::run(rt, alloc, bench, scenario, &OpenGate);
    }
    let mut bench = bench;
    let played = play(alloc, &mut bench, scenario);
    (bench, played)
}

// The sites over the rack's disks. Where none are built the disks are given back.
fn build_over<R: Rack>(
    alloc: Global,
    scenario: &Scenario,
    rack: &mut R,
) -> Result<Bench<R::D, BytesSource, NullSink>, Fault>
    requires playable { IsPlayable scenario.now }
    ensures same_folder { R.folder rack.new ≡ R.folder rack.old }
    ensures built { IfOk result (IsBuilt R.D.Disk (rack_at R.Rack rack.old) (rack_at R.Rack rack.new) scenario.now) }
    ensures unbuilt { IfErr result (EndsEarly (racked R.D.Disk (rack_at R.Rack rack.old) (rack_at R.Rack rack.new))
        scenario.now) }
{
    let Ok(lines) = open_lines(alloc, scenario.clients.as_slice()) else {
        return Err(Fault::Memory);
    };
    let disks = take_all(alloc, rack, scenario)?;
    match build(alloc, scenario, disks, lines) {
        Ok(bench) => Ok(bench),
        Err(Unbuilt { disks, site, why }) => {
            // The first cause decides the status.
            let _ = give_all(rack, disks);
            Err(unbegun(site.0, why))
        }
    }
}

// The fault of a run whose site did not begin. The records of a journal stand behind its first gate.
fn unbegun(site: u8, why: BeginFault) -> Fault
    ensures { result ≡ fault_of site why }
{
    match why {
        BeginFault::Failed => Fault::Rack { site },
        BeginFault::Foreign => Fault::Journal {
            site,
            cause: JournalCause::Foreign,
            place: 0,
        },
        BeginFault::Damaged { at, length } => Fault::Journal {
            site,
            cause: JournalCause::Damaged { length },
            place: at,
        },
        BeginFault::Used => Fault::Journal {
            site,
            cause: JournalCause::Used,
            place: 8,
        },
        BeginFault::NoMemory => Fault::Memory,
    }
}

// Writes what is to be written of these trails.
fn write_result<K: Sink>(
    alloc: Global,
    scenario: &Scenario,
    command: &Command,
    headers: &[Format],
    trails: &[Trail],
    sink: &mut K,
) -> Result<(), Fault>
    requires running { CanBeRun command.now }
    requires few { length trails.now ≤ most_sites }
    requires frames { HaveFrames trails.now }
    requires headers { (length headers.now ≡ length trails.now)
        × All (λ (header : Header). length trails.now ≤ most_in header) headers.now }
    requires records { HaveSpellings (length trails.now) trails.now }
    ensures ok { OnOk result
        (Appends (K.holds sink.old) (K.holds sink.new) (written_by command.now scenario.now headers.now trails.now)) }
    ensures fault { IfErr result (IsWriteFault (written_by command.now scenario.now headers.now trails.now)
        (K.holds sink.old) (K.holds sink.new) (K.faults sink.old) (K.faults sink.new)) }
{
    match write_text(alloc, scenario, command, headers, trails, sink) {
        Ok(()) => Ok(()),
        Err(WriteFault::NoMemory) => Err(Fault::Memory),
        Err(WriteFault::Failed) => Err(Fault::Write),
    }
}

// The report of these trails, with the trace behind it where one is asked for; or their summary.
fn write_text<K: Sink>(
    alloc: Global,
    scenario: &Scenario,
    command: &Command,
    headers: &[Format],
    trails: &[Trail],
    sink: &mut K,
) -> Result<(), WriteFault>
    requires running { CanBeRun command.now }
    requires few { length trails.now ≤ most_sites }
    requires frames { HaveFrames trails.now }
    requires headers { (length headers.now ≡ length trails.now)
        × All (λ (header : Header). length trails.now ≤ most_in header) headers.now }
    requires records { HaveSpellings (length trails.now) trails.now }
    ensures ok { OnOk result
        (Appends (K.holds sink.old) (K.holds sink.new) (written_by command.now scenario.now headers.now trails.now)) }
    ensures fault { IfErr result (IsUnwritten (written_by command.now scenario.now headers.now trails.now)
        (K.holds sink.old) (K.holds sink.new) (K.faults sink.old) (K.faults sink.new)) }
{
    match command {
        Command::Play { trace, .. } | Command::Run { trace, .. } => {
            write_report(alloc, scenario, *trace, headers, trails, sink)
        }
        Command::Load { seed, calls } => write_summary(alloc, *seed, *calls, trails, sink),
        Command::Audit { .. } | Command::Say(_) => unreachable!(),
    }
}

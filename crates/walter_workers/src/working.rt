//! Threads work on the cells of a bench, and then the work is ended alone.
ghost use Rattle.std.specs.Prelude.{◌≡◌, ◌<◌, ◌≤◌, ◌+◌, ◌^◌, ◌++◌, length, All, OnOk};
ghost use Rattle.walter_base.specs.Vectors.{most_sites};
ghost use Rattle.walter_cell.specs.Lines.{CanFail};
ghost use Rattle.walter_cluster.specs.Benches.{AreAllConnected, EachKeeps, IsOf, IsToldAt, Keeps, trails_of};
ghost use Rattle.walter_cluster.specs.Moments.{IsFirst, KeepsArms, moment_of};
ghost use Rattle.walter_cluster.specs.Shared.{CanWork, origins_of};
ghost use Rattle.walter_play.specs.Scripts.{AreArmedFirst, ArmsMore};
ghost use Rattle.walter_scenario.specs.Parts.{IsArm, IsThreads};
ghost use Rattle.walter_work.specs.Driven.{IsDriven};

use crate::gate::Gate;
use crate::rounds::finish;
use std::alloc::Global;
use std::marker::Brand;
use std::sync::Wait;
use std::sync::atomic::{AtomicU64, Ordering};
use std::thread::{Threads, for_each_mut};
use std::time::Duration;
use walter_base::{Mem, NoMemory, SiteId};
use walter_cell::{Pumped, Serve};
use walter_cluster::{Bench, Cluster, Name, make_pumps};
use walter_disk::Disk;
use walter_link::Pump;
use walter_scenario::Scenario;
use walter_stream::{Sink, Source};

// As many as there may be client threads and sites.
const MOST_WORKERS: usize = 48;

// How often a pump worker lets its site do something before it gives the site's lock back: a client waits no longer, and
// the lock goes from thread to thread so much less.
const BATCH: u32 = 32;

// How many microseconds a pump worker sleeps that has found nothing to do, unless a client worker ends before.
const PAUSE: u64 = 100;

// How often in a row a pump worker finds nothing to do, once all client workers have ended, before it ends: other sites may
// still be at work for its own, and what threads leave is done by one alone.
const PATIENCE: u32 = 10;

/// Arms the disks as the scenario says, and lets worker threads serve its clients and pump its sites, to the end; its
/// steps are not taken. Where memory runs out, what was done so far stands. The bench comes back in any case.
pub fn run<
    R: Threads + Wait + Sync,
    D: Disk + Drop + Send,
    S: Source + Drop + Send,
    K: Sink + Drop + Send,
    G: Gate,
>(
    rt: &R,
    alloc: Global,
    bench: Bench<D, S, K>,
    scenario: &Scenario,
    gate: &G,
) -> (Bench<D, S, K>, Mem<()>)
    requires of { IsOf scenario.now bench }
    requires connected { AreAllConnected scenario.now bench }
    requires first { IsFirst scenario.now.catalog.sites (moment_of D.Disk bench.cells) }
    requires sites { scenario.now.catalog.sites ≤ most_sites }
    requires arms { All (IsArm scenario.now.catalog.sites) scenario.now.arms }
    requires clients { length scenario.now.clients < 2 ^ 32 }
    requires threads { IsThreads scenario.now.threads }
    ensures cells { EachKeeps D.Disk bench.cells result.0.cells }
    ensures homes { result.0.homes ≡ bench.homes }
    // Of a site whose disk tells what it holds also what came to it in which order, and that it is up at the end.
    ensures driven { OnOk result.1 (IsDriven (λ i. IsToldAt D.Disk i bench) (CanFail S.Source K.Sink) scenario.now
        (trails_of result.0.cells)) }
    ensures armed { OnOk result.1 (AreArmedFirst (moment_of D.Disk bench.cells) (moment_of D.Disk result.0.cells)
        scenario.now.arms) }
    // Where memory runs out, the disks are armed by the first arms.
    ensures arms { ArmsMore (moment_of D.Disk bench.cells) (moment_of D.Disk result.0.cells) scenario.now.arms }
{
    let mut bench = bench;
    if arm_all(&mut bench, scenario).is_err() {
        return (bench, Err(NoMemory));
    }
    let Ok(pumps) = make_pumps(alloc, scenario) else {
        return (bench, Err(NoMemory));
    };
    let (mut bench, mut pumps) = share_work::<Brand, R, D, S, K, G>(
        rt, alloc, bench, pumps, scenario, gate,
    );
    let finished = finish(alloc, &mut bench, &mut pumps, scenario);
    (bench, finished)
}

// Arms the disks as the scenario says.
fn arm_all<D: Disk + Drop, S: Source + Drop, K: Sink + Drop>(
    bench: &mut Bench<D, S, K>,
    scenario: &Scenario,
) -> Mem<()>
    requires of { IsOf scenario.now bench.old }
    requires arms { All (IsArm scenario.now.catalog.sites) scenario.now.arms }
    ensures keeps { Keeps D.Disk bench.old bench.new }
    ensures trails { trails_of bench.new.cells ≡ trails_of bench.old.cells }
    ensures armed { OnOk result (AreArmedFirst (moment_of D.Disk bench.old.cells) (moment_of D.Disk bench.new.cells)
        scenario.now.arms) }
    ensures arms { ArmsMore (moment_of D.Disk bench.old.cells) (moment_of D.Disk bench.new.cells) scenario.now.arms }
{
    for arm in scenario.arms.as_slice() {
        bench.arm(arm.site, arm.nth, arm.choice)?;
    }
    Ok(())
}

// The workers of pumps and of clients, each in a thread of its own where one can be made, over shared cells. Where none
// can be made, one works behind those with greater numbers: so a pump worker, which waits for the end of all client
// workers, has a lower number than these.
fn share_work<
    N: Name + Send + Sync,
    R: Threads + Wait + Sync,
    D: Disk + Drop + Send,
    S: Source + Drop + Send,
    K: Sink + Drop + Send,
    G: Gate,
>(
    rt: &R,
    alloc: Global,
    bench: Bench<D, S, K>,
    pumps: Vec<Pump>,
    scenario: &Scenario,
    gate: &G,
) -> (Bench<D, S, K>, Vec<Pump>)
    requires origins { N.origins ≡ origins_of D.Disk scenario.now bench.cells }
    requires works { CanWork D.Disk scenario.now bench pumps.items }
    requires sites { scenario.now.catalog.sites ≤ most_sites }
    requires threads { IsThreads scenario.now.threads }
    requires clients { length scenario.now.clients < 2 ^ 32 }
    ensures cells { EachKeeps D.Disk bench.cells result.0.cells }
    ensures homes { result.0.homes ≡ bench.homes }
    ensures arms { KeepsArms (moment_of D.Disk bench.cells) (moment_of D.Disk result.0.cells) }
    ensures works { CanWork D.Disk scenario.now result.0 result.1.items }
{
    let cluster: Cluster<N, D, S, K> = Cluster::share(bench, pumps);
    let shared = &cluster;
    let ended = AtomicU64::new(0);
    let ended = &ended;
    let clients = scenario.clients.as_slice().len() as u32;
    let sites = usize::from(scenario.catalog.sites);
    let threads = usize::from(scenario.threads);
    let mut slots = [(); MOST_WORKERS];
    for_each_mut(
        rt,
        &mut slots[..sites + threads],
        sites + threads,
        &|worker: usize, _slot: &mut ()|
            requires clients { clients ≤ length shared.now }
            requires sites { sites ≡ length N.origins }
            requires few { sites ≤ most_sites }
            requires threads { IsThreads threads }
            requires worker { worker < sites + threads }
        {
            if worker < sites {
                pump(
                    rt,
                    alloc,
                    shared,
                    ended,
                    threads as u32,
                    SiteId(worker as u8),
                );
            } else {
                let first = (worker - sites) as u32;
                serve(rt, alloc, shared, gate, clients, first, threads as u32);
                end(ended);
            }
        },
    );
    cluster.unshare()
}

// A client worker has ended.
fn end(ended: &AtomicU64) {
    ended.fetch_add(1, Ordering::SeqCst);
    ended.wake_all();
}

// Serves every client whose number leaves this one where it is divided by the number of threads, one after another.
fn serve<N: Name, D: Disk + Drop, S: Source + Drop, K: Sink + Drop, G: Gate>(
    rt: &impl Wait,
    alloc: Global,
    cluster: &Cluster<N, D, S, K>,
    gate: &G,
    clients: u32,
    first: u32,
    threads: u32,
)
    requires clients { clients ≤ length cluster.now }
    requires threads { 0 < threads }
{
    let mut client = first;
    while client < clients {
        serve_client(rt, alloc, cluster, gate, client);
        client = client.saturating_add(threads);
    }
}

// Gives a client its turns, until its call isn't answered.
fn serve_client<N: Name, D: Disk + Drop, S: Source + Drop, K: Sink + Drop, G: Gate>(
    rt: &impl Wait,
    alloc: Global,
    cluster: &Cluster<N, D, S, K>,
    gate: &G,
    client: u32,
)
    requires { client < length cluster.now }
{
    for call in 0..u64::MAX {
        gate.before(client, call);
        if !matches!(cluster.turn(rt, alloc, client), Ok(Serve::Served)) {
            return;
        }
    }
}

// Pumps a site, until pumps that began behind the end of all client workers find nothing to do again and again.
fn pump<N: Name, D: Disk + Drop, S: Source + Drop, K: Sink + Drop>(
    rt: &impl Wait,
    alloc: Global,
    cluster: &Cluster<N, D, S, K>,
    ended: &AtomicU64,
    threads: u32,
    site: SiteId,
)
    requires { site.0 < length N.origins }
{
    for _ in rt.forever() {
        let seen = ended.load(Ordering::SeqCst);
        if matches!(cluster.pump(rt, alloc, site, BATCH), Ok(Pumped::Did)) {
            continue;
        }
        if seen >= u64::from(threads) {
            if rests(rt, alloc, cluster, ended, threads, site) {
                return;
            }
            continue;
        }
        ended.park_timeout(rt, seen as u32, Duration::from_micros(PAUSE));
    }
}

// Whether a site finds nothing to do, again and again, once all client workers have ended.
fn rests<N: Name, D: Disk + Drop, S: Source + Drop, K: Sink + Drop>(
    rt: &impl Wait,
    alloc: Global,
    cluster: &Cluster<N, D, S, K>,
    ended: &AtomicU64,
    threads: u32,
    site: SiteId,
) -> bool
    requires { site.0 < length N.origins }
{
    for _ in 0..PATIENCE {
        ended.park_timeout(rt, threads, Duration::from_micros(PAUSE));
        if matches!(cluster.pump(rt, alloc, site, BATCH), Ok(Pumped::Did)) {
            return false;
        }
    }
    true
}

//! The work is ended alone, in rounds.
ghost use Rattle.std.specs.Prelude.{◌≡◌, ◌<◌, ◌⊎◌, ◌^◌, List, length, slice_get, Some, Ok, IfOk, OnOk, true, false};
ghost use Rattle.walter_cell.specs.Lines.{CanFail};
ghost use Rattle.walter_cluster.specs.Benches.{AreAllConnected, IsOf, IsToldAt, Keeps, trails_of};
ghost use Rattle.walter_cluster.specs.Moments.{KeepsArms, moment_of};
ghost use Rattle.walter_cluster.specs.Pumps.{ArePumps};
ghost use Rattle.walter_cluster.specs.Shared.{CanWork};
ghost use Rattle.walter_link.specs.Pumps.{PumpValue};
ghost use Rattle.walter_scenario.specs.declared.scenario.Scenario.{Scenario};
ghost use Rattle.walter_work.specs.Driven.{IsDriven};
ghost use Rattle.walter_workers.specs.Rounds.{AreDone, HaveAllCalled, Moves, PumpsOne, TurnsOne, has_done, is_served};

use std::alloc::Global;
use walter_base::{Mem, SiteId};
use walter_cell::{Pumped, Serve};
use walter_cluster::Bench;
use walter_disk::Disk;
use walter_link::Pump;
use walter_scenario::Scenario;
use walter_stream::{Sink, Source};

/// Goes in rounds, a turn of each client and then a pump of each site, until nothing is left to do.
pub fn finish<D: Disk + Drop, S: Source + Drop, K: Sink + Drop>(
    alloc: Global,
    bench: &mut Bench<D, S, K>,
    pumps: &mut [Pump],
    scenario: &Scenario,
) -> Mem<()>
    requires works { CanWork D.Disk scenario.now bench.old pumps.old }
    requires connected { AreAllConnected scenario.now bench.old }
    requires few { length scenario.now.clients < 2 ^ 32 }
    ensures keeps { Keeps D.Disk bench.old bench.new }
    ensures arms { KeepsArms (moment_of D.Disk bench.old.cells) (moment_of D.Disk bench.new.cells) }
    ensures driven { OnOk result (IsDriven (λ i. IsToldAt D.Disk i bench.new) (CanFail S.Source K.Sink) scenario.now
        (trails_of bench.new.cells)) }
{
    loop {
        if !round(alloc, bench, pumps, scenario)? {
            return Ok(());
        }
    }
}

// A turn of each client, and then a pump of each site. Whether anything moved.
fn round<D: Disk + Drop, S: Source + Drop, K: Sink + Drop>(
    alloc: Global,
    bench: &mut Bench<D, S, K>,
    pumps: &mut [Pump],
    scenario: &Scenario,
) -> Mem<bool>
    requires works { CanWork D.Disk scenario.now bench.old pumps.old }
    requires connected { AreAllConnected scenario.now bench.old }
    requires few { length scenario.now.clients < 2 ^ 32 }
    ensures keeps { Keeps D.Disk bench.old bench.new }
    ensures arms { KeepsArms (moment_of D.Disk bench.old.cells) (moment_of D.Disk bench.new.cells) }
    ensures works { OnOk result (CanWork D.Disk scenario.now bench.new pumps.new) }
    ensures moves { IfOk result
        (Moves (CanFail S.Source K.Sink) (trails_of bench.old.cells) (trails_of bench.new.cells)) }
    ensures driven { result ≡ Ok false → IsDriven (λ i. IsToldAt D.Disk i bench.new) (CanFail S.Source K.Sink)
        scenario.now (trails_of bench.new.cells) }
{
    let called = turn_all(alloc, bench, scenario)?;
    let did = pump_all(alloc, bench, pumps, scenario)?;
    Ok(either(called, did))
}

// A turn of each client.
fn turn_all<D: Disk + Drop, S: Source + Drop, K: Sink + Drop>(
    alloc: Global,
    bench: &mut Bench<D, S, K>,
    scenario: &Scenario,
) -> Mem<bool>
    requires of { IsOf scenario.now bench.old }
    requires connected { AreAllConnected scenario.now bench.old }
    requires few { length scenario.now.clients < 2 ^ 32 }
    ensures keeps { Keeps D.Disk bench.old bench.new }
    ensures arms { KeepsArms (moment_of D.Disk bench.old.cells) (moment_of D.Disk bench.new.cells) }
    ensures works { (pumps : List PumpValue) → CanWork D.Disk scenario.now bench.old pumps
        → CanWork D.Disk scenario.now bench.new pumps }
    ensures moves { IfOk result
        (Moves (CanFail S.Source K.Sink) (trails_of bench.old.cells) (trails_of bench.new.cells)) }
    ensures called { result ≡ Ok false → HaveAllCalled (CanFail S.Source K.Sink) scenario.now
        (trails_of bench.new.cells) (length scenario.now.clients) }
{
    let mut moved = false;
    for number in 0..scenario.clients.as_slice().len() as u32 {
        moved = either(moved, turn_one(alloc, bench, number)?);
    }
    Ok(moved)
}

// A client's turn. Whether its call was answered.
fn turn_one<D: Disk + Drop, S: Source + Drop, K: Sink + Drop>(
    alloc: Global,
    bench: &mut Bench<D, S, K>,
    number: u32,
) -> Mem<bool>
    requires { number < length bench.old.homes }
    ensures keeps { Keeps D.Disk bench.old bench.new }
    ensures arms { KeepsArms (moment_of D.Disk bench.old.cells) (moment_of D.Disk bench.new.cells) }
    ensures turns { (t : Scenario) → IsOf t bench.old → AreAllConnected t bench.old
        → TurnsOne D.Disk (CanFail S.Source K.Sink) t number bench.old bench.new result }
{
    Ok(was_served(bench.turn(alloc, number)?))
}

// A pump of each site.
fn pump_all<D: Disk + Drop, S: Source + Drop, K: Sink + Drop>(
    alloc: Global,
    bench: &mut Bench<D, S, K>,
    pumps: &mut [Pump],
    scenario: &Scenario,
) -> Mem<bool>
    requires { CanWork D.Disk scenario.now bench.old pumps.old }
    ensures keeps { Keeps D.Disk bench.old bench.new }
    ensures arms { KeepsArms (moment_of D.Disk bench.old.cells) (moment_of D.Disk bench.new.cells) }
    ensures works { OnOk result (CanWork D.Disk scenario.now bench.new pumps.new) }
    ensures moves { IfOk result (Moves ⊥ (trails_of bench.old.cells) (trails_of bench.new.cells)) }
    ensures done { result ≡ Ok false → AreDone D.Disk scenario.now bench.new scenario.now.catalog.sites }
{
    let mut moved = false;
    for site in 0..scenario.catalog.sites {
        moved = either(moved, pump_one(alloc, bench, pumps, SiteId(site))?);
    }
    Ok(moved)
}

// A pump of a site. Whether it did anything.
fn pump_one<D: Disk + Drop, S: Source + Drop, K: Sink + Drop>(
    alloc: Global,
    bench: &mut Bench<D, S, K>,
    pumps: &mut [Pump],
    site: SiteId,
) -> Mem<bool>
    requires there { site.0 < length bench.old.cells }
    requires pumps { ArePumps bench.old.cells pumps.old }
    ensures keeps { Keeps D.Disk bench.old bench.new }
    ensures arms { KeepsArms (moment_of D.Disk bench.old.cells) (moment_of D.Disk bench.new.cells) }
    ensures pumps { ArePumps bench.new.cells pumps.new }
    ensures works { (t : Scenario) → CanWork D.Disk t bench.old pumps.old
        → PumpsOne D.Disk t site.0 bench.old bench.new pumps.new result }
{
    Ok(did(bench.pump(alloc, site, &mut pumps[usize::from(site.0)])?))
}

fn was_served(answer: Serve) -> bool
    ensures { result ≡ is_served answer }
{
    matches!(answer, Serve::Served)
}

fn did(answer: Pumped) -> bool
    ensures { result ≡ has_done answer }
{
    matches!(answer, Pumped::Did)
}

fn either(a: bool, b: bool) -> bool
    ensures neither { result ≡ false → (a ≡ false) × (b ≡ false) }
    ensures some { result ≡ true → (a ≡ true) ⊎ (b ≡ true) }
{
    a || b
}

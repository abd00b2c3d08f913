//! Takes the steps of a script on a bench.
ghost use Rattle.std.specs.Prelude.{◌≡◌, ◌<◌, ◌≤◌, ◌++◌, ℕ, None, length, All, IfOk, OnOk, OnErr};
ghost use Rattle.walter_base.specs.Vectors.{most_sites};
ghost use Rattle.walter_scenario.specs.Parts.{IsArm, IsStep};
ghost use Rattle.walter_scenario.specs.declared.scenario.Client.{Client};
ghost use Rattle.walter_cluster.specs.Benches.{Keeps, IsOf, IsToldAt, AreAllConnected, AreMet};
ghost use Rattle.walter_cluster.specs.Moments.{KeepsArms, moment_of};
ghost use Rattle.walter_cluster.specs.Pumps.{ArePumps};
ghost use Rattle.walter_play.specs.Scripts.{ArmsMore, EndsPlay, Plays, Takes, TakesPlain, all_steps, arms_of, scene_of, site_pumped};

use std::alloc::Global;
use walter_base::Mem;
use walter_cluster::{Bench, make_pumps};
use walter_disk::Disk;
use walter_link::Pump;
use walter_scenario::{Arm, Scenario, Step};
use walter_stream::{BytesSource, NullSink};

/// Arms the disks as the scenario says, and takes its steps in order. Where memory runs out, what was done so far stands.
pub fn play<D: Disk + Drop>(
    alloc: Global,
    bench: &mut Bench<D, BytesSource, NullSink>,
    scenario: &Scenario,
) -> Mem<()>
    requires of { IsOf scenario.now bench.old }
    requires within { All (λ (client : Client). client.site.0 < scenario.now.catalog.sites) scenario.now.clients }
    requires connected { AreAllConnected scenario.now bench.old }
    requires met { AreMet bench.old }
    requires arms { All (IsArm scenario.now.catalog.sites) scenario.now.arms }
    requires steps { All (IsStep scenario.now.catalog.sites (length scenario.now.clients)) scenario.now.steps }
    ensures keeps { Keeps D.Disk bench.old bench.new }
    // By the script; of a site whose disk tells what it holds also what it drops, and what is next there.
    ensures played { OnOk result (EndsPlay (λ i. IsToldAt D.Disk i bench.old) scenario.now
        (moment_of D.Disk bench.old.cells) (moment_of D.Disk bench.new.cells)) }
    // Where memory runs out, the disks are armed by the first steps.
    ensures arms { ArmsMore (moment_of D.Disk bench.old.cells) (moment_of D.Disk bench.new.cells)
        (scenario.now.arms ++ arms_of scenario.now.steps) }
{
    let mut pumps = make_pumps(alloc, scenario)?;
    play_on(alloc, bench, &mut pumps, scenario)
}

// Arms the disks and takes the steps, with these pumps.
fn play_on<D: Disk + Drop>(
    alloc: Global,
    bench: &mut Bench<D, BytesSource, NullSink>,
    pumps: &mut [Pump],
    scenario: &Scenario,
) -> Mem<()>
    requires of { IsOf scenario.now bench.old }
    requires within { All (λ (client : Client). client.site.0 < scenario.now.catalog.sites) scenario.now.clients }
    requires connected { AreAllConnected scenario.now bench.old }
    requires met { AreMet bench.old }
    requires pumps { ArePumps bench.old.cells pumps.old }
    requires arms { All (IsArm scenario.now.catalog.sites) scenario.now.arms }
    requires steps { All (IsStep scenario.now.catalog.sites (length scenario.now.clients)) scenario.now.steps }
    ensures keeps { Keeps D.Disk bench.old bench.new }
    ensures played { OnOk result (Plays (λ i. IsToldAt D.Disk i bench.old) scenario.now (all_steps scenario.now)
        (scene_of D.Disk bench.old.cells pumps.old) (scene_of D.Disk bench.new.cells pumps.new)) }
    ensures arms { ArmsMore (moment_of D.Disk bench.old.cells) (moment_of D.Disk bench.new.cells)
        (scenario.now.arms ++ arms_of scenario.now.steps) }
{
    for arm in scenario.arms.as_slice() {
        bench.arm(arm.site, arm.nth, arm.choice)?;
    }
    for step in scenario.steps.as_slice() {
        take_step(alloc, bench, pumps, scenario, *step)?;
    }
    Ok(())
}

// Takes a step.
fn take_step<D: Disk + Drop>(
    alloc: Global,
    bench: &mut Bench<D, BytesSource, NullSink>,
    pumps: &mut [Pump],
    scenario: &Scenario,
    step: Step,
) -> Mem<()>
    requires of { IsOf scenario.now bench.old }
    requires within { All (λ (client : Client). client.site.0 < scenario.now.catalog.sites) scenario.now.clients }
    requires connected { AreAllConnected scenario.now bench.old }
    requires met { AreMet bench.old }
    requires pumps { ArePumps bench.old.cells pumps.old }
    requires there { IsStep scenario.now.catalog.sites (length scenario.now.clients) step }
    ensures keeps { Keeps D.Disk bench.old bench.new }
    ensures pumps { ArePumps bench.new.cells pumps.new }
    ensures took { OnOk result (Takes (λ i. IsToldAt D.Disk i bench.old) scenario.now step
        (scene_of D.Disk bench.old.cells pumps.old) (scene_of D.Disk bench.new.cells pumps.new)) }
    ensures arms { OnErr result (KeepsArms (moment_of D.Disk bench.old.cells) (moment_of D.Disk bench.new.cells)) }
{
    match step {
        Step::Pump(site) => {
            bench.pump(alloc, site, &mut pumps[usize::from(site.0)])?;
            Ok(())
        }
        step => take_plain(alloc, bench, scenario, step),
    }
}

// Takes a step that isn't a pump.
fn take_plain<D: Disk + Drop>(
    alloc: Global,
    bench: &mut Bench<D, BytesSource, NullSink>,
    scenario: &Scenario,
    step: Step,
) -> Mem<()>
    requires of { IsOf scenario.now bench.old }
    requires within { All (λ (client : Client). client.site.0 < scenario.now.catalog.sites) scenario.now.clients }
    requires connected { AreAllConnected scenario.now bench.old }
    requires met { AreMet bench.old }
    requires there { IsStep scenario.now.catalog.sites (length scenario.now.clients) step }
    requires plain { site_pumped step ≡ None }
    ensures keeps { Keeps D.Disk bench.old bench.new }
    ensures took { OnOk result (TakesPlain (λ i. IsToldAt D.Disk i bench.old) scenario.now step
        (moment_of D.Disk bench.old.cells) (moment_of D.Disk bench.new.cells)) }
    ensures arms { OnErr result (KeepsArms (moment_of D.Disk bench.old.cells) (moment_of D.Disk bench.new.cells)) }
{
    match step {
        Step::Call(client) => {
            bench.turn(alloc, client)?;
        }
        Step::Deliver { to, from, number } => {
            bench.deliver(alloc, to, from, number)?;
        }
        Step::Advance { at, from } => {
            bench.advance(at, from)?;
        }
        Step::Tick(site) => {
            bench.tick(site)?;
        }
        Step::Upgrade(site) => {
            bench.upgrade(site)?;
        }
        Step::Stop(site) => {
            bench.stop(site)?;
        }
        Step::Restart(site) => {
            bench.restart(site)?;
        }
        Step::Arm(Arm { site, nth, choice }) => bench.arm(site, nth, choice)?,
        Step::Pump(_) => unreachable!(),
    }
    Ok(())
}

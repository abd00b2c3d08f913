//! Runs at random of two to four sites, by schedules.
use crate::playing::{Run, legal_history, play};
use crate::worlds::is_same_in_a_world;
use anyhow::{Result, bail};
use std::sync::Wait;
use std::thread::Threads;
use walter_base::Cause;
use walter_psi::Step;
use walter_schedules::Schedule;
use walter_trail::Trail;

/// A schedule is made in so many blocks. Behind each it is played, and the next goes by the packets that there are then.
const BLOCKS: u32 = 3;

/// Behind so many rounds in which all comes, each commit has come to each site.
const ROUNDS: u32 = 12;

// A scenario, and the trails that it comes to.
#[derive(Drop)]
struct Played {
    scenario: String,
    trails: Vec<Trail>,
}

// What a schedule comes to that ends here.
fn play_so_far(
    rt: &(impl AllocGlobal + Threads + Wait + Sync),
    schedule: &mut Schedule,
) -> Result<Played> {
    let scenario = schedule.scenario()?;
    let Run { trails, .. } = play(rt, false, &scenario)?;
    schedule.count_all(&trails);
    Ok(Played { scenario, trails })
}

// What a schedule comes to behind all its blocks.
fn play_blocks(
    rt: &(impl AllocGlobal + Threads + Wait + Sync),
    schedule: &mut Schedule,
) -> Result<Played> {
    for _ in 1..BLOCKS {
        schedule.block()?;
        let _ = play_so_far(rt, schedule)?;
    }
    schedule.block()?;
    play_so_far(rt, schedule)
}

/// What runs at random met.
#[derive(Clone, Copy, Debug)]
struct Met {
    /// How many transactions were committed.
    commits: usize,
    /// How many commits came to another site.
    arrivals: usize,
    /// How many were aborted over a lock.
    locked: usize,
    /// How many runs came to the same at sites without disks.
    same: usize,
}

impl Met {
    fn nothing() -> Met {
        Met {
            commits: 0,
            arrivals: 0,
            locked: 0,
            same: 0,
        }
    }

    fn count_all(&mut self, history: &[Step]) {
        for step in history {
            self.count(step);
        }
    }

    fn count(&mut self, step: &Step) {
        match step {
            Step::Commit(_, _) => self.commits = self.commits.saturating_add(1),
            Step::Arrive(_, _) => self.arrivals = self.arrivals.saturating_add(1),
            Step::Abort(_, Cause::Locked { .. }) => self.locked = self.locked.saturating_add(1),
            _ => {}
        }
    }

    fn play(&mut self, rt: &(impl AllocGlobal + Threads + Wait + Sync), seed: u64) -> Result<()> {
        let mut schedule = Schedule::new(rt.alloc(), seed)?;
        let Played { scenario, trails } = play_blocks(rt, &mut schedule)?;
        if is_same_in_a_world(rt.alloc(), &scenario, &trails)? {
            self.same = self.same.saturating_add(1);
        }
        self.count_all(legal_history(rt.alloc(), &trails)?.as_slice());
        Ok(())
    }
}

/// Plays so many runs at random, each of which spells a legal history.
pub(crate) fn play_at_random(
    rt: &(impl AllocGlobal + Threads + Wait + Sync),
    runs: u64,
) -> Result<String> {
    let mut met = Met::nothing();
    for seed in 0..runs {
        met.play(rt, seed)?;
    }
    if met.arrivals <= 100 || met.locked <= 20 || met.same <= 100 {
        bail!("few of {met:?}");
    }
    Ok(format!(in rt.alloc(); "{runs} runs are legal")?)
}

// Plays a schedule, and rounds behind it in which all comes: then each commit has come to each site.
fn spread(rt: &(impl AllocGlobal + Threads + Wait + Sync), seed: u64) -> Result<()> {
    let mut schedule = Schedule::new(rt.alloc(), seed)?;
    let mut last = play_blocks(rt, &mut schedule)?;
    for _ in 0..ROUNDS {
        schedule.round()?;
        last = play_so_far(rt, &mut schedule)?;
    }
    let mut met = Met::nothing();
    met.count_all(legal_history(rt.alloc(), &last.trails)?.as_slice());
    let others = schedule.sites() as usize - 1;
    if met.commits == 0 || met.commits.wrapping_mul(others) != met.arrivals {
        bail!("not all commits are everywhere: {met:?}");
    }
    Ok(())
}

/// Plays so many runs at random, behind each of which all commits come to all sites.
pub(crate) fn spread_all(
    rt: &(impl AllocGlobal + Threads + Wait + Sync),
    runs: u64,
) -> Result<String> {
    for seed in 0..runs {
        spread(rt, seed)?;
    }
    Ok(format!(in rt.alloc(); "in {runs} runs each commit comes to each site")?)
}

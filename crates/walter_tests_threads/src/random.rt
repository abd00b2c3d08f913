//! Runs of scenarios that are made at random.
use crate::running::run;
use anyhow::{Result, bail};
use std::sync::Wait;
use std::thread::Threads;
use walter_schedules::scenario_of;

/// Runs so many scenarios.
pub(crate) fn run_at_random(
    rt: &(impl AllocGlobal + Threads + Wait + Sync),
    runs: u64,
) -> Result<()> {
    for seed in 0..runs {
        if let Err(wrong) = run(rt, &scenario_of(rt.alloc(), seed)?) {
            bail!("the scenario of {seed}: {wrong}");
        }
    }
    Ok(())
}

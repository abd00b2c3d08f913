//! Logs and snapshots, computed anew.
ghost use Rattle.std.specs.Prelude.{◌≡◌, ◌↔◌, IsTrue, Contains, IfOk, option_to_list};
ghost use Rattle.walter_psi.specs.Histories.{log, logged, commits, commit_of, starts, before_start, snapshot};

use super::marks::is_start_of;
use crate::step::Step;
use std::alloc::Global;
use walter_base::{Mem, SiteId, Tid};

/// Whether the transaction is one of these.
pub(super) fn is_among(transactions: &[Tid], x: Tid) -> bool
    ensures { IsTrue result ↔ Contains transactions.now x }
{
    transactions.iter().any(|y| *y == x)
}

// The transaction that the step makes stand in the log of the site.
fn logged_at(step: &Step, site: SiteId) -> Option<Tid>
    ensures { option_to_list result ≡ logged site step.now }
{
    match step {
        Step::Commit(x, _) if x.site == site => Some(*x),
        Step::Arrive(x, at) if *at == site => Some(*x),
        _ => None,
    }
}

// The transaction of the site that the step commits.
fn committed_at(step: &Step, site: SiteId) -> Option<Tid>
    ensures { option_to_list result ≡ commit_of site step.now }
{
    match step {
        Step::Commit(x, _) if x.site == site => Some(*x),
        _ => None,
    }
}

/// The log of a site after the steps.
pub(super) fn log_of(alloc: Global, steps: &[Step], site: SiteId) -> Mem<Vec<Tid>>
    ensures { IfOk result (λ found. found.items ≡ log site steps.now) }
{
    let mut found = Vec::new(alloc);
    for step in steps {
        if let Some(x) = logged_at(step, site) {
            found.push(x)?;
        }
    }
    Ok(found)
}

/// The transactions of a site that the steps commit, in order.
pub(super) fn commits_of(alloc: Global, steps: &[Step], site: SiteId) -> Mem<Vec<Tid>>
    ensures { IfOk result (λ found. found.items ≡ commits site steps.now) }
{
    let mut found = Vec::new(alloc);
    for step in steps {
        if let Some(x) = committed_at(step, site) {
            found.push(x)?;
        }
    }
    Ok(found)
}

// The steps before the transaction's start; all of them, where it hasn't started.
fn steps_before_start(steps: &[Step], x: Tid) -> &[Step]
    ensures { result.now ≡ before_start x steps.now }
{
    for (place, step) in steps.iter().enumerate() {
        if is_start_of(step, x) {
            return &steps[..place];
        }
    }
    steps
}

/// The log of the transaction's site when it started.
pub(super) fn snapshot_of(alloc: Global, steps: &[Step], x: Tid) -> Mem<Vec<Tid>>
    ensures { IfOk result (λ found. found.items ≡ snapshot x steps.now) }
{
    log_of(alloc, steps_before_start(steps, x), x.site)
}

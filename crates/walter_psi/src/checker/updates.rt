//! What transactions have done and committed, and what reads see.
ghost use Rattle.std.specs.Prelude.{◌≡◌, ◌++◌, IfOk, OnOk, flat_map, option_to_list, option_copied};
ghost use Rattle.walter_psi.specs.Histories.{own_updates, done, committed_updates, given, seen_updates};

use super::logs::snapshot_of;
use crate::step::Step;
use std::alloc::Global;
use walter_base::{Mem, Tid, Update};

// Puts copies of the updates behind those that are there.
fn extend(updates: &mut Vec<Update>, more: &[Update]) -> Mem<()>
    ensures { OnOk result (updates.new.items ≡ updates.old.items ++ more.now) }
{
    for update in more {
        updates.push(update.clone()?)?;
    }
    Ok(())
}

// The update that the step does for the transaction.
fn done_in(step: &Step, x: Tid) -> Option<&Update>
    ensures { option_to_list (option_copied result) ≡ done x step.now }
{
    match step {
        Step::Op(y, update) if *y == x => Some(update),
        _ => None,
    }
}

// The updates that the step commits for the transaction.
fn given_in(step: &Step, x: Tid) -> &[Update]
    ensures { result.now ≡ given x step.now }
{
    match step {
        Step::Commit(y, updates) if *y == x => updates.as_slice(),
        _ => &[],
    }
}

/// What the transaction has done, in order.
pub(super) fn own_updates_of(alloc: Global, steps: &[Step], x: Tid) -> Mem<Vec<Update>>
    ensures { IfOk result (λ found. found.items ≡ own_updates x steps.now) }
{
    let mut found = Vec::new(alloc);
    for step in steps {
        if let Some(update) = done_in(step, x) {
            found.push(update.clone()?)?;
        }
    }
    Ok(found)
}

// Puts what the transaction has committed behind the updates that are there.
fn extend_committed(updates: &mut Vec<Update>, steps: &[Step], x: Tid) -> Mem<()>
    ensures { OnOk result (updates.new.items ≡ updates.old.items ++ committed_updates steps.now x) }
{
    for step in steps {
        extend(updates, given_in(step, x))?;
    }
    Ok(())
}

/// What the transaction has committed.
pub(super) fn committed_updates_of(alloc: Global, steps: &[Step], x: Tid) -> Mem<Vec<Update>>
    ensures { IfOk result (λ found. found.items ≡ committed_updates steps.now x) }
{
    let mut found = Vec::new(alloc);
    extend_committed(&mut found, steps, x)?;
    Ok(found)
}

// What these transactions have committed, one behind the other.
fn committed_by(alloc: Global, steps: &[Step], transactions: &[Tid]) -> Mem<Vec<Update>>
    ensures { IfOk result (λ found. found.items ≡ flat_map (committed_updates steps.now) transactions.now) }
{
    let mut found = Vec::new(alloc);
    for x in transactions {
        extend_committed(&mut found, steps, *x)?;
    }
    Ok(found)
}

/// What a read of the transaction sees: the updates of its snapshot in order, followed by its own.
pub(super) fn seen_updates_of(alloc: Global, steps: &[Step], x: Tid) -> Mem<Vec<Update>>
    ensures { IfOk result (λ found. found.items ≡ seen_updates x steps.now) }
{
    let snapshot = snapshot_of(alloc, steps, x)?;
    let mut found = committed_by(alloc, steps, &snapshot)?;
    let own = own_updates_of(alloc, steps, x)?;
    extend(&mut found, &own)?;
    Ok(found)
}

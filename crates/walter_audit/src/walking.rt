//! The order in which the items of all sites are taken: again and again the next one of the least site that can go on.
ghost use Rattle.std.specs.Prelude.{◌≡◌, ◌<◌, ◌≤◌, ◌↔◌, ◌||◌, ℕ, IfSome, IfNone, IfOk, OnOk, Some, IsTrue, length, slice_get};
ghost use Rattle.std.specs.HashSet.{contains};
ghost use Rattle.walter_audit.specs.Walks.{same_version, is_commit_of, can_go, GoesOn, IsNext, AreStuck, IsWalk, IsLeft, NoneIsLeft};
ghost use Rattle.walter_base.specs.declared.names.Version.{Version as Commit};
ghost use Rattle.walter_base.specs.Vectors.{most_sites};

use crate::item::{Item, Queue};
use std::alloc::Global;
use std::collections::HashSet;
use walter_base::{Mem, SiteId, Version};

/// The items of all sites in the order in which they are taken, and how many of each site were.
#[derive(Debug, Drop)]
pub struct Walk {
    pub order: Vec<(SiteId, Item)>,
    pub cursors: Vec<usize>,
}

/// Whether the item can go on, where these commits were taken: an arrival waits for its commit.
fn can_go(item: &Item, taken: &HashSet<Version>) -> bool
    ensures { result ≡ can_go (contains same_version taken.now) item.now }
{
    match item {
        Item::Arrives(_, from, seq) => taken.contains(&Version {
            site: *from,
            seq: *seq,
        }),
        _ => true,
    }
}

/// Keeps the commit of an item of the site.
fn note_commit(taken: &mut HashSet<Version>, site: SiteId, item: &Item) -> Mem<()>
    ensures { OnOk result ((v : Commit) → contains same_version taken.new v
        ≡ (is_commit_of site item.now v || contains same_version taken.old v)) }
{
    if let Item::Commits(_, seq, _) = item {
        taken.insert(Version { site, seq: *seq })?;
    }
    Ok(())
}

/// The item at this place of a site's, where it can go on.
fn next_of(queue: &Queue, cursor: usize, taken: &HashSet<Version>) -> Mem<Option<Item>>
    ensures some { IfOk result (λ found. IfSome found (λ item.
        (slice_get queue.now cursor ≡ Some item) × IsTrue (can_go (contains same_version taken.now) item))) }
    ensures none { IfOk result (λ found. IfNone found
        (¬ GoesOn (contains same_version taken.now) (slice_get queue.now cursor))) }
{
    match queue.get(cursor) {
        Some(item) => {
            if can_go(item, taken) {
                Ok(Some(item.clone()?))
            } else {
                Ok(None)
            }
        }
        None => Ok(None),
    }
}

/// The next item of the least site that can go on.
fn next_item(
    queues: &[Queue],
    cursors: &[usize],
    taken: &HashSet<Version>,
) -> Mem<Option<(usize, Item)>>
    requires { length cursors.now ≡ length queues.now }
    ensures some { IfOk result (λ found. IfSome found (λ (n, item).
        IsNext (contains same_version taken.now) queues.now cursors.now n item)) }
    ensures none { IfOk result (λ found. IfNone found
        (AreStuck (contains same_version taken.now) queues.now cursors.now)) }
{
    for site in 0..queues.len() {
        if let Some(item) = next_of(&queues[site], cursors[site], taken)? {
            return Ok(Some((site, item)));
        }
    }
    Ok(None)
}

/// Takes the items of all sites, as far as they can go on.
pub fn take_items(alloc: Global, queues: &[Queue]) -> Mem<Walk>
    requires { length queues.now ≤ most_sites }
    ensures { IfOk result (λ walk. IsWalk queues.now walk.order.items walk.cursors.items) }
{
    let mut taken = HashSet::new(alloc);
    let mut order = Vec::new(alloc);
    let mut cursors = vec![in alloc; 0; queues.len()]?;
    while let Some((n, item)) = next_item(queues, &cursors, &taken)? {
        let site = SiteId(n as u8);
        note_commit(&mut taken, site, &item)?;
        order.push((site, item))?;
        cursors[n] += 1;
    }
    Ok(Walk { order, cursors })
}

/// The next item of the least site of which something is left.
pub fn first_left(queues: &[Queue], cursors: &[usize]) -> Mem<Option<(usize, Item)>>
    requires { length cursors.now ≡ length queues.now }
    ensures some { IfOk result (λ found. IfSome found (λ (n, item). IsLeft queues.now cursors.now n item)) }
    ensures none { IfOk result (λ found. IfNone found (NoneIsLeft queues.now cursors.now)) }
{
    for site in 0..queues.len() {
        if let Some(item) = queues[site].get(cursors[site]) {
            return Ok(Some((site, item.clone()?)));
        }
    }
    Ok(None)
}

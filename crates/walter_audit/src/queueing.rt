//! Which items a site has, and in which order.
ghost use Rattle.std.specs.Prelude.{◌≡◌, ◌+◌, ◌<◌, ◌≤◌, ◌++◌, ◌∷◌, [], ℕ, List, nat_eq, IfSome, IfNone, IfOk, OnOk, Some, filter_map, length, if◌then◌else◌};
ghost use Rattle.walter_audit.specs.Journals.{AreAmong};
ghost use Rattle.walter_audit.specs.Orders.{start_behind, item_of, items};
ghost use Rattle.walter_audit.specs.Queues.{IsFrontOf, StandsAt, IsStartAt, list_at, joined};
ghost use Rattle.walter_audit.specs.Starts.{AreFronts, AreRising};
ghost use Rattle.walter_base.specs.Vectors.{most_sites};

use crate::item::{Item, Queue};
use crate::starting::{first_covering, fronts_of};
use std::alloc::Global;
use walter_base::{Catalog, Mem, Record, SiteId, Vts};

/// The place of the shortest front whose counts are the start.
fn front_of(fronts: &[Vts], start: &Vts) -> Option<usize>
    requires { AreRising fronts.now }
    ensures some { IfSome result (IsFrontOf fronts.now start.now) }
    ensures none { IfNone result ((p : ℕ) → ¬ IsFrontOf fronts.now start.now p) }
{
    let first = first_covering(fronts, start);
    match fronts.get(first) {
        Some(front) => {
            if start.covers(front.as_slice()) {
                Some(first)
            } else {
                None
            }
        }
        None => None,
    }
}

/// The start of the transaction of an own commit, with the place of the front that it stands behind.
fn start_of(fronts: &[Vts], journaled: &Record) -> Mem<Option<(usize, Item)>>
    requires { AreRising fronts.now }
    ensures some { IfOk result (λ found. IfSome found (λ (p, item). IsStartAt fronts.now journaled.now p item)) }
    ensures none { IfOk result (λ found. IfNone found ((p : ℕ) → ¬ StandsAt fronts.now journaled.now p)) }
{
    let Record::Own(_, tx) = journaled else {
        return Ok(None);
    };
    match front_of(fronts, &tx.start.vector()) {
        Some(place) => Ok(Some((place, Item::Starts(place as u64, tx.clone()?)))),
        None => Ok(None),
    }
}

/// No start behind any of so many fronts.
fn no_starts(alloc: Global, many: usize) -> Mem<Vec<Vec<Item>>>
    ensures many { IfOk result (λ starts. length starts.items ≡ many) }
    ensures none { IfOk result (λ starts. (p : ℕ) → list_at starts.items p ≡ []) }
{
    let mut starts = Vec::new(alloc);
    for _front in 0..many {
        starts.push(Vec::new(alloc))?;
    }
    Ok(starts)
}

/// Puts a start behind those of its front.
fn put_start(starts: &mut Vec<Vec<Item>>, place: usize, item: Item) -> Mem<()>
    requires { place < length starts.old.items }
    ensures many { length starts.new.items ≡ length starts.old.items }
    ensures put { OnOk result ((p : ℕ) → list_at starts.new.items p
        ≡ (if nat_eq place p then list_at starts.old.items place ++ item ∷ [] else list_at starts.old.items p)) }
{
    let Some(list) = starts.get_mut(place) else {
        return Ok(());
    };
    list.push(item)?;
    Ok(())
}

/// The starts behind each front, in the order of their commits.
fn starts_of(
    alloc: Global,
    catalog: &Catalog,
    site: SiteId,
    fronts: &[Vts],
    records: &[Record],
) -> Mem<Vec<Vec<Item>>>
    requires fronts { AreFronts catalog.now.sites site records.now fronts.now }
    requires among { AreAmong catalog.now.sites records.now }
    ensures many { IfOk result (λ starts. length starts.items ≡ length records.now + 1) }
    ensures each { IfOk result (λ starts. (p : ℕ) → p ≤ length records.now
        → list_at starts.items p ≡ filter_map (start_behind catalog.now site records.now p) records.now) }
{
    let mut starts = no_starts(alloc, fronts.len())?;
    for journaled in records {
        if let Some((place, item)) = start_of(fronts, journaled)? {
            put_start(&mut starts, place, item)?;
        }
    }
    Ok(starts)
}

/// Puts copies of these items behind others.
fn append_copies(all: &mut Vec<Item>, more: &[Item]) -> Mem<()>
    ensures { OnOk result (all.new.items ≡ all.old.items ++ more.now) }
{
    for item in more {
        all.push(item.clone()?)?;
    }
    Ok(())
}

/// Puts the item of the record at this place behind others, if it has one.
fn append_item(all: &mut Vec<Item>, place: u64, journaled: &Record) -> Mem<()>
    ensures { OnOk result (all.new.items ≡ all.old.items ++ item_of place (Some journaled.now)) }
{
    match journaled {
        Record::Own(seq, tx) => all.push(Item::Commits(place, *seq, tx.clone()?))?,
        Record::Seen(from, seq) => all.push(Item::Arrives(place, *from, *seq))?,
        _ => {}
    }
    Ok(())
}

/// Behind each front its starts, and then the item of the next record.
fn join_items(alloc: Global, starts: &[Vec<Item>], records: &[Record]) -> Mem<Queue>
    requires { length starts.now ≡ length records.now + 1 }
    ensures { IfOk result (λ queue. queue ≡ joined starts.now records.now (length records.now + 1)) }
{
    let mut all = Vec::new(alloc);
    for place in 0..records.len() {
        append_copies(&mut all, &starts[place])?;
        append_item(&mut all, place as u64, &records[place])?;
    }
    append_copies(&mut all, &starts[records.len()])?;
    Ok(Queue::of(all))
}

/// The items of a site.
pub fn queue_of(alloc: Global, catalog: &Catalog, site: SiteId, records: &[Record]) -> Mem<Queue>
    requires most { catalog.now.sites ≤ most_sites }
    requires among { AreAmong catalog.now.sites records.now }
    ensures { IfOk result (λ queue. queue ≡ items catalog.now site records.now) }
{
    let fronts = fronts_of(alloc, catalog.sites, site, records)?;
    let starts = starts_of(alloc, catalog, site, &fronts, records)?;
    join_items(alloc, &starts, records)
}

//! What a list of updates makes of an object, and whether an answer says so.
ghost use Rattle.std.specs.Prelude.{◌≡◌, ◌≢◌, ◌↔◌, ◌<◌, ◌-ℤ◌, pos, IsTrue, Contains, All, AllPairs, Some, Option, IfOk, flat_map, option_copied, option_to_list};
ghost use Rattle.walter_base.specs.Values.{value_of, held_after, count_of, adds, takes, AreCounts};
ghost use Rattle.walter_psi.specs.Legal.{IsAnswer};
ghost use Rattle.walter_base.specs.Counting.{IsCountOf, IsListed, HasId};
ghost use Rattle.walter_base.specs.Values.{ids_named};

use crate::step::Answer;
use std::alloc::Global;
use walter_base::{Mem, ObjId, SharedBytes, Update};

// What the object holds after an update, that held this before.
fn value_behind<'a>(
    held: Option<&'a SharedBytes>,
    update: &'a Update,
    oid: ObjId,
) -> Option<&'a SharedBytes>
    ensures { option_copied result ≡ held_after oid (option_copied held.entry) update.now }
{
    match update {
        Update::Write(at, bytes) if *at == oid => Some(bytes),
        _ => held,
    }
}

// The last value written to the object.
#[tactic(auto, using(crate::proofs::CheckerLists::value_more))]
fn last_value(updates: &[Update], oid: ObjId) -> Option<&SharedBytes>
    ensures { option_copied result ≡ value_of oid updates.now }
{
    let mut held = None;
    for update in updates {
        held = value_behind(held, update, oid);
    }
    held
}

fn is_value(updates: &[Update], oid: ObjId, value: &Option<SharedBytes>) -> bool
    ensures { IsTrue result ↔ (value.now ≡ value_of oid updates.now) }
{
    match (value, last_value(updates, oid)) {
        (None, None) => true,
        (Some(bytes), Some(last)) => bytes.as_slice() == last.as_slice(),
        _ => false,
    }
}

fn is_add(update: &Update, oid: ObjId, id: u64) -> bool
    ensures { result ≡ adds oid id update.now }
{
    matches!(update, Update::Add(at, name) if *at == oid && *name == id)
}

fn is_del(update: &Update, oid: ObjId, id: u64) -> bool
    ensures { result ≡ takes oid id update.now }
{
    matches!(update, Update::Del(at, name) if *at == oid && *name == id)
}

fn difference(added: usize, taken: usize) -> i128
    ensures { result ≡ pos added -ℤ pos taken }
{
    added as i128 - taken as i128
}

// How often the id was added, less how often it was taken away.
fn count_in(updates: &[Update], oid: ObjId, id: u64) -> i128
    ensures { result ≡ count_of oid id updates.now }
{
    let added = updates
        .iter()
        .filter(|update| is_add(update, oid, id))
        .count();
    let taken = updates
        .iter()
        .filter(|update| is_del(update, oid, id))
        .count();
    difference(added, taken)
}

fn is_below_all(id: u64, counts: &[(u64, i64)]) -> bool
    ensures { IsTrue result ↔ All (λ count. id < count.0) counts.now }
{
    counts.iter().all(|count| id < count.0)
}

fn are_rising(counts: &[(u64, i64)]) -> bool
    ensures { IsTrue result ↔ AllPairs (λ a b. a.0 < b.0) counts.now }
{
    for (place, count) in counts.iter().enumerate() {
        if !is_below_all(count.0, &counts[place + 1..]) {
            return false;
        }
    }
    true
}

fn is_count(updates: &[Update], oid: ObjId, count: &(u64, i64)) -> bool
    ensures { IsTrue result ↔ IsCountOf oid updates.now count.now }
{
    count.1 != 0 && count_in(updates, oid, count.0) == i128::from(count.1)
}

// Whether each entry is the count of its id, and none is 0.
fn are_true(updates: &[Update], oid: ObjId, counts: &[(u64, i64)]) -> bool
    ensures { IsTrue result ↔ All (IsCountOf oid updates.now) counts.now }
{
    for count in counts {
        if !is_count(updates, oid, count) {
            return false;
        }
    }
    true
}

fn has_id(counts: &[(u64, i64)], id: u64) -> bool
    ensures { IsTrue result ↔ HasId id counts.now }
{
    counts.iter().any(|count| count.0 == id)
}

// The id of the set that the update names.
fn id_named(update: &Update, oid: ObjId) -> Option<u64>
    ensures { option_to_list result ≡ ids_named oid update.now }
{
    match update {
        Update::Add(at, id) | Update::Del(at, id) if *at == oid => Some(*id),
        _ => None,
    }
}

// The ids of the set that the updates name, each as often as they do.
fn ids_in(alloc: Global, updates: &[Update], oid: ObjId) -> Mem<Vec<u64>>
    ensures { IfOk result (λ ids. ids.items ≡ flat_map (ids_named oid) updates.now) }
{
    let mut ids = Vec::new(alloc);
    for update in updates {
        if let Some(id) = id_named(update, oid) {
            ids.push(id)?;
        }
    }
    Ok(ids)
}

fn is_listed(updates: &[Update], oid: ObjId, counts: &[(u64, i64)], id: u64) -> bool
    ensures { IsTrue result ↔ IsListed oid updates.now counts.now id }
{
    count_in(updates, oid, id) == 0 || has_id(counts, id)
}

// Whether each of the ids has its entry, if its count isn't 0.
fn are_listed(updates: &[Update], oid: ObjId, counts: &[(u64, i64)], ids: &[u64]) -> bool
    ensures { IsTrue result ↔ All (IsListed oid updates.now counts.now) ids.now }
{
    for id in ids {
        if !is_listed(updates, oid, counts, *id) {
            return false;
        }
    }
    true
}

// Whether the counts are those of the set after the updates.
fn are_counts(alloc: Global, updates: &[Update], oid: ObjId, counts: &[(u64, i64)]) -> Mem<bool>
    ensures { IfOk result (λ are. IsTrue are ↔ AreCounts oid updates.now counts.now) }
{
    if !are_rising(counts) {
        return Ok(false);
    }
    if !are_true(updates, oid, counts) {
        return Ok(false);
    }
    let ids = ids_in(alloc, updates, oid)?;
    let listed = are_listed(updates, oid, counts, &ids);
    Ok(listed)
}

/// Whether the answer is that of the object after the updates.
pub(super) fn is_answer(alloc: Global, updates: &[Update], oid: ObjId, answer: &Answer) -> Mem<bool>
    ensures { IfOk result (λ is. IsTrue is ↔ IsAnswer oid updates.now answer.now) }
{
    match answer {
        Answer::Value(value) => Ok(is_value(updates, oid, value)),
        Answer::Counts(counts) => are_counts(alloc, updates, oid, counts.as_slice()),
        Answer::Count(id, count) => Ok(count_in(updates, oid, *id) == i128::from(*count)),
    }
}

//! A count for each id that was named so far: a tally.
ghost use Rattle.std.specs.Prelude.{◌≡◌, ◌^◌, ◌≤ℤ◌, ◌<ℤ◌, ◌-ℤ◌, ◌+ℤ◌, pos, ℕ, nat_eq, [], ◌∷◌, if◌then◌else◌, IsSome, OnOk, IfOk};
ghost use Rattle.std.specs.BTreeMap.{get};
ghost use Rattle.std.specs.Ordering.{nat_cmp};
ghost use Rattle.walter_base.specs.Values.{count_of};
ghost use Rattle.walter_cset.specs.Tallies.{number_at, CanTally, AreNumbers};

use std::alloc::Global;
use std::collections::BTreeMap;
use walter_base::{Counts, Mem, ObjId, Update};

/// How much the update raises the count of the id: by 1, by -1 or not at all.
pub fn step(update: &Update, oid: ObjId, id: u64) -> i64
    ensures { result ≡ count_of oid id (update.now ∷ []) }
{
    match update {
        Update::Add(at, name) if *at == oid && *name == id => 1,
        Update::Del(at, name) if *at == oid && *name == id => -1,
        _ => 0,
    }
}

/// The number of an id, 0 where it has none.
pub fn number_of(tally: &BTreeMap<u64, i64>, id: u64) -> i64
    ensures { result ≡ number_at tally.now id }
{
    tally.get(&id).copied().unwrap_or(0)
}

/// Gives the id a place, with the number 0 where it has none.
pub fn open_number(tally: &mut BTreeMap<u64, i64>, id: u64) -> Mem<()>
    ensures numbers { (other : ℕ) → number_at tally.new other ≡ number_at tally.old other }
    ensures place { OnOk result (IsSome (get nat_cmp tally.new id)) }
    ensures still { (other : ℕ) → IsSome (get nat_cmp tally.old other) → IsSome (get nat_cmp tally.new other) }
{
    if !tally.contains_key(&id) {
        tally.insert(id, 0)?;
    }
    Ok(())
}

/// Moves the number of an id that has a place, without taking memory.
pub fn move_number(tally: &mut BTreeMap<u64, i64>, id: u64, by: i64)
    requires place { IsSome (get nat_cmp tally.old id) }
    requires low { (pos 0 -ℤ pos (2 ^ 63)) ≤ℤ (number_at tally.old id +ℤ by) }
    requires high { (number_at tally.old id +ℤ by) <ℤ pos (2 ^ 63) }
    ensures moved { (other : ℕ) → number_at tally.new other
        ≡ number_at tally.old other +ℤ (if nat_eq id other then by else pos 0) }
    ensures still { (other : ℕ) → IsSome (get nat_cmp tally.old other) → IsSome (get nat_cmp tally.new other) }
{
    let Some(number) = tally.get_mut(&id) else {
        return;
    };
    *number += by;
}

/// Drops the place of an id of which the number is 0.
pub fn close_number(tally: &mut BTreeMap<u64, i64>, id: u64)
    ensures { (other : ℕ) → number_at tally.new other ≡ number_at tally.old other }
{
    if number_of(tally, id) == 0 {
        tally.remove(&id);
    }
}

/// Raises the count of one id.
fn raise(tally: &mut BTreeMap<u64, i64>, id: u64, by: i64) -> Mem<()>
    requires low { (pos 0 -ℤ pos (2 ^ 63)) ≤ℤ (number_at tally.old id +ℤ by) }
    requires high { (number_at tally.old id +ℤ by) <ℤ pos (2 ^ 63) }
    ensures { OnOk result ((other : ℕ) → number_at tally.new other
        ≡ number_at tally.old other +ℤ (if nat_eq id other then by else pos 0)) }
{
    if tally.contains_key(&id) {
        move_number(tally, id, by);
        return Ok(());
    }
    tally.insert(id, by)?;
    Ok(())
}

/// Takes the update into the count of its id, and leaves each other one. After want of memory nothing is known of the
/// tally.
pub fn take_in(tally: &mut BTreeMap<u64, i64>, update: &Update, oid: ObjId) -> Mem<()>
    requires { CanTally tally.old }
    ensures { OnOk result ((id : ℕ) → number_at tally.new id
        ≡ number_at tally.old id +ℤ count_of oid id (update.now ∷ [])) }
{
    match update {
        Update::Add(at, id) if *at == oid => raise(tally, *id, 1),
        Update::Del(at, id) if *at == oid => raise(tally, *id, -1),
        _ => Ok(()),
    }
}

/// The same the other way round.
pub fn take_out(tally: &mut BTreeMap<u64, i64>, update: &Update, oid: ObjId) -> Mem<()>
    requires { CanTally tally.old }
    ensures { OnOk result ((id : ℕ) → number_at tally.new id
        ≡ number_at tally.old id -ℤ count_of oid id (update.now ∷ [])) }
{
    match update {
        Update::Add(at, id) if *at == oid => raise(tally, *id, -1),
        Update::Del(at, id) if *at == oid => raise(tally, *id, 1),
        _ => Ok(()),
    }
}

/// The counts other than 0. It goes over each id of the tally, those that came back to 0 too.
pub fn shown(alloc: Global, tally: &BTreeMap<u64, i64>) -> Mem<Counts>
    ensures { IfOk result (AreNumbers (number_at tally.now)) }
{
    let mut items = Vec::new(alloc);
    for (id, number) in tally {
        if *number != 0 {
            items.push((*id, *number))?;
        }
    }
    Ok(Counts::from(items))
}

//! A set's counts, or one of them, after own updates.
ghost use Rattle.std.specs.Prelude.{◌≡◌, ◌<◌, ◌≤◌, ◌^◌, ◌+ℤ◌, ◌-ℤ◌, ◌≤ℤ◌, ℕ, pos, length, OnOk, IfOk};
ghost use Rattle.walter_base.specs.Values.{count_of};
ghost use Rattle.walter_cset.specs.Tallies.{number_at};
ghost use Rattle.walter_cset.specs.Totals.{IsWithin};
ghost use Rattle.walter_overlay.specs.Overlays.{AreLaidOver, IsModest};

use crate::laying::laid;
use std::alloc::Global;
use std::collections::BTreeMap;
use walter_base::{Counts, Mem, ObjId, Update};
use walter_cset::{shown, step, take_in};

/// The counts of a set that had the counts `base` but for the moves, after the updates. It costs what it gives, the
/// moves and the updates.
pub fn counts(
    alloc: Global,
    base: &BTreeMap<u64, i64>,
    moves: &mut BTreeMap<u64, i64>,
    updates: &[Update],
    oid: ObjId,
) -> Mem<Counts>
    requires base { (id : ℕ) → IsWithin (2 ^ 61) (number_at base.now id) }
    requires moves { (id : ℕ) → IsWithin (2 ^ 62) (number_at moves.old id) }
    requires few { length updates.now < 2 ^ 61 }
    ensures { IfOk result (AreLaidOver (λ id. number_at base.now id +ℤ number_at moves.old id) oid updates.now) }
{
    take_own(moves, updates, oid)?;
    let changes = shown(alloc, moves)?;
    laid(alloc, base, changes.as_slice())
}

/// Takes the updates into the moves.
fn take_own(moves: &mut BTreeMap<u64, i64>, updates: &[Update], oid: ObjId) -> Mem<()>
    requires moves { (id : ℕ) → IsWithin (2 ^ 62) (number_at moves.old id) }
    requires few { length updates.now < 2 ^ 61 }
    ensures { OnOk result ((id : ℕ) → number_at moves.new id ≡ number_at moves.old id +ℤ count_of oid id updates.now) }
{
    for update in updates {
        take_in(moves, update, oid)?;
    }
    Ok(())
}

/// The count of an id that had the count `base`, after the updates.
pub fn count(base: i64, updates: &[Update], oid: ObjId, id: u64) -> i64
    requires modest { IsModest base }
    requires few { length updates.now < 2 ^ 61 }
    ensures { result ≡ base +ℤ count_of oid id updates.now }
{
    let mut count = base;
    for update in updates {
        count += step(update, oid, id);
    }
    count
}

//! Counts that go from one vector to another by the steps that just one of them sees.
ghost use Rattle.std.specs.Prelude.{◌≡◌, ◌^◌, ◌≤◌, ◌≤ℤ◌, ◌-ℤ◌, ◌+ℤ◌, ℕ, pos, length, List, [], ◌∷◌, OnOk, IfOk};
ghost use Rattle.walter_base.specs.declared.update.Row.{Row as Told};
ghost use Rattle.walter_base.specs.Values.{count_of};
ghost use Rattle.walter_base.specs.Vectors.{Covers};
ghost use Rattle.walter_cset.specs.Between.{moved, LeavesRoom};
ghost use Rattle.walter_cset.specs.Tallies.{number_at, CanTally};
ghost use Rattle.walter_history.specs.Kept.{Kept, StandsForRows};
ghost use Rattle.walter_history.specs.Rows.{seen_updates};
ghost use Rattle.walter_history.specs.Steps.{told, AreBehind};

use crate::tally::{step, take_in, take_out};
use std::alloc::Global;
use std::collections::BTreeMap;
use walter_base::{Mem, ObjId, Row, Vts};
use walter_history::Step;

/// How much the count of the id is moved by the row on the way from one vector to another.
fn row_moves(row: &Row, from: &Vts, to: &Vts, oid: ObjId, id: u64) -> i64
    ensures moved { result ≡ moved from.now to.now oid id (row.now ∷ []) }
    ensures low { (pos 0 -ℤ pos 1) ≤ℤ result }
    ensures high { result ≤ℤ pos 1 }
{
    let leaves = from.sees(row.version);
    let comes = to.sees(row.version);
    if comes == leaves {
        return 0;
    }
    let number = step(&row.update, oid, id);
    if comes { number } else { -number }
}

/// The count of the id that the vector `to` sees, where `count` is what `from` sees of it. It takes no memory, and
/// costs the steps that are given.
pub fn count_between(count: i64, steps: &[Step], from: &Vts, to: &Vts, oid: ObjId, id: u64) -> i64
    requires { LeavesRoom count (length steps.now) }
    ensures moved { result ≡ count +ℤ moved from.now to.now oid id (told steps.now) }
    ensures low { (count -ℤ pos (length steps.now)) ≤ℤ result }
    ensures high { result ≤ℤ (count +ℤ pos (length steps.now)) }
    ensures rows { (floor : List ℕ) (kept : Kept) (rows : List Told) → StandsForRows oid floor kept rows
        → AreBehind from.now to.now kept.steps (told steps.now) → Covers from.now floor → Covers to.now floor
        → count ≡ count_of oid id (seen_updates from.now rows)
        → result ≡ count_of oid id (seen_updates to.now rows) }
{
    let mut number = count;
    for kept in steps {
        number += row_moves(&kept.row, from, to, oid, id);
    }
    number
}

/// Takes into the tally how much the row moves each count on the way from one vector to another.
fn take_move(tally: &mut BTreeMap<u64, i64>, row: &Row, from: &Vts, to: &Vts, oid: ObjId) -> Mem<()>
    requires { CanTally tally.old }
    ensures { OnOk result ((id : ℕ) → number_at tally.new id
        ≡ number_at tally.old id +ℤ moved from.now to.now oid id (row.now ∷ [])) }
{
    let leaves = from.sees(row.version);
    let comes = to.sees(row.version);
    if comes == leaves {
        return Ok(());
    }
    if comes {
        take_in(tally, &row.update, oid)
    } else {
        take_out(tally, &row.update, oid)
    }
}

/// How much each count of the set is moved from one vector to another. It costs the steps that are
/// given, and not the ids of the set.
pub fn moves_between(
    alloc: Global,
    steps: &[Step],
    from: &Vts,
    to: &Vts,
    oid: ObjId,
) -> Mem<BTreeMap<u64, i64>>
    requires { length steps.now ≤ 2 ^ 61 }
    ensures { IfOk result (λ moves. (id : ℕ) → number_at moves id ≡ moved from.now to.now oid id (told steps.now)) }
{
    let mut tally = BTreeMap::new(alloc);
    for kept in steps {
        take_move(&mut tally, &kept.row, from, to, oid)?;
    }
    Ok(tally)
}

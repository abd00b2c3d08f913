//! What a transaction reads, by its snapshot and its own updates.
ghost use Rattle.std.specs.Prelude.{◌≡◌, ◌++◌, ◌≤◌, ℕ, length, List, IfOk};
ghost use Rattle.std.specs.BTreeMap.{IsEmpty};
ghost use Rattle.std.specs.Option.{option_copied};
ghost use Rattle.walter_base.specs.declared.catalog.Catalog.{Catalog};
ghost use Rattle.walter_base.specs.Values.{value_of, count_of, counts_of};
ghost use Rattle.walter_base.specs.Vectors.{Covers};
ghost use Rattle.walter_cset.specs.Tallies.{number_at};
ghost use Rattle.walter_cset.specs.Totals.{total_of, most_taken, IsWithin};
ghost use Rattle.walter_rows.specs.Rows.{AreRowsOf, AreTotalsOf, seen_in};
ghost use Rattle.walter_rules.specs.declared.held.Held.{Held};

use std::alloc::Global;
use std::collections::BTreeMap;
use walter_base::{Counts, Mem, ObjId, SharedBytes, Update, Vts};
use walter_cset::Totals;
use walter_history::History;

/// What a transaction of this snapshot and these updates reads: its own updates stand behind those that it sees.
pub fn value_read<'a>(
    history: &'a History,
    snapshot: &Vts,
    updates: &'a [Update],
    oid: ObjId,
) -> Option<&'a SharedBytes>
    requires { Covers snapshot.now history.now.floor }
    ensures { (catalog : Catalog) (log : List Held) → AreRowsOf catalog log history.entry.now
        → option_copied result ≡ value_of oid (seen_in snapshot.now log ++ updates.entry.now) }
{
    let seen = history.latest(oid, snapshot);
    walter_overlay::value(seen, updates, oid)
}

/// The same of a set: its counts. It goes from what is committed, whose counts are kept, to the snapshot, and costs
/// what it gives and what is between.
pub fn counts_read(
    alloc: Global,
    history: &History,
    totals: &Totals,
    committed: &Vts,
    snapshot: &Vts,
    updates: &[Update],
    oid: ObjId,
) -> Mem<Counts>
    requires committed { Covers committed.now history.now.floor }
    requires snapshot { Covers snapshot.now history.now.floor }
    requires few { length updates.now ≤ 256 }
    ensures { (catalog : Catalog) (log : List Held) → AreRowsOf catalog log history.now
        → AreTotalsOf committed.now log totals.now
        → IfOk result (λ counts. counts ≡ counts_of oid (seen_in snapshot.now log ++ updates.now)) }
{
    let steps = history.steps_between(oid, committed, snapshot);
    let mut moves = walter_cset::moves_between(alloc, steps, committed, snapshot, oid)?;
    let none = BTreeMap::new(alloc);
    let base = base_of(totals, &none, oid);
    walter_overlay::counts(alloc, base, &mut moves, updates, oid)
}

/// The counts that are kept of the set: none, where it was never named.
fn base_of<'a>(
    totals: &'a Totals,
    none: &'a BTreeMap<u64, i64>,
    oid: ObjId,
) -> &'a BTreeMap<u64, i64>
    requires { IsEmpty none.now }
    ensures numbers { (id : ℕ) → number_at result.now id ≡ total_of totals.entry.now oid id }
    ensures within { (id : ℕ) → IsWithin most_taken (total_of totals.entry.now oid id) }
{
    match totals.tally(oid) {
        Some(tally) => tally,
        None => none,
    }
}

/// The same of one id of a set: its count. It takes no memory.
pub fn count_read(
    history: &History,
    totals: &Totals,
    committed: &Vts,
    snapshot: &Vts,
    updates: &[Update],
    oid: ObjId,
    id: u64,
) -> i64
    requires committed { Covers committed.now history.now.floor }
    requires snapshot { Covers snapshot.now history.now.floor }
    requires few { length updates.now ≤ 256 }
    ensures { (catalog : Catalog) (log : List Held) → AreRowsOf catalog log history.now
        → AreTotalsOf committed.now log totals.now
        → result ≡ count_of oid id (seen_in snapshot.now log ++ updates.now) }
{
    let steps = history.steps_between(oid, committed, snapshot);
    let count = totals.total(oid, id);
    let seen = walter_cset::count_between(count, steps, committed, snapshot, oid, id);
    walter_overlay::count(seen, updates, oid, id)
}

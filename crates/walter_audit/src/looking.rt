//! The quick look for conflicts: whether each commit of an order sees the last writers before it.
ghost use Rattle.std.specs.Prelude.{◌≡◌, ◌↔◌, IfOk, OnOk, IsTrue, Contains, Some, None, if◌then◌else◌};
ghost use Rattle.std.specs.HashMap.{get};
ghost use Rattle.walter_audit.specs.Lasts.{SeesLast, last_behind, SeesAt, SeeLast};
ghost use Rattle.walter_base.specs.declared.names.ObjId.{ObjId as Object};
ghost use Rattle.walter_base.specs.Names.{same_object};
ghost use Rattle.walter_base.specs.Values.{write_set};
ghost use Rattle.walter_rules.specs.Slow.{has_object};

use crate::item::Item;
use std::alloc::Global;
use std::collections::HashMap;
use walter_base::{Mem, ObjId, SiteId, Update, Version, Vts};

/// Whether the start sees the last writer of the object, if there is one.
fn sees_writer(last: &HashMap<ObjId, Version>, start: &Vts, oid: ObjId) -> bool
    ensures { IsTrue result ↔ SeesLast start.now (get same_object last.now oid) }
{
    match last.get(&oid) {
        Some(version) => version.seq <= start.get(version.site),
        None => true,
    }
}

/// Whether it sees that of each object that the updates write.
fn sees_writers(last: &HashMap<ObjId, Version>, start: &Vts, updates: &[Update]) -> bool
    ensures { IsTrue result → (oid : Object) → Contains (write_set updates.now) oid
        → SeesLast start.now (get same_object last.now oid) }
{
    for update in updates {
        if let Update::Write(oid, _) = update {
            if !sees_writer(last, start, *oid) {
                return false;
            }
        }
    }
    true
}

/// Keeps a commit as the last writer of each object that its updates write.
fn put_writer(last: &mut HashMap<ObjId, Version>, version: Version, updates: &[Update]) -> Mem<()>
    ensures { OnOk result ((oid : Object) → get same_object last.new oid
        ≡ (if has_object oid (write_set updates.now) then Some version else get same_object last.old oid)) }
{
    for update in updates {
        if let Update::Write(oid, _) = update {
            last.insert(*oid, version)?;
        }
    }
    Ok(())
}

/// Whether an item that is a commit sees the last writers before it. It is kept as one.
fn sees_those_before(last: &mut HashMap<ObjId, Version>, site: SiteId, item: &Item) -> Mem<bool>
    ensures sees { IfOk result (λ sees. IsTrue sees → SeesAt (get same_object last.old) (site, item.now)) }
    ensures behind { IfOk result (λ sees. IsTrue sees → (oid : Object) → get same_object last.new oid
        ≡ last_behind (get same_object last.old) (site, item.now) oid) }
{
    let Item::Commits(_, seq, tx) = item else {
        return Ok(true);
    };
    if !sees_writers(last, &tx.start.vector(), tx.updates.as_slice()) {
        return Ok(false);
    }
    put_writer(last, Version { site, seq: *seq }, tx.updates.as_slice())?;
    Ok(true)
}

/// Whether each commit of an order sees the last writer before it of each object that it writes.
pub fn see_last(alloc: Global, order: &[(SiteId, Item)]) -> Mem<bool>
    ensures { IfOk result (λ see. IsTrue see → SeeLast (λ oid. None) order.now) }
{
    let mut last = HashMap::new(alloc);
    for taken in order {
        if !sees_those_before(&mut last, taken.0, &taken.1)? {
            return Ok(false);
        }
    }
    Ok(true)
}

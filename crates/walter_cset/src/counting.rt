//! The updates of a transaction, all taken in.
ghost use Rattle.std.specs.Prelude.{◌≡◌, ◌+ℤ◌, ℕ, OnOk};
ghost use Rattle.walter_base.specs.declared.names.ObjId.{ObjId as Object};
ghost use Rattle.walter_base.specs.Values.{count_of};
ghost use Rattle.walter_cset.specs.Totals.{total_of, HavePlaces};

use crate::totals::{MOST_TAKEN, Totals};
use walter_base::{Mem, NoMemory, Update};

/// Gives each id that the updates name a place, so that they can be taken in without memory. It is refused too where so
/// many were taken in as no site comes to.
pub fn open_all(totals: &mut Totals, updates: &[Update]) -> Mem<()>
    ensures places { OnOk result (HavePlaces totals.new updates.now) }
    ensures totals { (oid : Object) (id : ℕ) → total_of totals.new oid id ≡ total_of totals.old oid id }
{
    if updates.len() as u64 > MOST_TAKEN - totals.taken() {
        return Err(NoMemory);
    }
    for update in updates {
        totals.give_place(update)?;
    }
    Ok(())
}

/// Takes the updates in, without taking memory. Ids whose count comes to 0 have no place behind it.
pub fn take_all(totals: &mut Totals, updates: &[Update])
    requires { HavePlaces totals.old updates.now }
    ensures { (oid : Object) (id : ℕ) → total_of totals.new oid id
        ≡ total_of totals.old oid id +ℤ count_of oid id updates.now }
{
    for update in updates {
        totals.take(update);
    }
    close_all(totals, updates);
}

/// Drops the places that weren't used: of each id that the updates name and that has the count 0.
pub fn close_all(totals: &mut Totals, updates: &[Update])
    ensures { (oid : Object) (id : ℕ) → total_of totals.new oid id ≡ total_of totals.old oid id }
{
    for update in updates {
        totals.drop_place(update);
    }
}

//! Whether two transactions are equal, as values.
ghost use Rattle.std.specs.Prelude.{◌≡◌, ◌↔◌, IsTrue};

use walter_base::{Tx, Update};

/// Whether the two updates are equal.
fn is_equal_update(update: &Update, other: &Update) -> bool
    ensures { IsTrue result ↔ (update.now ≡ other.now) }
{
    match (update, other) {
        (Update::Write(oid, bytes), Update::Write(at, others)) => {
            oid == at && bytes.as_slice() == others.as_slice()
        }
        (Update::Add(oid, id), Update::Add(at, other)) => oid == at && id == other,
        (Update::Del(oid, id), Update::Del(at, other)) => oid == at && id == other,
        _ => false,
    }
}

/// Whether the updates are equal, in the same order.
fn are_equal(updates: &[Update], others: &[Update]) -> bool
    ensures { IsTrue result ↔ (updates.now ≡ others.now) }
{
    if updates.len() != others.len() {
        return false;
    }
    for place in 0..updates.len() {
        if !is_equal_update(&updates[place], &others[place]) {
            return false;
        }
    }
    true
}

/// Whether the two transactions are equal.
pub fn is_equal(tx: &Tx, other: &Tx) -> bool
    ensures { IsTrue result ↔ (tx.now ≡ other.now) }
{
    tx.tid == other.tid
        && tx.slow == other.slow
        && tx.start.as_slice() == other.start.as_slice()
        && are_equal(tx.updates.as_slice(), other.updates.as_slice())
}

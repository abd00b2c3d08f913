//! Places on the heap for records in flight, taken before an event comes.
ghost use Rattle.std.specs.Prelude.{◌≡◌, ◌+◌, ◌<◌, ◌≤◌, vec_len, OnOk};

use std::alloc::Global;
use walter_base::{MaybeRecord, Mem, Record, RecordPlace};

/// How many places the record of an event may want: where it is in flight.
const MOST_PLACES: usize = 1;

/// Makes places for the records of the next event: one for the record in flight.
pub fn make_places(alloc: Global, places: &mut Vec<RecordPlace>) -> Mem<()>
    ensures enough { OnOk result (1 ≤ vec_len places.new) }
    ensures more { vec_len places.old ≤ vec_len places.new }
{
    for _ in places.len()..MOST_PLACES {
        places.push(RecordPlace::new(alloc)?)?;
    }
    Ok(())
}

/// Puts a record into one of the places.
pub fn place(places: &mut Vec<RecordPlace>, rec: Record) -> MaybeRecord
    requires { 0 < vec_len places.old }
    ensures rec { result ≡ Some rec }
    ensures left { vec_len places.old ≤ vec_len places.new + 1 }
{
    match places.pop() {
        Some(place) => place.fill(rec),
        None => unreachable!(),
    }
}

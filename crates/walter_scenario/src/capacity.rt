//! The capacity of each journal, by the value of its key.
ghost use Rattle.std.specs.Prelude.{ℕ, IfSome, IfNone};
ghost use Rattle.walter_scenario.specs.Members.{data_in};
ghost use Rattle.walter_scenario.specs.Scenarios.{GivesCapacity};

use crate::scenario::{COMMON_CAPACITY, GREATEST_CAPACITY, LEAST_CAPACITY};
use crate::values::whole_of;
use serde_json::Value;

/// The capacity that the value of its key gives, in bytes; the common one where the key is absent.
pub fn capacity_of(given: Option<&Value>) -> Option<u64>
    ensures some { IfSome result (GivesCapacity (data_in given.entry)) }
    ensures none { IfNone result ((capacity : ℕ) → ¬ GivesCapacity (data_in given.entry) capacity) }
{
    let Some(value) = given else {
        return Some(COMMON_CAPACITY);
    };
    let capacity = whole_of(value)?;
    if capacity < LEAST_CAPACITY || capacity > GREATEST_CAPACITY {
        return None;
    }
    Some(capacity)
}

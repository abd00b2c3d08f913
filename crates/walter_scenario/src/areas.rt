//! How many areas each journal has, by the value of its key.
ghost use Rattle.std.specs.Prelude.{ℕ, IfSome, IfNone};
ghost use Rattle.walter_scenario.specs.Members.{data_in};
ghost use Rattle.walter_scenario.specs.Scenarios.{GivesAreas};

use crate::scenario::{COMMON_AREAS, LEAST_CAPACITY_OF_TWO};
use crate::values::whole_of;
use serde_json::Value;

/// The number of areas that the value of its key gives, of a journal with this capacity; the common one where the key
/// is absent.
pub fn areas_of(given: Option<&Value>, capacity: u64) -> Option<u8>
    ensures some { IfSome result (λ areas. GivesAreas (data_in given.entry) areas capacity) }
    ensures none { IfNone result
        ((areas : ℕ) → ¬ GivesAreas (data_in given.entry) areas capacity) }
{
    let Some(value) = given else {
        return Some(COMMON_AREAS);
    };
    match whole_of(value)? {
        1 => Some(1),
        2 if capacity >= LEAST_CAPACITY_OF_TWO => Some(2),
        _ => None,
    }
}

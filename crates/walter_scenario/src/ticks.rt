//! How many ticks a pumped site may make, by the value of its key.
ghost use Rattle.std.specs.Prelude.{ℕ, IfSome, IfNone};
ghost use Rattle.walter_scenario.specs.Members.{data_in};
ghost use Rattle.walter_scenario.specs.Scenarios.{GivesTicks};

use crate::scenario::{COMMON_TICKS, MOST_TICKS};
use crate::values::whole_of;
use serde_json::Value;

/// The number of ticks that the value of its key gives; the common one where the key is absent.
pub fn ticks_of(given: Option<&Value>) -> Option<u32>
    ensures some { IfSome result (GivesTicks (data_in given.entry)) }
    ensures none { IfNone result ((ticks : ℕ) → ¬ GivesTicks (data_in given.entry) ticks) }
{
    let Some(value) = given else {
        return Some(COMMON_TICKS);
    };
    let ticks = u32::try_from(whole_of(value)?).ok()?;
    (ticks <= MOST_TICKS).then_some(ticks)
}

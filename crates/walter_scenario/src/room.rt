//! For how many entries a trail has its memory from the start, by the value of its key.
ghost use Rattle.std.specs.Prelude.{ℕ, IfSome, IfNone};
ghost use Rattle.walter_scenario.specs.Members.{data_in};
ghost use Rattle.walter_scenario.specs.Scenarios.{GivesRoom};

use crate::scenario::{COMMON_ROOM, MOST_ROOM};
use crate::values::whole_of;
use serde_json::Value;

/// For how many entries the value of its key gives each trail its memory from the start; for the common number where
/// the key is absent.
pub fn room_of(given: Option<&Value>) -> Option<u32>
    ensures some { IfSome result (GivesRoom (data_in given.entry)) }
    ensures none { IfNone result ((room : ℕ) → ¬ GivesRoom (data_in given.entry) room) }
{
    let Some(value) = given else {
        return Some(COMMON_ROOM);
    };
    let room = u32::try_from(whole_of(value)?).ok()?;
    (room <= MOST_ROOM).then_some(room)
}

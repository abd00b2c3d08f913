//! The format of a journal that is made, by the value of its key.
ghost use Rattle.std.specs.Prelude.{◌≤◌, IfSome, IfNone};
ghost use Rattle.walter_base.specs.declared.format.Format.{Format};
ghost use Rattle.walter_base.specs.Vectors.{most_sites};
ghost use Rattle.walter_scenario.specs.Members.{data_in};
ghost use Rattle.walter_scenario.specs.Scenarios.{GivesFormat};

use crate::scenario::MOST_OF_FIRST;
use crate::values::whole_of;
use serde_json::Value;
use walter_base::Format;

/// The format that the value of its key gives, of so many sites; where the key is absent the first that has places for
/// them.
pub fn format_of(given: Option<&Value>, sites: u8) -> Option<Format>
    requires { sites ≤ most_sites }
    ensures some { IfSome result (GivesFormat (data_in given.entry) sites) }
    ensures none { IfNone result ((format : Format) → ¬ GivesFormat (data_in given.entry) sites format) }
{
    let few = sites <= MOST_OF_FIRST;
    let Some(value) = given else {
        return Some(if few { Format::First } else { Format::Second });
    };
    match whole_of(value)? {
        1 if few => Some(Format::First),
        2 => Some(Format::Second),
        _ => None,
    }
}

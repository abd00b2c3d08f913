//! How many sites there are, and how many of them may be lost.
ghost use Rattle.std.specs.Prelude.{◌≡◌, ◌≢◌, ◌<◌, ◌≤◌, ℕ, IfSome, IfNone};
ghost use Rattle.serde_json.specs.View.{view};
ghost use Rattle.walter_base.specs.Vectors.{most_sites};
ghost use Rattle.walter_scenario.specs.Parts.{whole};

use crate::values::{number_below, whole_of};
use serde_json::Value;
use walter_base::MOST_SITES;

/// The number of sites that the value is.
pub fn sites_of(value: &Value) -> Option<u8>
    ensures there { IfSome result (λ sites. (1 ≤ sites) × (sites ≤ most_sites)) }
    ensures some { IfSome result (λ sites. view value.now ≡ whole sites) }
    ensures none { IfNone result
        ((sites : ℕ) → 1 ≤ sites → sites ≤ most_sites → view value.now ≢ whole sites) }
{
    let sites = u8::try_from(whole_of(value)?).ok()?;
    (sites >= 1 && usize::from(sites) <= MOST_SITES).then_some(sites)
}

/// The number of sites that may be lost, of so many.
pub fn tolerated_of(sites: u8, value: &Value) -> Option<u8>
    ensures there { IfSome result (λ tolerated. tolerated < sites) }
    ensures some { IfSome result (λ tolerated. view value.now ≡ whole tolerated) }
    ensures none { IfNone result
        ((tolerated : ℕ) → tolerated < sites → view value.now ≢ whole tolerated) }
{
    number_below(sites, value)
}

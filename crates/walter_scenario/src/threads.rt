//! How many client threads a threaded run has, by the value of its key.
ghost use Rattle.std.specs.Prelude.{ℕ, IfSome, IfNone};
ghost use Rattle.walter_scenario.specs.Members.{data_in};
ghost use Rattle.walter_scenario.specs.Scenarios.{GivesThreads};

use crate::scenario::{COMMON_THREADS, LEAST_THREADS, MOST_THREADS};
use crate::values::whole_of;
use serde_json::Value;

/// The number of threads that the value of its key gives; the common one where the key is absent.
pub fn threads_of(given: Option<&Value>) -> Option<u8>
    ensures some { IfSome result (GivesThreads (data_in given.entry)) }
    ensures none { IfNone result ((threads : ℕ) → ¬ GivesThreads (data_in given.entry) threads) }
{
    let Some(value) = given else {
        return Some(COMMON_THREADS);
    };
    let threads = u8::try_from(whole_of(value)?).ok()?;
    (LEAST_THREADS <= threads && threads <= MOST_THREADS).then_some(threads)
}

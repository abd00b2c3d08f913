//! The entries of a trail: what happened to a site, when, and what came of it.
use crate::event::Event;
use crate::outcome::Outcome;
use std::alloc::Global;
use walter_base::{MaybeRecord, Sends};

/// What came of an event.
#[derive(Debug, Drop)]
pub struct Came {
    pub outcome: Outcome,
    /// The record that was in flight, where a restart found it in the journal.
    pub kept: MaybeRecord,
    /// The record that the event made stable.
    pub wrote: MaybeRecord,
    /// The record that met a fault of the disk. It is in the journal or not: the next restart that ends well finds out.
    pub flight: MaybeRecord,
    /// What was put out, in order.
    pub sends: Sends,
    /// How many packets found no place on their lane, and were lost there.
    pub dropped: u64,
}

impl Came {
    ghost use Rattle.std.specs.Prelude.{◌≡◌};
    ghost use Rattle.walter_rules.specs.Trails.{only};

    /// An outcome alone: no record, and nothing put out.
    pub fn only(alloc: Global, outcome: Outcome) -> Came
        ensures { result ≡ only outcome }
    {
        Came {
            outcome,
            kept: MaybeRecord::none(),
            wrote: MaybeRecord::none(),
            flight: MaybeRecord::none(),
            sends: Sends::from(Vec::new(alloc)),
            dropped: 0,
        }
    }
}

/// One thing that happened at a site.
#[derive(Debug, Drop)]
pub struct Entry {
    pub stamp: u64,
    pub event: Event,
    pub came: Came,
}

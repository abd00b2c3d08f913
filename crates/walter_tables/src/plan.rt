//! What is to come of an input.
use walter_base::{MaybeRecord, Sends};
use walter_rules::Outcome;

/// What is to come of an input: at most one record, an outcome, and what is put out.
#[derive(Debug, Drop)]
pub struct Planned {
    pub rec: MaybeRecord,
    pub outcome: Outcome,
    pub sends: Sends,
}

//! Runs: the merge of right and linked trails is a run, in which each entry is right after those before it.
#![tactic(auto)]

mod laws;

pub use laws::merges_are_runs;

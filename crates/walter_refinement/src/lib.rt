//! Every run of right and linked trails spells a legal history, in which no transaction commits twice, each abort has
//! its cause, and a commit that meets no conflict where all its objects are preferred is answered.
#![tactic(auto)]

mod laws;

pub use laws::{aborts_are_named, commits_are_answered, commits_stand_once, trails_spell_legal};

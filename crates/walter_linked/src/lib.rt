//! What holds of each run of right and linked trails, whatever history it spells.
#![tactic(auto)]

mod laws;

pub use laws::{
    built_catalogs_are_whole, holds_own_commits, marks_are_true, sites_propagate_their_own,
};

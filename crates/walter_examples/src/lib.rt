//! Runs written out, with the histories that they spell.
#![tactic(auto)]

mod laws;

pub use laws::examples_spell;

//! Which objects of a site are locked for which slow commit, and which slow commits are over.
#![tactic(auto)]

mod dead;
mod interval;
mod intervals;
mod lock;
mod locks;
mod owners;

pub use locks::Locks;

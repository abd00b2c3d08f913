//! How far the own commits of a site are durable, and how far visible.
#![tactic(auto)]

mod copies;
mod durable;
mod ghost_sites;
mod preferred;

pub use durable::Durable;
pub use preferred::PreferredSites;

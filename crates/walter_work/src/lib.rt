//! What work comes to: what clients and pumps alone may bring to a site, how its trail stands to what waits there, and
//! how the sites of a scenario stand when nothing is left to do.
#![tactic(auto)]

mod laws;

pub use laws::new_sites_work;

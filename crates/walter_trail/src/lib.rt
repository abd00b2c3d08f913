//! The trail of a site as data: its entries in order, and the merge of the trails of all sites.
#![tactic(auto)]

mod copying;
mod merging;
mod trail;

pub use merging::{Merged, merge};
pub use trail::Trail;

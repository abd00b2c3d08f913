//! A cell: a site over its disk with its trail, its ends of the lanes to and from the other sites, and the connections
//! of its clients. All but the site outlives a stop.
#![tactic(auto)]

mod answers;
mod cell;
mod line;
mod node;
mod polling;
mod pumping;
mod remains;

pub use answers::{Acted, Moved, Pumped, Serve};
pub use cell::Cell;
pub use line::Line;
pub use pumping::pumped;
pub use remains::Remains;

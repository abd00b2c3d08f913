//! What the sets that count hold: their counts where the commits of a site stand, and how far another vector's are from
//! those.
#![tactic(auto)]

mod between;
mod counting;
mod tally;
mod totals;

pub use between::{count_between, moves_between};
pub use counting::{close_all, open_all, take_all};
pub use tally::{shown, step, take_in};
pub use totals::{MOST_TAKEN, Totals};

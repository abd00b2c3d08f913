//! The cells of all sites, bare: a bench. What one site puts on its lane to another arrives there at the deliveries.
#![tactic(auto)]

mod bench;
mod closing;
mod connecting;
mod held;
mod lending;
mod meeting;
mod name;
mod opening;
mod pumping;
mod seating;
mod shared;

pub use bench::Bench;
pub use closing::Closed;
pub use name::Name;
pub use opening::{Unbuilt, build};
pub use pumping::make_pumps;
pub use shared::Cluster;

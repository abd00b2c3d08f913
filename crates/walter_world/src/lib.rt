//! The sites of a catalog without disks: what happens to each, and whether its record meets a fault, is said from
//! outside; their trails are right and linked, whatever happens.
#![tactic(auto)]

mod events;
mod happening;
mod laws;
mod posted;
mod replaying;
mod seat;
mod world;

pub use events::{Fate, What, WorldEvent};
pub use laws::{events_keep_promises, steps_keep_promises};
pub use world::World;

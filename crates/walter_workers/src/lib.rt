//! Worker threads that drive the clients and the pumps of a scenario over shared cells, to the end.
#![tactic(auto)]

mod gate;
mod rounds;
mod working;

pub use gate::{Gate, OpenGate};
pub use working::run;

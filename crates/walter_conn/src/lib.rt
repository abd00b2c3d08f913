//! A client's connection: calls in and replies out, in frames, over a source and a sink.
#![tactic(auto)]

mod conn;
mod input;
mod laws;
mod next;
mod output;
mod reading;
mod state;

pub use conn::Conn;
pub use laws::{calls_in_order, what_was_called};
pub use next::{BrokenConn, Next};
pub use reading::read_call;

//! Numbers and blocks as bytes: a cursor that reads them, and an appender that writes them.
#![tactic(auto)]

mod appender;
mod cursor;
mod laws;
mod memory;
mod short;

pub use appender::Appender;
pub use cursor::Cursor;
pub use laws::spellings_and_numbers;
pub use memory::{Mem, NoMemory};
pub use short::Short;

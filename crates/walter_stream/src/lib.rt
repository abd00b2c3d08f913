//! Where bytes come from and where they go: traits over the outside, in memory and over the real thing.
#![tactic(auto)]

mod bytes_source;
mod memory_sink;
mod memory_source;
mod null_sink;
mod reading;
mod sink;
mod source;
mod std_sink;
mod std_source;
mod writing;

pub use bytes_source::BytesSource;
pub use memory_sink::MemorySink;
pub use memory_source::MemorySource;
pub use null_sink::NullSink;
pub use reading::{ReadError, read_to_end};
pub use sink::Sink;
pub use source::{Failed, Source};
pub use std_sink::StdSink;
pub use std_source::StdSource;
pub use writing::write_all;

//! A sink that keeps nothing.
ghost use Rattle.std.specs.Prelude.{◌≡◌, ◌<◌, ◌≤◌, length, take, None, IfOk, OnOk, OnErr};
ghost use Rattle.walter_stream.specs.Streams.{Appends};

use crate::sink::Sink;
use crate::source::Failed;

/// A sink that takes all bytes and keeps none.
#[derive(Clone, Copy, Debug, Default)]
pub struct NullSink;

impl Sink for NullSink {
    ghost use Rattle.std.specs.Prelude.{None};

    ghost faults = { λ _. 0 };

    ghost holds = { λ _. None };

    fn write(&mut self, from: &[u8]) -> Result<usize, Failed>
        ensures { result ≡ Ok (length from.now) }
    {
        Ok(from.len())
    }
}

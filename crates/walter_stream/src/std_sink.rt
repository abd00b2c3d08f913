//! A sink over a writer of std.
ghost use Rattle.std.specs.Prelude.{◌≡◌, ◌<◌, ◌≤◌, ◌+◌, length, take, None, IfOk, OnOk, OnErr};
ghost use Rattle.std.specs.Io.KnownBytes.{WriteAppends};
ghost use Rattle.walter_stream.specs.StdSink.{writer_of, faults_of};

use crate::sink::Sink;
use crate::source::Failed;
use std::io::Write;
use walter_faults::GhostCount;

/// A sink over a writer of std. It tells no bytes, since no one can know what a file or a socket holds.
#[derive(Drop)]
pub struct StdSink<W: Write + Drop> {
    writer: W,
    faults: GhostCount,
}

impl<W: Write + Drop> StdSink<W> {
    pub fn new(writer: W) -> StdSink<W>
        ensures { writer_of result ≡ writer }
    {
        StdSink {
            writer,
            faults: GhostCount::zero(),
        }
    }

    /// Gives the writer back. Each write went to it at once, so only what it buffers itself is left to flush.
    pub fn into_inner(self) -> W
        ensures { result ≡ writer_of self }
    {
        let StdSink { writer, faults: _ } = self;
        writer
    }

    fn fault(&mut self) -> Failed
        ensures writer { writer_of self.new ≡ writer_of self.old }
        ensures faults { faults_of self.new ≡ faults_of self.old + 1 }
    {
        self.faults = self.faults.next();
        Failed
    }
}

impl<W: Write + Drop> Sink for StdSink<W> {
    ghost faults = { λ s. s.faults.count };

    ghost holds = { λ _. None };

    /// An interrupted write is a fault like any other.
    fn write(&mut self, from: &[u8]) -> Result<usize, Failed>
        ensures within { IfOk result (λ n. n ≤ length from.now) }
        ensures moves { 0 < length from.now → IfOk result (λ n. 0 < n) }
        ensures faultless { OnOk result (faults_of self.new ≡ faults_of self.old) }
        ensures cause { OnErr result (faults_of self.old < faults_of self.new) }

        // The bytes went to the writer.
        ensures writer { WriteAppends (W.contents (writer_of self.old))
            (W.contents (writer_of self.new)) result from.now }
    {
        match self.writer.write(from) {
            // A writer that takes nothing would be asked without end.
            Ok(0) if !from.is_empty() => Err(self.fault()),
            Ok(count) => Ok(count),
            Err(_) => Err(self.fault()),
        }
    }
}

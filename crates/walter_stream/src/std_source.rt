//! A source over a reader of std.
ghost use Rattle.std.specs.Prelude.{◌≡◌, ◌<◌, ◌≤◌, length, take, None, IfOk, OnOk, OnErr};
ghost use Rattle.std.specs.Io.KnownBytes.{ReadConsumes};
ghost use Rattle.walter_stream.specs.StdSource.{reader_of, faults_of};

use crate::source::{Failed, Source};
use std::io::Read;
use walter_faults::GhostCount;

/// A source over a reader of std. It tells no bytes, since no one can know what a file or a socket holds.
#[derive(Drop)]
pub struct StdSource<R: Read + Drop> {
    reader: R,
    faults: GhostCount,
}

impl<R: Read + Drop> StdSource<R> {
    pub fn new(reader: R) -> StdSource<R>
        ensures { reader_of result ≡ reader }
    {
        StdSource {
            reader,
            faults: GhostCount::zero(),
        }
    }
}

impl<R: Read + Drop> Source for StdSource<R> {
    ghost faults = { λ s. s.faults.count };

    ghost left = { λ _. None };

    /// An interrupted read is a fault like any other.
    fn read(&mut self, into: &mut [u8]) -> Result<usize, Failed>
        ensures within { IfOk result (λ n. n ≤ length into.old) }
        ensures faultless { OnOk result (faults_of self.new ≡ faults_of self.old) }
        ensures cause { OnErr result (faults_of self.old < faults_of self.new) }

        // It is the reader's own answer.
        ensures reader { ReadConsumes (R.remaining (reader_of self.old))
            (R.remaining (reader_of self.new)) result into.new }
    {
        match self.reader.read(into) {
            Ok(count) => Ok(count),
            Err(_) => {
                self.faults = self.faults.next();
                Err(Failed)
            }
        }
    }
}

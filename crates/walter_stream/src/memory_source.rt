//! A source over bytes in memory, which fails where it is told to.
ghost use Rattle.std.specs.Arc.{arc_slice_items};
ghost use Rattle.std.specs.Prelude.{◌≡◌, ◌↔◌, ◌+◌, ◌<◌, ◌≤◌, length, take, min, Some, IsErr, IfOk, OnOk, OnErr};
ghost use Rattle.walter_faults.specs.Schedules.{planned, NextFails, AddsCall};
ghost use Rattle.walter_stream.specs.Streams.{AtEnd, TakesFront};

use crate::bytes_source::BytesSource;
use crate::source::{Failed, Source};
use std::alloc::Global;
use std::marker::Model;
use std::sync::ArcSlice;
use walter_faults::Schedule;

/// A source over bytes in memory, some of whose calls fail.
#[derive(Drop)]
pub struct MemorySource {
    source: BytesSource,
    schedule: Schedule,
}

impl Model for MemorySource {
    ghost use Rattle.walter_stream.specs.Memory.{Input};

    ghost Value = { Input };

    ghost view = { λ s. record { left = s.source; calls = s.schedule } };
}

impl MemorySource {
    /// The calls whose numbers are in `failing`, counted from 1, fail and take nothing.
    pub fn new(bytes: ArcSlice<u8, Global>, failing: Vec<u64>) -> MemorySource
        ensures left { result.left ≡ arc_slice_items bytes }
        ensures calls { result.calls ≡ planned failing.items }
    {
        MemorySource {
            source: BytesSource::from(bytes),
            schedule: Schedule::new(failing),
        }
    }
}

impl Source for MemorySource {
    ghost use Rattle.std.specs.Prelude.{Some};

    ghost faults = { λ s. s.calls.faults };

    ghost left = { λ s. Some s.left };

    fn read(&mut self, into: &mut [u8]) -> Result<usize, Failed>
        ensures within { IfOk result (λ n. n ≤ length into.old) }
        ensures taken { IfOk result (λ n.
            TakesFront (Some self.old.left) (Some self.new.left) (take n into.new)) }
        ensures end { result ≡ Ok 0 → 0 < length into.old → AtEnd (Some self.old.left) }
        ensures same { OnErr result (Some self.new.left ≡ Some self.old.left) }
        ensures faultless { OnOk result (self.new.calls.faults ≡ self.old.calls.faults) }
        ensures cause { OnErr result (self.old.calls.faults < self.new.calls.faults) }

        // It fails where it is planned, and takes all that there is room for otherwise.
        ensures fails { IsErr result ↔ NextFails self.old.calls }
        ensures calls { AddsCall self.old.calls self.new.calls }
        ensures most { IfOk result (λ n. n ≡ min (length self.old.left) (length into.old)) }
    {
        if self.schedule.fails() {
            return Err(Failed);
        }
        self.source.read(into)
    }
}

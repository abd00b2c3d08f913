//! A sink in memory, of limited room, which fails where it is told to.
ghost use Rattle.std.specs.Prelude.{◌≡◌, ◌↔◌, ◌-◌, ◌<◌, ◌≤◌, [], length, take, min, Some, IsErr, IfOk, OnOk, OnErr};
ghost use Rattle.walter_faults.specs.Schedules.{planned, AddsCall};
ghost use Rattle.walter_stream.specs.Memory.{NextWriteFails};
ghost use Rattle.walter_stream.specs.Streams.{Appends};

use crate::sink::Sink;
use crate::source::Failed;
use std::alloc::{AllocError, Global};
use std::marker::Model;
use walter_faults::Schedule;

/// A sink that keeps a limited number of bytes in memory, some of whose calls fail.
#[derive(Drop)]
pub struct MemorySink {
    held: Vec<u8>,
    room: usize,
    schedule: Schedule,
}

impl Model for MemorySink {
    ghost use Rattle.std.specs.Prelude.{◌≤◌, vec_len, vec_capacity};
    ghost use Rattle.walter_stream.specs.Memory.{Output};

    ghost Value = { Output };

    ghost view = { λ s. record { held = s.held.items; room = s.room; calls = s.schedule } };

    ghost invariant = { λ s. (vec_len s.held ≤ s.room) × (s.room ≤ vec_capacity s.held) };
}

impl MemorySink {
    /// Takes the memory for `room` bytes at once. The calls whose numbers are in `failing`, counted from 1, fail.
    pub fn with_room(
        alloc: Global,
        room: usize,
        failing: Vec<u64>,
    ) -> Result<MemorySink, AllocError>
        ensures { IfOk result (λ sink.
            sink ≡ record { held = []; room = room; calls = planned failing.items }) }
    {
        Ok(MemorySink {
            held: Vec::with_capacity(alloc, room)?,
            room,
            schedule: Schedule::new(failing),
        })
    }

    /// The bytes that were written.
    pub fn as_slice(&self) -> &[u8]
        ensures { result.now ≡ self.now.held }
    {
        &self.held
    }
}

impl Sink for MemorySink {
    ghost use Rattle.std.specs.Prelude.{Some};

    ghost faults = { λ s. s.calls.faults };

    ghost holds = { λ s. Some s.held };

    /// Takes no memory.
    fn write(&mut self, from: &[u8]) -> Result<usize, Failed>
        ensures within { IfOk result (λ n. n ≤ length from.now) }
        ensures moves { 0 < length from.now → IfOk result (λ n. 0 < n) }
        ensures appended { IfOk result (λ n.
            Appends (Some self.old.held) (Some self.new.held) (take n from.now)) }
        ensures same { OnErr result (Some self.new.held ≡ Some self.old.held) }
        ensures faultless { OnOk result (self.new.calls.faults ≡ self.old.calls.faults) }
        ensures cause { OnErr result (self.old.calls.faults < self.new.calls.faults) }

        // It fails where it is planned and where no byte fits, and takes all that fits otherwise.
        ensures fails { IsErr result ↔ NextWriteFails self.old from.now }
        ensures calls { AddsCall self.old.calls self.new.calls }
        ensures most { IfOk result (λ n.
            n ≡ min (length from.now) (self.old.room - length self.old.held)) }
        ensures room { self.new.room ≡ self.old.room }
    {
        if self.schedule.fails() {
            return Err(Failed);
        }
        let count = from.len().min(self.room - self.held.len());
        if count == 0 && !from.is_empty() {
            self.schedule.add_fault();
            return Err(Failed);
        }
        self.held.extend_from_slice(&from[..count]).unwrap();
        Ok(count)
    }
}

//! A source over bytes in memory, which never fails.
ghost use Rattle.std.specs.Arc.{arc_slice_items};
ghost use Rattle.std.specs.Prelude.{◌≡◌, ◌<◌, ◌≤◌, length, take, min, Some, Ok, IfOk, OnOk, OnErr};
ghost use Rattle.walter_stream.specs.Streams.{AtEnd, TakesFront};

use crate::source::{Failed, Source};
use std::alloc::Global;
use std::marker::Model;
use std::sync::ArcSlice;

/// A source over bytes in memory that never fails; others may have the same bytes. Contracts see what is left.
#[derive(Drop)]
pub struct BytesSource {
    bytes: ArcSlice<u8, Global>,
    taken: usize,
}

impl Model for BytesSource {
    ghost use Rattle.std.specs.Arc.{arc_slice_items};
    ghost use Rattle.std.specs.Prelude.{◌≤◌, ℕ, List, drop, length};

    ghost Value = { List ℕ };

    ghost view = { λ s. drop s.taken (arc_slice_items s.bytes) };

    ghost invariant = { λ s. s.taken ≤ length (arc_slice_items s.bytes) };
}

impl From<ArcSlice<u8, Global>> for BytesSource {
    ghost from_gives = { λ v s. s ≡ arc_slice_items v };

    fn from(bytes: ArcSlice<u8, Global>) -> BytesSource {
        BytesSource { bytes, taken: 0 }
    }
}

impl Source for BytesSource {
    ghost use Rattle.std.specs.Prelude.{Some};

    ghost faults = { λ _. 0 };

    ghost left = { λ s. Some s };

    fn read(&mut self, into: &mut [u8]) -> Result<usize, Failed>
        ensures count { result ≡ Ok (min (length self.old) (length into.old)) }
        ensures taken { IfOk result (λ n. TakesFront (Some self.old) (Some self.new) (take n into.new)) }
    {
        let count = copy_front(&self.bytes[self.taken..], into);
        self.taken += count;
        Ok(count)
    }
}

// Copies as many bytes as both have, and answers how many.
fn copy_front(from: &[u8], into: &mut [u8]) -> usize
    ensures count { result ≡ min (length from.now) (length into.old) }
    ensures copied { take result into.new ≡ take result from.now }
{
    let count = from.len().min(into.len());
    into[..count].copy_from_slice(&from[..count]);
    count
}

//! What a disk in memory holds, and what a crash might leave of the writes that pend.
ghost use Rattle.std.specs.Prelude.{◌≡◌, ◌+◌, ◌<◌, ◌≤◌, ◌++◌, [], length, max, take, replicate, vec_len, vec_capacity, IfOk, OnOk, OnErr};
ghost use Rattle.walter_disk_memory.specs.Contents.{Write, FailedWrite, Sync, Settle, put, filled, at_rest, settled, after};
ghost use Rattle.walter_disk_memory.specs.ImageLaws.{IsSound};
ghost use Rattle.walter_disk_memory.specs.Rooms.{reach};

use crate::place::Place;
use std::alloc::{AllocError, Global};
use std::marker::Model;

/// What a disk holds, and what pends on it. All bytes lie below `end`, up to which there is room. No write that pends
/// begins within the first `shared` bytes: these are the same in what reads, in what the failed writes would have left
/// too, and in what is safe. So they are held once, and of the latter two only the tails behind them.
#[derive(Drop)]
pub(crate) struct Content {
    reads: Vec<u8>,
    shared: usize,
    whole_tail: Vec<u8>,
    synced_tail: Vec<u8>,
    pending: Vec<Place>,
    end: usize,
}

impl Model for Content {
    ghost use Rattle.std.specs.Prelude.{◌≡◌, ◌+◌, ◌-◌, ◌≤◌, ◌++◌, take, vec_len, vec_capacity};
    ghost use Rattle.walter_disk_memory.specs.Rooms.{Held, reach, start};

    ghost Value = { Held };

    ghost view = { λ s. record {
      content = record {
        reads = s.reads.items;
        whole = take s.shared s.reads.items ++ s.whole_tail.items;
        synced = take s.shared s.reads.items ++ s.synced_tail.items;
        pending = s.pending.items;
      };
      end = s.end;
      slots = vec_capacity s.pending - vec_len s.pending;
    } };

    ghost invariant = { λ s.
        (vec_len s.reads ≤ s.end) × (s.end ≤ vec_capacity s.reads)
        × (s.shared + vec_len s.whole_tail ≤ s.end) × (s.end ≤ vec_capacity s.whole_tail)
        × (s.shared + vec_len s.synced_tail ≤ s.end) × (s.end ≤ vec_capacity s.synced_tail)
        × (s.shared ≤ vec_len s.reads) × (s.shared ≤ start s.end s.pending.items)
        × (reach s.pending.items ≤ s.end) };
}

impl Content {
    pub(crate) fn new(alloc: Global) -> Content
        ensures { result ≡ record { content = at_rest []; end = 0; slots = 0 } }
    {
        Content {
            reads: Vec::new(alloc),
            shared: 0,
            whole_tail: Vec::new(alloc),
            synced_tail: Vec::new(alloc),
            pending: Vec::new(alloc),
            end: 0,
        }
    }

    pub(crate) fn holding(alloc: Global, bytes: Vec<u8>) -> Result<Content, AllocError>
        ensures { IfOk result (λ made.
            made ≡ record { content = at_rest bytes.items; end = vec_len bytes; slots = 0 }) }
    {
        let end = bytes.len();
        Ok(Content {
            reads: bytes,
            shared: end,
            whole_tail: Vec::with_capacity(alloc, end)?,
            synced_tail: Vec::with_capacity(alloc, end)?,
            pending: Vec::new(alloc),
            end,
        })
    }

    pub(crate) fn reads(&self) -> &[u8]
        ensures { result.now ≡ self.now.content.reads }
    {
        &self.reads
    }

    pub(crate) fn end(&self) -> usize
        ensures { result ≡ self.now.end }
    {
        self.end
    }

    #[tactic(auto, using(crate::proofs::Tails::start_further))]
    pub(crate) fn reserve(&mut self, end: usize, slots: usize) -> Result<(), AllocError>
        ensures same { self.new.content ≡ self.old.content }
        ensures slots { self.old.slots ≤ self.new.slots }
        ensures ok { OnOk result ((self.new.end ≡ max self.old.end end)
            × (slots ≤ self.new.slots)) }
        ensures err { OnErr result (self.new.end ≡ self.old.end) }
    {
        let end = self.end.max(end);
        self.reads.reserve(end - self.reads.len())?;
        make_room(&mut self.whole_tail, end)?;
        make_room(&mut self.synced_tail, end)?;
        self.pending.reserve(slots)?;
        self.end = end;
        Ok(())
    }

    /// A write that reaches the disk.
    #[tactic(auto, using(crate::proofs::Tails::writes))]
    pub(crate) fn write(&mut self, at: usize, from: &[u8])
        requires within { at + length from.now ≤ self.old.end }
        requires slot { 0 < self.old.slots }
        ensures content { self.new.content ≡ after (Write at from.now) self.old.content }
        ensures end { self.new.end ≡ self.old.end }
        ensures slots { self.new.slots + 1 ≡ self.old.slots }
    {
        self.miss(at, from);
        // From this place on no byte is shared any more, so only what reads changes.
        write_over(&mut self.reads, at, from);
    }

    /// A write that fails.
    #[tactic(auto, using(crate::proofs::Tails::writes))]
    pub(crate) fn miss(&mut self, at: usize, from: &[u8])
        requires within { at + length from.now ≤ self.old.end }
        requires slot { 0 < self.old.slots }
        ensures content { self.new.content ≡ after (FailedWrite at from.now) self.old.content }
        ensures end { self.new.end ≡ self.old.end }
        ensures slots { self.new.slots + 1 ≡ self.old.slots }
    {
        let shared = self.shared.min(at);
        put_before(&mut self.whole_tail, &self.reads[shared..self.shared]);
        put_before(&mut self.synced_tail, &self.reads[shared..self.shared]);
        self.shared = shared;
        write_over(&mut self.whole_tail, at - shared, from);
        self.pending.push_reserved(Place {
            at,
            count: from.len(),
        });
    }

    pub(crate) fn sync(&mut self)
        requires sound { IsSound self.old.content }
        ensures content { self.new.content ≡ after Sync self.old.content }
        ensures end { self.new.end ≡ self.old.end }
        ensures slots { self.old.slots ≤ self.new.slots }
    {
        self.shared = self.reads.len();
        self.whole_tail.clear();
        self.synced_tail.clear();
        self.pending.clear();
    }

    #[tactic(auto, using(crate::proofs::Moments::settled_sound))]
    pub(crate) fn settle(&mut self, choice: u64)
        requires sound { IsSound self.old.content }
        ensures content { self.new.content ≡ after (Settle choice) self.old.content }
        ensures end { self.new.end ≡ self.old.end }
        ensures slots { self.old.slots ≤ self.new.slots }
    {
        self.choose(choice);
        self.sync();
    }

    // What reads is what the choice finds. It still pends.
    #[tactic(auto, using(crate::proofs::Tails::writes))]
    fn choose(&mut self, choice: u64)
        ensures content { self.new.content ≡ record self.old.content { reads = settled choice self.old.content } }
        ensures end { self.new.end ≡ self.old.end }
        ensures slots { self.new.slots ≡ self.old.slots }
    {
        match choice {
            0 => replace_tail(&mut self.reads, self.shared, &self.synced_tail),
            1 => replace_tail(&mut self.reads, self.shared, &self.whole_tail),
            _ => {
                replace_tail(&mut self.reads, self.shared, &self.synced_tail);
                fill_places(&mut self.reads, &self.pending, (choice % 256) as u8);
            }
        }
    }
}

// Makes room for bytes up to an end. Where there are none the block is replaced: to grow it might copy all that it has
// room for.
fn make_room(bytes: &mut Vec<u8>, end: usize) -> Result<(), AllocError>
    requires { vec_len bytes.old ≤ end }
    ensures items { bytes.new.items ≡ bytes.old.items }
    ensures ok { OnOk result (end ≤ vec_capacity bytes.new) }
    ensures capacity { vec_capacity bytes.old ≤ vec_capacity bytes.new }
{
    let room = bytes.capacity();
    if end <= room || !bytes.is_empty() {
        return bytes.reserve(end - bytes.len());
    }
    *bytes = Vec::with_capacity(*bytes.allocator(), end.max(room.saturating_mul(2)))?;
    Ok(())
}

// Takes no memory.
fn put_before(bytes: &mut Vec<u8>, before: &[u8])
    requires { length before.now + vec_len bytes.old ≤ vec_capacity bytes.old }
    ensures items { bytes.new.items ≡ before.now ++ bytes.old.items }
    ensures len { vec_len bytes.new ≡ length before.now + vec_len bytes.old }
    ensures capacity { vec_capacity bytes.old ≤ vec_capacity bytes.new }
{
    let count = bytes.len();
    bytes.extend_from_slice(before).unwrap();
    bytes.rotate_left(count);
}

// Takes no memory.
fn replace_tail(bytes: &mut Vec<u8>, at: usize, tail: &[u8])
    requires { at + length tail.now ≤ vec_capacity bytes.old }
    ensures items { bytes.new.items ≡ take at bytes.old.items ++ tail.now }
    ensures len { vec_len bytes.new ≤ at + length tail.now }
    ensures capacity { vec_capacity bytes.old ≤ vec_capacity bytes.new }
{
    bytes.truncate(at);
    bytes.extend_from_slice(tail).unwrap();
}

// Takes no memory.
fn write_over(bytes: &mut Vec<u8>, at: usize, from: &[u8])
    requires { at + length from.now ≤ vec_capacity bytes.old }
    ensures items { bytes.new.items ≡ put at from.now bytes.old.items }
    ensures len { vec_len bytes.new ≤ max (vec_len bytes.old) (at + length from.now) }
    ensures capacity { vec_capacity bytes.old ≤ vec_capacity bytes.new }
{
    if at > bytes.len() {
        return;
    }
    let end = at + from.len();
    if end < bytes.len() {
        bytes[at..end].copy_from_slice(from);
    } else {
        bytes.truncate(at);
        bytes.extend_from_slice(from).unwrap();
    }
}

fn fill_over(bytes: &mut Vec<u8>, place: Place, byte: u8)
    requires { place.at + place.count ≤ vec_capacity bytes.old }
    ensures items { bytes.new.items ≡ put place.at (replicate place.count byte) bytes.old.items }
    ensures len { vec_len bytes.new ≤ max (vec_len bytes.old) (place.at + place.count) }
    ensures capacity { vec_capacity bytes.old ≤ vec_capacity bytes.new }
{
    if place.at > bytes.len() {
        return;
    }
    let end = place.at + place.count;
    if end < bytes.len() {
        bytes[place.at..end].fill(byte);
    } else {
        bytes.truncate(place.at);
        bytes.resize(end, byte).unwrap();
    }
}

fn fill_places(bytes: &mut Vec<u8>, places: &[Place], byte: u8)
    requires { reach places.now ≤ vec_capacity bytes.old }
    ensures items { bytes.new.items ≡ filled byte places.now bytes.old.items }
    ensures len { vec_len bytes.new ≤ max (vec_len bytes.old) (reach places.now) }
    ensures capacity { vec_capacity bytes.old ≤ vec_capacity bytes.new }
{
    for place in places {
        fill_over(bytes, *place, byte);
    }
}

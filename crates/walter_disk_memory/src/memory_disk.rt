//! A disk in memory, which fails where it is armed to.
ghost use Rattle.std.specs.Prelude.{◌≡◌, ◌+◌, ◌<◌, ◌≤◌, [], length, take, drop, is_err, IsOk, IfOk, OnOk, OnErr};
ghost use Rattle.walter_disk_memory.specs.Contents.{Write, FailedWrite, Sync, Settle, settled};
ghost use Rattle.walter_disk_memory.specs.MemoryDisks.{holding, content_of, called, after_pass, after_fault, after_mend, with_room, FailsOnlyIfArmed};
ghost use Rattle.walter_disk_memory.specs.Stops.{fails, armed, choice_made};

use crate::content::Content;
use crate::event::Event;
use crate::past::Past;
use crate::stops::Stops;
use std::alloc::Global;
use std::marker::Model;
use walter_disk::{Disk, Failed, Mem};

/// A disk in memory. It fails where it is armed to, and then a settle finds what the arm's choice says.
#[derive(Drop)]
pub struct MemoryDisk {
    first: Vec<u8>,
    content: Content,
    past: Past,
    stops: Stops,
    room_calls: usize,
}

impl Model for MemoryDisk {
    ghost use Rattle.std.specs.Prelude.{◌≡◌, ◌≤◌};
    ghost use Rattle.walter_disk_memory.specs.Contents.{at_rest, replayed};
    ghost use Rattle.walter_disk_memory.specs.MemoryDisks.{MemoryState};

    ghost Value = { MemoryState };

    ghost view = { λ s. record {
      first = s.first.items;
      calls = s.past.calls;
      stops = s.stops;
      room_end = s.content.end;
      room_calls = s.room_calls;
    } };

    ghost invariant = { λ s.
        (s.content.content ≡ replayed s.past.calls (at_rest s.first.items))
        × (s.room_calls ≤ s.content.slots) };
}

impl MemoryDisk {
    /// An empty disk.
    pub fn new(alloc: Global) -> MemoryDisk
        ensures { result ≡ holding [] }
    {
        MemoryDisk {
            first: Vec::new(alloc),
            content: Content::new(alloc),
            past: Past::of(&Event::Begin),
            stops: Stops::new(alloc),
            room_calls: 0,
        }
    }

    /// A disk that holds these bytes, safe from a crash.
    pub fn holding(alloc: Global, bytes: Vec<u8>) -> Mem<MemoryDisk>
        ensures { IfOk result (λ disk. disk ≡ holding bytes.items) }
    {
        Ok(MemoryDisk {
            first: bytes.to_vec(alloc)?,
            content: Content::holding(alloc, bytes)?,
            past: Past::of(&Event::Begin),
            stops: Stops::new(alloc),
            room_calls: 0,
        })
    }

    /// What a read of the whole disk gives.
    pub fn bytes(&self) -> &[u8]
        ensures { result.now ≡ (content_of self.now).reads }
    {
        self.content.reads()
    }

    fn make_room(&mut self, end: usize, calls: usize) -> Mem<()>
        ensures ok { OnOk result (self.new ≡ with_room end calls self.old) }
        ensures err { OnErr result (self.new ≡ self.old) }
    {
        let calls = self.room_calls.max(calls);
        self.content.reserve(end, calls)?;
        self.room_calls = calls;
        Ok(())
    }

    fn read_bytes(&mut self, at: usize, into: &mut [u8]) -> Result<(), Failed>
        requires { at + length into.old ≤ length (content_of self.old).reads }
        ensures fails { is_err result ≡ fails self.old.stops }
        ensures given { OnOk result (
            into.new ≡ take (length into.old) (drop at (content_of self.old).reads)) }
        ensures ok { OnOk result (self.new ≡ after_pass self.old) }
        ensures err { OnErr result (self.new ≡ after_fault self.old) }
    {
        self.stops.call()?;
        into.copy_from_slice(&self.content.reads()[at..at + into.len()]);
        Ok(())
    }

    #[tactic(auto, using(crate::proofs::Moments::replayed_more))]
    fn write_bytes(&mut self, at: usize, from: &[u8]) -> Result<(), Failed>
        requires end { at + length from.now ≤ self.old.room_end }
        requires calls { 0 < self.old.room_calls }
        ensures fails { is_err result ≡ fails self.old.stops }
        ensures ok { OnOk result (self.new ≡ called (Write at from.now) (after_pass self.old)) }
        ensures err { OnErr result (self.new ≡ called (FailedWrite at from.now) (after_fault self.old)) }
    {
        let outcome = self.stops.call();
        self.room_calls -= 1;
        match outcome {
            Ok(()) => {
                self.content.write(at, from);
                self.past = Past::of(&Event::Write(&self.past, at, from));
            }
            Err(Failed) => {
                self.content.miss(at, from);
                self.past = Past::of(&Event::FailedWrite(&self.past, at, from));
            }
        }
        outcome
    }

    #[tactic(auto, using(crate::proofs::Moments::replayed_more))]
    fn sync_bytes(&mut self) -> Result<(), Failed>
        requires { 0 < self.old.room_calls }
        ensures fails { is_err result ≡ fails self.old.stops }
        ensures ok { OnOk result (self.new ≡ called Sync (after_pass self.old)) }
        ensures err { OnErr result (self.new ≡ after_fault self.old) }
    {
        self.stops.call()?;
        self.room_calls -= 1;
        self.content.sync();
        self.past = Past::of(&Event::Sync(&self.past));
        Ok(())
    }

    #[tactic(auto, using(crate::proofs::Moments::replayed_more))]
    fn settle_bytes(&mut self)
        requires { 0 < self.old.room_calls }
        ensures { self.new ≡ called (Settle (choice_made self.old.stops)) (after_mend self.old) }
    {
        let choice = self.stops.mend();
        self.room_calls -= 1;
        self.content.settle(choice);
        self.past = Past::of(&Event::Settle(&self.past, choice));
    }
}

/// A disk without an arm has never failed, and none of its calls is to fail. A law of each disk, which does nothing.
pub fn unarmed_never_failed(disk: &MemoryDisk)
    ensures { FailsOnlyIfArmed disk.now }
{
    disk.stops.fail_only_if_armed();
}

impl Disk for MemoryDisk {
    ghost use Rattle.std.specs.Prelude.{refl, false, is_some};
    ghost use Rattle.walter_disk.specs.Disks.{armed_at, written, Breaks, MakesRoom, TakesRoom};
    ghost use Rattle.walter_disk.specs.Images.{Torn, Follows, Narrows, IsDurable, IsImage};
    ghost use Rattle.walter_disk_memory.specs.ImageLaws.{always_sound, left_now, left_only_now};
    ghost use Rattle.walter_disk_memory.specs.MemoryDisks.{known_of, moment_of, may_leave_of, left_since_of, GoesOn};

    ghost known = { known_of };

    ghost room_end = { λ d. d.room_end };

    ghost room_calls = { λ d. d.room_calls };

    ghost may_leave = { may_leave_of };

    ghost moment = { moment_of };

    ghost device_calls = { λ d. d.stops.made };

    ghost left_since = { left_since_of };

    ghost size_is = { λ d. refl };

    ghost leaves_what_reads = { λ d whole. (always_sound d.first d.calls).reads };

    ghost counts_now = { λ d t image le now. left_now d.first d.calls t image le now };

    ghost only_now = { λ d image left. left_only_now d.first d.calls image left };

    fn size(&self) -> u64 {
        self.bytes().len() as u64
    }

    fn reserve(&mut self, end: u64, calls: u64) -> Mem<()>
        ensures room { OnOk result (MakesRoom end calls
            self.old.room_end self.new.room_end self.old.room_calls self.new.room_calls) }
        ensures same { known_of self.new ≡ known_of self.old }
        ensures device { self.new.stops.made ≡ self.old.stops.made }
        ensures crash { Narrows (may_leave_of self.old) (may_leave_of self.new) }
        ensures time { GoesOn self.old self.new }

        // Exactly:
        ensures ok { OnOk result (self.new ≡ with_room end calls self.old) }
        ensures err { OnErr result (self.new ≡ self.old) }
    {
        self.make_room(end as usize, calls as usize)
    }

    fn read(&mut self, at: u64, into: &mut [u8]) -> Result<(), Failed>
        requires within { at + length into.old ≤ (known_of self.old).size }
        ensures given { OnOk result (
            into.new ≡ take (length into.old) (drop at (content_of self.old).reads)) }
        ensures whole { OnOk result (is_some self.old.stops.came ≡ false) }
        ensures same { OnOk result (known_of self.new ≡ known_of self.old) }
        ensures failed { OnErr result (Breaks (known_of self.old) (known_of self.new)) }
        ensures room { TakesRoom 0
            self.old.room_end self.new.room_end self.old.room_calls self.new.room_calls }
        ensures device { self.new.stops.made ≡ self.old.stops.made + 1 }
        ensures crash { Narrows (may_leave_of self.old) (may_leave_of self.new) }
        ensures time { GoesOn self.old self.new }

        // Exactly:
        ensures fails { is_err result ≡ fails self.old.stops }
        ensures ok { OnOk result (self.new ≡ after_pass self.old) }
        ensures err { OnErr result (self.new ≡ after_fault self.old) }
    {
        self.read_bytes(at as usize, into)
    }

    #[tactic(auto, using(crate::proofs::Moments::writes))]
    fn write_at(&mut self, at: u64, from: &[u8]) -> Result<(), Failed>
        requires begins { at ≤ (known_of self.old).size }
        requires end { at + length from.now ≤ self.old.room_end }
        requires calls { 0 < self.old.room_calls }
        ensures whole { OnOk result (is_some self.old.stops.came ≡ false) }
        ensures done { OnOk result (known_of self.new ≡ written at from.now (known_of self.old)) }
        ensures failed { OnErr result (Breaks (known_of self.old) (known_of self.new)) }
        ensures room { TakesRoom 1
            self.old.room_end self.new.room_end self.old.room_calls self.new.room_calls }
        ensures device { self.new.stops.made ≡ self.old.stops.made + 1 }
        ensures crash { Follows (Torn at (length from.now)) (may_leave_of self.old) (may_leave_of self.new) }
        ensures time { GoesOn self.old self.new }

        // Exactly:
        ensures fails { is_err result ≡ fails self.old.stops }
        ensures ok { OnOk result (self.new ≡ called (Write at from.now) (after_pass self.old)) }
        ensures err { OnErr result (self.new ≡ called (FailedWrite at from.now) (after_fault self.old)) }
    {
        self.write_bytes(at as usize, from)
    }

    #[tactic(auto, using(crate::proofs::Moments::replayed_more))]
    fn sync(&mut self) -> Result<(), Failed>
        requires calls { 0 < self.old.room_calls }
        ensures durable { OnOk result (IsDurable (known_of self.new).reads (may_leave_of self.new)) }
        ensures whole { OnOk result (is_some self.old.stops.came ≡ false) }
        ensures same { OnOk result (known_of self.new ≡ known_of self.old) }
        ensures failed { OnErr result (Breaks (known_of self.old) (known_of self.new)) }
        ensures room { TakesRoom 1
            self.old.room_end self.new.room_end self.old.room_calls self.new.room_calls }
        ensures device { self.new.stops.made ≡ self.old.stops.made + 1 }
        ensures crash { Narrows (may_leave_of self.old) (may_leave_of self.new) }
        ensures time { GoesOn self.old self.new }

        // Exactly:
        ensures fails { is_err result ≡ fails self.old.stops }
        ensures ok { OnOk result (self.new ≡ called Sync (after_pass self.old)) }
        ensures err { OnErr result (self.new ≡ after_fault self.old) }
    {
        self.sync_bytes()
    }

    #[tactic(auto, using(crate::proofs::Moments::replayed_more))]
    fn settle(&mut self) -> Result<(), Failed>
        requires calls { 0 < self.old.room_calls }
        ensures tells { is_some (known_of self.new).reads ≡ is_some (known_of self.old).reads }
        ensures image { OnOk result (IsImage (known_of self.new).reads (may_leave_of self.old)) }
        ensures durable { OnOk result (IsDurable (known_of self.new).reads (may_leave_of self.new)) }
        ensures done { OnOk result (known_of self.new ≡ record (known_of self.old) {
          reads = (known_of self.new).reads;
          size = (known_of self.new).size;
          broken = false;
        }) }
        ensures failed { OnErr result (Breaks (known_of self.old) (known_of self.new)) }
        ensures room { TakesRoom 1
            self.old.room_end self.new.room_end self.old.room_calls self.new.room_calls }
        ensures device { self.new.stops.made ≡ self.old.stops.made }
        ensures crash { Narrows (may_leave_of self.old) (may_leave_of self.new) }
        ensures time { GoesOn self.old self.new }

        // Exactly:
        ensures never_fails { IsOk result }
        ensures finds { (content_of self.new).reads ≡ settled (choice_made self.old.stops) (content_of self.old) }
        ensures after { self.new ≡ called (Settle (choice_made self.old.stops)) (after_mend self.old) }
    {
        self.settle_bytes();
        Ok(())
    }

    fn arm(&mut self, nth: u64, choice: u64) -> Mem<()>
        requires { 0 < nth }
        ensures armed { OnOk result (
            known_of self.new ≡ armed_at self.old.stops.made nth choice (known_of self.old)) }
        ensures same { OnErr result (known_of self.new ≡ known_of self.old) }
        ensures room { TakesRoom 0
            self.old.room_end self.new.room_end self.old.room_calls self.new.room_calls }
        ensures device { self.new.stops.made ≡ self.old.stops.made }
        ensures crash { Narrows (may_leave_of self.old) (may_leave_of self.new) }
        ensures time { GoesOn self.old self.new }

        // Exactly:
        ensures ok { OnOk result (self.new ≡ record self.old { stops = armed nth choice self.old.stops }) }
        ensures err { OnErr result (self.new ≡ self.old) }
    {
        self.stops.arm(nth, choice)
    }
}

//! What the store asks of a disk: a trait.
ghost use Rattle.std.specs.Prelude.{◌≡◌, ◌+◌, ◌<◌, ◌≤◌, ℕ, List, length, take, drop, false, is_some, IfSome, OnOk, OnErr};
ghost use Rattle.walter_disk.specs.Disks.{DiskState, armed_at, written, Breaks, MakesRoom, TakesRoom};
ghost use Rattle.walter_disk.specs.Images.{Torn, Follows, Narrows, IsDurable, IsImage, Elapses};

use crate::fault::{Failed, Mem};

/// A disk of bytes, from place 0 to its size.
pub trait Disk {
    /// What is known of it, but for crashes.
    ghost known: { Self → DiskState };

    /// How far its reserved room reaches, and for how many calls.
    ghost room_end: { Self → ℕ };

    ghost room_calls: { Self → ℕ };

    /// What a crash at this moment may leave.
    ghost may_leave: { Self → List ℕ → Type 0 };

    /// The moment, as a number that doesn't fall.
    ghost moment: { Self → ℕ };

    /// How many calls of `read`, `write_at` and `sync` were made of it, whatever they answered: an arm counts them.
    ghost device_calls: { Self → ℕ };

    /// What a crash at some moment from that one on might have left, during a call or between two.
    ghost left_since: { Self → ℕ → List ℕ → Type 0 };

    /// How many bytes it has.
    fn size(&self) -> u64
        ensures { result ≡ (known self.now).size };

    /// Makes room up to a place and for so many calls of `write_at`, `sync` and `settle`.
    fn reserve(&mut self, end: u64, calls: u64) -> Mem<()>
        ensures room { OnOk result (MakesRoom end calls (room_end self.old) (room_end self.new) (room_calls self.old) (room_calls self.new)) }
        ensures device { device_calls self.new ≡ device_calls self.old }
        ensures same { known self.new ≡ known self.old }
        ensures crash { Narrows (may_leave self.old) (may_leave self.new) }
        ensures time { Elapses (moment self.old) (moment self.new) (left_since self.old) (left_since self.new) (may_leave self.new) };

    /// Gives the bytes from a place on.
    fn read(&mut self, at: u64, into: &mut [u8]) -> Result<(), Failed>
        requires within { at + length into.old ≤ (known self.old).size }
        ensures given { OnOk result (IfSome (known self.old).reads (λ bytes. into.new ≡ take (length into.old) (drop at bytes))) }
        ensures whole { OnOk result ((known self.old).broken ≡ false) }
        ensures same { OnOk result (known self.new ≡ known self.old) }
        ensures failed { OnErr result (Breaks (known self.old) (known self.new)) }
        ensures room { TakesRoom 0 (room_end self.old) (room_end self.new) (room_calls self.old) (room_calls self.new) }
        ensures device { device_calls self.new ≡ device_calls self.old + 1 }
        ensures crash { Narrows (may_leave self.old) (may_leave self.new) }
        ensures time { Elapses (moment self.old) (moment self.new) (left_since self.old) (left_since self.new) (may_leave self.new) };

    /// Writes over what is there, and past the end. Until a sync a crash may leave any bytes in the range; so it may
    /// where the write failed.
    fn write_at(&mut self, at: u64, from: &[u8]) -> Result<(), Failed>
        requires begins { at ≤ (known self.old).size }
        requires end { at + length from.now ≤ room_end self.old }
        requires calls { 0 < room_calls self.old }
        ensures whole { OnOk result ((known self.old).broken ≡ false) }
        ensures done { OnOk result (known self.new ≡ written at from.now (known self.old)) }
        ensures failed { OnErr result (Breaks (known self.old) (known self.new)) }
        ensures room { TakesRoom 1 (room_end self.old) (room_end self.new) (room_calls self.old) (room_calls self.new) }
        ensures device { device_calls self.new ≡ device_calls self.old + 1 }
        ensures crash { Follows (Torn at (length from.now)) (may_leave self.old) (may_leave self.new) }
        ensures time { Elapses (moment self.old) (moment self.new) (left_since self.old) (left_since self.new) (may_leave self.new) };

    /// Makes what was written safe: after it a crash leaves just what a read gives.
    fn sync(&mut self) -> Result<(), Failed>
        requires calls { 0 < room_calls self.old }
        ensures durable { OnOk result (IsDurable (known self.new).reads (may_leave self.new)) }
        ensures whole { OnOk result ((known self.old).broken ≡ false) }
        ensures same { OnOk result (known self.new ≡ known self.old) }
        ensures failed { OnErr result (Breaks (known self.old) (known self.new)) }
        ensures room { TakesRoom 1 (room_end self.old) (room_end self.new) (room_calls self.old) (room_calls self.new) }
        ensures device { device_calls self.new ≡ device_calls self.old + 1 }
        ensures crash { Narrows (may_leave self.old) (may_leave self.new) }
        ensures time { Elapses (moment self.old) (moment self.new) (left_since self.old) (left_since self.new) (may_leave self.new) };

    /// Goes on after a fault or a stop: what reads from then on is one of the images that a crash might have left, and
    /// nothing is pending.
    fn settle(&mut self) -> Result<(), Failed>
        requires calls { 0 < room_calls self.old }
        ensures tells { is_some (known self.new).reads ≡ is_some (known self.old).reads }
        ensures image { OnOk result (IsImage (known self.new).reads (may_leave self.old)) }
        ensures durable { OnOk result (IsDurable (known self.new).reads (may_leave self.new)) }
        ensures done { OnOk result (known self.new ≡ record (known self.old) { reads = (known self.new).reads; size = (known self.new).size; broken = false }) }
        ensures failed { OnErr result (Breaks (known self.old) (known self.new)) }
        ensures room { TakesRoom 1 (room_end self.old) (room_end self.new) (room_calls self.old) (room_calls self.new) }
        ensures device { device_calls self.new ≡ device_calls self.old }
        ensures crash { Narrows (may_leave self.old) (may_leave self.new) }
        ensures time { Elapses (moment self.old) (moment self.new) (left_since self.old) (left_since self.new) (may_leave self.new) };

    /// Has the `nth` of the following reads, writes and syncs fail, where the disk can be told so, counted from 1; the
    /// choice says what the next `settle` finds. The arm is told with the number of calls made so far. It changes no
    /// content.
    fn arm(&mut self, nth: u64, choice: u64) -> Mem<()>
        requires { 0 < nth }
        ensures armed { OnOk result (known self.new ≡ armed_at (device_calls self.old) nth choice (known self.old)) }
        ensures same { OnErr result (known self.new ≡ known self.old) }
        ensures room { TakesRoom 0 (room_end self.old) (room_end self.new) (room_calls self.old) (room_calls self.new) }
        ensures device { device_calls self.new ≡ device_calls self.old }
        ensures crash { Narrows (may_leave self.old) (may_leave self.new) }
        ensures time { Elapses (moment self.old) (moment self.new) (left_since self.old) (left_since self.new) (may_leave self.new) };

    /// The size is the number of bytes that read, where they are told.
    ghost size_is: { (disk : Self) → IfSome (known disk).reads (λ bytes. (known disk).size ≡ length bytes) };

    /// What reads is what a crash may leave, where no call has failed.
    ghost leaves_what_reads: { (disk : Self) → (known disk).broken ≡ false → IsImage (known disk).reads (may_leave disk) };

    /// This moment is one of those since an earlier one.
    ghost counts_now: { (disk : Self) (t : ℕ) (image : List ℕ) → t ≤ moment disk → may_leave disk image → left_since disk t image };

    /// Since this moment there is no other.
    ghost only_now: { (disk : Self) (image : List ℕ) → left_since disk (moment disk) image → may_leave disk image };
}

//! A journal on a disk: bodies are appended to it.
ghost use Rattle.std.specs.Prelude.{◌≡◌, ◌+◌, ◌-◌, ◌<◌, ◌≤◌, ◌++◌, ◌∷◌, [], ℕ, List, length, min, is_some, option_map, vec_capacity, true, false, Err, OnOk, OnErr};
ghost use Rattle.walter_disk.specs.Disks.{armed_at, written, Breaks, Fails, MakesRoom, TakesRoom};
ghost use Rattle.walter_disk.specs.Images.{Torn, Only, IsDurable, Follows, Narrows, Elapses, LeavesOnly};
ghost use Rattle.walter_journal.specs.Zeros.{zeros as zeros_of, filled_disk, writes_of, Grows, HasGrown};
ghost use Rattle.walter_journal.specs.Layout.{record_of, IsBehindOrOneMore};

use crate::fault::AppendFault;
use crate::filling::fill;
use byteorder::{BigEndian, ByteOrder};
use std::alloc::Global;
use walter_disk::{Disk, Failed, Mem, NoMemory, write_and_sync};

/// A journal on a disk. Clauses see the lists of bodies that it stands for.
#[derive(Drop)]
pub struct Journal<D: Disk> {
    disk: D,
    capacity: u64,
    end: u64,
    // The bytes of the next write.
    staged: Vec<u8>,
    ghost begun: { 9 ≤ end },
    ghost within: { end ≤ (D.known disk).size },
}

impl<D: Disk> Journal<D> {
    ghost use Rattle.walter_journal.specs.Journals.{disk_of, end_of, capacity_of, left_of, need_of, staged_of, StandsBehind, HasRoom, Appends};

    /// The journal on a disk that has it, with the place behind its bodies.
    pub fn new(alloc: Global, disk: D, capacity: u64, end: u64) -> Journal<D>
        requires begun { 9 ≤ end }
        requires within { end ≤ (D.known disk).size }
        ensures disk { disk_of result ≡ disk }
        ensures capacity { capacity_of result ≡ capacity }
        ensures end { end_of result ≡ end }
    {
        Journal {
            disk,
            capacity,
            end,
            staged: Vec::new(alloc),
        }
    }

    pub fn disk(&self) -> &D
        ensures { result.now ≡ disk_of self.now }
    {
        &self.disk
    }

    /// The disk, as it is.
    pub fn into_disk(self) -> D
        ensures { result ≡ disk_of self }
    {
        let Journal { disk, .. } = self;
        disk
    }

    /// Does to the disk what `Disk::arm` does.
    pub fn arm(&mut self, nth: u64, choice: u64) -> Mem<()>
        requires { 0 < nth }
        ensures armed { let old = disk_of self.old in
            OnOk result (D.known (disk_of self.new) ≡ armed_at (D.device_calls old) nth choice (D.known old)) }
        ensures same { OnErr result (D.known (disk_of self.new) ≡ D.known (disk_of self.old)) }
        ensures capacity { capacity_of self.new ≡ capacity_of self.old }
        ensures end { end_of self.new ≡ end_of self.old }
        ensures device { D.device_calls (disk_of self.new) ≡ D.device_calls (disk_of self.old) }
        ensures room { (n : ℕ) → HasRoom self.old n → HasRoom self.new n }
        ensures reach { TakesRoom 0 (D.room_end (disk_of self.old)) (D.room_end (disk_of self.new))
            (D.room_calls (disk_of self.old)) (D.room_calls (disk_of self.new)) }
        ensures staged { staged_of self.new ≡ staged_of self.old }
        ensures stands { (front : List ℕ) (bodies : List (List ℕ))
            → StandsBehind front self.old bodies → StandsBehind front self.new bodies }
        ensures crash { Narrows (D.may_leave (disk_of self.old)) (D.may_leave (disk_of self.new)) }
        ensures any_moment { LeavesOnly D.moment D.left_since (disk_of self.old) (disk_of self.new)
            (D.may_leave (disk_of self.old)) }
    {
        self.disk.arm(nth, choice)
    }

    /// Makes room to append a body of `n` bytes.
    pub fn make_room(&mut self, n: u64) -> Mem<()>
        ensures room { OnOk result (HasRoom self.new n) }
        ensures same { D.known (disk_of self.new) ≡ D.known (disk_of self.old) }
        ensures capacity { capacity_of self.new ≡ capacity_of self.old }
        ensures end { end_of self.new ≡ end_of self.old }
        ensures device { D.device_calls (disk_of self.new) ≡ D.device_calls (disk_of self.old) }
        ensures reach { OnOk result (TakesRoom 0
            (D.room_end (disk_of self.old)) (D.room_end (disk_of self.new))
            (D.room_calls (disk_of self.old)) (D.room_calls (disk_of self.new))) }
        ensures stands { (front : List ℕ) (bodies : List (List ℕ))
            → StandsBehind front self.old bodies → StandsBehind front self.new bodies }
        ensures crash { Narrows (D.may_leave (disk_of self.old)) (D.may_leave (disk_of self.new)) }
        ensures any_moment { LeavesOnly D.moment D.left_since (disk_of self.old) (disk_of self.new)
            (D.may_leave (disk_of self.old)) }
    {
        // No disk and no memory reaches past the largest number.
        let need = n.checked_add(5).ok_or(NoMemory)?;
        let reach = self.end.checked_add(need).ok_or(NoMemory)?;
        self.staged.clear();
        self.staged.reserve(need as usize)?;
        self.disk.reserve(reach, 4)
    }

    /// Makes room to write elsewhere: up to a place, and for so many calls.
    pub fn reserve(&mut self, reach: u64, calls: u64) -> Mem<()>
        ensures room { OnOk result (MakesRoom reach calls
            (D.room_end (disk_of self.old)) (D.room_end (disk_of self.new))
            (D.room_calls (disk_of self.old)) (D.room_calls (disk_of self.new))) }
        ensures still { (n : ℕ) → OnOk result (HasRoom self.old n → HasRoom self.new n) }
        ensures same { D.known (disk_of self.new) ≡ D.known (disk_of self.old) }
        ensures capacity { capacity_of self.new ≡ capacity_of self.old }
        ensures end { end_of self.new ≡ end_of self.old }
        ensures device { D.device_calls (disk_of self.new) ≡ D.device_calls (disk_of self.old) }
        ensures staged { staged_of self.new ≡ staged_of self.old }
        ensures stands { (front : List ℕ) (bodies : List (List ℕ))
            → StandsBehind front self.old bodies → StandsBehind front self.new bodies }
        ensures crash { Narrows (D.may_leave (disk_of self.old)) (D.may_leave (disk_of self.new)) }
        ensures any_moment { LeavesOnly D.moment D.left_since (disk_of self.old) (disk_of self.new)
            (D.may_leave (disk_of self.old)) }
    {
        self.disk.reserve(reach, calls)
    }

    /// Does to the disk what `Disk::write_at` does. Whether that takes bodies away is the caller's to know.
    pub fn write(&mut self, at: u64, from: &[u8]) -> Result<(), Failed>
        requires begins { at ≤ (D.known (disk_of self.old)).size }
        requires end { at + length from.now ≤ D.room_end (disk_of self.old) }
        requires calls { 0 < D.room_calls (disk_of self.old) }
        ensures whole { OnOk result ((D.known (disk_of self.old)).broken ≡ false) }
        ensures done { OnOk result (
            D.known (disk_of self.new) ≡ written at from.now (D.known (disk_of self.old))) }
        ensures failed { OnErr result (Breaks (D.known (disk_of self.old)) (D.known (disk_of self.new))) }
        ensures room { TakesRoom 1 (D.room_end (disk_of self.old)) (D.room_end (disk_of self.new))
            (D.room_calls (disk_of self.old)) (D.room_calls (disk_of self.new)) }
        ensures device { D.device_calls (disk_of self.new) ≡ D.device_calls (disk_of self.old) + 1 }
        ensures capacity { capacity_of self.new ≡ capacity_of self.old }
        ensures same_end { end_of self.new ≡ end_of self.old }
        ensures staged { staged_of self.new ≡ staged_of self.old }
        ensures crash { Follows (Torn at (length from.now))
            (D.may_leave (disk_of self.old)) (D.may_leave (disk_of self.new)) }
        ensures time { Elapses (D.moment (disk_of self.old)) (D.moment (disk_of self.new))
            (D.left_since (disk_of self.old)) (D.left_since (disk_of self.new)) (D.may_leave (disk_of self.new)) }
    {
        self.disk.write_at(at, from)
    }

    /// Does to the disk what `fill` does.
    pub fn fill(&mut self, zeros: &[u8], to: u64) -> Result<(), Failed>
        requires zeros { zeros.now ≡ zeros_of (length zeros.now) }
        requires few { length zeros.now ≤ 65536 }
        requires enough { min 65536 (to - (D.known (disk_of self.old)).size) ≤ length zeros.now }
        requires end { to ≤ D.room_end (disk_of self.old) }
        requires calls { writes_of (to - (D.known (disk_of self.old)).size) ≤ D.room_calls (disk_of self.old) }
        ensures done { OnOk result (
            D.known (disk_of self.new) ≡ filled_disk to (D.known (disk_of self.old))) }
        ensures failed { OnErr result (Fails (D.known (disk_of self.old)) (D.known (disk_of self.new))) }
        ensures room { TakesRoom (writes_of (to - (D.known (disk_of self.old)).size))
            (D.room_end (disk_of self.old)) (D.room_end (disk_of self.new))
            (D.room_calls (disk_of self.old)) (D.room_calls (disk_of self.new)) }
        ensures device { OnOk result (D.device_calls (disk_of self.new)
            ≡ D.device_calls (disk_of self.old) + writes_of (to - (D.known (disk_of self.old)).size)) }
        ensures at_most { D.device_calls (disk_of self.new)
            ≤ D.device_calls (disk_of self.old) + writes_of (to - (D.known (disk_of self.old)).size) }
        ensures capacity { capacity_of self.new ≡ capacity_of self.old }
        ensures same_end { end_of self.new ≡ end_of self.old }
        ensures staged { staged_of self.new ≡ staged_of self.old }
        ensures crash { Follows (Grows (D.known (disk_of self.old)).size to)
            (D.may_leave (disk_of self.old)) (D.may_leave (disk_of self.new)) }
        ensures any_moment { LeavesOnly D.moment D.left_since (disk_of self.old) (disk_of self.new)
            (HasGrown (D.known (disk_of self.old)).size to (D.may_leave (disk_of self.old))) }
    {
        fill(&mut self.disk, zeros, to)
    }

    /// Does to the disk what `Disk::sync` does.
    pub fn sync(&mut self) -> Result<(), Failed>
        requires calls { 0 < D.room_calls (disk_of self.old) }
        ensures durable { OnOk result (
            IsDurable (D.known (disk_of self.new)).reads (D.may_leave (disk_of self.new))) }
        ensures whole { OnOk result ((D.known (disk_of self.old)).broken ≡ false) }
        ensures same { OnOk result (D.known (disk_of self.new) ≡ D.known (disk_of self.old)) }
        ensures failed { OnErr result (Breaks (D.known (disk_of self.old)) (D.known (disk_of self.new))) }
        ensures room { TakesRoom 1 (D.room_end (disk_of self.old)) (D.room_end (disk_of self.new))
            (D.room_calls (disk_of self.old)) (D.room_calls (disk_of self.new)) }
        ensures device { D.device_calls (disk_of self.new) ≡ D.device_calls (disk_of self.old) + 1 }
        ensures capacity { capacity_of self.new ≡ capacity_of self.old }
        ensures same_end { end_of self.new ≡ end_of self.old }
        ensures staged { staged_of self.new ≡ staged_of self.old }
        ensures crash { Narrows (D.may_leave (disk_of self.old)) (D.may_leave (disk_of self.new)) }
        ensures time { Elapses (D.moment (disk_of self.old)) (D.moment (disk_of self.new))
            (D.left_since (disk_of self.old)) (D.left_since (disk_of self.new)) (D.may_leave (disk_of self.new)) }
    {
        self.disk.sync()
    }

    /// Writes bytes elsewhere, and makes them safe. Whether that takes bodies away is the caller's to know, as with
    /// `write`.
    pub fn write_elsewhere(&mut self, at: u64, from: &[u8]) -> Result<(), Failed>
        requires begins { at ≤ (D.known (disk_of self.old)).size }
        requires end { at + length from.now ≤ D.room_end (disk_of self.old) }
        requires calls { 2 ≤ D.room_calls (disk_of self.old) }
        ensures whole { OnOk result ((D.known (disk_of self.old)).broken ≡ false) }
        ensures done { OnOk result (
            D.known (disk_of self.new) ≡ written at from.now (D.known (disk_of self.old))) }
        ensures durable { OnOk result (
            IsDurable (D.known (disk_of self.new)).reads (D.may_leave (disk_of self.new))) }
        ensures failed { OnErr result (Fails (D.known (disk_of self.old)) (D.known (disk_of self.new))) }
        ensures room { TakesRoom 2 (D.room_end (disk_of self.old)) (D.room_end (disk_of self.new))
            (D.room_calls (disk_of self.old)) (D.room_calls (disk_of self.new)) }
        ensures device { OnOk result (D.device_calls (disk_of self.new) ≡ D.device_calls (disk_of self.old) + 2) }
        ensures at_most { D.device_calls (disk_of self.new) ≤ D.device_calls (disk_of self.old) + 2 }
        ensures capacity { capacity_of self.new ≡ capacity_of self.old }
        ensures same_end { end_of self.new ≡ end_of self.old }
        ensures staged { staged_of self.new ≡ staged_of self.old }
        ensures any_moment { (bytes : List ℕ) → Only bytes (D.may_leave (disk_of self.old))
            → LeavesOnly D.moment D.left_since (disk_of self.old) (disk_of self.new)
            (Torn at (length from.now) bytes) }
    {
        write_and_sync(&mut self.disk, at, from)
    }

    /// Goes on behind another closed gate of its disk: the gate stands in front of `end`.
    pub fn go_on(&mut self, end: u64, capacity: u64)
        requires begun { 9 ≤ end }
        requires within { end ≤ (D.known (disk_of self.old)).size }
        ensures disk { disk_of self.new ≡ disk_of self.old }
        ensures end { end_of self.new ≡ end }
        ensures capacity { capacity_of self.new ≡ capacity }
        ensures staged { staged_of self.new ≡ staged_of self.old }
    {
        self.end = end;
        self.capacity = capacity;
    }

    /// Adds a body behind the others. It takes no memory, and is safe once this answers Ok. After `Failed` each append
    /// that isn't `Full` fails, until the journal is loaded again.
    pub fn append(&mut self, body: &[u8]) -> Result<(), AppendFault>
        requires short { length body.now ≤ 65536 }
        requires room { HasRoom self.old (length body.now) }

        // `Full` comes exactly where the body needs more than is left.
        ensures full { left_of self.old < need_of body.now
            → (result ≡ Err (AppendFault.Full (need_of body.now) (left_of self.old)))
            × (self.new ≡ self.old) }
        ensures failed { need_of body.now ≤ left_of self.old
            → OnErr result ((result ≡ Err AppendFault.Failed)
            × Fails (D.known (disk_of self.old)) (D.known (disk_of self.new))
            × (end_of self.new ≡ end_of self.old)) }
        ensures broken { need_of body.now ≤ left_of self.old
            → (D.known (disk_of self.old)).broken ≡ true → result ≡ Err AppendFault.Failed }
        ensures ok { OnOk result (Appends self.old self.new body.now) }
        ensures behind { OnOk result ((front : List ℕ) (bodies : List (List ℕ))
            → StandsBehind front self.old bodies → StandsBehind front self.new (bodies ++ body.now ∷ [])) }

        // A crash at any moment of the call leaves the bodies from before it, with this one behind them or without.
        ensures any_moment { (front : List ℕ) (bodies : List (List ℕ)) → StandsBehind front self.old bodies
            → LeavesOnly D.moment D.left_since (disk_of self.old) (disk_of self.new)
            (IsBehindOrOneMore front bodies body.now) }
        ensures arms { (D.known (disk_of self.new)).arms ≡ (D.known (disk_of self.old)).arms }
        ensures tells { is_some (D.known (disk_of self.new)).reads
            ≡ is_some (D.known (disk_of self.old)).reads }
        ensures capacity { capacity_of self.new ≡ capacity_of self.old }
        ensures device { OnOk result (D.device_calls (disk_of self.new) ≡ D.device_calls (disk_of self.old) + 4) }
        ensures at_most { D.device_calls (disk_of self.new) ≤ D.device_calls (disk_of self.old) + 4 }
    {
        let need = body.len() as u64 + 5;
        let left = self.capacity.saturating_sub(self.end);
        if need > left {
            return Err(AppendFault::Full { need, left });
        }
        stage(&mut self.staged, body);
        write_and_sync(&mut self.disk, self.end, &self.staged)?;
        // The gate in front opens only once what stands behind it is safe.
        write_and_sync(&mut self.disk, self.end - 1, &[1])?;
        self.end += need;
        Ok(())
    }
}

// Leaves the body's record there, and the closed gate behind it.
fn stage(staged: &mut Vec<u8>, body: &[u8])
    requires short { length body.now ≤ 65536 }
    requires room { length body.now + 5 ≤ vec_capacity staged.old }
    ensures { staged.new.items ≡ record_of body.now ++ 0 ∷ [] }
{
    let mut length = [0; 4];
    BigEndian::write_u32(&mut length, body.len() as u32);
    staged.clear();
    staged.extend_from_slice(&length).unwrap();
    staged.extend_from_slice(body).unwrap();
    staged.extend_from_slice(&[0]).unwrap();
}

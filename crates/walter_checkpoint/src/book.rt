//! A book on a disk: bodies are appended to its live area, and packed into the other.
ghost use Rattle.std.specs.Prelude.{◌≡◌, ◌≢◌, ◌^◌, ◌+◌, ◌≤◌, ◌-◌, ◌/◌, ◌++◌, ◌∷◌, ℕ, List, length, is_some, is_err, slice_get, true, false, [], min, ◌<◌, Err, Some, IfSome, OnOk, OnErr};
ghost use Rattle.walter_disk.specs.Disks.{armed_at, written, Fails, TakesRoom};
ghost use Rattle.walter_disk.specs.Images.{IsDurable, LeavesOnly};
ghost use Rattle.walter_checkpoint.specs.Books.{areas_of, HasLaid, IsLaidBeforeOrBehind};
ghost use Rattle.walter_checkpoint.specs.Books.{disk_of, shape_of, left_of, HasRoom, HasRoomBehind, ReachesBehind, IsSameBook, Appends, live_after, switch_of, calls_of_pack, StandsFor, GoesOn, IsReady, IsOther, HasPackRoom, HasBeenWritten, ChangesFrom, Packs};
ghost use Rattle.walter_journal.specs.Journals.{need_of, end_of, capacity_of, staged_of, disk_of as journal_disk};
ghost use Rattle.walter_journal.specs.Zeros.{zeros as zeros_of, filled_disk, writes_of};

use walter_base::Format;
use walter_disk::{Disk, Failed, Mem, NoMemory};
use walter_journal::{AppendFault, Journal};

/// Which part of its disk is live: all of it, or one of two areas.
#[derive(Clone, Copy, Debug, PartialEq, Eq)]
pub(crate) enum Live {
    Whole,
    A,
    B,
}

/// An area that is to be live: its place, and the switch byte that makes it so.
#[derive(Clone, Copy, Debug)]
pub(crate) struct Other {
    pub(crate) at: u64,
    pub(crate) switch: u8,
    pub(crate) live: Live,
}

/// The area of a book of two that isn't live.
pub(crate) fn other_area(live: Live, size: u64) -> Other
    requires two { live ≢ Live.Whole }
    requires fits { size ≤ 2 ^ 63 }
    ensures { IsOther live size result }
{
    match live {
        Live::B => Other {
            at: 9,
            switch: 0,
            live: Live::A,
        },
        _ => Other {
            at: 9 + size,
            switch: 1,
            live: Live::B,
        },
    }
}

/// A book on a disk. Clauses see the lists of bodies that it stands for.
#[derive(Drop)]
pub struct Book<D: Disk> {
    pub(crate) journal: Journal<D>,
    pub(crate) capacity: u64,
    pub(crate) sites: u8,
    pub(crate) format: Format,
    pub(crate) live: Live,
    // What `pack` writes into the other area, and zeros for what is missing in front of it.
    pub(crate) renewal: Vec<u8>,
    pub(crate) zeros: Vec<u8>,
}

impl<D: Disk> Book<D> {
    /// Does to the disk what `Disk::arm` does.
    pub fn arm(&mut self, nth: u64, choice: u64) -> Mem<()>
        requires { 0 < nth }
        ensures armed { let old = disk_of self.old in
            OnOk result (D.known (disk_of self.new) ≡ armed_at (D.device_calls old) nth choice (D.known old)) }
        ensures same { OnErr result (D.known (disk_of self.new) ≡ D.known (disk_of self.old)) }
        ensures room { (n : ℕ) → HasRoom self.old n → HasRoom self.new n }
        ensures room_behind { (n : ℕ) → HasRoomBehind self.old n → HasRoomBehind self.new n }
        ensures pack_room { HasPackRoom self.old → HasPackRoom self.new }
        ensures same_book { IsSameBook self.old self.new }
    {
        self.journal.arm(nth, choice)
    }

    /// Makes room to append a body of `n` bytes; where a pack is ready, to do so behind it as well.
    pub fn make_room(&mut self, n: u64) -> Mem<()>
        ensures room { OnOk result (HasRoom self.new n) }
        ensures room_behind { (bodies : List (List ℕ)) → IsReady self.old bodies
            → OnOk result (HasRoomBehind self.new n) }
        ensures pack_room { OnOk result (HasPackRoom self.old → HasPackRoom self.new) }
        ensures same { D.known (disk_of self.new) ≡ D.known (disk_of self.old) }
        ensures same_book { IsSameBook self.old self.new }
    {
        self.journal.make_room(n)?;
        self.make_room_behind(n)
    }

    // Makes room on the disk for the pack that is ready, if one is, and for a body of `n` bytes behind it.
    fn make_room_behind(&mut self, n: u64) -> Mem<()>
        ensures room { (m : ℕ) → OnOk result (HasRoom self.old m → HasRoom self.new m) }
        ensures behind { (bodies : List (List ℕ)) → IsReady self.old bodies → self.old.live ≢ Live.Whole
            → OnOk result (ReachesBehind D.Disk (disk_of self.new) (shape_of self.new) self.new.live
            (length self.new.renewal.items + 5 + n)) }
        ensures pack_room { OnOk result (HasPackRoom self.old → HasPackRoom self.new) }
        ensures same { D.known (disk_of self.new) ≡ D.known (disk_of self.old) }
        ensures same_book { IsSameBook self.old self.new }
    {
        if let Live::Whole = self.live {
            return Ok(());
        }
        if self.renewal.is_empty() {
            return Ok(());
        }
        let Other { at, .. } = other_area(self.live, self.capacity.saturating_sub(9) / 2);
        let missing = at.saturating_sub(self.journal.disk().size());
        let need = n.checked_add(5).ok_or(NoMemory)?;
        let packed = at.checked_add(self.renewal.len() as u64).ok_or(NoMemory)?;
        let reach = packed.checked_add(need).ok_or(NoMemory)?;
        self.journal.reserve(reach, (missing + 65_535) / 65_536 + 8)
    }

    /// Begins the other area with a pack of all bodies, and makes it live. A journal of one area stays as it is. After
    /// `Failed` the book is to be loaded again.
    pub fn pack(&mut self) -> Result<(), Failed>
        requires room { HasPackRoom self.old }

        // A crash at any moment of the call leaves the bodies from before it.
        ensures any_moment { (bodies : List (List ℕ)) → StandsFor self.old bodies → IsReady self.old bodies
            → LeavesOnly D.moment D.left_since (disk_of self.old) (disk_of self.new)
            (λ image. HasLaid self.old.live (shape_of self.old) image bodies) }
        ensures ok { (bodies : List (List ℕ)) → StandsFor self.old bodies → IsReady self.old bodies
            → OnOk result (Packs self.old self.new bodies) }

        // Where the disk doesn't tell its bytes, too, the book goes on behind the pack.
        ensures goes_on { (bodies : List (List ℕ)) → IsReady self.old bodies
            → OnOk result (ChangesFrom self.old.live self.old self.new (GoesOn self.new bodies [])) }
        ensures stands { (bodies : List (List ℕ)) → StandsFor self.old bodies → IsReady self.old bodies
            → OnOk result (StandsFor self.new bodies) }

        // It takes no memory, nor then does the append of a body for which room was made.
        ensures room { (n : ℕ) → HasRoomBehind self.old n → OnOk result (HasRoom self.new n) }
        ensures spent { self.old.live ≢ Live.Whole → OnOk result (self.new.renewal.items ≡ []) }
        ensures failed { OnErr result (Fails (D.known (disk_of self.old)) (D.known (disk_of self.new))) }
        ensures broken { self.old.live ≢ Live.Whole
            → (D.known (disk_of self.old)).broken ≡ true → is_err result ≡ true }
        ensures whole { OnOk result ((D.known (disk_of self.new)).broken ≡ (D.known (disk_of self.old)).broken) }
        ensures faultless { OnOk result ((D.known (disk_of self.new)).faults ≡ (D.known (disk_of self.old)).faults) }
        ensures arms { (D.known (disk_of self.new)).arms ≡ (D.known (disk_of self.old)).arms }
        ensures tells { is_some (D.known (disk_of self.new)).reads
            ≡ is_some (D.known (disk_of self.old)).reads }
        ensures shape { shape_of self.new ≡ shape_of self.old }
        ensures live { OnOk result (self.new.live ≡ live_after self.old.live) }

        // Of the bytes that make area A live it writes 0.
        ensures switch { self.old.live ≢ Live.Whole → OnOk result (IfSome (D.known (disk_of self.new)).reads
            (λ bytes. slice_get bytes 8 ≡ Some (switch_of self.new.live))) }
        ensures device { OnOk result (D.device_calls (disk_of self.new) ≡ D.device_calls (disk_of self.old)
            + calls_of_pack (shape_of self.old) self.old.live (D.known (disk_of self.old)).size) }
        ensures at_most { D.device_calls (disk_of self.new) ≤ D.device_calls (disk_of self.old)
            + calls_of_pack (shape_of self.old) self.old.live (D.known (disk_of self.old)).size }
    {
        if let Live::Whole = self.live {
            return Ok(());
        }
        let size = (self.capacity - 9) / 2;
        let Other { at, switch, live } = other_area(self.live, size);
        write_pack(&mut self.journal, &self.zeros, at, &self.renewal)?;
        self.journal.write_elsewhere(8, &[switch])?;
        self.journal
            .go_on(at + self.renewal.len() as u64, at + size);
        self.live = live;
        self.renewal.clear();
        Ok(())
    }

    /// Of how many areas the book is: 1 or 2.
    pub fn areas(&self) -> u8
        ensures { result ≡ areas_of self.now.live }
    {
        match self.live {
            Live::Whole => 1,
            Live::A | Live::B => 2,
        }
    }

    /// The format that its header names.
    pub fn format(&self) -> Format
        ensures { result ≡ (shape_of self.now).header }
    {
        self.format
    }

    /// The disk, as it is.
    pub fn into_disk(self) -> D
        ensures { result ≡ disk_of self }
    {
        let Book { journal, .. } = self;
        journal.into_disk()
    }

    /// Adds a body behind the others. It takes no memory, and is safe once this answers Ok. After `Failed` each append
    /// that isn't `Full` fails, until the book is loaded again.
    pub fn append(&mut self, body: &[u8]) -> Result<(), AppendFault>
        requires short { length body.now ≤ 65536 }
        requires room { HasRoom self.old (length body.now) }

        // `Full` comes exactly where the body needs more than is left.
        ensures full { left_of self.old < need_of body.now
            → (result ≡ Err (AppendFault.Full (need_of body.now) (left_of self.old)))
            × (self.new ≡ self.old) }
        ensures failed { need_of body.now ≤ left_of self.old
            → OnErr result ((result ≡ Err AppendFault.Failed)
            × Fails (D.known (disk_of self.old)) (D.known (disk_of self.new))) }
        ensures broken { need_of body.now ≤ left_of self.old
            → (D.known (disk_of self.old)).broken ≡ true → result ≡ Err AppendFault.Failed }
        ensures ok { OnOk result (Appends self.old self.new body.now) }
        ensures stands { (bodies : List (List ℕ)) → StandsFor self.old bodies
            → OnOk result (StandsFor self.new (bodies ++ body.now ∷ [])) }

        // What was ready for `pack` isn't all of it any more.
        ensures spent { OnOk result (self.new.renewal.items ≡ []) }

        // A crash at any moment of the call leaves the bodies from before it, with this one behind them or without.
        ensures any_moment { (bodies : List (List ℕ)) → StandsFor self.old bodies
            → LeavesOnly D.moment D.left_since (disk_of self.old) (disk_of self.new)
            (IsLaidBeforeOrBehind self.old.live (shape_of self.old) bodies body.now) }
        ensures arms { (D.known (disk_of self.new)).arms ≡ (D.known (disk_of self.old)).arms }
        ensures tells { is_some (D.known (disk_of self.new)).reads
            ≡ is_some (D.known (disk_of self.old)).reads }
        ensures shape { shape_of self.new ≡ shape_of self.old }
        ensures live { self.new.live ≡ self.old.live }
        ensures device { OnOk result (D.device_calls (disk_of self.new) ≡ D.device_calls (disk_of self.old) + 4) }
        ensures at_most { D.device_calls (disk_of self.new) ≤ D.device_calls (disk_of self.old) + 4 }
    {
        self.journal.append(body)?;
        self.renewal.clear();
        Ok(())
    }
}

// Writes a pack at a place, behind zeros where the disk ends in front of it, and makes it safe.
fn write_pack<D: Disk>(
    journal: &mut Journal<D>,
    zeros: &[u8],
    at: u64,
    pack: &[u8],
) -> Result<(), Failed>
    requires zeros { zeros.now ≡ zeros_of (length zeros.now) }
    requires few { length zeros.now ≤ 65536 }
    requires enough { min 65536 (at - (D.known (journal_disk journal.old)).size) ≤ length zeros.now }
    requires end { at + length pack.now ≤ D.room_end (journal_disk journal.old) }
    requires calls { writes_of (at - (D.known (journal_disk journal.old)).size) + 2
        ≤ D.room_calls (journal_disk journal.old) }
    ensures whole { OnOk result ((D.known (journal_disk journal.old)).broken ≡ false) }
    ensures done { OnOk result (D.known (journal_disk journal.new)
        ≡ written at pack.now (filled_disk at (D.known (journal_disk journal.old)))) }
    ensures durable { OnOk result (IsDurable (D.known (journal_disk journal.new)).reads
        (D.may_leave (journal_disk journal.new))) }
    ensures failed { OnErr result (Fails (D.known (journal_disk journal.old)) (D.known (journal_disk journal.new))) }
    ensures room { TakesRoom (writes_of (at - (D.known (journal_disk journal.old)).size) + 2)
        (D.room_end (journal_disk journal.old)) (D.room_end (journal_disk journal.new))
        (D.room_calls (journal_disk journal.old)) (D.room_calls (journal_disk journal.new)) }
    ensures device { OnOk result (D.device_calls (journal_disk journal.new) ≡ D.device_calls (journal_disk journal.old)
        + writes_of (at - (D.known (journal_disk journal.old)).size) + 2) }
    ensures at_most { D.device_calls (journal_disk journal.new) ≤ D.device_calls (journal_disk journal.old)
        + writes_of (at - (D.known (journal_disk journal.old)).size) + 2 }
    ensures capacity { capacity_of journal.new ≡ capacity_of journal.old }
    ensures same_end { end_of journal.new ≡ end_of journal.old }
    ensures staged { staged_of journal.new ≡ staged_of journal.old }
    ensures any_moment { LeavesOnly D.moment D.left_since (journal_disk journal.old) (journal_disk journal.new)
        (HasBeenWritten (D.known (journal_disk journal.old)).size at (length pack.now)
        (D.may_leave (journal_disk journal.old))) }
{
    journal.fill(zeros, at)?;
    journal.write(at, pack)?;
    journal.sync()
}

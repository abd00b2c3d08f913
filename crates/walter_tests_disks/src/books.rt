//! Books over disks in memory: what fits, what a restart packs, and what a stop leaves.
ghost use Rattle.std.specs.Prelude.{◌≡◌, ◌<◌, ◌≤◌, ◌++◌, ◌∷◌, [], length, Ok, IsSome, IfOk};
ghost use Rattle.walter_checkpoint.specs.Books.{StandsFor};
ghost use Rattle.walter_checkpoint.specs.Loads.{IsAreas};

use crate::journals::{BOOT, FIRST_COMMIT, LONGEST_BODY};
use std::alloc::Global;
use std::test::Fail;
use walter_base::Format;
use walter_checkpoint::{Book, load};
use walter_disk::Disk;
use walter_disk_memory::MemoryDisk;
use walter_journal::{AppendFault, Bodies, JournalFault};

/// The record of the second epoch.
const SECOND_BOOT: &[u8] = &[1, 0, 0, 0, 2];

/// How a restart ends behind its load.
#[derive(Clone, Copy, Debug, PartialEq, Eq)]
enum Ending {
    Ended(Result<(), AppendFault>),
    NotPacked,
    NoRoom,
}

/// What a restart does: it loads a book, begins it anew, and adds a body. The book comes back with the bodies that were
/// found, or the disk with the fault. A call of the disk behind the load may be named that fails.
fn restart<D: Disk>(
    alloc: Global,
    disk: D,
    capacity: u64,
    areas: u8,
    arm: (u64, u64),
    body: &[u8],
) -> Result<(Book<D>, Bodies, Ending), (D, JournalFault)>
    requires areas { IsAreas areas capacity }
    requires armed { 0 < arm.0 }
    requires short { length body.now ≤ 65536 }
    ensures { IsSome (D.known disk).reads → IfOk result (λ it.
        it.2 ≡ Ending.Ended (Ok tt) → StandsFor it.0 (it.1 ++ body.now ∷ [])) }
{
    let (mut book, bodies) = load(alloc, disk, capacity, areas, 1, Format::First)?;
    if book.arm(arm.0, arm.1).is_err() {
        return Ok((book, bodies, Ending::NoRoom));
    }
    if book.make_room(body.len() as u64).is_err() {
        return Ok((book, bodies, Ending::NoRoom));
    }
    if book.pack().is_err() {
        return Ok((book, bodies, Ending::NotPacked));
    }
    let ended = book.append(body);
    Ok((book, bodies, Ending::Ended(ended)))
}

/// One area or two, where the capacity is great enough for two.
pub(crate) fn areas_in(two: bool, capacity: u64) -> u8
    ensures { IsAreas result capacity }
{
    if two && capacity >= 47 { 2 } else { 1 }
}

/// What a load comes to: the book and its bodies, or the fault.
pub(crate) fn loaded(
    alloc: Global,
    disk: MemoryDisk,
    two: bool,
    capacity: u64,
) -> Result<(Book<MemoryDisk>, Vec<Vec<u8>>), JournalFault> {
    match load(
        alloc,
        disk,
        capacity,
        areas_in(two, capacity),
        1,
        Format::First,
    ) {
        Ok((book, bodies)) => Ok((book, bodies.into_vec())),
        Err((_disk, fault)) => Err(fault),
    }
}

/// Room, and the append.
fn append(book: &mut Book<MemoryDisk>, body: &[u8]) -> Result<Result<(), AppendFault>, Fail> {
    if body.len() > LONGEST_BODY {
        return Err(Fail::from("a body that is too long"));
    }
    book.make_room(body.len() as u64)?;
    Ok(book.append(body))
}

/// A new book.
fn empty(alloc: Global, two: bool, capacity: u64) -> Result<Book<MemoryDisk>, Fail> {
    let (book, bodies) = loaded(alloc, MemoryDisk::new(alloc), two, capacity)?;
    if !bodies.is_empty() {
        return Err("a new book with a body".into());
    }
    Ok(book)
}

/// The disk of a book with the first epoch and the first commit.
pub(crate) fn filled(alloc: Global, two: bool, capacity: u64) -> Result<MemoryDisk, Fail> {
    let mut book = empty(alloc, two, capacity)?;
    append(&mut book, BOOT)??;
    append(&mut book, &FIRST_COMMIT)??;
    Ok(book.into_disk())
}

/// A restart with the second epoch.
fn restarted(
    alloc: Global,
    disk: MemoryDisk,
    two: bool,
    capacity: u64,
    arm: (u64, u64),
) -> Result<(Book<MemoryDisk>, Ending), Fail> {
    if arm.0 == 0 {
        return Err("the first call is call 1".into());
    }
    match restart(
        alloc,
        disk,
        capacity,
        areas_in(two, capacity),
        arm,
        SECOND_BOOT,
    ) {
        Ok((book, _bodies, ended)) => Ok((book, ended)),
        Err((_disk, fault)) => Err(fault.into()),
    }
}

/// An arm that no test comes to.
const NEVER: (u64, u64) = (1_000, 0);

/// What the append of the first commit comes to behind the first epoch, in a book of this capacity.
fn commits_within(
    alloc: Global,
    two: bool,
    capacity: u64,
) -> Result<Result<(), AppendFault>, Fail> {
    let mut book = empty(alloc, two, capacity)?;
    append(&mut book, BOOT)??;
    append(&mut book, &FIRST_COMMIT)
}

/// How many bytes the disk of a new book has.
fn size_of_new(alloc: Global, two: bool, capacity: u64) -> Result<u64, Fail> {
    Ok(empty(alloc, two, capacity)?.into_disk().size())
}

/// Whether there are two areas, a capacity, how many bytes a new book has, and what becomes of the first commit.
static CAPACITIES: [(bool, u64, u64, Result<(), AppendFault>); 7] = [
    (true, 300_000, 150_004, Ok(())),
    (true, 293, 151, Ok(())),
    (
        true,
        292,
        150,
        Err(AppendFault::Full {
            need: 123,
            left: 122,
        }),
    ),
    (true, 47, 28, Err(AppendFault::Full { need: 123, left: 0 })),
    (false, 293, 9, Ok(())),
    (false, 142, 9, Ok(())),
    (
        false,
        141,
        9,
        Err(AppendFault::Full {
            need: 123,
            left: 122,
        }),
    ),
];

#[test]
fn a_new_book_is_small_and_the_first_commit_fits_just_so(rt: HostRuntime) -> Result<(), Fail> {
    for &(two, capacity, size, wanted) in &CAPACITIES {
        assert_eq!(rt;
            (
                size_of_new(rt.alloc(), two, capacity)?,
                commits_within(rt.alloc(), two, capacity)?
            ),
            (size, wanted)
        );
    }
    Ok(())
}

/// What a restart behind the first commit comes to, and then one more commit.
fn commits_behind_a_restart(
    alloc: Global,
    two: bool,
    capacity: u64,
) -> Result<(Ending, Result<(), AppendFault>), Fail> {
    let disk = filled(alloc, two, capacity)?;
    let (mut book, ended) = restarted(alloc, disk, two, capacity, NEVER)?;
    Ok((ended, append(&mut book, &FIRST_COMMIT)?))
}

/// Whether there are two areas, a capacity, and what the restart and the commit come to.
const PACKS: [(bool, u64, Ending, Result<(), AppendFault>); 2] = [
    (
        true,
        293,
        Ending::Ended(Ok(())),
        Err(AppendFault::Full {
            need: 123,
            left: 46,
        }),
    ),
    (
        false,
        142,
        Ending::Ended(Err(AppendFault::Full { need: 10, left: 0 })),
        Err(AppendFault::Full { need: 123, left: 0 }),
    ),
];

#[test]
fn a_pack_leaves_out_zeros(rt: HostRuntime) -> Result<(), Fail> {
    for (two, capacity, ended, committed) in PACKS {
        assert_eq!(rt;
            commits_behind_a_restart(rt.alloc(), two, capacity)?,
            (ended, committed)
        );
    }
    Ok(())
}

/// How many bodies a disk has. They are the first epoch, the first commit, and then the second epoch.
fn count_of(alloc: Global, disk: MemoryDisk, two: bool, capacity: u64) -> Result<usize, Fail> {
    let (_book, bodies) = loaded(alloc, disk, two, capacity)?;
    for i in 0..bodies.len() {
        let wanted: &[u8] = match i {
            0 => BOOT,
            1 => &FIRST_COMMIT,
            _ => SECOND_BOOT,
        };
        if bodies[i].as_slice() != wanted {
            return Err("another body".into());
        }
    }
    Ok(bodies.len())
}

/// How many bodies a disk has whose restart behind the first commit stops at a call.
fn count_behind_a_stop(alloc: Global, nth: u64, choice: u64) -> Result<usize, Fail> {
    let disk = filled(alloc, true, 293)?;
    let (book, _ended) = restarted(alloc, disk, true, 293, (nth, choice))?;
    count_of(alloc, book.into_disk(), true, 293)
}

/// How many bodies a disk has behind a load that failed at its one call.
fn count_behind_a_failed_load(alloc: Global, choice: u64) -> Result<usize, Fail> {
    let mut disk = filled(alloc, true, 293)?;
    disk.arm(1, choice)?;
    match load(alloc, disk, 293, 2, 1, Format::First) {
        Ok(_) => Err("the load met no stop".into()),
        Err((disk, _fault)) => count_of(alloc, disk, true, 293),
    }
}

/// The disk of a book of two areas behind so many restarts, each over the disk of the last.
pub(crate) fn disk_behind_restarts(alloc: Global, restarts: usize) -> Result<MemoryDisk, Fail> {
    let mut disk = filled(alloc, true, 1_000)?;
    for _ in 0..restarts {
        let (book, _ended) = restarted(alloc, disk, true, 1_000, NEVER)?;
        disk = book.into_disk();
    }
    Ok(disk)
}

#[test]
fn each_restart_packs_what_the_last_left(rt: HostRuntime) -> Result<(), Fail> {
    for (restarts, wanted) in [(0, 2), (1, 3), (2, 4), (5, 7)] {
        let disk = disk_behind_restarts(rt.alloc(), restarts)?;
        assert_eq!(rt; count_of(rt.alloc(), disk, true, 1_000)?, wanted);
    }
    Ok(())
}

/// How many bodies a disk has that was made with the least of two areas, and whose restart over one with great areas
/// stops at a call. Three writes are of zeros in front of the other area.
fn count_behind_zeros(alloc: Global, nth: u64, choice: u64) -> Result<usize, Fail> {
    let mut book = empty(alloc, true, 47)?;
    append(&mut book, BOOT)??;
    let (book, _ended) = restarted(alloc, book.into_disk(), true, 300_000, (nth, choice))?;
    Ok(loaded(alloc, book.into_disk(), true, 300_000)?.1.len())
}

/// A disk of no bytes, settled behind a stop while a new book of two areas is made on it.
fn disk_of_a_stopped_start(alloc: Global, nth: u64, choice: u64) -> Result<MemoryDisk, Fail> {
    if nth == 0 {
        return Err("the first call is call 1".into());
    }
    let mut disk = MemoryDisk::new(alloc);
    disk.arm(nth, choice)?;
    match load(alloc, disk, 300_000, 2, 1, Format::First) {
        Ok(_) => Err("the load met no stop".into()),
        Err((mut disk, _fault)) => {
            disk.reserve(0, 1)?;
            disk.settle()?;
            Ok(disk)
        }
    }
}

/// How many bodies a restart leaves behind such a stop; or why the disk isn't loaded.
fn count_behind_a_stopped_start(
    alloc: Global,
    nth: u64,
    choice: u64,
) -> Result<Result<usize, JournalFault>, Fail> {
    let disk = disk_of_a_stopped_start(alloc, nth, choice)?;
    match restart(alloc, disk, 300_000, 2, NEVER, SECOND_BOOT) {
        Ok((book, _bodies, _ended)) => {
            Ok(Ok(loaded(alloc, book.into_disk(), true, 300_000)?.1.len()))
        }
        Err((_disk, fault)) => Ok(Err(fault)),
    }
}

/// What a call of the disk fails in: a restart, of which four calls pack and four append; a load; a restart that writes
/// zeros in front of the other area, by three calls; or the start of a new book, of which three calls write and one syncs.
#[derive(Clone, Copy, Debug, Drop)]
enum Stopped {
    Restart,
    Load,
    Zeros,
    Start,
}

/// How many bodies are found behind a stop, which of a load is at its one call; or why the disk isn't loaded.
fn found_behind(
    alloc: Global,
    stopped: Stopped,
    nth: u64,
    choice: u64,
) -> Result<Result<usize, JournalFault>, Fail> {
    match stopped {
        Stopped::Restart => Ok(Ok(count_behind_a_stop(alloc, nth, choice)?)),
        Stopped::Load => Ok(Ok(count_behind_a_failed_load(alloc, choice)?)),
        Stopped::Zeros => Ok(Ok(count_behind_zeros(alloc, nth, choice)?)),
        Stopped::Start => count_behind_a_stopped_start(alloc, nth, choice),
    }
}

/// A call that fails, counted from 1 from the restart, the load or the start, the choice of what the disk then holds, and
/// how many bodies are found.
static STOPS: [(Stopped, u64, u64, Result<usize, JournalFault>); 49] = [
    (Stopped::Restart, 1, 0, Ok(2)),
    (Stopped::Restart, 1, 1, Ok(2)),
    (Stopped::Restart, 1, 7, Ok(2)),
    (Stopped::Restart, 2, 0, Ok(2)),
    (Stopped::Restart, 2, 1, Ok(2)),
    (Stopped::Restart, 2, 7, Ok(2)),
    (Stopped::Restart, 3, 0, Ok(2)),
    (Stopped::Restart, 3, 1, Ok(2)),
    (Stopped::Restart, 3, 7, Ok(2)),
    (Stopped::Restart, 4, 0, Ok(2)),
    (Stopped::Restart, 4, 1, Ok(2)),
    (Stopped::Restart, 4, 7, Ok(2)),
    (Stopped::Restart, 5, 1, Ok(2)),
    (Stopped::Restart, 5, 7, Ok(2)),
    (Stopped::Restart, 6, 1, Ok(2)),
    (Stopped::Restart, 7, 0, Ok(2)),
    (Stopped::Restart, 7, 1, Ok(3)),
    (Stopped::Restart, 7, 7, Ok(2)),
    (Stopped::Restart, 8, 0, Ok(2)),
    (Stopped::Restart, 8, 1, Ok(3)),
    (Stopped::Restart, 8, 7, Ok(2)),
    (Stopped::Restart, 1_000, 0, Ok(3)),
    (Stopped::Load, 1, 0, Ok(2)),
    (Stopped::Load, 1, 1, Ok(2)),
    (Stopped::Load, 1, 7, Ok(2)),
    (Stopped::Zeros, 1, 7, Ok(1)),
    (Stopped::Zeros, 2, 7, Ok(1)),
    (Stopped::Zeros, 3, 7, Ok(1)),
    (Stopped::Zeros, 4, 7, Ok(1)),
    (Stopped::Zeros, 5, 7, Ok(1)),
    (Stopped::Zeros, 6, 7, Ok(1)),
    (Stopped::Zeros, 7, 7, Ok(1)),
    (Stopped::Zeros, 8, 7, Ok(1)),
    (Stopped::Zeros, 9, 7, Ok(1)),
    (Stopped::Zeros, 10, 7, Ok(1)),
    (Stopped::Zeros, 11, 7, Ok(1)),
    (Stopped::Zeros, 1_000, 7, Ok(2)),
    (Stopped::Start, 1, 0, Ok(1)),
    (Stopped::Start, 1, 1, Ok(1)),
    (Stopped::Start, 1, 7, Err(JournalFault::Foreign)),
    (Stopped::Start, 2, 0, Ok(1)),
    (Stopped::Start, 2, 1, Ok(1)),
    (Stopped::Start, 2, 7, Err(JournalFault::Foreign)),
    (Stopped::Start, 3, 0, Ok(1)),
    (Stopped::Start, 3, 1, Ok(1)),
    (Stopped::Start, 3, 7, Err(JournalFault::Foreign)),
    (Stopped::Start, 4, 0, Ok(1)),
    (Stopped::Start, 4, 1, Ok(1)),
    (Stopped::Start, 4, 7, Err(JournalFault::Foreign)),
];

#[test]
fn a_stop_leaves_the_bodies(rt: HostRuntime) -> Result<(), Fail> {
    for &(stopped, nth, choice, wanted) in &STOPS {
        let found = found_behind(rt.alloc(), stopped, nth, choice)?;
        assert_eq!(rt; found, wanted, "{stopped:?}, call {nth}, choice {choice}");
    }
    Ok(())
}

/// How many bodies the bytes have as a book, behind the append of one more; or why they aren't loaded.
pub(crate) fn count_behind_one_more(
    alloc: Global,
    bytes: &[u8],
    two: bool,
    capacity: u64,
) -> Result<Result<usize, JournalFault>, Fail> {
    let disk = MemoryDisk::holding(alloc, bytes.to_vec(alloc)?)?;
    match loaded(alloc, disk, two, capacity) {
        Ok((mut book, _bodies)) => {
            append(&mut book, BOOT)??;
            Ok(Ok(loaded(alloc, book.into_disk(), two, capacity)?.1.len()))
        }
        Err(fault) => Ok(Err(fault)),
    }
}

/// The bytes of a disk, the capacity, and how many bodies it has behind the append of one more; or why it isn't loaded.
const BYTES_OF_TWO: [(&[u8], u64, Result<usize, JournalFault>); 11] = [
    (
        b"WALTERK1\0\0\0\0\0\0\0\0\x0a\0\0\0\0\x05\x01\0\0\0\x01\x01\0\0\0\x05\x01\0\0\0\x02\0",
        293,
        Ok(3),
    ),
    (b"WALTERK1\0\0\0\0\0\0\0\0\0\0", 293, Ok(1)),
    (
        b"WALTERK1\0\0\0\0\0\0\0\0\0\0",
        46,
        Err(JournalFault::Foreign),
    ),
    (b"WALTERK1", 293, Err(JournalFault::Foreign)),
    (
        b"WALTERK1\0",
        293,
        Err(JournalFault::Damaged { at: 9, length: 0 }),
    ),
    (
        b"WALTERK1\x01\0\0\0\0\0\0\0\0\0",
        293,
        Err(JournalFault::Damaged { at: 151, length: 0 }),
    ),
    (
        b"WALTERK1\0\0\0\0\0\0\0\0\0",
        293,
        Err(JournalFault::Damaged { at: 9, length: 0 }),
    ),
    (
        b"WALTERK1\0\0\0\0\x01\0\0\0\0\0",
        293,
        Err(JournalFault::Damaged {
            at: 9,
            length: 4_294_967_295,
        }),
    ),
    (
        b"WALTERK1\0\0\0\0\0\0\0\0\x05\x02\0\0\0\0\0",
        293,
        Err(JournalFault::Damaged { at: 9, length: 5 }),
    ),
    (
        b"WALTERK1\0\0\0\0\0\0\0\0\0\x01\0\0\0\x05\x01",
        293,
        Err(JournalFault::Damaged { at: 17, length: 5 }),
    ),
    (
        b"WALTERK1\0\0\0\0\0\0\0\0\0\x01\0",
        293,
        Err(JournalFault::Damaged { at: 17, length: 0 }),
    ),
];

#[test]
fn bytes_of_two_areas_are_read_or_refused(rt: HostRuntime) -> Result<(), Fail> {
    for (bytes, capacity, wanted) in BYTES_OF_TWO {
        assert_eq!(rt;
            count_behind_one_more(rt.alloc(), bytes, true, capacity)?,
            wanted
        );
    }
    Ok(())
}

//! Journals over disks in memory: what loads, what fits, and what a stop leaves.
use crate::books;
use std::alloc::Global;
use std::test::Fail;
use walter_base::{Format, Record};
use walter_disk_memory::MemoryDisk;
use walter_journal::{AppendFault, Journal, JournalFault, load};
use walter_record::decode;

const CAPACITY: u64 = 16_777_216;

pub(crate) const LONGEST_BODY: usize = 65_536;

/// The record of the first epoch.
pub(crate) const BOOT: &[u8] = &[1, 0, 0, 0, 1];

/// What a load comes to: the journal and its bodies, or the fault.
pub(crate) fn loaded(
    alloc: Global,
    disk: MemoryDisk,
    capacity: u64,
) -> Result<(Journal<MemoryDisk>, Vec<Vec<u8>>), JournalFault> {
    match load(alloc, disk, capacity, Format::First) {
        Ok((journal, bodies, _format)) => Ok((journal, bodies.into_vec())),
        Err((_disk, fault)) => Err(fault),
    }
}

/// An empty journal.
fn empty(alloc: Global, capacity: u64) -> Result<Journal<MemoryDisk>, Fail> {
    let (journal, _bodies) = loaded(alloc, MemoryDisk::new(alloc), capacity)?;
    Ok(journal)
}

/// Room, and the append.
fn append(journal: &mut Journal<MemoryDisk>, body: &[u8]) -> Result<Result<(), AppendFault>, Fail> {
    if body.len() > LONGEST_BODY {
        return Err(Fail::from("a body that is too long"));
    }
    journal.make_room(body.len() as u64)?;
    Ok(journal.append(body))
}

/// How many bodies the disk of a journal has, each this one.
fn count_of(alloc: Global, journal: Journal<MemoryDisk>, body: &[u8]) -> Result<usize, Fail> {
    let (_journal, bodies) = loaded(alloc, journal.into_disk(), CAPACITY)?;
    for found in &bodies {
        if found.as_slice() != body {
            return Err("another body".into());
        }
    }
    Ok(bodies.len())
}

/// The bytes of a disk, and how many bodies it has behind the append of one more; or why it isn't loaded.
const BYTES: [(&[u8], Result<usize, JournalFault>); 8] = [
    (b"", Ok(1)),
    (b"WALTERJ1\x07", Ok(1)),
    (b"WALTERJ1\x01\0\0\0\x05\x01\0\0\0\x01\0", Ok(2)),
    (b"NOTWALTER", Err(JournalFault::Foreign)),
    (b"WALTERJ1", Err(JournalFault::Foreign)),
    (
        b"WALTERJ1\x01\xff\xff\xff\xff\0",
        Err(JournalFault::Damaged {
            at: 8,
            length: 4_294_967_295,
        }),
    ),
    (
        b"WALTERJ1\x01\0",
        Err(JournalFault::Damaged { at: 8, length: 0 }),
    ),
    (
        b"WALTERJ1\x01\0\0\0\x05\x01\0\0\0\x01",
        Err(JournalFault::Damaged { at: 8, length: 5 }),
    ),
];

fn count_behind_one_more(alloc: Global, bytes: &[u8]) -> Result<Result<usize, JournalFault>, Fail> {
    match loaded(
        alloc,
        MemoryDisk::holding(alloc, bytes.to_vec(alloc)?)?,
        CAPACITY,
    ) {
        Ok((mut journal, _bodies)) => {
            append(&mut journal, BOOT)??;
            Ok(Ok(count_of(alloc, journal, BOOT)?))
        }
        Err(fault) => Ok(Err(fault)),
    }
}

#[test]
fn bytes_that_are_no_journal_are_refused_by_name(rt: HostRuntime) -> Result<(), Fail> {
    // A book of one area is a journal.
    for (bytes, wanted) in BYTES {
        assert_eq!(rt;
            (
                count_behind_one_more(rt.alloc(), bytes)?,
                books::count_behind_one_more(rt.alloc(), bytes, false, CAPACITY)?
            ),
            (wanted, wanted)
        );
    }
    Ok(())
}

/// The device call of an append that fails, the choice of what the disk then holds, and how many bodies a load finds.
const STOPS: [(u64, u64, usize); 14] = [
    (0, 0, 1),
    (1, 0, 0),
    (1, 1, 0),
    (1, 7, 0),
    (2, 0, 0),
    (2, 1, 0),
    (2, 7, 0),
    (3, 0, 0),
    (3, 1, 1),
    (3, 7, 0),
    (3, 257, 1),
    (4, 0, 0),
    (4, 1, 1),
    (4, 7, 0),
];

fn count_behind_a_stop(alloc: Global, nth: u64, choice: u64) -> Result<usize, Fail> {
    let mut journal = empty(alloc, CAPACITY)?;
    if nth != 0 {
        journal.arm(nth, choice)?;
    }
    if append(&mut journal, BOOT)?.is_err() != (nth != 0) {
        return Err("an append fails where it meets a stop".into());
    }
    count_of(alloc, journal, BOOT)
}

#[test]
fn a_stop_leaves_the_bodies_with_the_new_one_or_without(rt: HostRuntime) -> Result<(), Fail> {
    for (nth, choice, expected) in STOPS {
        let found = count_behind_a_stop(rt.alloc(), nth, choice)?;
        assert_eq!(rt; found, expected, "call {nth}, choice {choice}");
    }
    Ok(())
}

/// The record of the first commit of a site, which writes `hello`.
pub(crate) const FIRST_COMMIT: [u8; 118] = [
    2, 0, 0, 0, 0, 0, 0, 0, 1, 0, 0, 0, 0, 1, 0, 0, 0, 0, 0, 0, 0, 1, 0, 0, 0, 0, 0, 0, 0, 0, 0, 0,
    0, 0, 0, 0, 0, 0, 0, 0, 0, 0, 0, 0, 0, 0, 0, 0, 0, 0, 0, 0, 0, 0, 0, 0, 0, 0, 0, 0, 0, 0, 0, 0,
    0, 0, 0, 0, 0, 0, 0, 0, 0, 0, 0, 0, 0, 0, 0, 0, 0, 0, 0, 0, 0, 0, 0, 0, 0, 0, 0, 0, 0, 0, 0, 1,
    1, 0, 0, 0, 1, 0, 0, 0, 0, 0, 0, 0, 5, 0, 0, 0, 5, 104, 101, 108, 108, 111,
];

/// What the append of the first commit comes to behind the first epoch, in a journal of this capacity.
fn commits_within(alloc: Global, capacity: u64) -> Result<Result<(), AppendFault>, Fail> {
    let mut journal = empty(alloc, capacity)?;
    append(&mut journal, BOOT)??;
    append(&mut journal, &FIRST_COMMIT)
}

/// A capacity, and what becomes of the first commit.
const CAPACITIES: [(u64, Result<(), AppendFault>); 2] = [
    (142, Ok(())),
    (
        141,
        Err(AppendFault::Full {
            need: 123,
            left: 122,
        }),
    ),
];

#[test]
fn the_first_commit_fits_just_so(rt: HostRuntime) -> Result<(), Fail> {
    for (capacity, wanted) in CAPACITIES {
        assert_eq!(rt; commits_within(rt.alloc(), capacity)?, wanted);
    }
    Ok(())
}

fn count_of_first_commit(alloc: Global) -> Result<usize, Fail> {
    let mut journal = empty(alloc, CAPACITY)?;
    append(&mut journal, &FIRST_COMMIT)??;
    count_of(alloc, journal, &FIRST_COMMIT)
}

#[test]
fn a_record_is_read_back_from_the_journal(rt: HostRuntime) -> Result<(), Fail> {
    assert_eq!(rt; count_of_first_commit(rt.alloc())?, 1);
    let found = decode(rt.alloc(), &FIRST_COMMIT, 1, Format::First)?;
    assert!(rt; matches!(found, Some(Record::Own(1, _))));
    Ok(())
}

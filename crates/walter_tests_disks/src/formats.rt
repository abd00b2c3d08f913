//! Journals and books of both formats: which header a new one has, and which format a load finds.
use crate::books::areas_in;
use std::alloc::Global;
use std::test::Fail;
use walter_base::{Format, MOST_SITES};
use walter_checkpoint::load;
use walter_disk_memory::MemoryDisk;
use walter_journal::{self, JournalFault};

const CAPACITY: u64 = 293;

/// The disk of a new book for one site.
fn disk_of_new(alloc: Global, two: bool, format: Format) -> Result<MemoryDisk, Fail> {
    let disk = MemoryDisk::new(alloc);
    match load(alloc, disk, CAPACITY, areas_in(two, CAPACITY), 1, format) {
        Ok((book, _bodies)) => Ok(book.into_disk()),
        Err((_disk, fault)) => Err(fault.into()),
    }
}

/// Whether there are two areas, the format, and the header of a new book.
const NEW: [(bool, Format, &[u8]); 4] = [
    (false, Format::First, b"WALTERJ1"),
    (false, Format::Second, b"WALTERJ2"),
    (true, Format::First, b"WALTERK1"),
    (true, Format::Second, b"WALTERK2"),
];

#[test]
fn a_new_book_has_the_header_of_its_format(rt: HostRuntime) -> Result<(), Fail> {
    for (two, format, header) in NEW {
        let disk = disk_of_new(rt.alloc(), two, format)?;
        // Zeros stand behind it.
        let rest = disk.bytes().strip_prefix(header);
        assert!(rt; matches!(rest, Some([0, ..])), "{format:?}");
        assert!(rt; disk.bytes().iter().filter(|byte| **byte != 0).count() == 8);
    }
    Ok(())
}

/// How many areas the bytes have as a book for so many sites, and the format; or why they aren't loaded. A new book has
/// two areas, and the second format.
fn found(
    alloc: Global,
    bytes: &[u8],
    sites: u8,
) -> Result<Result<(u8, Format), JournalFault>, Fail> {
    if usize::from(sites) > MOST_SITES {
        return Err("more sites than there are places for".into());
    }
    let disk = MemoryDisk::holding(alloc, bytes.to_vec(alloc)?)?;
    match load(alloc, disk, CAPACITY, 2, sites, Format::Second) {
        Ok((book, _bodies)) => Ok(Ok((book.areas(), book.format()))),
        Err((_disk, fault)) => Ok(Err(fault)),
    }
}

/// The bytes of a disk, how many sites there are, and what is found.
const FOUND: [(&[u8], u8, Result<(u8, Format), JournalFault>); 16] = [
    (b"", 9, Ok((2, Format::Second))),
    (b"WALTERJ1\0", 8, Ok((1, Format::First))),
    (b"WALTERJ2\0", 8, Ok((1, Format::Second))),
    (b"WALTERK1\0\0\0\0\0\0\0\0\0\0", 8, Ok((2, Format::First))),
    (b"WALTERK2\0\0\0\0\0\0\0\0\0\0", 8, Ok((2, Format::Second))),
    (b"WALTERJ1\0", 9, Err(JournalFault::Foreign)),
    (b"WALTERJ2\0", 9, Ok((1, Format::Second))),
    (
        b"WALTERK1\0\0\0\0\0\0\0\0\0\0",
        9,
        Err(JournalFault::Foreign),
    ),
    (b"WALTERK2\0\0\0\0\0\0\0\0\0\0", 9, Ok((2, Format::Second))),
    (b"WALTERJ2\0", 16, Ok((1, Format::Second))),
    (b"WALTERJ1\x01\0", 9, Err(JournalFault::Foreign)),
    (
        b"WALTERJ2\x01\0",
        9,
        Err(JournalFault::Damaged { at: 8, length: 0 }),
    ),
    (
        b"WALTERK2\0",
        9,
        Err(JournalFault::Damaged { at: 9, length: 0 }),
    ),
    (b"WALTERJ2", 8, Err(JournalFault::Foreign)),
    (b"WALTERJ3\0", 8, Err(JournalFault::Foreign)),
    (
        b"WALTERK0\0\0\0\0\0\0\0\0\0\0",
        8,
        Err(JournalFault::Foreign),
    ),
];

#[test]
fn the_header_names_the_format_of_a_book(rt: HostRuntime) -> Result<(), Fail> {
    for (bytes, sites, wanted) in FOUND {
        assert_eq!(rt;
            found(rt.alloc(), bytes, sites)?,
            wanted,
            "{bytes:?}, {sites} sites"
        );
    }
    Ok(())
}

/// The format of the journal that the bytes are, where a new one would be of the second; or why they aren't loaded.
fn format_of(alloc: Global, bytes: &[u8]) -> Result<Result<Format, JournalFault>, Fail> {
    let disk = MemoryDisk::holding(alloc, bytes.to_vec(alloc)?)?;
    match walter_journal::load(alloc, disk, CAPACITY, Format::Second) {
        Ok((_journal, _bodies, format)) => Ok(Ok(format)),
        Err((_disk, fault)) => Ok(Err(fault)),
    }
}

/// The bytes of a disk, and the format.
const JOURNALS: [(&[u8], Result<Format, JournalFault>); 5] = [
    (b"", Ok(Format::Second)),
    (b"WALTERJ1\0", Ok(Format::First)),
    (b"WALTERJ2\0", Ok(Format::Second)),
    (b"WALTERK2\0\0\0\0\0\0\0\0\0\0", Err(JournalFault::Foreign)),
    (b"WALTERJ3\0", Err(JournalFault::Foreign)),
];

#[test]
fn the_header_names_the_format_of_a_journal(rt: HostRuntime) -> Result<(), Fail> {
    for (bytes, wanted) in JOURNALS {
        assert_eq!(rt; format_of(rt.alloc(), bytes)?, wanted, "{bytes:?}");
    }
    Ok(())
}

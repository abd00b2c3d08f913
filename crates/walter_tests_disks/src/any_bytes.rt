//! Journals that are made of valid ones by changing, cutting and joining their bytes, by a fixed seed. Each is refused
//! by name, or its bodies are spelled as its bytes are. What stands behind the gate that ends the bodies, and in the
//! area that isn't live, may be anything and isn't compared.
use crate::books::{self, disk_behind_restarts, filled};
use crate::journals::{self, BOOT, FIRST_COMMIT};
use std::alloc::{AllocError, Global};
use std::process::Abort;
use std::test::Fail;
use walter_disk_memory::MemoryDisk;
use walter_hostile::Hostile;
use walter_journal::JournalFault;

/// How many inputs each layout is given.
const INPUTS: usize = 2_000;

/// So many of them at least are accepted, and so many refused.
const FEW: usize = 100;

/// The capacity, and how many bytes each of two areas has then.
const CAPACITY: u64 = 1_000;

const AREA: usize = 495;

/// How many zeros an entry of a pack leaves out, where there is one site.
const ZEROS: usize = 56;

/// What loads the bytes: a journal of one area, or a book, which has one or two.
#[derive(Clone, Copy, Debug, PartialEq, Eq)]
enum Loader {
    Journal,
    Book,
}

const LOADERS: [Loader; 2] = [Loader::Journal, Loader::Book];

/// Bytes of gates, marks and switches, headers, lengths, bodies, a record and an entry.
static PIECES: [&[u8]; 18] = [
    &[0],
    &[1],
    &[2],
    &[3],
    &[7],
    &[255],
    b"WALTERJ1",
    b"WALTERJ2",
    b"WALTERK1",
    b"WALTERK2",
    &[0, 0, 0, 5],
    &[0, 1, 0, 1],
    &[0, 0, 0, 0, 0, 0, 0, 0],
    &[0, 0, 0, 0, 0, 0, 0, 10],
    BOOT,
    &FIRST_COMMIT,
    &[1, 0, 0, 0, 5, 1, 0, 0, 0, 2],
    &[0, 0, 0, 0, 5, 1, 0, 0, 0, 2],
];

/// The bytes of a journal of one area, and of one of two areas behind no restart, one and two.
fn bases(alloc: Global) -> Result<Vec<Vec<u8>>, Fail> {
    let mut bases = vec![in alloc; filled(alloc, false, CAPACITY)?.bytes().to_vec(alloc)?]?;
    for restarts in 0..3 {
        bases.push(
            disk_behind_restarts(alloc, restarts)?
                .bytes()
                .to_vec(alloc)?,
        )?;
    }
    Ok(bases)
}

/// The disk behind a load and the bodies that it has, or the fault.
fn loaded(
    alloc: Global,
    loader: Loader,
    disk: MemoryDisk,
) -> Result<(MemoryDisk, Vec<Vec<u8>>), JournalFault> {
    match loader {
        Loader::Journal => {
            let (journal, bodies) = journals::loaded(alloc, disk, CAPACITY)?;
            Ok((journal.into_disk(), bodies))
        }
        Loader::Book => {
            let (book, bodies) = books::loaded(alloc, disk, true, CAPACITY)?;
            Ok((book.into_disk(), bodies))
        }
    }
}

/// The same of bytes, or nothing where they are refused by name.
fn accepted(
    alloc: Global,
    loader: Loader,
    bytes: &[u8],
) -> Result<Option<(MemoryDisk, Vec<Vec<u8>>)>, Fail> {
    let disk = MemoryDisk::holding(alloc, bytes.to_vec(alloc)?)?;
    match loaded(alloc, loader, disk) {
        Ok(found) => Ok(Some(found)),
        Err(JournalFault::Foreign) | Err(JournalFault::Damaged { .. }) => Ok(None),
        Err(fault) => Err(fault.into()),
    }
}

fn push_length(bytes: &mut Vec<u8>, length: usize) -> Result<(), AllocError> {
    bytes.extend_from_slice(&u32::try_from(length).unwrap_or(u32::MAX).to_be_bytes())
}

/// A body behind an open gate.
fn push_record(bytes: &mut Vec<u8>, body: &[u8]) -> Result<(), AllocError> {
    bytes.extend_from_slice(&[1])?;
    push_length(bytes, body.len())?;
    bytes.extend_from_slice(body)
}

/// What stands before and behind the zeros that an entry leaves out of a body, which has a transaction then.
fn around_zeros(body: &[u8]) -> Option<(&[u8], &[u8])> {
    let end = match body.first() {
        Some(2) | Some(7) => 94,
        Some(3) => 95,
        _ => return None,
    };
    let (start, behind) = body.split_at_checked(end)?;
    let (front, zeros) = start.split_at_checked(end - ZEROS)?;
    if zeros == [0; ZEROS].as_slice() {
        Some((front, behind))
    } else {
        None
    }
}

/// A body as an entry of a pack.
fn push_entry(bytes: &mut Vec<u8>, body: &[u8]) -> Result<(), AllocError> {
    if let Some((front, behind)) = around_zeros(body) {
        bytes.extend_from_slice(&[1])?;
        push_length(bytes, body.len().saturating_sub(ZEROS))?;
        bytes.extend_from_slice(front)?;
        bytes.extend_from_slice(behind)
    } else {
        bytes.extend_from_slice(&[0])?;
        push_length(bytes, body.len())?;
        bytes.extend_from_slice(body)
    }
}

/// Bodies as entries, as far as these have place in a pack of so many bytes, and then as records.
fn spelled(alloc: Global, bodies: &[Vec<u8>], pack: u64) -> Result<Vec<u8>, AllocError> {
    let (mut entries, mut records) = (Vec::new(alloc), Vec::new(alloc));
    for body in bodies {
        if (entries.len() as u64) < pack {
            push_entry(&mut entries, body)?;
        } else {
            push_record(&mut records, body)?;
        }
    }
    entries.extend_from_slice(&records)?;
    Ok(entries)
}

/// How many bytes the pack of the live area has, and what stands behind that number. One area has no pack.
fn live_area(bytes: &[u8]) -> Option<(u64, &[u8])> {
    let (header, rest) = bytes.split_at_checked(8)?;
    if header.starts_with(b"WALTERJ") {
        return Some((0, rest));
    }
    let begins = if rest.first() == Some(&1) {
        1 + AREA
    } else {
        1
    };
    let area = rest.get(begins..)?;
    Some((
        u64::from_be_bytes(*area.first_chunk::<8>()?),
        area.get(8..)?,
    ))
}

/// Whether the bytes spell these bodies, up to a closed gate.
fn spells(alloc: Global, bytes: &[u8], bodies: &[Vec<u8>]) -> Result<bool, AllocError> {
    let Some((pack, area)) = live_area(bytes) else {
        return Ok(false);
    };
    match area.strip_prefix(spelled(alloc, bodies, pack)?.as_slice()) {
        Some([gate, ..]) => Ok(*gate != 1),
        _ => Ok(false),
    }
}

/// How many inputs are accepted. A disk of no bytes has a new journal behind the load, and any other stays as it is.
fn count_accepted(rt: &impl Abort, alloc: Global, loader: Loader) -> Result<usize, Fail> {
    let bases = bases(alloc)?;
    let mut hostile = Hostile::new(1, &bases, &PIECES);
    let mut count: usize = 0;
    for _ in 0..INPUTS {
        let bytes = hostile.make(alloc)?;
        if let Some((disk, bodies)) = accepted(alloc, loader, &bytes)? {
            assert!(rt;
                bytes.is_empty() || disk.bytes() == bytes.as_slice(),
                "{bytes:?}"
            );
            assert!(rt;
                spells(alloc, disk.bytes(), &bodies)?,
                "{loader:?} {bytes:?}"
            );
            count = count.saturating_add(1);
        }
    }
    Ok(count)
}

#[test]
fn any_bytes_are_refused_or_spelled_by_their_bodies(rt: HostRuntime) -> Result<(), Fail> {
    for loader in LOADERS {
        let accepted = count_accepted(&rt, rt.alloc(), loader)?;
        assert!(rt; accepted >= FEW, "{loader:?} accepts {accepted}");
        assert!(rt; accepted <= INPUTS - FEW, "{loader:?} accepts {accepted}");
    }
    Ok(())
}

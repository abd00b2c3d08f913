//! Spellings in parts, and parts that several spellings share.
use std::alloc::{AllocError, Global};

/// A field of eight bytes that holds 1, and one that holds the greatest number.
pub const NUMBER_1: [u8; 8] = [0, 0, 0, 0, 0, 0, 0, 1];

pub const MOST: [u8; 8] = [255; 8];

/// The first transaction of site 0, which writes `hello` to the object 1, 5, in the first format: all but its last
/// byte, which is `o`.
pub const HELL: [u8; 108] = [
    0, 0, 0, 0, 1, 0, 0, 0, 0, 0, 0, 0, 1, 0, 0, 0, 0, 0, 0, 0, 0, 0, 0, 0, 0, 0, 0, 0, 0, 0, 0, 0,
    0, 0, 0, 0, 0, 0, 0, 0, 0, 0, 0, 0, 0, 0, 0, 0, 0, 0, 0, 0, 0, 0, 0, 0, 0, 0, 0, 0, 0, 0, 0, 0,
    0, 0, 0, 0, 0, 0, 0, 0, 0, 0, 0, 0, 0, 0, 0, 0, 0, 0, 0, 0, 0, 0, 1, 1, 0, 0, 0, 1, 0, 0, 0, 0,
    0, 0, 0, 5, 0, 0, 0, 5, 104, 101, 108, 108,
];

/// The same in the second format, where the snapshot has a number for each of two sites.
pub const SECOND_HELL: [u8; 61] = [
    0, 0, 0, 0, 1, 0, 0, 0, 0, 0, 0, 0, 1, 0, 0, 0, 0, 0, 0, 0, 0, 2, 0, 0, 0, 0, 0, 0, 0, 0, 0, 0,
    0, 0, 0, 0, 0, 0, 0, 1, 1, 0, 0, 0, 1, 0, 0, 0, 0, 0, 0, 0, 5, 0, 0, 0, 5, 104, 101, 108, 108,
];

/// The first transaction of site 1.
pub const TID: [u8; 13] = [1, 0, 0, 0, 1, 0, 0, 0, 0, 0, 0, 0, 1];

/// The objects 1, 5 and 1, 4.
pub const OBJECT: [u8; 12] = [0, 0, 0, 1, 0, 0, 0, 0, 0, 0, 0, 5];

pub const BEFORE: [u8; 12] = [0, 0, 0, 1, 0, 0, 0, 0, 0, 0, 0, 4];

/// The objects 1, 0 to 1, 65535 without their last two bytes.
const LOW_OBJECT: [u8; 10] = [0, 0, 0, 1, 0, 0, 0, 0, 0, 0];

/// A count that is told, how many objects stand there, and whether a list is read so.
pub static LISTS: [(u16, u16, bool); 6] = [
    (1, 1, true),
    (256, 256, true),
    (0, 0, false),
    (257, 257, false),
    (2, 1, false),
    (1, 2, false),
];

/// The parts, one behind the other.
pub fn joined(alloc: Global, parts: &[&[u8]]) -> Result<Vec<u8>, AllocError> {
    let mut all = Vec::new(alloc);
    for part in parts {
        all.extend_from_slice(part)?;
    }
    Ok(all)
}

/// The front, the count that is told, and so many objects that rise.
pub fn with_objects(
    alloc: Global,
    front: &[&[u8]],
    count: u16,
    objects: u16,
) -> Result<Vec<u8>, AllocError> {
    let mut bytes = joined(alloc, front)?;
    bytes.extend_from_slice(&count.to_be_bytes())?;
    for local in 0..objects {
        bytes.extend_from_slice(&LOW_OBJECT)?;
        bytes.extend_from_slice(&local.to_be_bytes())?;
    }
    Ok(bytes)
}

/// The bytes of each, behind its text.
pub(crate) fn copies_of(
    alloc: Global,
    named: &[(&str, &[u8])],
) -> Result<Vec<Vec<u8>>, AllocError> {
    let mut all = Vec::new(alloc);
    for (_, bytes) in named {
        all.push(bytes.to_vec(alloc)?)?;
    }
    Ok(all)
}

/// The parts of each, one behind the other.
pub(crate) fn joined_each<T>(
    alloc: Global,
    rows: &[(&[&[u8]], T)],
) -> Result<Vec<Vec<u8>>, AllocError> {
    let mut all = Vec::new(alloc);
    for (parts, _) in rows {
        all.push(joined(alloc, parts)?)?;
    }
    Ok(all)
}

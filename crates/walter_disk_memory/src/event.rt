//! What may come to a past.
use crate::memory_disk::MemoryDisk;
use crate::past::Past;

/// What a past begins with, or what comes to it: a call of a disk, or a disk that a rack is handed for a site.
#[derive(Clone, Copy, Drop)]
pub(crate) enum Event<'a> {
    Begin,
    Write(&'a Past, usize, &'a [u8]),
    FailedWrite(&'a Past, usize, &'a [u8]),
    Sync(&'a Past),
    Settle(&'a Past, u64),
    Hand(&'a Past, u8, &'a MemoryDisk),
}

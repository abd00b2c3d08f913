//! Tests of records as bytes.
use crate::parts::{
    BEFORE, HELL, LISTS, MOST, NUMBER_1, OBJECT, SECOND_HELL, TID, joined, with_objects,
};
use std::alloc::Global;
use std::test::Fail;
use walter_base::{Format, Record};
use walter_record::{decode, encode};

/// The slow commit 2 of site 1 wants objects: what stands before the transaction and the objects.
const PREPARED: [u8; 10] = [5, 1, 0, 0, 0, 0, 0, 0, 0, 2];

/// The object 2, 0, without its last byte.
const ANOTHER: [u8; 11] = [0, 0, 0, 2, 0, 0, 0, 0, 0, 0, 0];

/// What a record says: its kind, a site or 0, its first number, and another number.
fn said(journaled: &Record) -> (u8, u8, u64, u64) {
    match journaled {
        Record::Boot(epoch) => (1, 0, u64::from(*epoch), 0),
        Record::Own(seq, tx) => (2, 0, *seq, tx.tid.number),
        Record::Got(site, seq, tx) => (3, site.0, *seq, tx.tid.number),
        Record::Seen(site, seq) => (4, site.0, *seq, 0),
        Record::Prepared(site, slow, tid, _) => (5, site.0, *slow, tid.number),
        Record::Released(site, slow) => (6, site.0, *slow, 0),
        Record::SlowBegin(slow, tx) => (7, 0, *slow, tx.tid.number),
        Record::SlowEnd(slow) => (8, 0, *slow, 0),
        Record::Marks(durable, visible) => (9, 0, *durable, *visible),
        Record::Format => (10, 0, 0, 0),
    }
}

/// What the record that the bytes spell in the format says; the bytes are what is written of it.
#[tactic(auto, using(crate::proofs::Formats::formats))]
fn read(alloc: Global, bytes: &[u8], format: Format) -> Result<(u8, u8, u64, u64), Fail> {
    let Some(journaled) = decode(alloc, bytes, 2, format)? else {
        return Err("the bytes spell a record".into());
    };
    let written = encode(alloc, &journaled, format)?;
    if written.as_slice() == bytes {
        Ok(said(&journaled))
    } else {
        Err("what is written is what was read".into())
    }
}

/// Each row: the bytes of a record in the first format, in parts, and what it says.
pub(crate) static SPELLINGS: [(&[&[u8]], (u8, u8, u64, u64)); 15] = [
    (&[&[1], &[0; 4]], (1, 0, 0, 0)),
    (&[&[1], &[255; 4]], (1, 0, 0xFFFF_FFFF, 0)),
    (&[&[2], &NUMBER_1, &HELL, b"o"], (2, 0, 1, 1)),
    (&[&[3, 1], &NUMBER_1, &HELL, b"o"], (3, 1, 1, 1)),
    (&[&[4, 0], &NUMBER_1], (4, 0, 1, 0)),
    (&[&[4, 255], &MOST], (4, 255, u64::MAX, 0)),
    (
        &[&PREPARED, &TID, &[0, 2], &OBJECT, &ANOTHER, &[0]],
        (5, 1, 2, 1),
    ),
    (&[&[6, 1], &NUMBER_1], (6, 1, 1, 0)),
    (&[&[6, 255], &MOST], (6, 255, u64::MAX, 0)),
    (&[&[7], &NUMBER_1, &HELL, b"o"], (7, 0, 1, 1)),
    (&[&[8], &NUMBER_1], (8, 0, 1, 0)),
    (&[&[8], &MOST], (8, 0, u64::MAX, 0)),
    (&[&[9], &[0; 16]], (9, 0, 0, 0)),
    (&[&[9, 0, 0, 0, 0, 0, 0, 0, 2], &NUMBER_1], (9, 0, 2, 1)),
    (&[&[10, 2]], (10, 0, 0, 0)),
];

/// The same in the second.
pub(crate) static SECOND_SPELLINGS: [(&[&[u8]], (u8, u8, u64, u64)); 5] = [
    (&[&[1], &[0; 4]], (1, 0, 0, 0)),
    (&[&[2], &NUMBER_1, &SECOND_HELL, b"o"], (2, 0, 1, 1)),
    (&[&[3, 1], &NUMBER_1, &SECOND_HELL, b"o"], (3, 1, 1, 1)),
    (&[&[7], &NUMBER_1, &SECOND_HELL, b"o"], (7, 0, 1, 1)),
    (&[&[10, 2]], (10, 0, 0, 0)),
];

#[test]
fn records_are_read_and_written_again(rt: HostRuntime) -> Result<(), Fail> {
    for &(parts, wanted) in &SPELLINGS {
        let bytes = joined(rt.alloc(), parts)?;
        assert!(rt; read(rt.alloc(), &bytes, Format::First)? == wanted);
    }
    for &(parts, wanted) in &SECOND_SPELLINGS {
        let bytes = joined(rt.alloc(), parts)?;
        assert!(rt; read(rt.alloc(), &bytes, Format::Second)? == wanted);
    }
    Ok(())
}

/// Each row: bytes that spell no record in the first format, in parts. In the last two the first object stands twice,
/// and the second before it.
static REFUSED: [&[&[u8]]; 19] = [
    &[],
    &[&[0], &[0; 16]],
    &[&[10]],
    &[&[10, 1]],
    &[&[10], &[0; 16]],
    &[&[1], &[0; 3]],
    &[&[1], &[0; 5]],
    &[&[2], &NUMBER_1, &HELL],
    &[&[2], &NUMBER_1, &HELL, b"o", &[0]],
    &[&[2], &NUMBER_1, &SECOND_HELL, b"o"],
    &[&[3], &NUMBER_1, &HELL, b"o"],
    &[&[4], &[0; 8]],
    &[&[4], &[0; 10]],
    &[&PREPARED, &TID, &[0, 2], &OBJECT, &ANOTHER, &[0, 0]],
    &[&PREPARED, &TID, &[0, 2], &OBJECT, &ANOTHER],
    &[&[8], &[0; 9]],
    &[&[9], &[0; 15]],
    &[&PREPARED, &TID, &[0, 2], &OBJECT, &OBJECT],
    &[&PREPARED, &TID, &[0, 2], &OBJECT, &BEFORE],
];

#[test]
fn what_is_no_spelling_is_refused(rt: HostRuntime) -> Result<(), Fail> {
    let alloc = rt.alloc();
    for &parts in &REFUSED {
        assert!(rt; decode(alloc, &joined(alloc, parts)?, 2, Format::First)?.is_none());
    }
    let first = joined(alloc, &[&[2], &NUMBER_1, &HELL, b"o"])?;
    assert!(rt; decode(alloc, &first, 2, Format::Second)?.is_none());
    for &(count, objects, is_taken) in &LISTS {
        let bytes = with_objects(alloc, &[&PREPARED, &TID], count, objects)?;
        assert!(rt; decode(alloc, &bytes, 2, Format::First)?.is_some() == is_taken);
    }
    Ok(())
}

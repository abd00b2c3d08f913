//! Tests of requests as bytes.
use std::alloc::Global;
use std::test::Fail;
use walter_request::{RequestFault, decode, encode};

/// A Write of `hello` to the object 1, 5.
const WRITE: [u8; 22] = [
    3, 0, 0, 0, 1, 0, 0, 0, 0, 0, 0, 0, 5, 0, 0, 0, 5, 104, 101, 108, 108, 111,
];

/// A Read of the same object.
const READ: [u8; 13] = [2, 0, 0, 0, 1, 0, 0, 0, 0, 0, 0, 0, 5];

/// A Level of the transaction 3 of the epoch 2 of site 1.
const LEVEL: [u8; 14] = [10, 1, 0, 0, 0, 2, 0, 0, 0, 0, 0, 0, 0, 3];

/// A SetAdd of the id 9 to the object 1, 5.
const SET_ADD: [u8; 21] = [
    4, 0, 0, 0, 1, 0, 0, 0, 0, 0, 0, 0, 5, 0, 0, 0, 0, 0, 0, 0, 9,
];

/// A SetDel of it.
const SET_DEL: [u8; 21] = [
    5, 0, 0, 0, 1, 0, 0, 0, 0, 0, 0, 0, 5, 0, 0, 0, 0, 0, 0, 0, 9,
];

/// A SetRead of the object 1, 5.
const SET_READ: [u8; 13] = [6, 0, 0, 0, 1, 0, 0, 0, 0, 0, 0, 0, 5];

/// A SetReadId of the greatest id in it.
const SET_READ_ID: [u8; 21] = [
    7, 0, 0, 0, 1, 0, 0, 0, 0, 0, 0, 0, 5, 255, 255, 255, 255, 255, 255, 255, 255,
];

/// Each request as `Debug` shows it, and its spelling.
pub(crate) static SPELLINGS: [(&str, &[u8]); 12] = [
    ("Start", &[1]),
    ("Read(ObjId { container: 1, local: 5 })", &READ),
    (
        "Write(ObjId { container: 1, local: 5 }, SharedBytes { items: [104, 101, 108, 108, 111] })",
        &WRITE,
    ),
    (
        "Write(ObjId { container: 1, local: 5 }, SharedBytes { items: [] })",
        &[3, 0, 0, 0, 1, 0, 0, 0, 0, 0, 0, 0, 5, 0, 0, 0, 0],
    ),
    ("SetAdd(ObjId { container: 1, local: 5 }, 9)", &SET_ADD),
    ("SetDel(ObjId { container: 1, local: 5 }, 9)", &SET_DEL),
    ("SetRead(ObjId { container: 1, local: 5 })", &SET_READ),
    (
        "SetReadId(ObjId { container: 1, local: 5 }, 18446744073709551615)",
        &SET_READ_ID,
    ),
    ("Commit", &[8]),
    ("Abort", &[9]),
    (
        "Level(Tid { site: SiteId(1), epoch: 2, number: 3 })",
        &LEVEL,
    ),
    (
        "Level(Tid { site: SiteId(255), epoch: 4294967295, number: 18446744073709551615 })",
        &[
            10, 255, 255, 255, 255, 255, 255, 255, 255, 255, 255, 255, 255, 255,
        ],
    ),
];

/// The request that the bytes spell, as `Debug` shows it. The bytes are what is written of it.
fn read(alloc: Global, spelling: &[u8]) -> Result<String, Fail> {
    if spelling.len() > 40 {
        return Err("a row is short".into());
    }
    let Ok(request) = decode(alloc, spelling) else {
        return Err("the bytes spell a request".into());
    };
    if encode(alloc, &request)?.as_slice() == spelling {
        Ok(format!(in alloc; "{request:?}")?)
    } else {
        Err("what is written is what was read".into())
    }
}

#[test]
fn each_request_has_its_spelling(rt: HostRuntime) -> Result<(), Fail> {
    for &(shown, spelling) in &SPELLINGS {
        assert!(rt; read(rt.alloc(), spelling)?.as_str() == shown);
    }
    Ok(())
}

/// Each row: a body that spells no request, and the place of what is wrong.
static BAD: [(&[u8], u32); 15] = [
    (&[], 0),
    (&[0], 0),
    (&[4], 1),
    (&[7], 1),
    (&[10], 1),
    (&[11], 0),
    (&[4, 2, 0], 3),
    (&[11, 2, 0], 0),
    (
        &[
            7, 0, 0, 0, 1, 0, 0, 0, 0, 0, 0, 0, 5, 0, 0, 0, 0, 0, 0, 0, 9, 0,
        ],
        21,
    ),
    (&[1, 0], 1),
    (&[8, 8, 8], 1),
    (&[9, 9], 1),
    (&[2, 0, 0, 0, 1, 0], 6),
    (&[2, 0, 0, 0, 1, 0, 0, 0, 0, 0, 0, 0, 5, 9], 13),
    (&[10, 1, 0, 0, 0, 2, 0, 0, 0, 0, 0, 0, 0, 3, 0], 14),
];

/// The same, of a body that is cut off at a length.
static CUT: [(&[u8], usize, u32); 6] = [
    (&SET_ADD, 20, 20),
    (&SET_DEL, 13, 13),
    (&SET_READ, 12, 12),
    (&SET_READ_ID, 14, 14),
    (&WRITE, 21, 21),
    (&LEVEL, 13, 13),
];

/// The place of what is wrong with a body that spells no request, cut off at a length.
fn wrong_place(alloc: Global, body: &[u8], length: usize) -> Option<u32> {
    if body.len() > 40 || length > body.len() {
        return None;
    }
    match decode(alloc, &body[..length]) {
        Err(RequestFault::BadFrame { at }) => Some(at),
        Err(RequestFault::NoMemory) | Ok(_) => None,
    }
}

static TEXTS: [(RequestFault, &str); 2] = [
    (
        RequestFault::BadFrame { at: 7 },
        "the frame has no reading at 7",
    ),
    (RequestFault::NoMemory, "out of memory"),
];

#[test]
fn a_bad_frame_has_its_place(rt: HostRuntime) -> Result<(), Fail> {
    for &(body, at) in &BAD {
        assert!(rt; wrong_place(rt.alloc(), body, body.len()) == Some(at));
    }
    for &(body, length, at) in &CUT {
        assert!(rt; wrong_place(rt.alloc(), body, length) == Some(at));
    }
    for &(fault, text) in &TEXTS {
        assert!(rt; format!(in rt.alloc(); "{fault}")?.as_str() == text);
    }
    Ok(())
}

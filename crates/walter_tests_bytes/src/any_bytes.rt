//! Bytes that are made of valid ones by changing, cutting and joining them, by fixed seeds. Each is refused by name, or
//! what is written of what it spells is the same bytes.
ghost use Rattle.std.specs.Prelude.{◌≤◌, length};

use crate::parts::{BEFORE, MOST, NUMBER_1, OBJECT, TID, copies_of, joined_each};
use crate::{packets, records, replies, requests, transactions};
use serde_json::Value;
use std::alloc::Global;
use std::process::Abort;
use std::test::Fail;
use walter_base::{Bytes, Format};
use walter_hostile::Hostile;
use walter_reply::ReplyFault;
use walter_request::RequestFault;
use walter_scenario::{ReadFault, read};

/// How many inputs each reader is given.
const INPUTS: usize = 2_000;

/// So many of them at least are accepted, and so many refused.
const FEW: usize = 100;

/// The same of texts: most changes leave no JSON.
const FEW_TEXTS: usize = 20;

/// The most bytes that an input may have: those of the body of a frame.
const LONGEST: usize = 65_536;

/// What reads bytes of which each value has one spelling. Transactions, records and packets are those of two sites, and
/// but for one kind of records in the first format.
#[derive(Clone, Copy, Debug, PartialEq, Eq)]
enum Reader {
    Request,
    Reply,
    Transaction,
    Record,
    SecondRecord,
    Packet,
}

const READERS: [Reader; 6] = [
    Reader::Request,
    Reader::Reply,
    Reader::Transaction,
    Reader::Record,
    Reader::SecondRecord,
    Reader::Packet,
];

/// First bytes and fields that other bytes may have.
static PIECES: [&[u8]; 20] = [
    &[0],
    &[1],
    &[2],
    &[3],
    &[5],
    &[9],
    &[0x7F],
    &[0x80],
    &[0x83],
    &[0xE0],
    &[255],
    &[0, 1],
    &[1, 0],
    &[0, 0, 0, 1],
    &NUMBER_1,
    &MOST,
    &OBJECT,
    &BEFORE,
    &TID,
    &[0; 64],
];

fn bases_of(alloc: Global, reader: Reader) -> Result<Vec<Vec<u8>>, Fail> {
    match reader {
        Reader::Request => Ok(copies_of(alloc, &requests::SPELLINGS)?),
        Reader::Reply => Ok(copies_of(alloc, &replies::SPELLINGS)?),
        Reader::Transaction => transactions::spellings(alloc),
        Reader::Record => Ok(joined_each(alloc, &records::SPELLINGS)?),
        Reader::SecondRecord => Ok(joined_each(alloc, &records::SECOND_SPELLINGS)?),
        Reader::Packet => Ok(joined_each(alloc, &packets::SPELLINGS)?),
    }
}

/// What is written of the request that the bytes spell, or nothing where they are refused at a place of theirs.
fn request_again(alloc: Global, bytes: &[u8]) -> Result<Option<Bytes>, Fail>
    requires { length bytes.now ≤ 65536 }
{
    match walter_request::decode(alloc, bytes) {
        Ok(request) => Ok(Some(walter_request::encode(alloc, &request)?)),
        Err(RequestFault::BadFrame { at }) if at as usize <= bytes.len() => Ok(None),
        Err(fault) => Err(fault.into()),
    }
}

/// The same of a reply.
fn reply_again(alloc: Global, bytes: &[u8]) -> Result<Option<Bytes>, Fail>
    requires { length bytes.now ≤ 65536 }
{
    match walter_reply::decode(alloc, bytes) {
        Ok(reply) => Ok(Some(walter_reply::encode(alloc, &reply)?)),
        Err(ReplyFault::BadFrame { at }) if at as usize <= bytes.len() => Ok(None),
        Err(fault) => Err(fault.into()),
    }
}

/// The same of a transaction.
fn transaction_again(alloc: Global, bytes: &[u8]) -> Result<Option<Bytes>, Fail> {
    match walter_txcode::decode(alloc, bytes, 2, Format::First)? {
        Some(tx) => Ok(Some(walter_txcode::encode(alloc, &tx, Format::First)?)),
        None => Ok(None),
    }
}

/// The same of a record.
#[tactic(auto, using(crate::proofs::Formats::formats))]
fn record_again(alloc: Global, bytes: &[u8], format: Format) -> Result<Option<Bytes>, Fail> {
    match walter_record::decode(alloc, bytes, 2, format)? {
        Some(journaled) => Ok(Some(walter_record::encode(alloc, &journaled, format)?)),
        None => Ok(None),
    }
}

/// The same of a packet.
fn packet_again(alloc: Global, bytes: &[u8]) -> Result<Option<Bytes>, Fail> {
    match walter_packet::decode(alloc, bytes, 2)? {
        Some(packet) => Ok(Some(walter_packet::encode(alloc, &packet)?)),
        None => Ok(None),
    }
}

fn again(alloc: Global, reader: Reader, bytes: &[u8]) -> Result<Option<Bytes>, Fail> {
    if bytes.len() > LONGEST {
        return Err("an input is short".into());
    }
    match reader {
        Reader::Request => request_again(alloc, bytes),
        Reader::Reply => reply_again(alloc, bytes),
        Reader::Transaction => transaction_again(alloc, bytes),
        Reader::Record => record_again(alloc, bytes, Format::First),
        Reader::SecondRecord => record_again(alloc, bytes, Format::Second),
        Reader::Packet => packet_again(alloc, bytes),
    }
}

/// How many of its inputs a reader accepts: of these the same bytes are written.
fn count_accepted(rt: &impl Abort, alloc: Global, reader: Reader) -> Result<usize, Fail> {
    let bases = bases_of(alloc, reader)?;
    let mut hostile = Hostile::new(1, &bases, &PIECES);
    let mut accepted: usize = 0;
    for _ in 0..INPUTS {
        let bytes = hostile.make(alloc)?;
        if let Some(written) = again(alloc, reader, &bytes)? {
            assert!(rt;
                written.as_slice() == bytes.as_slice(),
                "{reader:?} {bytes:?}"
            );
            accepted = accepted.saturating_add(1);
        }
    }
    Ok(accepted)
}

#[test]
fn any_bytes_are_refused_or_written_again(rt: HostRuntime) -> Result<(), Fail> {
    for reader in READERS {
        let accepted = count_accepted(&rt, rt.alloc(), reader)?;
        assert!(rt; accepted >= FEW, "{reader:?} accepts {accepted}");
        assert!(rt; accepted <= INPUTS - FEW, "{reader:?} accepts {accepted}");
    }
    Ok(())
}

/// Scenarios, with steps of each word and with each key.
static TEXTS: [&[u8]; 3] = [
    br#"{"sites":1,"f":0,"containers":[],"clients":[],"steps":[]}"#,
    br#"{ "sites": 3, "f": 1, "containers": [ [1, "regular", 0], [3, "cset", 2] ],
          "clients": [ [0, "0000000101000000120300000001000000000000000500000001740000000108"], [2, ""] ],
          "steps": [ ["call", 1], ["deliver", 0, 2, 1], ["advance", 1, 0], ["tick", 2], ["upgrade", 2],
                     ["stop", 0], ["restart", 0], ["pump", 1], ["arm", 2, 4, 7] ] }"#,
    br#"{"capacity":470,"areas":2,"format":2,"link":{"seed":7,"lose":10,"repeat":1000,"swap":500},"ticks":10000,"threads":17,
         "arms":[[0,1,0],[7,1000000,18446744073709551615]],"sites":8,"f":5,
         "containers":[[0,"cset",7],[4294967295,"regular",1]],
         "clients":[[7,"00fFAb"],[0,"000000010100000015040000000300000000000000010000000000000009"]],
         "steps":[["pump",7],["call",0]]}"#,
];

/// Pieces of texts.
static TOKENS: [&[u8]; 36] = [
    b"0",
    b"1",
    b"2",
    b"7",
    b"8",
    b"-1",
    b"-0",
    b"1.0",
    b"1e2",
    b"1e999",
    b"18446744073709551616",
    b"999",
    b"null",
    b"true",
    b"[]",
    b"{}",
    b"[",
    b"]",
    b"{",
    b"}",
    b",",
    b":",
    b"\"",
    b"\"cset\"",
    b"\"0000000101\"",
    b"\"\\u0030\\u0031\"",
    b"\"\\ud800\"",
    b" ",
    b"\n",
    b"\0",
    b"\xFF",
    b"\"f\":0,",
    b"\"areas\":1,",
    b"\"steps\":[],",
    b"[\"call\",0],",
    b"[\"tick\",0],",
];

fn texts(alloc: Global) -> Result<Vec<Vec<u8>>, Fail> {
    let mut all = Vec::new(alloc);
    for text in &TEXTS {
        all.push(text.to_vec(alloc)?)?;
    }
    Ok(all)
}

/// The scenario that the bytes spell, or the place that is wrong, as `Debug` shows it.
fn reading(alloc: Global, bytes: &[u8]) -> Result<Result<String, String>, Fail> {
    match read(alloc, bytes.to_vec(alloc)?) {
        Ok(scenario) => Ok(Ok(format!(in alloc; "{scenario:?}")?)),
        Err(ReadFault::Refused { place, .. }) => Ok(Err(format!(in alloc; "{place:?}")?)),
        Err(fault) => Err(fault.into()),
    }
}

/// The text of the JSON value that the bytes spell, without spaces; or the bytes, where they spell none.
fn respelled(alloc: Global, bytes: &[u8]) -> Result<Vec<u8>, Fail> {
    let Ok(text) = str::from_utf8(bytes) else {
        return Ok(bytes.to_vec(alloc)?);
    };
    match Value::from_str(alloc, text) {
        Ok(value) => Ok(value.to_string(alloc)?.into_bytes()),
        Err(_) => Ok(bytes.to_vec(alloc)?),
    }
}

// A scenario has many texts, which differ in spaces, in the order of keys and in how strings are written; so the
// readings of two of them are compared.
#[test]
fn any_text_is_read_as_its_json_value_is(rt: HostRuntime) -> Result<(), Fail> {
    let alloc = rt.alloc();
    let texts = texts(alloc)?;
    let mut hostile = Hostile::new(1, &texts, &TOKENS);
    let mut accepted: usize = 0;
    for _ in 0..INPUTS {
        let bytes = hostile.make(alloc)?;
        let found = reading(alloc, &bytes)?;
        assert!(rt;
            reading(alloc, &respelled(alloc, &bytes)?)? == found,
            "{bytes:?}"
        );
        if found.is_ok() {
            accepted = accepted.saturating_add(1);
        }
    }
    assert!(rt; accepted >= FEW_TEXTS, "{accepted} texts are accepted");
    assert!(rt; accepted <= INPUTS - FEW, "{accepted} texts are accepted");
    Ok(())
}

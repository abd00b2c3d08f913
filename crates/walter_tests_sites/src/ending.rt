//! How the program ends over disks, sources, sinks and racks that fail, and over disks that hold something.
use crate::playing::legal_history;
use anyhow::Result;
use std::alloc::Global;
use std::sync::{ArcSlice, Wait};
use std::thread::Threads;
use walter_base::Mem;
use walter_cli::{Ended, Fault, top};
use walter_disk_memory::MemoryRack;
use walter_scenario::{ReadFault, read};
use walter_schedules::cut;
use walter_stream::{MemorySink, MemorySource};

// The list that is given behind this key among these words, or an empty one.
fn list_of<'a>(given: &'a str, key: &str) -> &'a str {
    for word in given.split(' ') {
        if let Some(list) = word.strip_prefix(key) {
            return list;
        }
    }
    ""
}

/// The numbers that are given behind this key.
pub(crate) fn numbers_given(alloc: Global, given: &str, key: &str) -> Mem<Vec<u64>> {
    let mut numbers = Vec::new(alloc);
    for word in list_of(given, key).split(',') {
        if let Ok(number) = word.parse() {
            numbers.push(number)?;
        }
    }
    Ok(numbers)
}

// What disks hold, each as hex.
fn contents_of(alloc: Global, list: &str) -> Result<Vec<Vec<u8>>> {
    let mut contents = Vec::new(alloc);
    for word in list.split(',') {
        contents.push(hex::decode(alloc, word)?)?;
    }
    Ok(contents)
}

fn words_of(alloc: Global, line: &str) -> Mem<Vec<String>> {
    let mut words = Vec::new(alloc);
    for word in line.split_whitespace() {
        words.push(String::from_str(alloc, word)?)?;
    }
    Ok(words)
}

// The disks that were given back, each with its site and its bytes as hex.
fn given_back(alloc: Global, rack: &MemoryRack) -> Mem<String> {
    let mut text = String::new(alloc);
    for (site, disk) in rack.given() {
        let bytes = hex::encode(alloc, disk.bytes())?;
        text.push_str(&format!(in alloc; " {site}:{bytes}")?)?;
    }
    Ok(text)
}

// What was written, the status, the fault if there is one, how many trails there are, and the disks.
fn said(alloc: Global, ended: &Ended, written: &str, disks: &str) -> Mem<String> {
    let count = ended.trails.len();
    let status = ended.status;
    let text = match &ended.fault {
        Some(fault) => {
            format!(in alloc; "{written}{status}: {fault}; trails {count}, disks{disks}")?
        }
        None => format!(in alloc; "{written}{status}; trails {count}, disks{disks}")?,
    };
    Ok(text)
}

/// What comes of these words and this scenario. Given are the numbers of the reads, the writes and the calls of the
/// rack that fail, for how many bytes the sink has room, and what the disks hold, as in
/// `reads=2 writes=1 racks=2,3 room=100 disks=00,ff`.
pub(crate) fn end(
    rt: &(impl AllocGlobal + Threads + Wait + Sync),
    words: &str,
    given: &str,
    scenario: &str,
) -> Result<String> {
    let alloc = rt.alloc();
    let bytes = ArcSlice::from_slice(alloc, scenario.as_bytes())?;
    let mut source = MemorySource::new(bytes, numbers_given(alloc, given, "reads=")?);
    let failing = numbers_given(alloc, given, "writes=")?;
    let room = list_of(given, "room=").parse().unwrap_or(1_000_000);
    let mut sink = MemorySink::with_room(alloc, room, failing)?;
    let mut rack = MemoryRack::holding(alloc, contents_of(alloc, list_of(given, "disks="))?);
    rack.set_failing(numbers_given(alloc, given, "racks=")?);
    let ended = top(
        rt,
        &words_of(alloc, words)?,
        &mut source,
        &mut sink,
        &mut rack,
    );
    legal_history(alloc, &ended.trails)?;
    let disks = given_back(alloc, &rack)?;
    Ok(said(alloc, &ended, str::from_utf8(sink.as_slice())?, &disks)?)
}

/// The scenario that the bytes spell, or what is wrong with them.
pub(crate) fn reading(alloc: Global, bytes: &[u8]) -> Mem<String> {
    match read(alloc, bytes.to_vec(alloc)?) {
        Ok(scenario) => cut(alloc, &format!(in alloc; "{scenario:?}")?),
        Err(fault) => Ok(format!(in alloc; "{fault}")?),
    }
}

/// What is said where memory runs out, of a scenario and of a call.
pub(crate) fn want_of_memory(alloc: Global) -> Mem<String> {
    Ok(format!(in alloc; "{}; {}", ReadFault::NoMemory, Fault::Memory)?)
}

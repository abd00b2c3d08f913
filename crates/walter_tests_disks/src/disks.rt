//! Tests of disks in memory, armed and not, and of their rack.
use std::alloc::Global;
use std::test::Fail;
use walter_disk::{Disk, Failed, Mem, NoMemory, Rack};
use walter_disk_memory::{MemoryDisk, MemoryRack, unarmed_never_failed};

const OLD: &[u8] = b"aaaabbbbcccc";

fn disk_of(alloc: Global, bytes: &[u8]) -> Mem<MemoryDisk> {
    MemoryDisk::holding(alloc, bytes.to_vec(alloc)?)
}

// A call on a disk. A write is of four such bytes.
#[derive(Clone, Copy)]
enum Step {
    Arm(u64, u64),
    Write(u8, u8),
    Read,
    Sync,
    Settle,
}

// Makes the call, with room for it, and says whether it went well.
fn goes_well<D: Disk>(disk: &mut D, step: Step) -> Result<bool, NoMemory> {
    match step {
        Step::Arm(nth, choice) => Ok(nth != 0 && disk.arm(nth, choice).is_ok()),
        Step::Write(at, byte) => writes(disk, u64::from(at), byte),
        Step::Read => Ok(reads(disk)),
        Step::Sync => syncs(disk),
        Step::Settle => settles(disk),
    }
}

fn writes<D: Disk>(disk: &mut D, at: u64, byte: u8) -> Result<bool, NoMemory> {
    let end = at.checked_add(4).ok_or(NoMemory)?;
    disk.reserve(end, 1)?;
    Ok(at <= disk.size() && disk.write_at(at, &[byte; 4]).is_ok())
}

fn reads<D: Disk>(disk: &mut D) -> bool {
    let mut first = [0; 1];
    disk.size() > 0 && disk.read(0, &mut first).is_ok()
}

fn syncs<D: Disk>(disk: &mut D) -> Result<bool, NoMemory> {
    disk.reserve(0, 1)?;
    Ok(disk.sync().is_ok())
}

fn settles<D: Disk>(disk: &mut D) -> Result<bool, NoMemory> {
    disk.reserve(0, 1)?;
    Ok(disk.settle().is_ok())
}

// A write over old bytes, a sync, a write past the end, a read and a sync.
const RUN: [Step; 5] = [
    Step::Write(4, b'1'),
    Step::Sync,
    Step::Write(10, b'2'),
    Step::Read,
    Step::Sync,
];

// Whether a run that fails first at this call of it finds these bytes by this choice.
fn finds(alloc: Global, stop: usize, choice: u64, left: &[u8]) -> Mem<bool> {
    let mut disk = disk_of(alloc, OLD)?;
    goes_well(&mut disk, Step::Arm(stop as u64, choice))?;
    let mut first = 0;
    for (made, step) in RUN.iter().enumerate() {
        if !goes_well(&mut disk, *step)? {
            first = made + 1;
            break;
        }
    }
    Ok(first == stop && settles(&mut disk)? && disk.bytes() == left)
}

// The choice, and what it leaves of a stop before the first sync and of one behind it.
const STOPS: [(u64, &[u8], &[u8]); 5] = [
    (0, b"aaaabbbbcccc", b"aaaa1111cccc"),
    (1, b"aaaa1111cccc", b"aaaa1111cc2222"),
    (
        7,
        b"aaaa\x07\x07\x07\x07cccc",
        b"aaaa1111cc\x07\x07\x07\x07",
    ),
    (
        256,
        b"aaaa\x00\x00\x00\x00cccc",
        b"aaaa1111cc\x00\x00\x00\x00",
    ),
    (
        257,
        b"aaaa\x01\x01\x01\x01cccc",
        b"aaaa1111cc\x01\x01\x01\x01",
    ),
];

#[test]
fn a_stop_finds_what_its_choice_says(rt: HostRuntime) -> Result<(), Fail> {
    for (choice, before, behind) in STOPS {
        for stop in 1..6 {
            let left = if stop < 3 { before } else { behind };
            assert!(rt;
                finds(rt.alloc(), stop, choice, left)?,
                "call {stop}, choice {choice}"
            );
        }
    }
    Ok(())
}

// Calls, and whether each goes well. Without an arm no call fails, and a settle drops what pends.
const UNARMED: [(Step, bool); 4] = [
    (Step::Write(4, b'1'), true),
    (Step::Sync, true),
    (Step::Write(0, b'2'), true),
    (Step::Settle, true),
];

// A broken disk fails until it has settled.
const BROKEN: [(Step, bool); 6] = [
    (Step::Arm(1, 1), true),
    (Step::Sync, false),
    (Step::Write(0, b'1'), false),
    (Step::Read, false),
    (Step::Settle, true),
    (Step::Read, true),
];

// An arm beyond stays through a settle.
const BEYOND: [(Step, bool); 6] = [
    (Step::Arm(3, 1), true),
    (Step::Write(0, b'1'), true),
    (Step::Settle, true),
    (Step::Read, true),
    (Step::Write(0, b'2'), false),
    (Step::Settle, true),
];

// A later arm takes the place of one to come, and one that came keeps its choice.
const REPLACED: [(Step, bool); 8] = [
    (Step::Arm(1, 7), true),
    (Step::Arm(2, 0), true),
    (Step::Write(0, b'1'), true),
    (Step::Read, false),
    (Step::Arm(1, 1), true),
    (Step::Settle, true),
    (Step::Write(0, b'3'), false),
    (Step::Settle, true),
];

// The calls, how many of them are made, and the bytes that they leave.
const CALLS: [(&[(Step, bool)], usize, &[u8]); 8] = [
    (&UNARMED, 3, b"22221111cccc"),
    (&UNARMED, 4, b"aaaa1111cccc"),
    (&BROKEN, 4, OLD),
    (&BROKEN, 6, b"1111bbbbcccc"),
    (&BEYOND, 3, OLD),
    (&BEYOND, 6, b"2222bbbbcccc"),
    (&REPLACED, 6, OLD),
    (&REPLACED, 8, b"3333bbbbcccc"),
];

// Whether the first of these calls, so many, go as it is said beside each, and leave these bytes.
fn goes_as(alloc: Global, steps: &[(Step, bool)], count: usize, left: &[u8]) -> Mem<bool> {
    let mut disk = disk_of(alloc, OLD)?;
    for (step, well) in steps.iter().take(count) {
        if goes_well(&mut disk, *step)? != *well {
            return Ok(false);
        }
    }
    unarmed_never_failed(&disk);
    Ok(disk.bytes() == left)
}

#[test]
fn calls_fail_as_they_are_armed(rt: HostRuntime) -> Result<(), Fail> {
    for (steps, count, left) in CALLS {
        assert!(rt;
            goes_as(rt.alloc(), steps, count, left)?,
            "the first {count}"
        );
    }
    Ok(())
}

#[test]
fn a_big_disk_has_room_for_many_small_writes(rt: HostRuntime) -> Result<(), Fail> {
    let alloc = rt.alloc();
    let big = 1_000_000;
    let mut disk = MemoryDisk::holding(alloc, vec![in alloc; b'o'; big]?)?;
    // A copy of the disk for each call would be two terabytes.
    disk.reserve(2_000_000, 1_000_000)?;
    for _ in 0..2000 {
        let end = disk.size();
        assert!(rt; writes(&mut disk, end, b'1')? && syncs(&mut disk)?);
    }
    assert!(rt; writes(&mut disk, 0, b'2')? && settles(&mut disk)?);
    assert_eq!(rt; disk.bytes().len(), big + 8000);
    assert!(rt; disk.bytes().starts_with(b"oooo"));
    assert_eq!(rt; disk.bytes()[big - 1], b'o');
    assert!(rt; disk.bytes().ends_with(b"11111111"));
    Ok(())
}

fn goes_to_a_thread<T: Send>(_value: &T) {}

// A rack, used by its trait alone.
fn take_and_give<R: Rack>(rack: &mut R, site: u8) -> Result<(), Failed> {
    let disk = rack.take(site, Some("folder"))?;
    goes_to_a_thread(&disk);
    rack.give(site, disk)
}

fn was_given(rack: &MemoryRack, place: usize, site: u8, bytes: &[u8]) -> bool {
    match rack.given().get(place) {
        Some((given_site, disk)) => *given_site == site && disk.bytes() == bytes,
        None => false,
    }
}

const CONTENTS: [(u8, &[u8]); 3] = [(1, b"one"), (0, b"zero"), (2, b"")];

#[test]
fn a_rack_hands_out_what_it_holds_and_keeps_what_is_given(rt: HostRuntime) -> Result<(), Fail> {
    let alloc = rt.alloc();
    let contents = vec![in alloc; b"zero".to_vec(alloc)?, b"one".to_vec(alloc)?]?;
    let mut rack = MemoryRack::holding(alloc, contents);
    for (place, (site, bytes)) in CONTENTS.iter().enumerate() {
        assert!(rt; take_and_give(&mut rack, *site).is_ok());
        assert!(rt; was_given(&rack, place, *site, bytes));
    }
    Ok(())
}

#[test]
fn a_rack_fails_where_it_is_planned(rt: HostRuntime) -> Result<(), Fail> {
    let mut rack = MemoryRack::with_room(rt.alloc(), 1)?;
    rack.set_failing([2, 3].to_vec(rt.alloc())?);
    for well in [false, false, true] {
        assert_eq!(rt; take_and_give(&mut rack, 0).is_ok(), well);
    }
    assert_eq!(rt; rack.given().len(), 1);
    rack.given_unarmed_never_failed();
    Ok(())
}

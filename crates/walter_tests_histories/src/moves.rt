//! Histories in short: moves, and the steps that they stand for.
use std::alloc::Global;
use walter_base::{Cause, Counts, Mem, ObjId, SharedBytes, SiteId, Tid, Update, Updates};
use walter_psi::{Answer, Notice, Step, first_illegal};

/// A step without what has to be allocated. A commit is of the updates done so far.
#[derive(Clone, Copy)]
pub enum Move {
    Start(Tid),
    StartAt(Tid, SiteId),
    Write(Tid, ObjId, u8),
    Add(Tid, ObjId, u64),
    Del(Tid, ObjId, u64),
    Read(Tid, ObjId, Option<u8>),
    /// Of two counts at most.
    ReadSet(Tid, ObjId, Option<(u64, i64)>, Option<(u64, i64)>),
    ReadId(Tid, ObjId, u64, i64),
    Commit(Tid),
    CommitNothing(Tid),
    Arrive(Tid, SiteId),
    Abort(Tid, Cause),
    Told(Tid, Notice),
}

use Move::*;

fn value(alloc: Global, byte: Option<u8>) -> Mem<Option<SharedBytes>> {
    match byte {
        Some(byte) => Ok(Some(SharedBytes::from_slice(alloc, &[byte])?)),
        None => Ok(None),
    }
}

fn updates_so_far(alloc: Global, steps: &[Step], x: Tid) -> Mem<Updates> {
    let mut updates = Vec::new(alloc);
    for step in steps {
        if let Step::Op(y, update) = step {
            if *y == x {
                updates.push(update.clone()?)?;
            }
        }
    }
    Ok(Updates::from_vec(updates)?)
}

fn step_of(alloc: Global, steps: &[Step], next: Move) -> Mem<Step> {
    Ok(match next {
        Start(x) => Step::Start(x, x.site),
        StartAt(x, site) => Step::Start(x, site),
        Write(x, oid, byte) => {
            Step::Op(
                x,
                Update::Write(oid, SharedBytes::from_slice(alloc, &[byte])?),
            )
        }
        Add(x, oid, id) => Step::Op(x, Update::Add(oid, id)),
        Del(x, oid, id) => Step::Op(x, Update::Del(oid, id)),
        Read(x, oid, byte) => Step::Read(x, oid, Answer::Value(value(alloc, byte)?)),
        ReadSet(x, oid, first, second) => {
            let mut counts = Vec::new(alloc);
            for count in [first, second] {
                if let Some(count) = count {
                    counts.push(count)?;
                }
            }
            Step::Read(x, oid, Answer::Counts(Counts::from(counts)))
        }
        ReadId(x, oid, id, count) => Step::Read(x, oid, Answer::Count(id, count)),
        Commit(x) => Step::Commit(x, updates_so_far(alloc, steps, x)?),
        CommitNothing(x) => Step::Commit(x, Updates::from_vec(Vec::new(alloc))?),
        Arrive(x, site) => Step::Arrive(x, site),
        Abort(x, cause) => Step::Abort(x, cause),
        Told(x, what) => Step::Told(x, what),
    })
}

fn history_of(alloc: Global, moves: &[Move]) -> Mem<Vec<Step>> {
    let mut steps = Vec::new(alloc);
    for next in moves {
        let step = step_of(alloc, &steps, *next)?;
        steps.push(step)?;
    }
    Ok(steps)
}

/// The place of the first move that isn't allowed, from 0.
pub fn first_illegal_of(alloc: Global, moves: &[Move]) -> Mem<Option<usize>> {
    first_illegal(alloc, &history_of(alloc, moves)?)
}

//! Worked histories, with what the paper says of each.
use crate::moves::{Move, first_illegal_of};
use Move::*;
use std::test::Fail;
use walter_base::{Cause, ObjId, SiteId, Tid, Version};
use walter_psi::{Level, Notice};

const HERE: SiteId = SiteId(0);

const THERE: SiteId = SiteId(1);

const FAR: SiteId = SiteId(2);

/// Two transactions of the first site, and two of the second.
const A: Tid = Tid {
    site: HERE,
    epoch: 1,
    number: 1,
};

const B: Tid = Tid {
    site: HERE,
    epoch: 1,
    number: 2,
};

const C: Tid = Tid {
    site: THERE,
    epoch: 1,
    number: 1,
};

const D: Tid = Tid {
    site: THERE,
    epoch: 1,
    number: 2,
};

/// Two regular objects, and a set.
const X: ObjId = ObjId {
    container: 1,
    local: 1,
};

const Y: ObjId = ObjId {
    container: 2,
    local: 1,
};

const SET: ObjId = ObjId {
    container: 3,
    local: 1,
};

/// The first commit of the first site, the second, and one that no site has.
const FIRST: Version = Version { site: HERE, seq: 1 };

const SECOND: Version = Version { site: HERE, seq: 2 };

const NONE_YET: Version = Version { site: HERE, seq: 0 };

const MODIFIED: Cause = Cause::Modified {
    oid: X,
    version: FIRST,
};

/// Each row: what a history shows, its steps, and the first of them that isn't allowed.
static HISTORIES: [(&str, &[Move], Option<usize>); 39] = [
    ("the empty history", &[], None),
    (
        "a lone write, read back and committed",
        &[
            Start(A),
            Write(A, X, b'x'),
            Read(A, X, Some(b'x')),
            Commit(A),
            Told(A, Notice::Version(FIRST)),
        ],
        None,
    ),
    (
        "the last of two writes counts, of this object",
        &[
            Start(A),
            Write(A, X, b'x'),
            Write(A, X, b'y'),
            Write(A, Y, b'z'),
            Read(A, X, Some(b'x')),
        ],
        Some(4),
    ),
    (
        "a snapshot ignores what is committed later",
        &[
            Start(A),
            Start(B),
            Write(B, X, b'x'),
            Commit(B),
            Read(A, X, None),
        ],
        None,
    ),
    (
        "a read that isn't repeatable",
        &[
            Start(A),
            Read(A, X, None),
            Start(B),
            Write(B, X, b'x'),
            Commit(B),
            Read(A, X, Some(b'x')),
        ],
        Some(5),
    ),
    (
        "a dirty read",
        &[
            Start(A),
            Write(A, X, b'x'),
            Start(B),
            Read(B, X, Some(b'x')),
        ],
        Some(3),
    ),
    (
        "own updates lie over the snapshot",
        &[
            Start(A),
            Write(A, X, b'x'),
            Commit(A),
            Start(B),
            Write(B, X, b'y'),
            Read(B, X, Some(b'y')),
            Read(B, X, Some(b'x')),
        ],
        Some(6),
    ),
    (
        "the long fork: two sites see two writes in different orders for a while",
        &[
            Start(A),
            Write(A, X, b'x'),
            Commit(A),
            Start(C),
            Write(C, Y, b'y'),
            Commit(C),
            Start(B),
            Read(B, X, Some(b'x')),
            Read(B, Y, None),
            Start(D),
            Read(D, X, None),
            Read(D, Y, Some(b'y')),
            Arrive(A, THERE),
            Arrive(C, HERE),
        ],
        None,
    ),
    (
        "the short fork: two sites write one object concurrently",
        &[
            Start(A),
            Write(A, X, b'x'),
            Start(C),
            Write(C, X, b'y'),
            Commit(A),
            Commit(C),
        ],
        Some(5),
    ),
    (
        "a lost update at one site",
        &[
            Start(A),
            Start(B),
            Read(A, X, None),
            Read(B, X, None),
            Write(A, X, b'a'),
            Write(B, X, b'b'),
            Commit(A),
            Commit(B),
        ],
        Some(7),
    ),
    (
        "a write over what the snapshot has, and of another object beside it",
        &[
            Start(A),
            Write(A, X, b'a'),
            Commit(A),
            Start(B),
            Write(B, X, b'b'),
            Start(C),
            Write(C, Y, b'c'),
            Commit(B),
            Commit(C),
        ],
        None,
    ),
    (
        "an arrival before its cause",
        &[
            Start(A),
            Write(A, X, b'x'),
            Commit(A),
            Arrive(A, THERE),
            Start(C),
            Read(C, X, Some(b'x')),
            Write(C, Y, b'y'),
            Commit(C),
            Arrive(C, FAR),
        ],
        Some(8),
    ),
    (
        "an arrival after its cause",
        &[
            Start(A),
            Write(A, X, b'x'),
            Commit(A),
            Arrive(A, THERE),
            Start(C),
            Write(C, Y, b'y'),
            Commit(C),
            Arrive(A, FAR),
            Arrive(C, FAR),
        ],
        None,
    ),
    (
        "an arrival of what isn't committed",
        &[Start(A), Write(A, X, b'x'), Arrive(A, THERE)],
        Some(2),
    ),
    (
        "an arrival at the own site",
        &[Start(A), Write(A, X, b'x'), Commit(A), Arrive(A, HERE)],
        Some(3),
    ),
    (
        "a second arrival",
        &[
            Start(A),
            Write(A, X, b'x'),
            Commit(A),
            Arrive(A, THERE),
            Arrive(A, THERE),
        ],
        Some(4),
    ),
    ("a second start", &[Start(A), Start(A)], Some(1)),
    ("a start elsewhere", &[StartAt(A, THERE)], Some(0)),
    ("an update before the start", &[Write(A, X, b'x')], Some(0)),
    (
        "an update behind the commit",
        &[Start(A), Write(A, X, b'x'), Commit(A), Write(A, X, b'y')],
        Some(3),
    ),
    (
        "a commit without updates",
        &[Start(A), CommitNothing(A)],
        Some(1),
    ),
    (
        "a commit of other updates than its own",
        &[Start(A), Write(A, X, b'x'), CommitNothing(A)],
        Some(2),
    ),
    (
        "a commit after the abort",
        &[
            Start(A),
            Write(A, X, b'x'),
            Abort(A, Cause::Asked),
            Commit(A),
        ],
        Some(3),
    ),
    (
        "a commit after somebody was told that it isn't committed",
        &[
            Start(A),
            Write(A, X, b'x'),
            Told(A, Notice::Level(Level::NotCommitted)),
            Commit(A),
        ],
        Some(3),
    ),
    (
        "a version with the wrong number",
        &[
            Start(A),
            Write(A, X, b'x'),
            Commit(A),
            Told(A, Notice::Version(SECOND)),
        ],
        Some(3),
    ),
    (
        "a version with the number 0",
        &[
            Start(A),
            Write(A, X, b'x'),
            Commit(A),
            Told(A, Notice::Version(NONE_YET)),
        ],
        Some(3),
    ),
    (
        "levels of what is committed",
        &[
            Start(A),
            Write(A, X, b'x'),
            Commit(A),
            Told(A, Notice::Level(Level::Committed)),
            Told(A, Notice::Level(Level::Durable)),
            Told(A, Notice::Level(Level::Visible)),
            Told(A, Notice::Level(Level::NotCommitted)),
        ],
        Some(6),
    ),
    (
        "a level of what isn't committed",
        &[Start(A), Told(A, Notice::Level(Level::Durable))],
        Some(1),
    ),
    (
        "a set changed at two sites, with a negative count on the way",
        &[
            Start(A),
            Add(A, SET, 9),
            Start(C),
            Del(C, SET, 9),
            ReadSet(C, SET, Some((9, -1)), None),
            Commit(A),
            Commit(C),
            Arrive(A, THERE),
            Arrive(C, HERE),
            Start(B),
            ReadSet(B, SET, None, None),
            ReadId(B, SET, 9, 0),
        ],
        None,
    ),
    (
        "ids that rise",
        &[
            Start(A),
            Add(A, SET, 2),
            Add(A, SET, 1),
            Add(A, SET, 1),
            ReadSet(A, SET, Some((1, 2)), Some((2, 1))),
        ],
        None,
    ),
    (
        "ids in the wrong order",
        &[
            Start(A),
            Add(A, SET, 2),
            Add(A, SET, 1),
            ReadSet(A, SET, Some((2, 1)), Some((1, 1))),
        ],
        Some(3),
    ),
    (
        "an entry that is missing",
        &[
            Start(A),
            Add(A, SET, 2),
            Del(A, SET, 1),
            ReadSet(A, SET, Some((2, 1)), None),
        ],
        Some(3),
    ),
    (
        "a count of 0",
        &[Start(A), ReadSet(A, SET, Some((1, 0)), None)],
        Some(1),
    ),
    (
        "the count of one id",
        &[
            Start(A),
            Add(A, SET, 1),
            Add(A, X, 1),
            Add(A, SET, 2),
            ReadId(A, SET, 1, 1),
            ReadId(A, SET, 3, 1),
        ],
        Some(5),
    ),
    (
        "over a version inside the snapshot",
        &[
            Start(A),
            Write(A, X, b'a'),
            Commit(A),
            Start(B),
            Write(B, X, b'b'),
            Abort(B, MODIFIED),
        ],
        Some(5),
    ),
    (
        "over a version outside the snapshot",
        &[
            Start(A),
            Start(B),
            Write(A, X, b'a'),
            Write(B, X, b'b'),
            Commit(A),
            Abort(B, MODIFIED),
        ],
        None,
    ),
    (
        "over a version of an object that it didn't write",
        &[
            Start(A),
            Start(B),
            Write(A, X, b'a'),
            Write(B, Y, b'b'),
            Commit(A),
            Abort(B, MODIFIED),
        ],
        Some(5),
    ),
    (
        "over one's own lock",
        &[
            Start(A),
            Write(A, X, b'a'),
            Abort(A, Cause::Locked { oid: X, owner: A }),
        ],
        Some(2),
    ),
    (
        "over another's lock",
        &[
            Start(A),
            Write(A, X, b'a'),
            Abort(A, Cause::Locked { oid: X, owner: C }),
        ],
        None,
    ),
];

#[test]
fn the_first_illegal_step_is_found(rt: HostRuntime) -> Result<(), Fail> {
    for &(shows, moves, expected) in &HISTORIES {
        assert_eq!(rt; first_illegal_of(rt.alloc(), moves)?, expected, "{shows}");
    }
    Ok(())
}

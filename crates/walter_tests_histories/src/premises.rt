//! Premises of the protocol, one at a time: the history that a run would spell where the premise is broken, and the
//! one that it spells where the premise is kept.
use crate::moves::{Move, first_illegal_of};
use Move::*;
use std::test::Fail;
use walter_base::{Cause, ObjId, SiteId, Tid, Version};
use walter_psi::Notice;

/// Three sites.
const HOME: SiteId = SiteId(0);

const AWAY: SiteId = SiteId(1);

const FAR: SiteId = SiteId(2);

/// An object that is preferred at HOME, and one that is preferred at AWAY. A commit of the first at AWAY is a slow
/// one: HOME locks the object, and says YES.
const X: ObjId = ObjId {
    container: 1,
    local: 1,
};

const Y: ObjId = ObjId {
    container: 2,
    local: 1,
};

/// Two transactions of HOME before its stop, two behind it, and one of AWAY and of FAR.
const FIRST: Tid = Tid {
    site: HOME,
    epoch: 1,
    number: 1,
};

const SECOND: Tid = Tid {
    site: HOME,
    epoch: 1,
    number: 2,
};

const LATER: Tid = Tid {
    site: HOME,
    epoch: 2,
    number: 1,
};

const LAST: Tid = Tid {
    site: HOME,
    epoch: 2,
    number: 2,
};

const OTHER: Tid = Tid {
    site: AWAY,
    epoch: 1,
    number: 1,
};

const READER: Tid = Tid {
    site: FAR,
    epoch: 1,
    number: 1,
};

/// The first commit of HOME, and of AWAY; and that somebody is told of one.
const OF_HOME: Version = Version { site: HOME, seq: 1 };

const OF_AWAY: Version = Version { site: AWAY, seq: 1 };

const HOME_1: Notice = Notice::Version(OF_HOME);

const AWAY_1: Notice = Notice::Version(OF_AWAY);

/// What a conflict over X with the transaction of AWAY is: its lock, or its version.
const LOCKED: Cause = Cause::Locked {
    oid: X,
    owner: OTHER,
};

const MODIFIED: Cause = Cause::Modified {
    oid: X,
    version: OF_AWAY,
};

/// Each row: how a premise is broken; the history then, and the place of its first step that isn't allowed, from 0;
/// and the history where the premise is kept, all of which is allowed.
static PREMISES: [(&str, &[Move], usize, &[Move]); 4] = [
    (
        // OTHER is asked for at HOME, which says YES and stops. The lock is forgotten, and LATER commits before
        // OTHER is decided. Where the lock is stable before the YES goes out, LATER meets it.
        "a YES goes out before its lock is stable",
        &[
            Start(OTHER),
            Write(OTHER, X, b'o'),
            Start(LATER),
            Write(LATER, X, b'l'),
            Commit(LATER),
            Told(LATER, HOME_1),
            Commit(OTHER),
        ],
        6,
        &[
            Start(OTHER),
            Write(OTHER, X, b'o'),
            Start(LATER),
            Write(LATER, X, b'l'),
            Abort(LATER, LOCKED),
            Commit(OTHER),
            Told(OTHER, AWAY_1),
            Arrive(OTHER, HOME),
        ],
    ),
    (
        // The lock is stable, and OTHER commits by the YES; but HOME forgets the lock at its restart, and LATER
        // commits there before OTHER has come. Where the lock outlives the stop, it goes when OTHER is committed
        // at HOME.
        "a lock is forgotten at a restart",
        &[
            Start(OTHER),
            Write(OTHER, X, b'o'),
            Commit(OTHER),
            Told(OTHER, AWAY_1),
            Start(LATER),
            Read(LATER, X, None),
            Write(LATER, X, b'l'),
            Commit(LATER),
        ],
        7,
        &[
            Start(OTHER),
            Write(OTHER, X, b'o'),
            Commit(OTHER),
            Told(OTHER, AWAY_1),
            Start(LATER),
            Read(LATER, X, None),
            Write(LATER, X, b'l'),
            Abort(LATER, LOCKED),
            Arrive(OTHER, HOME),
            Start(LAST),
            Read(LAST, X, Some(b'o')),
            Write(LAST, X, b'l'),
            Commit(LAST),
            Told(LAST, HOME_1),
        ],
    ),
    (
        // OTHER has seen FIRST. At FAR it is committed before FIRST is.
        "a commit is seen before its cause",
        &[
            Start(FIRST),
            Write(FIRST, X, b'f'),
            Commit(FIRST),
            Arrive(FIRST, AWAY),
            Start(OTHER),
            Read(OTHER, X, Some(b'f')),
            Write(OTHER, Y, b'o'),
            Commit(OTHER),
            Arrive(OTHER, FAR),
            Start(READER),
            Read(READER, Y, Some(b'o')),
            Read(READER, X, None),
        ],
        8,
        &[
            Start(FIRST),
            Write(FIRST, X, b'f'),
            Commit(FIRST),
            Arrive(FIRST, AWAY),
            Start(OTHER),
            Read(OTHER, X, Some(b'f')),
            Write(OTHER, Y, b'o'),
            Commit(OTHER),
            Arrive(FIRST, FAR),
            Arrive(OTHER, FAR),
            Start(READER),
            Read(READER, Y, Some(b'o')),
            Read(READER, X, Some(b'f')),
        ],
    ),
    (
        // OTHER is committed at AWAY and received at HOME, but not yet committed there, so FIRST doesn't see it.
        // Its version stands in the way of FIRST all the same.
        "a fast commit ignores what is received and not yet committed here",
        &[
            Start(FIRST),
            Start(OTHER),
            Write(OTHER, X, b'o'),
            Commit(OTHER),
            Told(OTHER, AWAY_1),
            Write(FIRST, X, b'f'),
            Commit(FIRST),
            Told(FIRST, HOME_1),
        ],
        6,
        &[
            Start(FIRST),
            Start(OTHER),
            Write(OTHER, X, b'o'),
            Commit(OTHER),
            Told(OTHER, AWAY_1),
            Write(FIRST, X, b'f'),
            Abort(FIRST, MODIFIED),
            Arrive(OTHER, HOME),
            Start(SECOND),
            Write(SECOND, X, b's'),
            Commit(SECOND),
            Told(SECOND, HOME_1),
        ],
    ),
];

#[test]
fn each_premise_is_needed(rt: HostRuntime) -> Result<(), Fail> {
    for &(shows, broken, place, kept) in &PREMISES {
        let found = first_illegal_of(rt.alloc(), broken)?;
        assert_eq!(rt; found, Some(place), "{shows}");
        let found = first_illegal_of(rt.alloc(), kept)?;
        assert_eq!(rt; found, None, "kept, where {shows}");
    }
    Ok(())
}

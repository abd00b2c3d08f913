//! A test of the conflicts that a commit meets.
ghost use Rattle.std.specs.Prelude.{◌∷◌, [], Some, None, if◌then◌else◌};
ghost use Rattle.walter_base.specs.Names.{same_object};

use std::alloc::Global;
use std::test::Fail;
use walter_base::{Conflict, Mem, ObjId, Objects, Rows, SiteId, Tid, Version, Vts};
use walter_decide::fast;

/// One object has one version, and one is locked.
#[derive(Drop)]
struct Pair {
    written: ObjId,
    version: Version,
    locked: ObjId,
    owner: Tid,
}

impl Rows for Pair {
    ghost versions = { λ pair oid. if same_object oid pair.written then pair.version ∷ [] else [] };

    ghost lock = { λ pair oid. if same_object oid pair.locked then Some pair.owner else None };

    fn unmodified(&self, oid: ObjId, by: &Vts) -> Result<(), Version> {
        if oid == self.written && !by.sees(self.version) {
            return Err(self.version);
        }
        Ok(())
    }

    fn owner(&self, oid: ObjId) -> Option<Tid> {
        if oid == self.locked {
            Some(self.owner)
        } else {
            None
        }
    }
}

const FIRST: ObjId = ObjId {
    container: 1,
    local: 6,
};

const SECOND: ObjId = ObjId {
    container: 1,
    local: 5,
};

const OTHER: ObjId = ObjId {
    container: 2,
    local: 0,
};

const VERSION: Version = Version {
    site: SiteId(0),
    seq: 4,
};

const OWNER: Tid = Tid {
    site: SiteId(1),
    epoch: 2,
    number: 3,
};

const FIRST_MODIFIED: Conflict = Conflict::Modified {
    oid: FIRST,
    version: VERSION,
};

const FIRST_LOCKED: Conflict = Conflict::Locked {
    oid: FIRST,
    owner: OWNER,
};

const SECOND_MODIFIED: Conflict = Conflict::Modified {
    oid: SECOND,
    version: VERSION,
};

const SECOND_LOCKED: Conflict = Conflict::Locked {
    oid: SECOND,
    owner: OWNER,
};

/// How many commits of site 0 the snapshot sees, which object has the version and which is locked; and what a commit of
/// the first object and then the second meets.
static ROWS: [(u64, ObjId, ObjId, Option<Conflict>); 6] = [
    (4, FIRST, OTHER, None),
    (3, OTHER, OTHER, None),
    (3, FIRST, SECOND, Some(FIRST_MODIFIED)),
    (3, SECOND, FIRST, Some(FIRST_LOCKED)),
    (3, SECOND, SECOND, Some(SECOND_MODIFIED)),
    (4, SECOND, SECOND, Some(SECOND_LOCKED)),
];

/// Two objects, not in the order of their names.
fn both(alloc: Global) -> Mem<Objects> {
    let objects = vec![in alloc; FIRST, SECOND]?;
    Ok(Objects::from(objects))
}

fn met(objects: &Objects, seen: u64, written: ObjId, locked: ObjId) -> Option<Conflict> {
    let mut snapshot = Vts::zero(2);
    snapshot.raise(SiteId(0), seen);
    let pair = Pair {
        written,
        version: VERSION,
        locked,
        owner: OWNER,
    };
    fast(objects, &snapshot, &pair).err()
}

#[test]
fn the_first_conflict_is_the_answer(rt: HostRuntime) -> Result<(), Fail> {
    let objects = both(rt.alloc())?;
    for &(seen, written, locked, wanted) in &ROWS {
        assert!(rt; met(&objects, seen, written, locked) == wanted);
    }
    Ok(())
}

//! The name of a slow commit, and its lock.
ghost use Rattle.std.specs.Prelude.{◌≡◌, ◌≤◌, not};
ghost use Rattle.indexmap.specs.IndexMap.{spare};
ghost use Rattle.walter_base.specs.Names.{same_site};
ghost use Rattle.walter_locks.specs.Parts.{of_others};

use indexmap::IndexMap;
use walter_base::{Objects, SiteId, Tid};

/// A slow commit: its coordinator, and its number there.
#[derive(Clone, Copy, Debug, PartialEq, Eq, Hash)]
pub struct SlowId {
    pub coordinator: SiteId,
    pub slow: u64,
}

/// The lock of a slow commit.
#[derive(Debug, Drop)]
pub struct Lock {
    pub owner: Tid,
    pub objects: Objects,
}

/// Drops the locks of the coordinator, and keeps the order of the others.
pub fn drop_locks(locks: &mut IndexMap<SlowId, Lock>, coordinator: SiteId)
    ensures others { locks.new.entries ≡ of_others coordinator locks.old.entries }
    ensures room { spare locks.old ≤ spare locks.new }
{
    locks.retain(
        |id: &SlowId, lock: &mut Lock| -> bool
            ensures { (result ≡ not (same_site coordinator id.now.coordinator)) × (lock.new ≡ lock.old) }
        { id.coordinator != coordinator },
    );
}

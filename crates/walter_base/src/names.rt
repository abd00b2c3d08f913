//! The names of sites, objects, transactions and commits, and the two kinds of containers.
//!
//! The names that tables are keyed by are hashed as one number, which takes a half or a third of the time of their
//! parts one by one. Those that a run gives (numbers below 2³²) never meet in it.
ghost use Rattle.std.proofs.Common.{rules};
ghost use Rattle.std.specs.Hash as fed;
ghost use Rattle.std.specs.Prelude.{◌+◌, ◌*◌, ◌%◌, ◌^◌};

use std::hash::{Hash, Hasher};

/// A site, by its number from 0.
#[derive(Clone, Copy, Debug, PartialEq, Eq, PartialOrd, Ord, Hash)]
pub struct SiteId(pub u8);

/// An object: its container, and its number there.
#[derive(Clone, Copy, Debug, PartialEq, Eq, PartialOrd, Ord)]
pub struct ObjId {
    pub container: u32,
    pub local: u64,
}

impl Hash for ObjId {
    ghost hash_input = { λ oid. fed.u64 ((oid.local + oid.container * 2 ^ 32) % 2 ^ 64) };

    ghost respects_eq = { Prim.search rules };

    fn hash<H: Hasher>(&self, state: &mut H) {
        state.write_u64(self.local.wrapping_add((self.container as u64) << 32));
    }
}

/// A transaction: the site that started it, the epoch of that site, and the number of the start in that epoch, from 1.
#[derive(Clone, Copy, Debug, PartialEq, Eq, PartialOrd, Ord)]
pub struct Tid {
    pub site: SiteId,
    pub epoch: u32,
    pub number: u64,
}

impl Hash for Tid {
    ghost hash_input = { λ tid. fed.u64 ((tid.number + (tid.site.0 * 2 ^ 56 + tid.epoch * 2 ^ 32) % 2 ^ 64) % 2 ^ 64) };

    ghost respects_eq = { Prim.search rules };

    fn hash<H: Hasher>(&self, state: &mut H) {
        let run = ((self.site.0 as u64) << 56).wrapping_add((self.epoch as u64) << 32);
        state.write_u64(self.number.wrapping_add(run));
    }
}

/// The `seq`th commit of a site, counted from 1.
#[derive(Clone, Copy, Debug, PartialEq, Eq, PartialOrd, Ord)]
pub struct Version {
    pub site: SiteId,
    pub seq: u64,
}

impl Hash for Version {
    ghost hash_input = { λ version. fed.u64 ((version.seq + version.site.0 * 2 ^ 56) % 2 ^ 64) };

    ghost respects_eq = { Prim.search rules };

    fn hash<H: Hasher>(&self, state: &mut H) {
        state.write_u64(self.seq.wrapping_add((self.site.0 as u64) << 56));
    }
}

/// What the objects of a container are.
#[derive(Clone, Copy, Debug, PartialEq, Eq, Hash)]
pub enum Kind {
    /// An object has one value, which is written whole.
    Regular,
    /// An object is a set that counts: each id is added and taken away any number of times.
    Cset,
}

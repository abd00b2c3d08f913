//! The versions of an object's writes, in the order of arrival. A vector that sees all of them is kept beside them, so
//! that who covers it looks at none.
ghost use Rattle.std.specs.Prelude.{◌≡◌, ◌<◌, ◌≤◌, ◌+◌, ◌++◌, ◌∷◌, [], None, Some, OnOk, IfErr};
ghost use Rattle.walter_base.specs.Conflicts.{first_outside};

use crate::reach::{Reach, is_covered, no_reach, with_version};
use crate::room::make_spare;
use crate::rows::all_seen;
use std::alloc::Global;
use std::marker::Model;
use walter_base::{Mem, Version, Vts};

/// The versions of an object's writes. Contracts see the list of them, and the room for more.
#[derive(Drop)]
pub struct Versions {
    items: Vec<Version>,
    reach: Option<Reach>,
}

impl Model for Versions {
    ghost use Rattle.std.specs.Prelude.{◌-◌, All, vec_len, vec_capacity};
    ghost use Rattle.walter_history.specs.Reaches.{Reaches};
    ghost use Rattle.walter_history.specs.Versions.{Versioned};

    ghost Value = { Versioned };

    ghost view = { λ s. record { versions = s.items.items; room = vec_capacity s.items - vec_len s.items } };

    ghost invariant = { λ s. All (Reaches s.reach) s.items.items };
}

impl Versions {
    /// There is none.
    pub fn new(alloc: Global) -> Versions
        ensures versions { result.versions ≡ [] }
        ensures room { result.room ≡ 0 }
    {
        Versions {
            items: Vec::new(alloc),
            reach: no_reach(),
        }
    }

    /// Makes room for so many more.
    pub fn reserve(&mut self, k: u64) -> Mem<()>
        ensures versions { self.new.versions ≡ self.old.versions }
        ensures enough { OnOk result (k ≤ self.new.room) }
        ensures more { self.old.room ≤ self.new.room }
    {
        make_spare(&mut self.items, k)
    }

    /// Puts a version behind the others, without taking memory.
    pub fn push(&mut self, version: Version)
        requires { 0 < self.old.room }
        ensures versions { self.new.versions ≡ self.old.versions ++ version ∷ [] }
        ensures room { self.old.room ≤ self.new.room + 1 }
    {
        self.reach = with_version(self.reach, version);
        self.items.push_reserved(version);
    }

    /// All of them.
    pub fn as_slice(&self) -> &[Version]
        ensures { result.now ≡ self.entry.now.versions }
    {
        &self.items
    }

    /// Whether the vector sees all of them. The error is the first that it doesn't see.
    pub fn all_seen(&self, by: &Vts) -> Result<(), Version>
        ensures seen { OnOk result (first_outside by.now self.now.versions ≡ None) }
        ensures first { IfErr result (λ version. first_outside by.now self.now.versions ≡ Some version) }
    {
        if is_covered(&self.reach, by) {
            return Ok(());
        }
        all_seen(&self.items, by)
    }
}

//! The containers of a catalog, by their numbers.
ghost use Rattle.std.specs.Prelude.{◌≡◌, OnOk, OnErr};
ghost use Rattle.std.specs.FinMap as map;

use crate::names::{Kind, SiteId};
use std::alloc::{AllocError, Global};
use std::collections::BTreeMap;
use std::marker::Model;

/// What is declared of a container.
#[derive(Clone, Copy, Debug, PartialEq, Eq)]
pub struct Container {
    pub kind: Kind,
    pub preferred: SiteId,
}

/// The containers by their numbers. Contracts see the finite map.
#[derive(Debug, Drop)]
pub struct Containers {
    entries: BTreeMap<u32, Container>,
}

impl Model for Containers {
    ghost use Rattle.std.specs.FinMap as map;
    ghost use Rattle.std.specs.Ordering.{nat_cmp};
    ghost use Rattle.std.specs.Coded.{coded_ℕ};
    ghost use Rattle.walter_base.specs.declared.containers.Container.{Container};
    ghost use Rattle.walter_base.specs.Container.{coded_container};

    ghost Value = { map.FinMap nat_cmp Container };

    ghost coded = { map.code coded_ℕ coded_container };

    ghost view = { λ c. map.from_entries c.entries.entries };
}

impl Containers {
    pub fn new(alloc: Global) -> Containers
        ensures { result ≡ map.empty }
    {
        Containers {
            entries: BTreeMap::new(alloc),
        }
    }

    /// What is declared of the container; none where no container has the number.
    pub fn get(&self, number: u32) -> Option<Container>
        ensures { result ≡ map.get self.now number }
    {
        self.entries.get(&number).copied()
    }

    /// Adds a container, or replaces the one of its number.
    pub fn insert(&mut self, number: u32, container: Container) -> Result<(), AllocError>
        ensures ok { OnOk result (self.new ≡ map.insert self.old number container) }
        ensures err { OnErr result (self.new ≡ self.old) }
    {
        self.entries.insert(number, container)?;
        Ok(())
    }
}

impl Clone for Containers {
    ghost is_clone = { λ a b. b ≡ a };

    fn clone(&self) -> Result<Containers, AllocError> {
        Ok(Containers {
            entries: self.entries.clone()?,
        })
    }
}

//! The bodies of a journal, in order.
ghost use Rattle.std.specs.Prelude.{◌≡◌, ◌++◌, [], ◌∷◌, map, OnOk, OnErr};

use std::alloc::{AllocError, Global};
use std::marker::Model;

/// The bodies of a journal, the oldest first. Contracts see the list of them.
#[derive(Debug, Drop)]
pub struct Bodies {
    alloc: Global,
    items: Vec<Vec<u8>>,
}

impl Model for Bodies {
    ghost use Rattle.std.specs.Prelude.{ℕ, List, map};

    ghost Value = { List (List ℕ) };

    ghost view = { λ b. map (λ body. body.items) b.items.items };
}

impl Bodies {
    pub fn new(alloc: Global) -> Bodies
        ensures { result ≡ [] }
    {
        Bodies {
            alloc,
            items: Vec::new(alloc),
        }
    }

    /// Adds a copy of the body.
    pub fn push(&mut self, body: &[u8]) -> Result<(), AllocError>
        ensures ok { OnOk result (self.new ≡ self.old ++ body.now ∷ []) }
        ensures err { OnErr result (self.new ≡ self.old) }
    {
        let copy = Vec::from_slice(self.alloc, body)?;
        self.items.push(copy)?;
        Ok(())
    }

    /// Adds the others behind its own.
    pub fn append(&mut self, others: Bodies) -> Result<(), AllocError>
        ensures { OnOk result (self.new ≡ self.old ++ others) }
    {
        for body in others.items {
            self.items.push(body)?;
        }
        Ok(())
    }

    pub fn as_slice(&self) -> &[Vec<u8>]
        ensures { map (λ body. body.items) result.now ≡ self.now }
    {
        &self.items
    }

    /// The vector inside.
    pub fn into_vec(self) -> Vec<Vec<u8>>
        ensures { map (λ body. body.items) result.items ≡ self }
    {
        let Bodies { items, .. } = self;
        items
    }
}

//! The vector that a transaction reads at, on the heap once for all its owners.
ghost use Rattle.std.specs.Prelude.{◌≡◌, ◌≤◌, length, take, IfOk};
ghost use Rattle.walter_base.specs.Vectors.{most_sites};

use crate::vts::Vts;
use std::alloc::{AllocError, Global};
use std::marker::Model;
use std::sync::Arc;

/// How many numbers the smaller form has places for.
const FEW: usize = 8;

// A vector of up to eight numbers, in as many bytes as it needs.
#[derive(Clone, Copy, Debug)]
struct Few {
    sites: u8,
    numbers: [u64; FEW],
}

// One piece of the heap, whichever it is.
#[derive(Debug, Drop)]
enum Numbers {
    Few(Arc<Few, Global>),
    Many(Arc<Vts, Global>),
}

/// The vector that a transaction reads at. Its numbers are on the heap once, for all that speak of the transaction, in
/// one piece: a copy takes no memory. Contracts see the vector.
#[derive(Debug, Drop)]
pub struct Snapshot {
    numbers: Numbers,
}

impl Model for Snapshot {
    ghost use Rattle.std.specs.Prelude.{ℕ, List};
    ghost use Rattle.walter_base.specs.Snapshots.{numbers_in, IsVector};

    ghost Value = { List ℕ };

    ghost view = { λ s. numbers_in s.numbers };

    ghost invariant = { λ s. IsVector s.numbers };
}

impl Snapshot {
    pub fn new(alloc: Global, vector: Vts) -> Result<Snapshot, AllocError>
        ensures { IfOk result (λ s. s ≡ vector) }
    {
        let numbers = if vector.as_slice().len() <= FEW {
            Numbers::Few(Arc::new(alloc, few_of(vector.as_slice()))?)
        } else {
            Numbers::Many(Arc::new(alloc, vector)?)
        };
        Ok(Snapshot { numbers })
    }

    /// The numbers of the sites that there are.
    pub fn as_slice(&self) -> &[u64]
        ensures same { result.now ≡ self.now }
        ensures few { length self.now ≤ most_sites }
    {
        match &self.numbers {
            Numbers::Few(few) => &few.numbers[..usize::from(few.sites)],
            Numbers::Many(vector) => vector.as_slice(),
        }
    }

    /// A copy of the vector, off the heap.
    pub fn vector(&self) -> Vts
        ensures { result ≡ self.now }
    {
        Vts::from_slice(self.as_slice())
    }
}

// The smaller form of these numbers.
fn few_of(front: &[u64]) -> Few
    requires { length front.now ≤ 8 }
    ensures few { result.sites ≤ 8 }
    ensures counted { length result.numbers ≡ 8 }
    ensures same { take result.sites result.numbers ≡ front.now }
{
    let mut numbers = [0; FEW];
    numbers[..front.len()].copy_from_slice(front);
    Few {
        sites: front.len() as u8,
        numbers,
    }
}

impl Clone for Snapshot {
    ghost is_clone = { λ a b. b ≡ a };

    fn clone(&self) -> Result<Snapshot, AllocError> {
        let numbers = match &self.numbers {
            Numbers::Few(few) => Numbers::Few(few.clone()?),
            Numbers::Many(vector) => Numbers::Many(vector.clone()?),
        };
        Ok(Snapshot { numbers })
    }
}

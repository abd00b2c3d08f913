//! Bytes with many owners, on the heap once.
ghost use Rattle.std.specs.Prelude.{◌≡◌, length, IfOk};
ghost use Rattle.std.specs.Arc.{arc_slice_items};

use std::alloc::{AllocError, Global};
use std::marker::Model;
use std::sync::ArcSlice;

/// A value of an object, or any other bytes of which many speak. They are on the heap once: a copy takes no memory.
/// Contracts see the list of them.
#[derive(Debug, Drop)]
pub struct SharedBytes {
    items: ArcSlice<u8, Global>,
}

impl Model for SharedBytes {
    ghost use Rattle.std.specs.Prelude.{ℕ, List};
    ghost use Rattle.std.specs.Arc.{arc_slice_items};

    ghost Value = { List ℕ };

    ghost view = { λ b. arc_slice_items b.items };
}

impl SharedBytes {
    /// A copy of the slice.
    pub fn from_slice(alloc: Global, items: &[u8]) -> Result<SharedBytes, AllocError>
        ensures { IfOk result (λ b. b ≡ items.now) }
    {
        Ok(SharedBytes {
            items: ArcSlice::from_slice(alloc, items)?,
        })
    }

    /// The bytes of the vector, which stay where they are.
    pub fn from_vec(items: Vec<u8>) -> Result<SharedBytes, AllocError>
        ensures { IfOk result (λ b. b ≡ items.items) }
    {
        Ok(SharedBytes {
            items: ArcSlice::from_vec(items)?,
        })
    }

    /// The same bytes, for what knows no value.
    pub fn share(&self) -> Result<ArcSlice<u8, Global>, AllocError>
        ensures { IfOk result (λ items. arc_slice_items items ≡ self.now) }
    {
        self.items.clone()
    }

    pub fn as_slice(&self) -> &[u8]
        ensures { result.now ≡ self.now }
    {
        &self.items
    }

    pub fn len(&self) -> usize
        ensures { result ≡ length self.now }
    {
        self.items.len()
    }
}

impl Clone for SharedBytes {
    ghost is_clone = { λ a b. b ≡ a };

    fn clone(&self) -> Result<SharedBytes, AllocError> {
        Ok(SharedBytes {
            items: self.items.clone()?,
        })
    }
}

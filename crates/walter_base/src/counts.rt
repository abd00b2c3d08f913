//! The ids of a set that counts, each with its count.
use std::alloc::AllocError;
use std::marker::Model;

/// The ids of a set that counts, each with its count. Contracts see the list of them.
#[derive(Debug, Drop)]
pub struct Counts {
    items: Vec<(u64, i64)>,
}

impl Model for Counts {
    ghost use Rattle.std.specs.Prelude.{List, ℕ, ℤ};

    ghost Value = { List (ℕ × ℤ) };

    ghost view = { λ c. c.items.items };
}

impl Counts {
    ghost use Rattle.std.specs.Prelude.{◌≡◌};

    pub fn as_slice(&self) -> &[(u64, i64)]
        ensures { result.now ≡ self.now }
    {
        &self.items
    }
}

impl Clone for Counts {
    ghost is_clone = { λ a b. b ≡ a };

    ghost use Rattle.std.specs.Prelude.{◌≡◌};

    fn clone(&self) -> Result<Counts, AllocError> {
        Ok(Counts {
            items: self.items.clone()?,
        })
    }
}

impl From<Vec<(u64, i64)>> for Counts {
    ghost use Rattle.std.specs.Prelude.{◌≡◌};

    ghost from_gives = { λ v c. c ≡ v.items };

    fn from(items: Vec<(u64, i64)>) -> Counts {
        Counts { items }
    }
}

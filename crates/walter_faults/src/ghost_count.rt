//! A count that exists in proofs alone.
ghost use Rattle.std.specs.Prelude.{◌≡◌, ℕ, ◌+◌};
ghost use Rattle.std.specs.Borrow.{ftrue};

use std::marker::Model;

/// A number that exists in proofs alone, so it takes no memory and cannot overflow.
#[derive(Drop)]
pub struct GhostCount {
    pub ghost count: { ℕ },
}

impl Model for GhostCount {
    ghost also_owns = { λ _. ftrue };
}

// It owns nothing.
unsafe impl Send for GhostCount {}

impl GhostCount {
    /// Nothing was counted yet.
    pub fn zero() -> GhostCount
        ensures { result.count ≡ 0 }
    {
        GhostCount {}
    }

    /// The same count once more.
    pub fn same(&self) -> GhostCount
        ensures { result.count ≡ self.now.count }
    {
        GhostCount {}
    }

    /// One more. What keeps a count puts this in its place, so that it never falls.
    pub fn next(&self) -> GhostCount
        ensures { result.count ≡ self.now.count + 1 }
    {
        GhostCount {}
    }
}

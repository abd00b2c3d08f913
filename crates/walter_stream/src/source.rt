//! Where bytes come from: a trait.
ghost use Rattle.std.specs.Prelude.{◌≡◌, ◌<◌, ◌≤◌, ℕ, List, length, take, Option, IfOk, OnOk, OnErr};
ghost use Rattle.walter_stream.specs.Streams.{AtEnd, TakesFront};

use thiserror::Error;

/// A call on a source or a sink met a fault.
#[derive(Clone, Copy, Debug, PartialEq, Eq, Error)]
#[error("a call on a stream failed")]
pub struct Failed;

/// Where bytes come from.
pub trait Source {
    /// How often a call has failed. It never falls.
    ghost faults: { Self → ℕ };

    /// The bytes that are left, where the source tells them.
    ghost left: { Self → Option (List ℕ) };

    /// Takes bytes from the front of what is left into the front of the slice, and answers how many. None into a
    /// slice that isn't empty is the end. After a fault what is left is as before.
    fn read(&mut self, into: &mut [u8]) -> Result<usize, Failed>
        ensures within { IfOk result (λ n. n ≤ length into.old) }
        ensures taken { IfOk result (λ n.
            TakesFront (left self.old) (left self.new) (take n into.new)) }
        ensures end { result ≡ Ok 0 → 0 < length into.old → AtEnd (left self.old) }
        ensures same { OnErr result (left self.new ≡ left self.old) }
        ensures faultless { OnOk result (faults self.new ≡ faults self.old) }
        ensures cause { OnErr result (faults self.old < faults self.new) };
}

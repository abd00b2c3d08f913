//! Where bytes go: a trait.
ghost use Rattle.std.specs.Prelude.{◌≡◌, ◌<◌, ◌≤◌, ℕ, List, length, take, Option, IfOk, OnOk, OnErr};
ghost use Rattle.walter_stream.specs.Streams.{Appends};

use crate::source::Failed;

/// Where bytes go.
pub trait Sink {
    /// How often a call has failed. It never falls.
    ghost faults: { Self → ℕ };

    /// The bytes that it holds, where the sink tells them.
    ghost holds: { Self → Option (List ℕ) };

    /// Appends bytes from the front of the slice, and answers how many: at least one of a slice that isn't empty.
    /// After a fault the sink holds what it held.
    fn write(&mut self, from: &[u8]) -> Result<usize, Failed>
        ensures within { IfOk result (λ n. n ≤ length from.now) }
        ensures moves { 0 < length from.now → IfOk result (λ n. 0 < n) }
        ensures appended { IfOk result (λ n.
            Appends (holds self.old) (holds self.new) (take n from.now)) }
        ensures same { OnErr result (holds self.new ≡ holds self.old) }
        ensures faultless { OnOk result (faults self.new ≡ faults self.old) }
        ensures cause { OnErr result (faults self.old < faults self.new) };
}

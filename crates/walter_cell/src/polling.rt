//! What the lanes hold arrives, without a look at their other ends.
ghost use Rattle.std.specs.Prelude.{◌≡◌, ℕ, length};
ghost use mathlib.Core.List.{IsPrefix};
ghost use Rattle.walter_outbox.specs.Lanes.{arrived_from, in_rings};

use walter_base::Mem;
use walter_lane::Inbound;

/// What each lane holds arrives, of one sender after another.
pub fn poll_all(ins: &mut Vec<Inbound>) -> Mem<()>
    ensures long { length ins.new.items ≡ length ins.old.items }
    ensures rings { in_rings ins.new.items ≡ in_rings ins.old.items }
    ensures more { (from : ℕ) → IsPrefix (arrived_from ins.old.items from) (arrived_from ins.new.items from) }
{
    for from in 0..ins.len() {
        ins[from].poll()?;
    }
    Ok(())
}

//! A write with the sync that makes it safe.
ghost use Rattle.std.specs.Prelude.{◌≡◌, ◌+◌, ◌≤◌, ℕ, List, length, false, OnOk, OnErr};
ghost use Rattle.walter_disk.specs.Disks.{written, Fails, TakesRoom};
ghost use Rattle.walter_disk.specs.Images.{Torn, Only, IsDurable, LeavesOnly};

use crate::disk::Disk;
use crate::fault::Failed;

/// Writes bytes and makes them safe.
pub fn write_and_sync<D: Disk>(disk: &mut D, at: u64, from: &[u8]) -> Result<(), Failed>
    requires begins { at ≤ (D.known disk.old).size }
    requires end { at + length from.now ≤ D.room_end disk.old }
    requires calls { 2 ≤ D.room_calls disk.old }
    ensures whole { OnOk result ((D.known disk.old).broken ≡ false) }
    ensures done { OnOk result (D.known disk.new ≡ written at from.now (D.known disk.old)) }
    ensures durable { OnOk result (IsDurable (D.known disk.new).reads (D.may_leave disk.new)) }
    ensures failed { OnErr result (Fails (D.known disk.old) (D.known disk.new)) }
    ensures room { TakesRoom 2 (D.room_end disk.old) (D.room_end disk.new)
        (D.room_calls disk.old) (D.room_calls disk.new) }
    ensures device { OnOk result (D.device_calls disk.new ≡ D.device_calls disk.old + 2) }
    ensures at_most { D.device_calls disk.new ≤ D.device_calls disk.old + 2 }

    // A crash leaves what there was, with any bytes where these go.
    ensures any_moment { (bytes : List ℕ) → Only bytes (D.may_leave disk.old)
        → LeavesOnly D.moment D.left_since disk.old disk.new (Torn at (length from.now) bytes) }
{
    disk.write_at(at, from)?;
    disk.sync()
}

//! Zeros behind the last byte of a disk.
ghost use Rattle.std.specs.Prelude.{◌≡◌, ◌+◌, ◌-◌, ◌≤◌, min, length, OnOk, OnErr};
ghost use Rattle.walter_disk.specs.Disks.{Fails, TakesRoom};
ghost use Rattle.walter_disk.specs.Images.{Follows, LeavesOnly};
ghost use Rattle.walter_journal.specs.Zeros.{zeros as zeros_of, filled_disk, writes_of, Grows, HasGrown};

use walter_disk::{Disk, Failed};

/// Writes zeros behind the last byte of a disk, up to a place, and makes nothing safe. The zeros that it is given are those
/// of a write.
pub fn fill<D: Disk>(disk: &mut D, zeros: &[u8], to: u64) -> Result<(), Failed>
    requires zeros { zeros.now ≡ zeros_of (length zeros.now) }
    requires few { length zeros.now ≤ 65536 }
    requires enough { min 65536 (to - (D.known disk.old).size) ≤ length zeros.now }
    requires end { to ≤ D.room_end disk.old }
    requires calls { writes_of (to - (D.known disk.old).size) ≤ D.room_calls disk.old }
    ensures done { OnOk result (D.known disk.new ≡ filled_disk to (D.known disk.old)) }
    ensures failed { OnErr result (Fails (D.known disk.old) (D.known disk.new)) }
    ensures room { TakesRoom (writes_of (to - (D.known disk.old).size))
        (D.room_end disk.old) (D.room_end disk.new) (D.room_calls disk.old) (D.room_calls disk.new) }
    ensures device { OnOk result (
        D.device_calls disk.new ≡ D.device_calls disk.old + writes_of (to - (D.known disk.old).size)) }
    ensures at_most { D.device_calls disk.new
        ≤ D.device_calls disk.old + writes_of (to - (D.known disk.old).size) }

    // A crash leaves what there was, with any bytes behind it.
    ensures crash { Follows (Grows (D.known disk.old).size to) (D.may_leave disk.old) (D.may_leave disk.new) }
    ensures any_moment { LeavesOnly D.moment D.left_since disk.old disk.new
        (HasGrown (D.known disk.old).size to (D.may_leave disk.old)) }
{
    let mut at = disk.size();
    while at < to {
        let count = (to - at).min(zeros.len() as u64);
        disk.write_at(at, &zeros[..count as usize])?;
        at += count;
    }
    Ok(())
}

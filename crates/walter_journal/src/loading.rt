//! Loads the journal of a disk, and begins one on a disk of no bytes.
ghost use Rattle.std.specs.Prelude.{◌≡◌, ◌+◌, ◌<◌, ◌≤◌, ◌++◌, ◌∷◌, [], length, is_some, false, IsSome, IfSome, IfOk, IfErr, OnOk};
ghost use Rattle.walter_disk.specs.Images.{Only, IsDurable, IsImage, LeavesOnly};
ghost use Rattle.walter_journal.specs.Faults.{HasCause, IsDiskFault};
ghost use Rattle.walter_journal.specs.Journals.{end_of, capacity_of, calls_of_load, disk_behind, StandsFor};
ghost use Rattle.walter_journal.specs.Layout.{header_in, end_behind};
ghost use Rattle.walter_journal.specs.Steps.{IsReady, IsLeft};

use crate::bodies::Bodies;
use crate::fault::JournalFault;
use crate::journal::Journal;
use crate::layout::bodies_of;
use std::alloc::Global;
use walter_base::Format;
use walter_disk::{Disk, write_and_sync};

// A header and a closed gate.
fn empty_in(format: Format) -> [u8; 9]
    ensures { result ≡ header_in format ++ 0 ∷ [] }
{
    match format {
        Format::First => *b"WALTERJ1\0",
        Format::Second => *b"WALTERJ2\0",
    }
}

/// Loads the journal of a disk, and makes an empty one of this format on a disk of no bytes. A disk that has bytes is
/// settled first, whatever happened to it. With the bodies comes the format that the header names. At a fault the disk
/// comes back.
pub fn load<D: Disk>(
    alloc: Global,
    mut disk: D,
    capacity: u64,
    format: Format,
) -> Result<(Journal<D>, Bodies, Format), (D, JournalFault)>
    // Where the disk tells its bytes, the journal stands for the bodies.
    ensures loaded { IsSome (D.known disk).reads → IfOk result (λ it. StandsFor it.2 it.0 it.1) }
    ensures fresh { (D.known disk).size ≡ 0 → IfOk result (λ it. (it.1 ≡ []) × (it.2 ≡ format)) }
    ensures image { 0 < (D.known disk).size
        → OnOk result (IsImage (D.known (disk_behind result)).reads (D.may_leave disk)) }
    ensures capacity { IfOk result (λ it. capacity_of it.0 ≡ capacity) }
    ensures end { IfOk result (λ it. end_of it.0 ≡ end_behind it.1) }

    // A new journal is the header and a closed gate. A crash while it is made leaves no more bytes than that.
    ensures header { (D.known disk).size ≡ 0
        → OnOk result (IfSome (D.known (disk_behind result)).reads (λ bytes. bytes ≡ header_in format ++ 0 ∷ [])) }
    ensures first { (D.known disk).size ≡ 0 → Only [] (D.may_leave disk)
        → LeavesOnly D.moment D.left_since disk (disk_behind result) (λ image. length image ≤ 9) }

    // How many calls an arm counts: a write and a sync on a disk of no bytes, and one read on another.
    ensures device { OnOk result (D.device_calls (disk_behind result)
        ≡ D.device_calls disk + calls_of_load (D.known disk).size) }
    ensures at_most { D.device_calls (disk_behind result)
        ≤ D.device_calls disk + calls_of_load (D.known disk).size }

    // Whatever it answers, the disk was not settled, or reads what a crash might have left.
    ensures settled { 0 < (D.known disk).size
        → IsLeft (D.may_leave disk) (D.known disk) (D.known (disk_behind result)) }
    ensures whole { OnOk result ((D.known (disk_behind result)).broken ≡ false) }
    ensures faultless { OnOk result ((D.known (disk_behind result)).faults ≡ (D.known disk).faults) }

    // Why it failed. `layouts_differ` says that these exclude each other.
    ensures cause { IfErr result (λ left.
        HasCause left.1 (D.may_leave disk) (D.known disk) (D.known left.0)) }

    ensures arms { (D.known (disk_behind result)).arms ≡ (D.known disk).arms }
    ensures tells { is_some (D.known (disk_behind result)).reads ≡ is_some (D.known disk).reads }

    // A crash at any moment leaves what it might have left before.
    ensures any_moment { 0 < (D.known disk).size
        → LeavesOnly D.moment D.left_since disk (disk_behind result) (D.may_leave disk) }
{
    let found = if disk.size() == 0 {
        begin(alloc, &mut disk, format)
    } else {
        resume(alloc, &mut disk)
    };
    match found {
        Ok((bodies, end, format)) => {
            Ok((Journal::new(alloc, disk, capacity, end), bodies, format))
        }
        Err(fault) => Err((disk, fault)),
    }
}

/// Makes an empty journal of this format on a disk of no bytes, and gives the place behind its gate.
pub fn begin<D: Disk>(
    alloc: Global,
    disk: &mut D,
    format: Format,
) -> Result<(Bodies, u64, Format), JournalFault>
    requires { (D.known disk.old).size ≡ 0 }
    ensures empty { IfOk result (λ found. (found.0 ≡ []) × (found.2 ≡ format)) }
    ensures ok { IfOk result (λ found.
        IsReady found.2 found.0 found.1 (D.may_leave disk.new) (D.known disk.new)) }
    ensures faultless { OnOk result ((D.known disk.new).faults ≡ (D.known disk.old).faults) }
    ensures cause { IfErr result (λ fault.
        HasCause fault (D.may_leave disk.old) (D.known disk.old) (D.known disk.new)) }
    ensures arms { (D.known disk.new).arms ≡ (D.known disk.old).arms }
    ensures tells { is_some (D.known disk.new).reads ≡ is_some (D.known disk.old).reads }
    ensures header { OnOk result (IfSome (D.known disk.new).reads (λ bytes. bytes ≡ header_in format ++ 0 ∷ [])) }
    ensures first { Only [] (D.may_leave disk.old)
        → LeavesOnly D.moment D.left_since disk.old disk.new (λ image. length image ≤ 9) }
    ensures device { OnOk result (D.device_calls disk.new ≡ D.device_calls disk.old + 2) }
    ensures at_most { D.device_calls disk.new ≤ D.device_calls disk.old + 2 }
{
    disk.reserve(9, 2)?;
    write_and_sync(disk, 0, &empty_in(format))?;
    Ok((Bodies::new(alloc), 9, format))
}

// Reads the journal of a disk that has bytes.
fn resume<D: Disk>(alloc: Global, disk: &mut D) -> Result<(Bodies, u64, Format), JournalFault>
    requires { 0 < (D.known disk.old).size }
    ensures ok { IfOk result (λ found.
        IsReady found.2 found.0 found.1 (D.may_leave disk.new) (D.known disk.new)) }
    ensures settled { IsLeft (D.may_leave disk.old) (D.known disk.old) (D.known disk.new) }
    ensures image { OnOk result (IsImage (D.known disk.new).reads (D.may_leave disk.old)) }
    ensures faultless { OnOk result ((D.known disk.new).faults ≡ (D.known disk.old).faults) }
    ensures cause { IfErr result (λ fault.
        HasCause fault (D.may_leave disk.old) (D.known disk.old) (D.known disk.new)) }
    ensures arms { (D.known disk.new).arms ≡ (D.known disk.old).arms }
    ensures tells { is_some (D.known disk.new).reads ≡ is_some (D.known disk.old).reads }
    ensures any_moment { LeavesOnly D.moment D.left_since disk.old disk.new (D.may_leave disk.old) }
    ensures device { OnOk result (D.device_calls disk.new ≡ D.device_calls disk.old + 1) }
    ensures at_most { D.device_calls disk.new ≤ D.device_calls disk.old + 1 }
{
    let bytes = settle_and_read(alloc, disk)?;
    let (bodies, end, format) = bodies_of(alloc, &bytes)?;
    Ok((bodies, end as u64, format))
}

/// All the bytes of a disk, which is settled first.
pub fn settle_and_read<D: Disk>(alloc: Global, disk: &mut D) -> Result<Vec<u8>, JournalFault>
    requires { 0 < (D.known disk.old).size }
    ensures told { IfOk result (λ bytes. IfSome (D.known disk.new).reads (λ told. bytes.items ≡ told)) }
    ensures size { IfOk result (λ bytes. length bytes.items ≡ (D.known disk.new).size) }
    ensures settled { IsLeft (D.may_leave disk.old) (D.known disk.old) (D.known disk.new) }
    ensures image { OnOk result (IsImage (D.known disk.new).reads (D.may_leave disk.old)) }
    ensures durable { OnOk result (IsDurable (D.known disk.new).reads (D.may_leave disk.new)) }
    ensures whole { OnOk result ((D.known disk.new).broken ≡ false) }
    ensures faultless { OnOk result ((D.known disk.new).faults ≡ (D.known disk.old).faults) }
    ensures cause { IfErr result (IsDiskFault (D.known disk.old) (D.known disk.new)) }
    ensures arms { (D.known disk.new).arms ≡ (D.known disk.old).arms }
    ensures tells { is_some (D.known disk.new).reads ≡ is_some (D.known disk.old).reads }
    ensures any_moment { LeavesOnly D.moment D.left_since disk.old disk.new (D.may_leave disk.old) }
    ensures device { OnOk result (D.device_calls disk.new ≡ D.device_calls disk.old + 1) }
    ensures at_most { D.device_calls disk.new ≤ D.device_calls disk.old + 1 }
{
    let size = disk.size();
    disk.reserve(size, 1)?;
    disk.settle()?;
    let size = disk.size();
    let mut bytes = vec![in alloc; 0; size as usize]?;
    disk.read(0, &mut bytes)?;
    Ok(bytes)
}

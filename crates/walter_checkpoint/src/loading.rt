//! Loads the book of a disk, and begins one on a disk of no bytes.
ghost use Rattle.std.specs.Prelude.{◌≡◌, ◌≢◌, ◌+◌, ◌-◌, ◌/◌, ◌<◌, ◌≤◌, ◌++◌, ◌∷◌, [], ℕ, length, is_some, false, IsSome, IfSome, IfOk, IfErr, OnOk};
ghost use Rattle.walter_base.specs.Sizes.{most_in};
ghost use Rattle.walter_disk.specs.Images.{Only, Narrows, IsDurable, IsImage, LeavesOnly};
ghost use Rattle.walter_journal.specs.Faults.{IsDiskFault};
ghost use Rattle.walter_journal.specs.Steps.{IsLeft};
ghost use Rattle.walter_journal.specs.Zeros.{zeros, writes_of};
ghost use Rattle.walter_checkpoint.specs.Areas.{header_of_two, shape_by, area_size};
ghost use Rattle.walter_checkpoint.specs.Books.{areas_of, disk_of, StandsFor, GoesOnBehind, IsReady, HasPackRoom, HasRoomOn, shape_of, limit_of};
ghost use Rattle.walter_checkpoint.specs.Faults.{HasCause};
ghost use Rattle.walter_checkpoint.specs.Loads.{IsAreas, found_shape, IsOpened, IsStocked, new_bytes, new_size, calls_of_load, disk_behind};

use crate::book::{Book, Live, Other, other_area};
use crate::packing::renewal;
use crate::reading::{Found, read_book, two_header};
use std::alloc::{AllocError, Global};
use walter_base::Format;
use walter_disk::{Disk, NoMemory};
use walter_journal::{Bodies, Journal, JournalFault, begin, fill, settle_and_read};

/// Loads the book of a disk, and makes an empty one on a disk of no bytes, of so many areas and of this format. A disk
/// that has bytes is settled first, whatever happened to it, and is read as its header says. At a fault the disk comes
/// back.
pub fn load<D: Disk>(
    alloc: Global,
    mut disk: D,
    capacity: u64,
    areas: u8,
    sites: u8,
    format: Format,
) -> Result<(Book<D>, Bodies), (D, JournalFault)>
    requires areas { IsAreas areas capacity }
    requires places { sites ≤ most_in format }

    // Where the disk tells its bytes, the book stands for the bodies.
    ensures loaded { IsSome (D.known disk).reads → IfOk result (λ it. StandsFor it.0 it.1) }
    ensures fresh { (D.known disk).size ≡ 0 → IfOk result (λ it. it.1 ≡ []) }
    ensures made { (D.known disk).size ≡ 0
        → IfOk result (λ it. (areas_of it.0.live ≡ areas) × ((shape_of it.0).header ≡ format)) }
    ensures image { 0 < (D.known disk).size
        → OnOk result (IsImage (D.known (disk_behind result)).reads (D.may_leave disk)) }

    // The header of a disk that has bytes names the format, which has places for the sites.
    ensures shape { IfOk result (λ it. shape_of it.0 ≡ shape_by capacity sites (shape_of it.0).header) }
    ensures places { IfOk result (λ it. sites ≤ most_in (shape_of it.0).header) }
    ensures goes_on { IfOk result (λ it. GoesOnBehind it.0 it.1) }

    // It may be packed: what that writes is ready, and there is room.
    ensures ready { IfOk result (λ it. IsReady it.0 it.1) }
    ensures room { IfOk result (λ it. HasPackRoom it.0) }

    // A crash while a new book is made leaves no more bytes than it has.
    ensures header { (D.known disk).size ≡ 0 → OnOk result (IfSome (D.known (disk_behind result)).reads
        (λ bytes. bytes ≡ new_bytes (shape_by capacity sites format) areas)) }
    ensures first { (D.known disk).size ≡ 0 → Only [] (D.may_leave disk)
        → LeavesOnly D.moment D.left_since disk (disk_behind result)
        (λ image. length image ≤ new_size (shape_by capacity sites format) areas) }

    // How many calls an arm counts: the writes and a sync on a disk of no bytes, and one read on another.
    ensures device { OnOk result (D.device_calls (disk_behind result)
        ≡ D.device_calls disk + calls_of_load (shape_by capacity sites format) areas (D.known disk).size) }
    ensures at_most { D.device_calls (disk_behind result)
        ≤ D.device_calls disk + calls_of_load (shape_by capacity sites format) areas (D.known disk).size }

    // Whatever it answers, the disk was not settled, or reads what a crash might have left.
    ensures settled { 0 < (D.known disk).size
        → IsLeft (D.may_leave disk) (D.known disk) (D.known (disk_behind result)) }
    ensures whole { OnOk result ((D.known (disk_behind result)).broken ≡ false) }
    ensures faultless { OnOk result ((D.known (disk_behind result)).faults ≡ (D.known disk).faults) }

    // Why it failed. `books_differ` says that these exclude each other.
    ensures cause { IfErr result (λ left.
        HasCause capacity sites left.1 (D.may_leave disk) (D.known disk) (D.known left.0)) }

    ensures arms { (D.known (disk_behind result)).arms ≡ (D.known disk).arms }
    ensures tells { is_some (D.known (disk_behind result)).reads ≡ is_some (D.known disk).reads }

    // A crash at any moment leaves what it might have left before.
    ensures any_moment { 0 < (D.known disk).size
        → LeavesOnly D.moment D.left_since disk (disk_behind result) (D.may_leave disk) }
{
    match open(alloc, &mut disk, capacity, areas, sites, format) {
        Ok((found, stock)) => Ok(with_found(alloc, disk, capacity, sites, found, stock)),
        Err(fault) => Err((disk, fault)),
    }
}

/// What a book keeps for `pack`: what that writes, and zeros for what is missing in front of it.
#[derive(Debug, Drop)]
struct Stock {
    renewal: Vec<u8>,
    zeros: Vec<u8>,
}

// The book that was found on a disk, and its bodies.
fn with_found<D: Disk>(
    alloc: Global,
    disk: D,
    capacity: u64,
    sites: u8,
    found: Found,
    stock: Stock,
) -> (Book<D>, Bodies)
    requires opened { IsOpened (found_shape capacity sites found) found (D.may_leave disk) (D.known disk) }
    requires stocked { IsStocked D.Disk disk (found_shape capacity sites found) found stock }
    ensures disk { disk_of result.0 ≡ disk }
    ensures stands { IsSome (D.known disk).reads → StandsFor result.0 result.1 }
    ensures bodies { result.1 ≡ found.bodies }
    ensures shape { shape_of result.0 ≡ found_shape capacity sites found }
    ensures live { result.0.live ≡ found.live }
    ensures goes_on { GoesOnBehind result.0 result.1 }
    ensures ready { IsReady result.0 result.1 }
    ensures room { HasPackRoom result.0 }
{
    let limit = match found.live {
        Live::Whole => capacity,
        Live::A => 9 + (capacity - 9) / 2,
        Live::B => 9 + (capacity - 9) / 2 * 2,
    };
    let Found {
        live,
        bodies,
        end,
        format,
    } = found;
    let Stock { renewal, zeros } = stock;
    let book = Book {
        journal: Journal::new(alloc, disk, limit, end),
        capacity,
        sites,
        format,
        live,
        renewal,
        zeros,
    };
    (book, bodies)
}

// Finds what is on a disk, and takes what a pack needs.
fn open<D: Disk>(
    alloc: Global,
    disk: &mut D,
    capacity: u64,
    areas: u8,
    sites: u8,
    format: Format,
) -> Result<(Found, Stock), JournalFault>
    requires areas { IsAreas areas capacity }
    requires places { sites ≤ most_in format }
    ensures opened { IfOk result (λ it.
        IsOpened (found_shape capacity sites it.0) it.0 (D.may_leave disk.new) (D.known disk.new)) }
    ensures stocked { IfOk result (λ it. IsStocked D.Disk disk.new (found_shape capacity sites it.0) it.0 it.1) }
    ensures fresh { (D.known disk.old).size ≡ 0 → IfOk result (λ it. it.0.bodies ≡ []) }
    ensures made { (D.known disk.old).size ≡ 0
        → IfOk result (λ it. (areas_of it.0.live ≡ areas) × (it.0.format ≡ format)) }
    ensures image { 0 < (D.known disk.old).size
        → OnOk result (IsImage (D.known disk.new).reads (D.may_leave disk.old)) }
    ensures header { (D.known disk.old).size ≡ 0 → OnOk result (IfSome (D.known disk.new).reads
        (λ bytes. bytes ≡ new_bytes (shape_by capacity sites format) areas)) }
    ensures first { (D.known disk.old).size ≡ 0 → Only [] (D.may_leave disk.old)
        → LeavesOnly D.moment D.left_since disk.old disk.new
        (λ image. length image ≤ new_size (shape_by capacity sites format) areas) }
    ensures device { OnOk result (D.device_calls disk.new ≡ D.device_calls disk.old
        + calls_of_load (shape_by capacity sites format) areas (D.known disk.old).size) }
    ensures at_most { D.device_calls disk.new ≤ D.device_calls disk.old
        + calls_of_load (shape_by capacity sites format) areas (D.known disk.old).size }
    ensures settled { 0 < (D.known disk.old).size
        → IsLeft (D.may_leave disk.old) (D.known disk.old) (D.known disk.new) }
    ensures faultless { OnOk result ((D.known disk.new).faults ≡ (D.known disk.old).faults) }
    ensures cause { IfErr result (λ fault.
        HasCause capacity sites fault (D.may_leave disk.old) (D.known disk.old) (D.known disk.new)) }
    ensures arms { (D.known disk.new).arms ≡ (D.known disk.old).arms }
    ensures tells { is_some (D.known disk.new).reads ≡ is_some (D.known disk.old).reads }
    ensures any_moment { 0 < (D.known disk.old).size
        → LeavesOnly D.moment D.left_since disk.old disk.new (D.may_leave disk.old) }
{
    let found = find(alloc, disk, capacity, areas, sites, format)?;
    let stock = take_stock(alloc, disk, capacity, sites, &found)?;
    Ok((found, stock))
}

// What a pack of what was found needs.
fn take_stock<D: Disk>(
    alloc: Global,
    disk: &mut D,
    capacity: u64,
    sites: u8,
    found: &Found,
) -> Result<Stock, NoMemory>
    requires opened { IsOpened (found_shape capacity sites found.now) found.now (D.may_leave disk.old)
        (D.known disk.old) }
    ensures ok { IfOk result (λ stock.
        IsStocked D.Disk disk.new (found_shape capacity sites found.now) found.now stock) }
    ensures same { D.known disk.new ≡ D.known disk.old }
    ensures device { D.device_calls disk.new ≡ D.device_calls disk.old }
    ensures crash { Narrows (D.may_leave disk.old) (D.may_leave disk.new) }
    ensures any_moment { LeavesOnly D.moment D.left_since disk.old disk.new (D.may_leave disk.old) }
{
    if let Live::Whole = found.live {
        return Ok(Stock {
            renewal: Vec::new(alloc),
            zeros: Vec::new(alloc),
        });
    }
    let Other { at, .. } = other_area(found.live, (capacity - 9) / 2);
    let renewal = renewal(alloc, found.bodies.as_slice(), sites)?;
    let missing = at.saturating_sub(disk.size());
    let zeros = zeros_of(alloc, missing.min(65_536) as usize)?;
    disk.reserve(at + renewal.len() as u64, (missing + 65_535) / 65_536 + 4)?;
    Ok(Stock { renewal, zeros })
}

// What is on a disk, which is begun where it has no bytes.
fn find<D: Disk>(
    alloc: Global,
    disk: &mut D,
    capacity: u64,
    areas: u8,
    sites: u8,
    format: Format,
) -> Result<Found, JournalFault>
    requires areas { IsAreas areas capacity }
    requires places { sites ≤ most_in format }
    ensures opened { IfOk result (λ found.
        IsOpened (found_shape capacity sites found) found (D.may_leave disk.new) (D.known disk.new)) }
    ensures fresh { (D.known disk.old).size ≡ 0 → IfOk result (λ found. found.bodies ≡ []) }
    ensures made { (D.known disk.old).size ≡ 0
        → IfOk result (λ found. (areas_of found.live ≡ areas) × (found.format ≡ format)) }
    ensures image { 0 < (D.known disk.old).size
        → OnOk result (IsImage (D.known disk.new).reads (D.may_leave disk.old)) }
    ensures header { (D.known disk.old).size ≡ 0 → OnOk result (IfSome (D.known disk.new).reads
        (λ bytes. bytes ≡ new_bytes (shape_by capacity sites format) areas)) }
    ensures first { (D.known disk.old).size ≡ 0 → Only [] (D.may_leave disk.old)
        → LeavesOnly D.moment D.left_since disk.old disk.new
        (λ image. length image ≤ new_size (shape_by capacity sites format) areas) }
    ensures device { OnOk result (D.device_calls disk.new ≡ D.device_calls disk.old
        + calls_of_load (shape_by capacity sites format) areas (D.known disk.old).size) }
    ensures at_most { D.device_calls disk.new ≤ D.device_calls disk.old
        + calls_of_load (shape_by capacity sites format) areas (D.known disk.old).size }
    ensures settled { 0 < (D.known disk.old).size
        → IsLeft (D.may_leave disk.old) (D.known disk.old) (D.known disk.new) }
    ensures faultless { OnOk result ((D.known disk.new).faults ≡ (D.known disk.old).faults) }
    ensures cause { IfErr result (λ fault.
        HasCause capacity sites fault (D.may_leave disk.old) (D.known disk.old) (D.known disk.new)) }
    ensures arms { (D.known disk.new).arms ≡ (D.known disk.old).arms }
    ensures tells { is_some (D.known disk.new).reads ≡ is_some (D.known disk.old).reads }
    ensures any_moment { 0 < (D.known disk.old).size
        → LeavesOnly D.moment D.left_since disk.old disk.new (D.may_leave disk.old) }
{
    if disk.size() == 0 {
        begin_book(alloc, disk, capacity, areas, format)
    } else {
        resume(alloc, disk, capacity, sites)
    }
}

// Reads the book of a disk that has bytes.
fn resume<D: Disk>(
    alloc: Global,
    disk: &mut D,
    capacity: u64,
    sites: u8,
) -> Result<Found, JournalFault>
    requires some { 0 < (D.known disk.old).size }
    ensures opened { IfOk result (λ found.
        IsOpened (found_shape capacity sites found) found (D.may_leave disk.new) (D.known disk.new)) }
    ensures image { OnOk result (IsImage (D.known disk.new).reads (D.may_leave disk.old)) }
    ensures device { OnOk result (D.device_calls disk.new ≡ D.device_calls disk.old + 1) }
    ensures at_most { D.device_calls disk.new ≤ D.device_calls disk.old + 1 }
    ensures settled { IsLeft (D.may_leave disk.old) (D.known disk.old) (D.known disk.new) }
    ensures faultless { OnOk result ((D.known disk.new).faults ≡ (D.known disk.old).faults) }
    ensures cause { IfErr result (λ fault.
        HasCause capacity sites fault (D.may_leave disk.old) (D.known disk.old) (D.known disk.new)) }
    ensures arms { (D.known disk.new).arms ≡ (D.known disk.old).arms }
    ensures tells { is_some (D.known disk.new).reads ≡ is_some (D.known disk.old).reads }
    ensures any_moment { LeavesOnly D.moment D.left_since disk.old disk.new (D.may_leave disk.old) }
{
    let bytes = settle_and_read(alloc, disk)?;
    read_book(alloc, &bytes, capacity, sites)
}

// Makes an empty book on a disk of no bytes.
fn begin_book<D: Disk>(
    alloc: Global,
    disk: &mut D,
    capacity: u64,
    areas: u8,
    format: Format,
) -> Result<Found, JournalFault>
    requires areas { IsAreas areas capacity }
    requires none { (D.known disk.old).size ≡ 0 }
    ensures opened { (sites : ℕ) → sites ≤ most_in format → IfOk result (λ found.
        IsOpened (found_shape capacity sites found) found (D.may_leave disk.new) (D.known disk.new)) }
    ensures empty { IfOk result (λ found. found.bodies ≡ []) }
    ensures made { IfOk result (λ found. (areas_of found.live ≡ areas) × (found.format ≡ format)) }
    ensures header { (sites : ℕ) → OnOk result (IfSome (D.known disk.new).reads
        (λ bytes. bytes ≡ new_bytes (shape_by capacity sites format) areas)) }
    ensures first { (sites : ℕ) → Only [] (D.may_leave disk.old)
        → LeavesOnly D.moment D.left_since disk.old disk.new
        (λ image. length image ≤ new_size (shape_by capacity sites format) areas) }
    ensures device { (sites : ℕ) → OnOk result (D.device_calls disk.new
        ≡ D.device_calls disk.old + (writes_of (new_size (shape_by capacity sites format) areas) + 1)) }
    ensures at_most { (sites : ℕ) → D.device_calls disk.new
        ≤ D.device_calls disk.old + (writes_of (new_size (shape_by capacity sites format) areas) + 1) }
    ensures faultless { OnOk result ((D.known disk.new).faults ≡ (D.known disk.old).faults) }
    ensures cause { (sites : ℕ) → IfErr result (λ fault.
        HasCause capacity sites fault (D.may_leave disk.old) (D.known disk.old) (D.known disk.new)) }
    ensures arms { (D.known disk.new).arms ≡ (D.known disk.old).arms }
    ensures tells { is_some (D.known disk.new).reads ≡ is_some (D.known disk.old).reads }
{
    if areas == 2 {
        begin_two(alloc, disk, 9 + (capacity - 9) / 2, format)?;
        return Ok(Found {
            live: Live::A,
            bodies: Bodies::new(alloc),
            end: 18,
            format,
        });
    }
    let (bodies, end, format) = begin(alloc, disk, format)?;
    Ok(Found {
        live: Live::Whole,
        bodies,
        end,
        format,
    })
}

// Makes an empty book of two areas on a disk of no bytes: the header, and zeros up to a place.
fn begin_two<D: Disk>(
    alloc: Global,
    disk: &mut D,
    to: u64,
    format: Format,
) -> Result<(), JournalFault>
    requires empty { (D.known disk.old).size ≡ 0 }
    requires least { 28 ≤ to }
    requires most { to ≤ 9223372036854775816 }
    ensures header { OnOk result (IfSome (D.known disk.new).reads (λ bytes.
        bytes ≡ header_of_two format ++ zeros (to - 8))) }
    ensures size { OnOk result ((D.known disk.new).size ≡ to) }
    ensures durable { OnOk result (IsDurable (D.known disk.new).reads (D.may_leave disk.new)) }
    ensures whole { OnOk result ((D.known disk.new).broken ≡ false) }
    ensures faultless { OnOk result ((D.known disk.new).faults ≡ (D.known disk.old).faults) }
    ensures cause { IfErr result (IsDiskFault (D.known disk.old) (D.known disk.new)) }
    ensures arms { (D.known disk.new).arms ≡ (D.known disk.old).arms }
    ensures tells { is_some (D.known disk.new).reads ≡ is_some (D.known disk.old).reads }
    ensures first { Only [] (D.may_leave disk.old)
        → LeavesOnly D.moment D.left_since disk.old disk.new (λ image. length image ≤ to) }
    ensures device { OnOk result (D.device_calls disk.new ≡ D.device_calls disk.old + writes_of to + 1) }
    ensures at_most { D.device_calls disk.new ≤ D.device_calls disk.old + writes_of to + 1 }
{
    disk.reserve(to, (to + 65_535) / 65_536 + 1)?;
    let rest = zeros_of(alloc, to.min(65_536) as usize)?;
    let mut front = Vec::from_slice(alloc, &two_header(format))?;
    front.extend_from_slice(&rest[8..])?;
    disk.write_at(0, &front)?;
    fill(disk, &rest, to)?;
    disk.sync()?;
    Ok(())
}

fn zeros_of(alloc: Global, count: usize) -> Result<Vec<u8>, AllocError>
    ensures { IfOk result (λ made. made.items ≡ zeros count) }
{
    vec![in alloc; 0; count]
}

//! Reads the bytes of a book: which part of them is live, and which bodies stand there.
ghost use Rattle.std.specs.Prelude.{◌≡◌, ◌≢◌, ◌⊎◌, ◌^◌, ◌<◌, ◌≤◌, ℕ, length, take, drop, true, false, IfSome, IfNone, IfOk, IfErr};
ghost use Rattle.walter_base.specs.Sizes.{most_in};
ghost use Rattle.walter_journal.specs.Layout.{header_in};
ghost use Rattle.walter_checkpoint.specs.Areas.{header_of_two};
ghost use Rattle.walter_checkpoint.specs.Books.{IsLivePart, IsAreaRead, IsRead};
ghost use Rattle.walter_checkpoint.specs.Faults.{IsAreaWrong, IsWrong};
ghost use Rattle.walter_checkpoint.specs.Loads.{found_shape};

use crate::book::Live;
use crate::unpacking::{read_pack, told_length};
use std::alloc::Global;
use walter_base::{Format, MOST_SITES};
use walter_journal::{Bodies, JournalFault, bodies_behind, header_of};

/// What a book of two areas begins with, whose records are of this format.
pub(crate) fn two_header(format: Format) -> [u8; 8]
    ensures { result ≡ header_of_two format }
{
    match format {
        Format::First => *b"WALTERK1",
        Format::Second => *b"WALTERK2",
    }
}

/// What was found in the bytes of a book: which part of them is live, the bodies, the place behind the gate that ends
/// them, and the format that the header names.
#[derive(Debug, Drop)]
pub(crate) struct Found {
    pub(crate) live: Live,
    pub(crate) bodies: Bodies,
    pub(crate) end: u64,
    pub(crate) format: Format,
}

// Whether a vector of the format has places for so many sites.
fn has_places(format: Format, sites: u8) -> bool
    ensures yes { result ≡ true → sites ≤ most_in format }
    ensures no { result ≡ false → most_in format < sites }
{
    match format {
        Format::First => sites <= 8,
        Format::Second => sites as usize <= MOST_SITES,
    }
}

// The format of the book of one area that the bytes begin as.
fn format_of_one(bytes: &[u8], sites: u8) -> Option<Format>
    ensures some { IfSome result (λ format. (sites ≤ most_in format) × (take 8 bytes.now ≡ header_in format)) }
    ensures none { IfNone result ((format : Format) → sites ≤ most_in format → take 8 bytes.now ≢ header_in format) }
{
    if has_places(Format::First, sites) && bytes.starts_with(&header_of(Format::First)) {
        return Some(Format::First);
    }
    if has_places(Format::Second, sites) && bytes.starts_with(&header_of(Format::Second)) {
        return Some(Format::Second);
    }
    None
}

// The format of the book of two areas that the bytes begin as, where the capacity is great enough for these.
fn format_of_two(bytes: &[u8], capacity: u64, sites: u8) -> Option<Format>
    ensures some { IfSome result (λ format.
        (sites ≤ most_in format) × (take 8 bytes.now ≡ header_of_two format) × (47 ≤ capacity)) }
    ensures none { IfNone result ((format : Format) → sites ≤ most_in format
        → (take 8 bytes.now ≢ header_of_two format) ⊎ (capacity < 47)) }
{
    if capacity < 47 {
        return None;
    }
    if has_places(Format::First, sites) && bytes.starts_with(&two_header(Format::First)) {
        return Some(Format::First);
    }
    if has_places(Format::Second, sites) && bytes.starts_with(&two_header(Format::Second)) {
        return Some(Format::Second);
    }
    None
}

/// What the bytes are a book of.
pub(crate) fn read_book(
    alloc: Global,
    bytes: &[u8],
    capacity: u64,
    sites: u8,
) -> Result<Found, JournalFault>
    ensures ok { IfOk result (λ found.
        IsRead (found_shape capacity sites found) found.live bytes.now found.bodies found.end) }
    ensures places { IfOk result (λ found. sites ≤ most_in found.format) }
    ensures fault { IfErr result (IsWrong capacity sites bytes.now) }
{
    if bytes.len() <= 8 {
        return Err(JournalFault::Foreign);
    }
    if let Some(format) = format_of_two(bytes, capacity, sites) {
        return read_two(alloc, bytes, capacity, sites, format);
    }
    match format_of_one(bytes, sites) {
        Some(format) => read_one(alloc, bytes, format),
        None => Err(JournalFault::Foreign),
    }
}

// What the bytes are a book of that begins as one of one area does, of this format.
fn read_one(alloc: Global, bytes: &[u8], format: Format) -> Result<Found, JournalFault>
    requires long { 8 < length bytes.now }
    requires header { take 8 bytes.now ≡ header_in format }
    ensures ok { (capacity sites : ℕ) → IfOk result (λ found.
        IsRead (found_shape capacity sites found) found.live bytes.now found.bodies found.end) }
    ensures format { IfOk result (λ found. found.format ≡ format) }
    ensures fault { (capacity sites : ℕ) → sites ≤ most_in format → IfErr result (IsWrong capacity sites bytes.now) }
{
    let (bodies, end) = bodies_behind(alloc, bytes, 8)?;
    Ok(Found {
        live: Live::Whole,
        bodies,
        end: end as u64,
        format,
    })
}

// What the bytes are a book of that begins as one of two areas does, of this format.
fn read_two(
    alloc: Global,
    bytes: &[u8],
    capacity: u64,
    sites: u8,
    format: Format,
) -> Result<Found, JournalFault>
    requires least { 47 ≤ capacity }
    requires long { 8 < length bytes.now }
    requires places { sites ≤ most_in format }
    requires header { take 8 bytes.now ≡ header_of_two format }
    ensures ok { IfOk result (λ found.
        IsRead (found_shape capacity sites found) found.live bytes.now found.bodies found.end) }
    ensures format { IfOk result (λ found. found.format ≡ format) }
    ensures fault { IfErr result (IsWrong capacity sites bytes.now) }
{
    let size = (capacity - 9) / 2;
    let (live, place) = live_part(bytes[8], size);
    match read_area(alloc, part_of(bytes, place as usize, size as usize), sites) {
        Ok((bodies, end)) => Ok(Found {
            live,
            bodies,
            end: place + end as u64,
            format,
        }),
        Err(JournalFault::Damaged { at, length }) => Err(JournalFault::Damaged {
            at: place + at,
            length,
        }),
        Err(fault) => Err(fault),
    }
}

// The area that the switch byte makes live, and its place.
fn live_part(switch: u8, size: u64) -> (Live, u64)
    requires { size < 2 ^ 63 }
    ensures { IsLivePart switch size result.0 result.1 }
{
    if switch == 1 {
        (Live::B, 9 + size)
    } else {
        (Live::A, 9)
    }
}

// So many bytes from a place on, as far as they are there.
fn part_of(bytes: &[u8], place: usize, size: usize) -> &[u8]
    ensures { result.now ≡ take size (drop place bytes.now) }
{
    let rest = &bytes[place.min(bytes.len())..];
    &rest[..size.min(rest.len())]
}

// The bodies of an area, and the place in it behind the gate that ends them. A fault tells a place in it.
fn read_area(alloc: Global, area: &[u8], sites: u8) -> Result<(Bodies, usize), JournalFault>
    ensures ok { IfOk result (λ found. IsAreaRead sites area.now found.0 found.1) }
    ensures fault { IfErr result (IsAreaWrong sites area.now) }
{
    let Some((mut bodies, size)) = read_pack(alloc, area, sites)? else {
        let length = told_length(area);
        return Err(JournalFault::Damaged { at: 0, length });
    };
    let (behind, end) = bodies_behind(alloc, area, size)?;
    bodies.append(behind)?;
    Ok((bodies, end))
}

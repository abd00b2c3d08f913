//! Reads the bodies of a pack, and puts back the zeros that it leaves out.
ghost use Rattle.std.specs.Prelude.{◌≡◌, ◌≢◌, ◌+◌, ◌<◌, ◌≤◌, ◌++◌, ◌∷◌, ℕ, List, length, take, drop, true, false, All, IfOk, IfErr};
ghost use Rattle.std.specs.Option.{IfSome, IfNone};
ghost use Rattle.walter_journal.specs.Layout.{record_of, IsShort};
ghost use Rattle.walter_checkpoint.specs.Areas.{header_of_two, HasNoPack, IsToldLength};
ghost use Rattle.walter_checkpoint.specs.Faults.{IsNoCut, HasNoBody, HasNoEntry, HasNoEntries, IsAreaWrong, IsWrong};
ghost use Rattle.walter_checkpoint.specs.Packs.{is_cut, cut, entry_of, HasGap, HasEntries, HasPack};

use crate::packing::{left_out, start_of};
use byteorder::{BigEndian, ByteOrder};
use std::alloc::{AllocError, Global};
use walter_journal::{Bodies, record_at};

/// The most bytes that a body may have.
const LONGEST_BODY: usize = 65_536;

/// The most bytes that a pack leaves out of a body.
const ZEROS: [u8; 64] = [0; 64];

// Behind how many bytes of what is spelled zeros were left out, and how many.
fn gap_of(spelled: &[u8], sites: u8) -> Option<(usize, usize)>
    requires short { length spelled.now ≤ 65536 }
    ensures some { IfSome result (λ found. HasGap sites spelled.now found.0 found.1) }
    ensures none { IfNone result (IsNoCut sites spelled.now) }
{
    let end = start_of(spelled);
    if sites >= 8 || end == 0 {
        return None;
    }
    let spare = 64 - 8 * sites as usize;
    if spelled.len() < end - spare || LONGEST_BODY - spare < spelled.len() {
        return None;
    }
    Some((end - spare, spare))
}

// The body that is spelled so where its zeros are left out.
fn restored(alloc: Global, spelled: &[u8], sites: u8) -> Result<Option<Vec<u8>>, AllocError>
    requires short { length spelled.now ≤ 65536 }
    ensures some { IfOk result (λ found. IfSome found (λ body. IsShort body.items
        × (is_cut sites body.items ≡ true) × (cut sites body.items ≡ spelled.now))) }
    ensures none { IfOk result (λ found. IfNone found (IsNoCut sites spelled.now)) }
{
    let Some((kept, spare)) = gap_of(spelled, sites) else {
        return Ok(None);
    };
    let mut body = Vec::from_slice(alloc, &spelled[..kept])?;
    body.extend_from_slice(&ZEROS[..spare])?;
    body.extend_from_slice(&spelled[kept..])?;
    Ok(Some(body))
}

// The body that is spelled so where nothing is left out.
fn whole(alloc: Global, spelled: &[u8], sites: u8) -> Result<Option<Vec<u8>>, AllocError>
    ensures some { IfOk result (λ found. IfSome found (λ body.
        (body.items ≡ spelled.now) × (is_cut sites spelled.now ≡ false))) }
    ensures none { IfOk result (λ found. IfNone found (is_cut sites spelled.now ≡ true)) }
{
    if left_out(spelled, sites).is_some() {
        return Ok(None);
    }
    Ok(Some(Vec::from_slice(alloc, spelled)?))
}

// The body that is spelled so behind this mark.
fn body_of(
    alloc: Global,
    mark: u8,
    spelled: &[u8],
    sites: u8,
) -> Result<Option<Vec<u8>>, AllocError>
    requires short { length spelled.now ≤ 65536 }
    ensures some { IfOk result (λ found. IfSome found (λ body. IsShort body.items
        × (entry_of sites body.items ≡ mark ∷ record_of spelled.now))) }
    ensures none { IfOk result (λ found. IfNone found (HasNoBody sites mark spelled.now)) }
{
    match mark {
        0 => whole(alloc, spelled, sites),
        1 => restored(alloc, spelled, sites),
        _ => Ok(None),
    }
}

// The body of the entry that the bytes begin with, and what follows it, a byte at least.
fn entry_at(alloc: Global, bytes: &[u8], sites: u8) -> Result<Option<(Vec<u8>, &[u8])>, AllocError>
    ensures some { IfOk result (λ found. IfSome found (λ it. IsShort it.0.items
        × (bytes.now ≡ entry_of sites it.0.items ++ it.1.now) × (0 < length it.1.now))) }
    ensures none { IfOk result (λ found. IfNone found (HasNoEntry sites bytes.now)) }
{
    let [mark, behind @ ..] = bytes else {
        return Ok(None);
    };
    let Ok((spelled, next)) = record_at(behind) else {
        return Ok(None);
    };
    match body_of(alloc, *mark, spelled, sites)? {
        Some(body) => Ok(Some((body, next))),
        None => Ok(None),
    }
}

// The bodies of the entries that the bytes are, but for the last byte.
fn read_entries(alloc: Global, bytes: &[u8], sites: u8) -> Result<Option<Bodies>, AllocError>
    requires more { 0 < length bytes.now }
    ensures some { IfOk result (λ found. IfSome found (HasEntries sites bytes.now)) }
    ensures none { IfOk result (λ found. IfNone found (HasNoEntries sites bytes.now)) }
{
    let mut bodies = Bodies::new(alloc);
    let mut rest = bytes;
    while rest.len() > 1 {
        let Some((body, next)) = entry_at(alloc, rest, sites)? else {
            return Ok(None);
        };
        bodies.push(&body)?;
        rest = next;
    }
    Ok(Some(bodies))
}

/// The bodies of the pack that the bytes begin with, and how many bytes it has; a byte at least follows it.
pub(crate) fn read_pack(
    alloc: Global,
    area: &[u8],
    sites: u8,
) -> Result<Option<(Bodies, usize)>, AllocError>
    ensures some { IfOk result (λ found. IfSome found (λ it. HasPack sites area.now it.0 it.1)) }
    ensures none { IfOk result (λ found. IfNone found (HasNoPack sites area.now)) }
{
    let Some((front, rest)) = area.split_at_checked(8) else {
        return Ok(None);
    };
    let length = BigEndian::read_u64(front);
    if rest.len() as u64 <= length {
        return Ok(None);
    }
    let end = length as usize;
    match read_entries(alloc, &rest[..end + 1], sites)? {
        Some(bodies) => Ok(Some((bodies, 8 + end))),
        None => Ok(None),
    }
}

/// The length of a pack, as it is told where there is none.
pub(crate) fn told_length(area: &[u8]) -> u32
    ensures { IsToldLength area.now result }
{
    match area.split_at_checked(8) {
        Some((front, _)) => BigEndian::read_u64(front).min(u32::MAX as u64) as u32,
        None => 0,
    }
}

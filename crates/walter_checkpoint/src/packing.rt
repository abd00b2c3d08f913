//! Makes a pack of bodies, without zeros that its reader puts back.
ghost use Rattle.std.specs.Prelude.{◌≡◌, ◌≤◌, ◌++◌, ◌∷◌, [], ℕ, List, length, map, get_or, true, false, All, IfSome, IfNone, IfOk, OnOk};
ghost use Rattle.walter_journal.specs.Layout.{IsShort};
ghost use Rattle.walter_checkpoint.specs.Packs.{are_zeros, is_cut, kept_in, start_end, cut, entry_of, entries, renewed_by};

use byteorder::{BigEndian, ByteOrder};
use std::alloc::{AllocError, Global};

/// The place behind the start in a record that has one, else 0.
pub(crate) fn start_of(body: &[u8]) -> usize
    ensures { result ≡ start_end (get_or body.now 0 0) }
{
    match body.first() {
        Some(2) => 94,
        Some(3) => 95,
        Some(7) => 94,
        _ => 0,
    }
}

fn all_zero(bytes: &[u8]) -> bool
    ensures { result ≡ are_zeros bytes.now }
{
    bytes.iter().all(|byte| *byte == 0)
}

/// Where the zeros stand that a pack leaves out of a body.
pub(crate) fn left_out(body: &[u8], sites: u8) -> Option<(usize, usize)>
    ensures some { IfSome result (λ found. (is_cut sites body.now ≡ true)
        × (found.0 ≡ kept_in sites body.now) × (found.1 ≡ start_end (get_or body.now 0 0))
        × (found.0 ≤ found.1) × (found.1 ≤ length body.now)) }
    ensures none { IfNone result (is_cut sites body.now ≡ false) }
{
    if sites >= 8 {
        return None;
    }
    let end = start_of(body);
    if end == 0 {
        return None;
    }
    if body.len() < end {
        return None;
    }
    let from = end - (64 - 8 * sites as usize);
    if all_zero(&body[from..end]) {
        Some((from, end))
    } else {
        None
    }
}

// Adds the entry of a body.
fn push_entry(entries: &mut Vec<u8>, body: &[u8], sites: u8) -> Result<(), AllocError>
    requires short { length body.now ≤ 65536 }
    ensures { OnOk result (entries.new.items ≡ entries.old.items ++ entry_of sites body.now) }
{
    let mut length = [0; 4];
    if let Some((from, end)) = left_out(body, sites) {
        BigEndian::write_u32(&mut length, (body.len() - (end - from)) as u32);
        entries.push(1)?;
        entries.extend_from_slice(&length)?;
        entries.extend_from_slice(&body[..from])?;
        entries.extend_from_slice(&body[end..])?;
    } else {
        BigEndian::write_u32(&mut length, body.len() as u32);
        entries.push(0)?;
        entries.extend_from_slice(&length)?;
        entries.extend_from_slice(body)?;
    }
    Ok(())
}

/// What an area begins with that has a pack of these bodies.
pub(crate) fn renewal(alloc: Global, bodies: &[Vec<u8>], sites: u8) -> Result<Vec<u8>, AllocError>
    requires short { All (λ body. length body.items ≤ 65536) bodies.now }
    ensures { IfOk result (λ bytes. bytes.items ≡ renewed_by sites (map (λ body. body.items) bodies.now)) }
{
    let mut entries = Vec::new(alloc);
    for body in bodies {
        push_entry(&mut entries, body, sites)?;
    }
    let mut length = [0; 8];
    BigEndian::write_u64(&mut length, entries.len() as u64);
    let mut bytes = Vec::new(alloc);
    bytes.extend_from_slice(&length)?;
    bytes.extend_from_slice(&entries)?;
    bytes.push(0)?;
    Ok(bytes)
}

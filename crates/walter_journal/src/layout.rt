//! How the bodies of a journal stand in its bytes: each behind an open gate, and a closed one behind the
//! last.
ghost use Rattle.std.specs.Prelude.{◌≡◌, ◌<◌, ◌++◌, ◌+◌, ℕ, List, length, take, IfSome, IfNone, IfOk, IfErr};
ghost use Rattle.walter_journal.specs.Faults.{IsWrong, IsWrongBehind};
ghost use Rattle.walter_journal.specs.Layout.{header_in, record_of, end_behind, span_of, HasBehind, IsShort, ClaimsTooMuch, HasContent, IsForeign, IsDamaged};

use crate::bodies::Bodies;
use crate::fault::JournalFault;
use byteorder::{BigEndian, ByteOrder};
use std::alloc::Global;
use walter_base::Format;

/// What a journal begins with, in front of its first gate, whose records are of this format.
pub fn header_of(format: Format) -> [u8; 8]
    ensures { result ≡ header_in format }
{
    match format {
        Format::First => *b"WALTERJ1",
        Format::Second => *b"WALTERJ2",
    }
}

/// The most bytes that a body may have.
const LONGEST_BODY: usize = 65_536;

/// The body behind an open gate, and what follows it from the next gate on; or the length that claims too much.
pub fn record_at(behind: &[u8]) -> Result<(&[u8], &[u8]), u32>
    ensures ok { IfOk result (λ found.
        (behind.now ≡ record_of found.0.now ++ found.1.now) × IsShort found.0.now × (0 < length found.1.now)) }
    ensures err { IfErr result (ClaimsTooMuch behind.now) }
{
    let Some((front, rest)) = behind.split_at_checked(4) else {
        return Err(0);
    };
    let length = BigEndian::read_u32(front);
    if length as usize > LONGEST_BODY || rest.len() <= length as usize {
        return Err(length);
    }
    Ok(rest.split_at(length as usize))
}

/// The bodies behind the first `from` bytes, and the place behind the gate that ends them.
pub fn bodies_behind(
    alloc: Global,
    bytes: &[u8],
    from: usize,
) -> Result<(Bodies, usize), JournalFault>
    requires { from < length bytes.now }
    ensures ok { IfOk result (λ found.
        HasBehind (take from bytes.now) bytes.now found.0 × (found.1 ≡ from + span_of found.0)) }
    ensures fault { IfErr result (IsWrongBehind (take from bytes.now) bytes.now) }
{
    let mut bodies = Bodies::new(alloc);
    let (_, mut rest) = bytes.split_at(from);
    while let [1, behind @ ..] = rest {
        let (body, next) = match record_at(behind) {
            Ok(found) => found,
            Err(length) => {
                let at = (bytes.len() - rest.len()) as u64;
                return Err(JournalFault::Damaged { at, length });
            }
        };
        bodies.push(body)?;
        rest = next;
    }
    Ok((bodies, bytes.len() - rest.len() + 1))
}

/// The format that the header of a journal names, if the bytes begin as one does.
fn format_of(bytes: &[u8]) -> Option<Format>
    ensures some { IfSome result (λ format. (take 8 bytes.now ≡ header_in format) × (8 < length bytes.now)) }
    ensures none { IfNone result (IsForeign bytes.now) }
{
    if bytes.len() <= 8 {
        return None;
    }
    if bytes.starts_with(&header_of(Format::First)) {
        return Some(Format::First);
    }
    if bytes.starts_with(&header_of(Format::Second)) {
        return Some(Format::Second);
    }
    None
}

/// The bodies that the bytes are a journal of, the place behind the gate that ends them, and the format that the
/// header names.
pub fn bodies_of(alloc: Global, bytes: &[u8]) -> Result<(Bodies, usize, Format), JournalFault>
    ensures ok { IfOk result (λ found.
        HasContent found.2 bytes.now found.0 × (found.1 ≡ end_behind found.0)) }
    ensures fault { IfErr result (IsWrong bytes.now) }
{
    let Some(format) = format_of(bytes) else {
        return Err(JournalFault::Foreign);
    };
    let (bodies, end) = bodies_behind(alloc, bytes, 8)?;
    Ok((bodies, end, format))
}

/// Bytes are a journal of one list of bodies behind the header of one format, or foreign, or damaged at one place with
/// one length. A law of the definitions, which does nothing.
pub fn layouts_differ()
    ensures content { (bytes : List ℕ) (format other : Format) (a b : List (List ℕ))
        → HasContent format bytes a → HasContent other bytes b → (format ≡ other) × (a ≡ b) }
    ensures content_or_foreign { (bytes : List ℕ) (format : Format) (bodies : List (List ℕ))
        → HasContent format bytes bodies → IsForeign bytes → ⊥ }
    ensures content_or_damaged { (bytes : List ℕ) (format other : Format) (bodies : List (List ℕ)) (at claimed : ℕ)
        → HasContent format bytes bodies → IsDamaged other bytes at claimed → ⊥ }
    ensures foreign_or_damaged { (bytes : List ℕ) (format : Format) (at claimed : ℕ)
        → IsForeign bytes → IsDamaged format bytes at claimed → ⊥ }
    ensures damaged { (bytes : List ℕ) (format other : Format) (at claimed at' claimed' : ℕ)
        → IsDamaged format bytes at claimed → IsDamaged other bytes at' claimed'
        → (at ≡ at') × (claimed ≡ claimed') }
{}

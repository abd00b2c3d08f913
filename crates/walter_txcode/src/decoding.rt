//! Reads transactions, and takes exactly the spellings of a format.
ghost use Rattle.std.specs.Prelude.{◌≡◌, ◌≢◌, ◌≤◌, ◌<◌, ◌^◌, ◌++◌, ℕ, List, length, All, IfOk, IfErr, IfSome, IfNone};
ghost use Rattle.walter_base.specs.Sizes.{most_in};
ghost use Rattle.walter_base.specs.declared.names.Tid.{Tid};
ghost use Rattle.walter_base.specs.declared.transaction.Tx.{Tx};
ghost use Rattle.walter_fields.specs.Cursors.{Takes};
ghost use Rattle.walter_txcode.specs.Faults.{IfUnspelled, NoneBegins};
ghost use Rattle.walter_names.specs.Names.{IsTid};
ghost use Rattle.walter_txcode.specs.Spelling.{longest, head_spelled, spelling, HasSpelling, numbered_spelled, IsNumbered};

use crate::fault::DecodeFault;
use crate::updates::read_updates;
use crate::vectors::read_vector;
use std::alloc::Global;
use walter_base::{Format, Mem, NoMemory, Snapshot, Tid, Tx, Vts};
use walter_fields::Cursor;
use walter_names::read_tid;

/// The most bytes that a spelling may have. The limit goes by the bytes of the first format.
fn longest(format: Format, sites: u8) -> usize
    ensures { result ≡ longest format sites }
{
    match format {
        Format::First => 60_000,
        Format::Second => 59_937 + 8 * usize::from(sites),
    }
}

/// What stands before the updates.
fn read_head(cursor: &mut Cursor, sites: u8, format: Format) -> Result<(Tid, u64, Vts), DecodeFault>
    requires { sites ≤ most_in format }
    ensures taken { IfOk result
        (λ head. Takes cursor.old cursor.new (head_spelled format head.0 head.1 head.2)) }
    ensures counted { IfOk result (λ head. length head.2 ≡ sites) }
    ensures tid { IfOk result (λ head. IsTid head.0) }
    ensures slow { IfOk result (λ head. head.1 < 2 ^ 64) }
    ensures start { IfOk result (λ head. All (λ number. number < 2 ^ 64) head.2) }
    ensures fault { IfErr result (λ fault. IfUnspelled fault
        ((tid : Tid) (slow : ℕ) (start rest : List ℕ) → length start ≡ sites
        → IsTid tid → slow < 2 ^ 64 → All (λ number. number < 2 ^ 64) start
        → cursor.old.left ≢ head_spelled format tid slow start ++ rest)) }
{
    let tid = read_tid(cursor)?;
    let slow = cursor.u64()?;
    let start = read_vector(cursor, sites, format)?;
    Ok((tid, slow, start))
}

/// The transaction among so many sites with which the bytes that are left begin. Where there is none, some bytes may
/// have been read.
pub fn read_transaction(
    alloc: Global,
    cursor: &mut Cursor,
    sites: u8,
    format: Format,
) -> Result<Tx, DecodeFault>
    requires { sites ≤ most_in format }
    ensures taken { IfOk result (λ tx. Takes cursor.old cursor.new (spelling format tx)) }
    ensures spelled { IfOk result (HasSpelling format sites) }
    ensures fault { IfErr result (λ fault. IfUnspelled fault
        (NoneBegins (HasSpelling format sites) (spelling format) cursor.old.left)) }
{
    let from = cursor.place();
    let (tid, slow, start) = read_head(cursor, sites, format)?;
    let updates = read_updates(alloc, cursor)?;
    let length = cursor.place() - from;
    if length > longest(format, sites) {
        return Err(DecodeFault::Unspelled);
    }
    Ok(Tx {
        tid,
        slow,
        start: Snapshot::new(alloc, start)?,
        updates,
    })
}

/// A number, and a transaction behind it.
pub fn read_numbered(
    alloc: Global,
    cursor: &mut Cursor,
    sites: u8,
    format: Format,
) -> Result<(u64, Tx), DecodeFault>
    requires { sites ≤ most_in format }
    ensures taken { IfOk result (λ numbered. Takes cursor.old cursor.new (numbered_spelled format numbered)) }
    ensures spelled { IfOk result (IsNumbered format sites) }
    ensures fault { IfErr result (λ fault. IfUnspelled fault
        (NoneBegins (IsNumbered format sites) (numbered_spelled format) cursor.old.left)) }
{
    let number = cursor.u64()?;
    let tx = read_transaction(alloc, cursor, sites, format)?;
    Ok((number, tx))
}

/// The transaction among so many sites that the bytes spell, all of them; none where they spell none.
pub fn decode(alloc: Global, bytes: &[u8], sites: u8, format: Format) -> Mem<Option<Tx>>
    requires { sites ≤ most_in format }
    ensures some { IfOk result (λ found. IfSome found
        (λ tx. HasSpelling format sites tx × (bytes.now ≡ spelling format tx))) }
    ensures none { IfOk result (λ found. IfNone found
        ((tx : Tx) → HasSpelling format sites tx → bytes.now ≢ spelling format tx)) }
{
    let mut cursor = Cursor::new(bytes);
    match read_transaction(alloc, &mut cursor, sites, format) {
        Ok(tx) => {
            if cursor.is_at_end() {
                Ok(Some(tx))
            } else {
                Ok(None)
            }
        }
        Err(DecodeFault::Unspelled) => Ok(None),
        Err(DecodeFault::NoMemory) => Err(NoMemory),
    }
}

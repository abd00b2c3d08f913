//! Reads records, and takes exactly the spellings of a format.
ghost use Rattle.std.specs.Prelude.{◌≡◌, ◌≢◌, ◌≤◌, IfOk, IfErr, IfSome, IfNone};
ghost use Rattle.walter_base.specs.Sizes.{most_in};
ghost use Rattle.walter_base.specs.declared.message.Record.{Record};
ghost use Rattle.walter_fields.specs.Cursors.{Takes};
ghost use Rattle.walter_record.specs.Fields.{kind_of, fields_spelled, got_spelled, prepared_spelled, marks_spelled, IsGot, IsPrepared, AreMarks};
ghost use Rattle.walter_record.specs.Spelling.{record_spelled, HasRecordSpelling};
ghost use Rattle.walter_txcode.specs.Faults.{IfUnspelled, NoneBegins};
ghost use Rattle.walter_txcode.specs.Kinds.{IsSuchOfKind};

use std::alloc::Global;
use walter_base::{Format, Mem, NoMemory, Objects, Record, Tid, Tx, Version};
use walter_fields::Cursor;
use walter_names::{read_tid, read_version};
use walter_txcode::{DecodeFault, read_numbered, read_objects, read_transaction};

/// A commit of a site, and its transaction.
fn read_got(
    alloc: Global,
    cursor: &mut Cursor,
    sites: u8,
    format: Format,
) -> Result<(Version, Tx), DecodeFault>
    requires { sites ≤ most_in format }
    ensures taken { IfOk result (λ got. Takes cursor.old cursor.new (got_spelled format got)) }
    ensures spelled { IfOk result (IsGot format sites) }
    ensures fault { IfErr result (λ fault. IfUnspelled fault
        (NoneBegins (IsGot format sites) (got_spelled format) cursor.old.left)) }
{
    let version = read_version(cursor)?;
    let tx = read_transaction(alloc, cursor, sites, format)?;
    Ok((version, tx))
}

/// A slow commit of a site, its transaction, and its objects.
fn read_prepared(
    alloc: Global,
    cursor: &mut Cursor,
) -> Result<(Version, (Tid, Objects)), DecodeFault>
    ensures taken { IfOk result (λ prepared. Takes cursor.old cursor.new (prepared_spelled prepared)) }
    ensures spelled { IfOk result IsPrepared }
    ensures fault { IfErr result (λ fault. IfUnspelled fault
        (NoneBegins IsPrepared prepared_spelled cursor.old.left)) }
{
    let slow = read_version(cursor)?;
    let tid = read_tid(cursor)?;
    let objects = read_objects(alloc, cursor)?;
    Ok((slow, (tid, objects)))
}

/// Two numbers.
fn read_marks(cursor: &mut Cursor) -> Result<(u64, u64), DecodeFault>
    ensures taken { IfOk result (λ marks. Takes cursor.old cursor.new (marks_spelled marks)) }
    ensures spelled { IfOk result AreMarks }
    ensures fault { IfErr result (λ fault. IfUnspelled fault
        (NoneBegins AreMarks marks_spelled cursor.old.left)) }
{
    let durable = cursor.u64()?;
    let visible = cursor.u64()?;
    Ok((durable, visible))
}

/// What stands behind the kind of a record.
fn read_fields(
    alloc: Global,
    cursor: &mut Cursor,
    kind: u8,
    sites: u8,
    format: Format,
) -> Result<Record, DecodeFault>
    requires { sites ≤ most_in format }
    ensures taken { IfOk result (λ r. Takes cursor.old cursor.new (fields_spelled format r)) }
    ensures spelled { IfOk result (IsSuchOfKind (HasRecordSpelling format sites) kind_of kind) }
    ensures fault { IfErr result (λ fault. IfUnspelled fault
        (NoneBegins (IsSuchOfKind (HasRecordSpelling format sites) kind_of kind) (fields_spelled format) cursor.old.left)) }
{
    match kind {
        1 => {
            let epoch = cursor.u32()?;
            Ok(Record::Boot(epoch))
        }
        2 => {
            let (seq, tx) = read_numbered(alloc, cursor, sites, format)?;
            Ok(Record::Own(seq, tx))
        }
        3 => {
            let (version, tx) = read_got(alloc, cursor, sites, format)?;
            Ok(Record::Got(version.site, version.seq, tx))
        }
        4 => {
            let version = read_version(cursor)?;
            Ok(Record::Seen(version.site, version.seq))
        }
        5 => {
            let (slow, (tid, objects)) = read_prepared(alloc, cursor)?;
            Ok(Record::Prepared(slow.site, slow.seq, tid, objects))
        }
        6 => {
            let slow = read_version(cursor)?;
            Ok(Record::Released(slow.site, slow.seq))
        }
        7 => {
            let (slow, tx) = read_numbered(alloc, cursor, sites, format)?;
            Ok(Record::SlowBegin(slow, tx))
        }
        8 => {
            let slow = cursor.u64()?;
            Ok(Record::SlowEnd(slow))
        }
        9 => {
            let (durable, visible) = read_marks(cursor)?;
            Ok(Record::Marks(durable, visible))
        }
        10 => {
            let format = cursor.u8()?;
            if format != 2 {
                return Err(DecodeFault::Unspelled);
            }
            Ok(Record::Format)
        }
        _ => Err(DecodeFault::Unspelled),
    }
}

/// The record with which the bytes that are left begin.
fn read_record(
    alloc: Global,
    cursor: &mut Cursor,
    sites: u8,
    format: Format,
) -> Result<Record, DecodeFault>
    requires { sites ≤ most_in format }
    ensures taken { IfOk result (λ r. Takes cursor.old cursor.new (record_spelled format r)) }
    ensures spelled { IfOk result (HasRecordSpelling format sites) }
    ensures fault { IfErr result (λ fault. IfUnspelled fault
        (NoneBegins (HasRecordSpelling format sites) (record_spelled format) cursor.old.left)) }
{
    let kind = cursor.u8()?;
    let journaled = read_fields(alloc, cursor, kind, sites, format)?;
    Ok(journaled)
}

/// The record among so many sites that the bytes spell, all of them; none where they spell none.
// A restart decodes record by record, so its loop is to have this in it.
#[inline(always)]
pub fn decode(alloc: Global, bytes: &[u8], sites: u8, format: Format) -> Mem<Option<Record>>
    requires { sites ≤ most_in format }
    ensures some { IfOk result (λ found. IfSome found
        (λ r. HasRecordSpelling format sites r × (bytes.now ≡ record_spelled format r))) }
    ensures none { IfOk result (λ found. IfNone found
        ((r : Record) → HasRecordSpelling format sites r → bytes.now ≢ record_spelled format r)) }
{
    let mut cursor = Cursor::new(bytes);
    match read_record(alloc, &mut cursor, sites, format) {
        Ok(journaled) => {
            if cursor.is_at_end() {
                Ok(Some(journaled))
            } else {
                Ok(None)
            }
        }
        Err(DecodeFault::Unspelled) => Ok(None),
        Err(DecodeFault::NoMemory) => Err(NoMemory),
    }
}

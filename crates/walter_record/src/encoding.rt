//! Writes records, and counts the bytes that this takes.
ghost use Rattle.std.specs.Prelude.{◌≡◌, ◌+◌, ◌≤◌, ◌++◌, IfOk};
ghost use Rattle.walter_base.specs.Sizes.{size_of_record, CanBeRecorded};
ghost use Rattle.walter_record.specs.Fields.{kind_of, fields_spelled};
ghost use Rattle.walter_record.specs.Spelling.{FitsFormat, as_version, record_spelled, AreInRange};
ghost use Rattle.walter_names.specs.Names.{version_spelled, IsVersion};

use std::alloc::Global;
use walter_base::{Bytes, Format, Mem, NoMemory, Record, SiteId, Version};
use walter_fields::Appender;
use walter_names::{write_tid, write_version};
use walter_txcode::{size_in, write_numbered, write_objects};

/// How many bytes spell the record.
fn size(journaled: &Record, format: Format) -> usize
    requires { CanBeRecorded journaled.now }
    ensures { result ≡ size_of_record format journaled.now }
{
    match journaled {
        Record::Boot(_) => 5,
        Record::Own(_, tx) | Record::SlowBegin(_, tx) => 9 + size_in(tx, format) as usize,
        Record::Got(_, _, tx) => 10 + size_in(tx, format) as usize,
        Record::Seen(_, _) | Record::Released(_, _) => 10,
        Record::Prepared(_, _, _, objects) => 25 + 12 * objects.as_slice().len(),
        Record::SlowEnd(_) => 9,
        Record::Marks(_, _) => 17,
        Record::Format => 2,
    }
}

/// The byte that tells the record's kind.
fn kind(journaled: &Record) -> u8
    ensures { result ≡ kind_of journaled.now }
{
    match journaled {
        Record::Boot(_) => 1,
        Record::Own(_, _) => 2,
        Record::Got(_, _, _) => 3,
        Record::Seen(_, _) => 4,
        Record::Prepared(_, _, _, _) => 5,
        Record::Released(_, _) => 6,
        Record::SlowBegin(_, _) => 7,
        Record::SlowEnd(_) => 8,
        Record::Marks(_, _) => 9,
        Record::Format => 10,
    }
}

/// Writes a site and a number.
fn write_site(out: &mut Appender, site: SiteId, seq: u64)
    requires { 9 ≤ out.old.room }
    ensures bytes { out.new.bytes ≡ out.old.bytes ++ version_spelled (as_version site seq) }
    ensures room { out.new.room + 9 ≡ out.old.room }
    ensures range { IsVersion (as_version site seq) }
{
    write_version(out, Version { site, seq });
}

/// Writes what stands behind the kind.
fn write_fields(out: &mut Appender, journaled: &Record, format: Format)
    requires spelled { CanBeRecorded journaled.now }
    requires sites { FitsFormat format journaled.now }
    requires room { size_of_record format journaled.now ≤ 1 + out.old.room }
    ensures bytes { out.new.bytes ≡ out.old.bytes ++ fields_spelled format journaled.now }
    ensures room { out.new.room + size_of_record format journaled.now ≡ 1 + out.old.room }
    ensures ranges { AreInRange journaled.now }
{
    match journaled {
        Record::Boot(epoch) => out.u32(*epoch),
        Record::Own(seq, tx) => write_numbered(out, *seq, tx, format),
        Record::Got(site, seq, tx) => {
            write_site(out, *site, *seq);
            walter_txcode::append(out, tx, format);
        }
        Record::Seen(site, seq) => write_site(out, *site, *seq),
        Record::Prepared(site, slow, tid, objects) => {
            write_site(out, *site, *slow);
            write_tid(out, *tid);
            write_objects(out, objects);
        }
        Record::Released(site, slow) => write_site(out, *site, *slow),
        Record::SlowBegin(slow, tx) => write_numbered(out, *slow, tx, format),
        Record::SlowEnd(slow) => out.u64(*slow),
        Record::Marks(durable, visible) => {
            out.u64(*durable);
            out.u64(*visible);
        }
        Record::Format => out.u8(2),
    }
}

/// Writes the record's spelling behind what was written. It takes no memory.
#[tactic(auto, using(crate::proofs::Records::record_parts))]
pub fn append(out: &mut Appender, journaled: &Record, format: Format)
    requires spelled { CanBeRecorded journaled.now }
    requires sites { FitsFormat format journaled.now }
    requires room { size_of_record format journaled.now ≤ out.old.room }
    ensures bytes { out.new.bytes ≡ out.old.bytes ++ record_spelled format journaled.now }
    ensures room { out.new.room + size_of_record format journaled.now ≡ out.old.room }
    ensures ranges { AreInRange journaled.now }
{
    out.u8(kind(journaled));
    write_fields(out, journaled, format);
}

/// The one spelling of the record.
pub fn encode(alloc: Global, journaled: &Record, format: Format) -> Mem<Bytes>
    requires spelled { CanBeRecorded journaled.now }
    requires sites { FitsFormat format journaled.now }
    ensures bytes { IfOk result (λ bytes. bytes ≡ record_spelled format journaled.now) }
    ensures ranges { IfOk result (λ _. AreInRange journaled.now) }
{
    let Ok(mut out) = Appender::with_room(alloc, size(journaled, format)) else {
        return Err(NoMemory);
    };
    append(&mut out, journaled, format);
    Ok(Bytes::from(out.into_bytes()))
}

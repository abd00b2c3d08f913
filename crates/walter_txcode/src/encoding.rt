//! Writes transactions, and counts the bytes that this takes.
ghost use Rattle.std.specs.Prelude.{◌≡◌, ◌+◌, ◌≤◌, ◌<◌, ◌^◌, ◌++◌, length, All, IfOk};
ghost use Rattle.walter_base.specs.Sizes.{size_in, size_of_vector, most_in, CanBeSpelled};
ghost use Rattle.walter_names.specs.Names.{IsTid};
ghost use Rattle.walter_txcode.specs.Spelling.{head_spelled, spelling, numbered_spelled, IsInRange};

use crate::updates::write_updates;
use crate::vectors::write_vector;
use std::alloc::Global;
use walter_base::{Bytes, Format, Mem, NoMemory, Tid, Tx};
use walter_fields::Appender;
use walter_names::write_tid;

/// What stands before the updates.
fn write_head(out: &mut Appender, tid: Tid, slow: u64, start: &[u64], format: Format)
    requires sites { length start.now ≤ most_in format }
    requires room { 21 + size_of_vector format start.now ≤ out.old.room }
    ensures bytes { out.new.bytes ≡ out.old.bytes ++ head_spelled format tid slow start.now }
    ensures room { out.new.room + (21 + size_of_vector format start.now) ≡ out.old.room }
    ensures tid { IsTid tid }
    ensures slow { slow < 2 ^ 64 }
    ensures start { All (λ number. number < 2 ^ 64) start.now }
{
    write_tid(out, tid);
    out.u64(slow);
    write_vector(out, start, format);
}

/// Writes the transaction's spelling behind what was written.
pub fn append(out: &mut Appender, tx: &Tx, format: Format)
    requires spelled { CanBeSpelled tx.now }
    requires sites { length tx.now.start ≤ most_in format }
    requires room { size_in format tx.now ≤ out.old.room }
    ensures bytes { out.new.bytes ≡ out.old.bytes ++ spelling format tx.now }
    ensures room { out.new.room + size_in format tx.now ≡ out.old.room }
    ensures ranges { IsInRange tx.now }
{
    write_head(out, tx.tid, tx.slow, tx.start.as_slice(), format);
    write_updates(out, tx.updates.as_slice());
}

/// Writes a number, and the transaction's spelling behind it.
pub fn write_numbered(out: &mut Appender, number: u64, tx: &Tx, format: Format)
    requires spelled { CanBeSpelled tx.now }
    requires sites { length tx.now.start ≤ most_in format }
    requires room { 8 + size_in format tx.now ≤ out.old.room }
    ensures bytes { out.new.bytes ≡ out.old.bytes ++ numbered_spelled format (number, tx.now) }
    ensures room { out.new.room + (8 + size_in format tx.now) ≡ out.old.room }
    ensures number { number < 2 ^ 64 }
    ensures ranges { IsInRange tx.now }
{
    out.u64(number);
    append(out, tx, format);
}

/// How many bytes spell the transaction in the format.
pub fn size_in(tx: &Tx, format: Format) -> u64
    requires { CanBeSpelled tx.now }
    ensures { result ≡ size_in format tx.now }
{
    match format {
        Format::First => tx.size(),
        Format::Second => tx.size() - 63 + 8 * tx.start.as_slice().len() as u64,
    }
}

/// The one spelling of the transaction in the format.
pub fn encode(alloc: Global, tx: &Tx, format: Format) -> Mem<Bytes>
    requires spelled { CanBeSpelled tx.now }
    requires sites { length tx.now.start ≤ most_in format }
    ensures bytes { IfOk result (λ bytes. bytes ≡ spelling format tx.now) }
    ensures ranges { IfOk result (λ _. IsInRange tx.now) }
{
    let Ok(mut out) = Appender::with_room(alloc, size_in(tx, format) as usize) else {
        return Err(NoMemory);
    };
    append(&mut out, tx, format);
    Ok(Bytes::from(out.into_bytes()))
}

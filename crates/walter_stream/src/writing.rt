//! Writes bytes to a sink, all of them.
ghost use Rattle.std.specs.Prelude.{◌≡◌, ◌<◌, OnOk, OnErr};
ghost use Rattle.walter_stream.specs.Streams.{Appends, AppendsFront};

use crate::sink::Sink;
use crate::source::Failed;

/// Writes all the bytes, in as many calls as that takes.
pub fn write_all<K: Sink>(sink: &mut K, bytes: &[u8]) -> Result<(), Failed>
    ensures all { OnOk result (Appends (K.holds sink.old) (K.holds sink.new) bytes.now) }
    ensures faultless { OnOk result (K.faults sink.new ≡ K.faults sink.old) }

    // A front of the bytes was written before the fault.
    ensures front { OnErr result (AppendsFront (K.holds sink.old) (K.holds sink.new) bytes.now) }
    ensures cause { OnErr result (K.faults sink.old < K.faults sink.new) }
{
    let mut written = 0;
    while written < bytes.len() {
        written += sink.write(&bytes[written..])?;
    }
    Ok(())
}

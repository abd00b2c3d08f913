//! Says a help or the version.
ghost use Rattle.std.specs.Prelude.{◌≡◌, [], string_bytes};
ghost use Rattle.walter_cli.specs.Ending.{EndsText};
ghost use Rattle.walter_cli.specs.Statuses.{status_of};

use crate::ended::{Ended, Fault};
use std::alloc::Global;
use walter_stream::{Sink, write_all};

/// Writes a text, of a help or of the version.
pub fn say<K: Sink>(alloc: Global, text: &String, sink: &mut K) -> Ended
    ensures status { result.status ≡ status_of result.fault }
    ensures trails { result.trails.items ≡ [] }
    ensures ends { EndsText (string_bytes text.now) (K.holds sink.old) (K.holds sink.new)
        (K.faults sink.old) (K.faults sink.new) result.fault }
{
    match write_all(sink, text.as_bytes()) {
        Ok(()) => Ended::late(Vec::new(alloc), None),
        Err(_) => Ended::early(alloc, Fault::Write),
    }
}

//! The program over disks in memory.
ghost use Rattle.std.specs.Prelude.{◌≡◌, List, String};
ghost use Rattle.std.specs.Global.{Global};
ghost use Rattle.walter_cli.specs.Assurance.{Assures, in_memory};
ghost use Rattle.walter_cli.specs.Audits.{AuditPromise};
ghost use Rattle.walter_cli.specs.Headline.{Outside, outside_at};
ghost use Rattle.walter_cli.specs.Words.{AskForAudit};

use crate::ended::{Ended, Fault};
use crate::program::top;
use std::alloc::Global;
use std::sync::Wait;
use std::thread::Threads;
use walter_disk_memory::MemoryRack;
use walter_stream::{Sink, Source};

/// The end of a call for which memory is wanting before its words are read, with a rack of which nothing was asked.
pub(crate) fn without_memory(alloc: Global) -> (Ended, MemoryRack)
    ensures assured { (words : List (String Global)) (outside : Outside)
        → Assures words (in_memory result.1) outside outside result.0 }
    ensures audit { (outside : Outside) → AuditPromise (in_memory result.1) outside outside result.0 }
    ensures status { result.0.status ≡ 5 }
{
    (Ended::early(alloc, Fault::Memory), MemoryRack::new(alloc))
}

/// The program over disks in memory that have no bytes: `top` over a rack that is made here. It answers the rack too, with
/// the disks as they were given back.
pub fn top_in_memory<X: AllocGlobal + Threads + Wait + Sync, S: Source, K: Sink>(
    rt: &X,
    words: &[String],
    source: &mut S,
    sink: &mut K,
) -> (Ended, MemoryRack)
    ensures assured { ¬ AskForAudit words.now → Assures words.now (in_memory result.1)
        (outside_at S.Source K.Sink source.old sink.old)
        (outside_at S.Source K.Sink source.new sink.new)
        result.0 }
    ensures audit { AskForAudit words.now → AuditPromise (in_memory result.1)
        (outside_at S.Source K.Sink source.old sink.old)
        (outside_at S.Source K.Sink source.new sink.new)
        result.0 }
{
    let alloc = rt.alloc();
    // For each site a disk is taken and given back.
    let Ok(mut rack) = MemoryRack::with_room(alloc, 32) else {
        return without_memory(alloc);
    };
    let ended = top(rt, words, source, sink, &mut rack);
    rack.given_unarmed_never_failed();
    (ended, rack)
}

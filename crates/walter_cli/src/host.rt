//! The program on a host, over disks in memory or over files.
ghost use Rattle.walter_cli.specs.Headline.{outside_at};
ghost use Rattle.walter_cli.specs.Hosts.{EndsOnHost};

use crate::ended::Ended;
use crate::memory::{top_in_memory, without_memory};
use crate::program::top;
use std::fs::{File, Files};
use std::sync::Wait;
use std::thread::Threads;
use walter_disk_file::HostRack;
use walter_disk_memory::MemoryRack;
use walter_stream::{Sink, Source};
use walter_words::folder_of;

/// The rack that the disks of a call on a host were taken from.
#[derive(Drop)]
pub enum UsedRack<'a, X: Files<File = File>> {
    Memory(MemoryRack),
    Folder(HostRack<&'a X>),
}

/// The program on a host: `top` over the files of the folder that the words name behind `--disks`, and `top_in_memory`
/// where they name none. It answers the rack too, with the disks as they were given back.
pub fn top_on_host<
    'a,
    X: AllocGlobal + Threads + Wait + Sync + Files<File = File>,
    S: Source,
    K: Sink,
>(rt: &'a X, words: &[String], source: &mut S, sink: &mut K) -> (Ended, UsedRack<'a, X>)
    ensures { EndsOnHost words.now result.1
        (outside_at S.Source K.Sink source.old sink.old)
        (outside_at S.Source K.Sink source.new sink.new)
        result.0 }
{
    let alloc = rt.alloc();
    match folder_of(alloc, words) {
        Ok(None) => {
            let (ended, rack) = top_in_memory(rt, words, source, sink);
            (ended, UsedRack::Memory(rack))
        }
        Ok(Some(folder)) => {
            let mut rack = HostRack::over(alloc, rt, folder.into_string());
            let ended = top(rt, words, source, sink, &mut rack);
            (ended, UsedRack::Folder(rack))
        }
        Err(_) => {
            let (ended, rack) = without_memory(alloc);
            (ended, UsedRack::Memory(rack))
        }
    }
}

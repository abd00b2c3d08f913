//! Runs over the files of a folder of the system.
use crate::playing::legal_history;
use anyhow::Result;
use std::alloc::Global;
use std::fs::{self, File, Files};
use std::path::Path;
use std::sync::{ArcSlice, Wait};
use std::thread::Threads;
use walter_base::Mem;
use walter_cli::{FileFault, top_on_host};
use walter_stream::{BytesSource, MemorySink};

// `play --disks FOLDER`
fn words_for(alloc: Global, folder: &str) -> Mem<Vec<String>> {
    let mut words = Vec::new(alloc);
    for word in ["play", "--disks", folder] {
        words.push(String::from_str(alloc, word)?)?;
    }
    Ok(words)
}

// What is written, the status, and what is told of the fault, if there is one, behind the folder's path.
fn play_once(
    rt: &(impl AllocGlobal + Threads + Wait + Sync + Files<File = File>),
    folder: &str,
    scenario: &str,
) -> Result<String> {
    let alloc = rt.alloc();
    let mut source = BytesSource::from(ArcSlice::from_slice(alloc, scenario.as_bytes())?);
    let mut sink = MemorySink::with_room(alloc, 1_000_000, Vec::new(alloc))?;
    let (ended, _) = top_on_host(rt, &words_for(alloc, folder)?, &mut source, &mut sink);
    legal_history(alloc, &ended.trails)?;
    let written = str::from_utf8(sink.as_slice())?;
    let status = ended.status;
    match &ended.fault {
        Some(fault) => {
            let told = format!(in alloc; "{}", FileFault::of(rt, folder, fault))?;
            let behind = told.strip_prefix(folder).unwrap_or("another path");
            Ok(format!(in alloc; "{written}{status}: {behind}")?)
        }
        None => Ok(format!(in alloc; "{written}{status}")?),
    }
}

/// How a scenario is played over the files of an empty folder that is made here, then over those that were left, and
/// then where the folder is gone.
pub(crate) fn play_over_files(
    rt: &(impl AllocGlobal + Threads + Wait + Sync + Files<File = File>),
    folder: &str,
    scenario: &str,
) -> Result<String> {
    fs::create_dir(rt, Path::new(folder))?;
    let first = play_once(rt, folder, scenario);
    let second = play_once(rt, folder, scenario);
    fs::remove_dir_all(rt, Path::new(folder))?;
    let third = play_once(rt, folder, scenario)?;
    Ok(format!(in rt.alloc(); "{}\n{}\n{third}", first?, second?)?)
}

//! The program `walter`: `top_on_host` over standard input, standard output and the process.
#![tactic(auto)]

use std::io::{self, ErrorKind};
use std::process::ExitCode;
use std::{env, mem};
use walter_cli::{Ended, Fault, FileFault, UsedRack, top_on_host};
use walter_stream::{StdSink, StdSource};

// What is said of a word that is no text.
fn no_text(rt: &HostRuntime) -> Fault {
    match String::from_str(
        rt.alloc(),
        "error: a word is no text; for more, try '--help'\n",
    ) {
        Ok(text) => Fault::Usage(text),
        Err(_) => Fault::Memory,
    }
}

// The words behind the program's name. A word that is no text is none of any line.
fn words_of(rt: &HostRuntime) -> Result<Vec<String>, Fault> {
    let args = env::args(rt).map_err(|error| match error.kind() {
        ErrorKind::OutOfMemory => Fault::Memory,
        _ => no_text(rt),
    })?;
    let mut words = Vec::new(rt.alloc());
    for word in args.skip(1) {
        words.push(word).map_err(|_| Fault::Memory)?;
    }
    Ok(words)
}

// Says what went wrong, in one line but for wrong words. The status tells it too, so it stands where standard error
// fails.
fn tell(rt: &HostRuntime, fault: &Fault, folder: Option<&str>) {
    let _ = match (fault, folder) {
        (Fault::Usage(text), _) => eprint!(rt; "{text}"),
        (_, Some(folder)) => eprintln!(rt; "walter: {}", FileFault::of(rt, folder, fault)),
        (_, None) => eprintln!(rt; "walter: {fault}"),
    };
}

// Only here does the runtime have threads.
fn main(rt: HostRuntime) -> ExitCode {
    let words = match words_of(&rt) {
        Ok(words) => words,
        Err(fault) => {
            tell(&rt, &fault, None);
            return ExitCode::from(Ended::early(rt.alloc(), fault).status);
        }
    };
    let mut source = StdSource::new(rt.reader());
    let mut sink = StdSink::new(io::writer(&rt));
    let (ended, rack) = top_on_host(&rt, &words, &mut source, &mut sink);
    let Ended {
        status,
        fault,
        trails,
    } = ended;
    if let Some(fault) = fault {
        match &rack {
            UsedRack::Folder(rack) => tell(&rt, &fault, rack.folder()),
            UsedRack::Memory(_) => tell(&rt, &fault, None),
        }
    }
    // The process ends, and its memory with it: nothing is freed piece by piece.
    mem::forget(rack);
    mem::forget(trails);
    ExitCode::from(status)
}

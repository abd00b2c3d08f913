//! Tests of what words ask for, and of the texts.
use std::alloc::Global;
use std::test::Fail;
use walter_words::{Command, WordsFault, command_of};

// What the words of a line ask for.
fn asked(alloc: Global, line: &str) -> Result<Result<Command, WordsFault>, Fail> {
    let mut words = Vec::new(alloc);
    for word in line.split_whitespace() {
        words.push(String::from_str(alloc, word)?)?;
    }
    Ok(command_of(alloc, &words))
}

// The text that is said.
fn said(alloc: Global, line: &str) -> Result<String, Fail> {
    match asked(alloc, line)? {
        Ok(Command::Say(text)) => Ok(text),
        _ => Err(Fail::from("a text")),
    }
}

// The message of a mistake.
fn message(alloc: Global, line: &str) -> Result<String, Fail> {
    match asked(alloc, line)? {
        Err(WordsFault::Usage(text)) => Ok(text),
        _ => Err(Fail::from("a message")),
    }
}

// What a line asks for: whether it is `run`, whether it is traced, and its folder.
fn driven(alloc: Global, line: &str) -> Result<(bool, bool, String), Fail> {
    let (runs, trace, disks) = match asked(alloc, line)? {
        Ok(Command::Play { trace, disks }) => (false, trace, disks),
        Ok(Command::Run { trace, disks }) => (true, trace, disks),
        _ => return Err(Fail::from("play or run")),
    };
    let folder = match disks {
        Some(folder) => folder.into_string(),
        None => String::new(alloc),
    };
    Ok((runs, trace, folder))
}

// Whether a line asks for just this.
fn asks_for(
    alloc: Global,
    line: &str,
    runs: bool,
    trace: bool,
    folder: &str,
) -> Result<bool, Fail> {
    let found = driven(alloc, line)?;
    Ok(found.0 == runs && found.1 == trace && found.2.as_str() == folder)
}

/// A line, and what it asks for: whether that is `run`, whether it is traced, and its folder. Behind an equals sign the
/// folder may be anything but empty.
static DRIVEN: [(&str, bool, bool, &str); 8] = [
    ("play", false, false, ""),
    ("play --trace", false, true, ""),
    ("run", true, false, ""),
    ("run --trace --", true, true, ""),
    ("play --disks here", false, false, "here"),
    ("play --disks=there/a=b --trace", false, true, "there/a=b"),
    ("run --trace --disks - --", true, true, "-"),
    ("run --disks=--trace", true, false, "--trace"),
];

#[test]
fn runs_are_asked_for(rt: HostRuntime) -> Result<(), Fail> {
    for &(line, runs, trace, folder) in &DRIVEN {
        assert!(rt; asks_for(rt.alloc(), line, runs, trace, folder)?);
    }
    Ok(())
}

#[test]
fn a_load_is_asked_for(rt: HostRuntime) -> Result<(), Fail> {
    let load = asked(rt.alloc(), "load --seed 7 --calls 1000")?;
    assert!(rt;
        matches!(
            load,
            Ok(Command::Load {
                seed: 7,
                calls: 1000
            })
        )
    );
    Ok(())
}

/// A line, and the folder of the audit that it asks for.
static AUDITS: [(&str, &str); 4] = [
    ("audit", ""),
    ("audit --", ""),
    ("audit --disks here --", "here"),
    ("audit --disks=--trace", "--trace"),
];

// The folder of the audit that a line asks for.
fn audited(alloc: Global, line: &str) -> Result<String, Fail> {
    match asked(alloc, line)? {
        Ok(Command::Audit { disks }) => match disks {
            Some(folder) => Ok(folder.into_string()),
            None => Ok(String::new(alloc)),
        },
        _ => Err(Fail::from("audit")),
    }
}

#[test]
fn audits_are_asked_for(rt: HostRuntime) -> Result<(), Fail> {
    for &(line, folder) in &AUDITS {
        assert!(rt; audited(rt.alloc(), line)?.as_str() == folder);
    }
    Ok(())
}

/// The lines that ask for a text with the statuses and an example, and what marks each of these.
static TEXTS: [&str; 5] = [
    "--help",
    "play --help",
    "run --help",
    "load --help",
    "audit --help",
];

static MARKS: [&str; 9] = [
    "\n  0  ",
    "\n  1  ",
    "\n  2",
    "3  ",
    "\n  4  ",
    "\n  5  ",
    "\n  6  ",
    "\n  7  ",
    ":\n  ./walter ",
];

// Whether a text has all marks.
fn is_marked(text: &str) -> bool {
    for mark in &MARKS {
        if !text.contains(*mark) {
            return false;
        }
    }
    true
}

#[test]
fn texts_name_the_statuses(rt: HostRuntime) -> Result<(), Fail> {
    for line in &TEXTS {
        assert!(rt; is_marked(said(rt.alloc(), line)?.as_str()));
    }
    Ok(())
}

/// The lines that ask for a text with the status of a no.
static TEXTS_OF_AUDITS: [&str; 2] = ["--help", "audit --help"];

#[test]
fn texts_name_the_status_of_a_no(rt: HostRuntime) -> Result<(), Fail> {
    for line in &TEXTS_OF_AUDITS {
        assert!(rt; said(rt.alloc(), line)?.as_str().contains("\n  8  "));
    }
    Ok(())
}

#[test]
fn the_version_is_told(rt: HostRuntime) -> Result<(), Fail> {
    assert!(rt; said(rt.alloc(), "--version")?.as_str() == "walter 0.1.0\n");
    Ok(())
}

/// A line of wrong words, and what the message of the mistake has.
static MISTAKES: [(&str, &str); 13] = [
    (
        "play --trce",
        "error: unexpected argument '--trce' found\n\n  tip: a similar argument exists: '--trace'\n\nUsage: walter play --trace\n\nFor more information, try '--help'.\n",
    ),
    ("", "requires a subcommand"),
    ("plai", "'plai'"),
    ("play --trace --trace", "'--trace'"),
    ("load --seed 7", "--calls <M>"),
    ("load --seed 7 --calls 20001", "'20001'"),
    ("play --disks", "'--disks <DIR>'"),
    ("play --disks=", "'--disks <DIR>'"),
    ("play --disks a --disks b", "'--disks <DIR>'"),
    ("play --disks --trace", "'--disks <DIR>'"),
    ("load --seed 7 --calls 1 --disks a", "'--disks'"),
    ("audit --trace", "'--trace'"),
    ("audit --disks", "'--disks <DIR>'"),
];

#[test]
fn mistakes_are_named(rt: HostRuntime) -> Result<(), Fail> {
    for &(line, part) in &MISTAKES {
        assert!(rt; message(rt.alloc(), line)?.contains(part));
    }
    Ok(())
}

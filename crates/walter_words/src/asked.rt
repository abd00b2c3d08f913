//! The commands, and which words ask for each.
ghost use Rattle.std.specs.Prelude.{◌≡◌, ◌⊎◌, ◌<◌, ◌≤◌, ◌^◌, ℕ, Bool, List, Option, IfOk, Some, codes, map};
ghost use Rattle.std.specs.Prelude.{if◌then◌else◌, string_bytes};
ghost use Rattle.clap.specs.Words.{first_of, found_of, kind_of, one_of, rows_of, subcommand_rows_of};
ghost use Rattle.clap.specs.Faults.{fault_of};
ghost use Rattle.walter_words.specs.Lines.{walter_line};
ghost use Rattle.walter_words.specs.Words.{AsksFor, AsksForText, FollowsFrom, HasOptions, IsGiven, IsReadAs, IsSaid};
ghost use Rattle.walter_words.specs.Words.{NamesFolder};
ghost use Rattle.walter_words.specs.Words.{IsText, IsTold, SpellsNumber};

use crate::folder_path::FolderPath;
use crate::lines::walter;
use clap::error::ErrorKind;
use clap::{ArgMatches, Error};
use std::alloc::{AllocError, Global};
use thiserror::Error as ThisError;

/// What the words ask for.
#[derive(Debug, Drop)]
pub enum Command {
    /// To play the scenario on standard input.
    Play {
        /// Whether a line for each event comes behind the report.
        trace: bool,
        /// The folder that has the disks of the sites, if they aren't in memory.
        disks: Option<FolderPath>,
    },
    /// To let threads drive the clients and the pumps of the scenario on standard input.
    Run {
        /// Whether a line for each event comes behind the report.
        trace: bool,
        /// The folder that has the disks of the sites, if they aren't in memory.
        disks: Option<FolderPath>,
    },
    /// To play a scenario that is made.
    Load {
        /// The number that the scenario is made of.
        seed: u64,
        /// How many calls the clients make.
        calls: u32,
    },
    /// To audit the journals of the sites of the scenario on standard input.
    Audit {
        /// The folder that has the disks of the sites, if they aren't in memory.
        disks: Option<FolderPath>,
    },
    /// To write this text, of a help or of the version, to standard output.
    Say(String),
}

impl Command {
    ghost use Rattle.walter_words.specs.Words.{folder_of};

    /// The folder that has the disks of its sites, if there is one.
    fn into_folder(self) -> Option<FolderPath>
        ensures { result ≡ folder_of self }
    {
        match self {
            Command::Play { disks, .. } | Command::Run { disks, .. } | Command::Audit { disks } => {
                disks
            }
            Command::Load { .. } | Command::Say(_) => None,
        }
    }
}

/// Why the words ask for nothing that can be done.
#[derive(Debug, Drop, PartialEq, Eq, ThisError)]
pub enum WordsFault {
    #[error("{0}")]
    Usage(String),
    #[error("out of memory")]
    Memory,
}

/// Whether these matches, of `play` or of `run`, have `--trace`.
fn is_traced(matches: &ArgMatches<'_>) -> bool
    ensures { (trace : Bool) → one_of (codes "trace") (rows_of (found_of matches.now))
        ≡ Some (if trace then codes "true" else codes "false") → result ≡ trace }
{
    matches.get_flag("trace")
}

/// The folder that these matches, of `play`, of `run` or of `audit`, have behind `--disks`.
fn disks_in(alloc: Global, matches: &ArgMatches<'_>) -> Result<Option<FolderPath>, AllocError>
    ensures { IfOk result (λ disks. disks ≡ first_of (codes "disks") (rows_of (found_of matches.now))) }
{
    match matches.get_str("disks") {
        Some(path) => Ok(Some(FolderPath::new(alloc, path)?)),
        None => Ok(None),
    }
}

/// The command `play` with these matches.
fn play_of(alloc: Global, play: &ArgMatches<'_>) -> Result<Command, AllocError>
    ensures { (trace : Bool) (disks : Option (List ℕ)) → HasOptions trace disks (rows_of (found_of play.now))
        → IfOk result (λ command. command ≡ Command.Play trace disks) }
{
    let disks = disks_in(alloc, play)?;
    Ok(Command::Play {
        trace: is_traced(play),
        disks,
    })
}

/// The command `run` with these matches.
fn run_of(alloc: Global, run: &ArgMatches<'_>) -> Result<Command, AllocError>
    ensures { (trace : Bool) (disks : Option (List ℕ)) → HasOptions trace disks (rows_of (found_of run.now))
        → IfOk result (λ command. command ≡ Command.Run trace disks) }
{
    let disks = disks_in(alloc, run)?;
    Ok(Command::Run {
        trace: is_traced(run),
        disks,
    })
}

/// The command `load` with these matches, if they have both numbers.
fn load_of(load: &ArgMatches<'_>) -> Option<Command>
    ensures { (s : List ℕ) (c : List ℕ) (seed : ℕ) (calls : ℕ)
        → one_of (codes "seed") (rows_of (found_of load.now)) ≡ Some s
        → one_of (codes "calls") (rows_of (found_of load.now)) ≡ Some c
        → SpellsNumber s seed → SpellsNumber c calls → seed < 2 ^ 64 → calls ≤ 20000
        → result ≡ Some (Command.Load seed calls) }
{
    Some(Command::Load {
        seed: load.get_one::<u64>("seed")?,
        calls: load.get_one::<u32>("calls")?,
    })
}

/// The command `audit` with these matches.
fn audit_of(alloc: Global, audit: &ArgMatches<'_>) -> Result<Command, AllocError>
    ensures { (disks : Option (List ℕ)) → first_of (codes "disks") (rows_of (found_of audit.now)) ≡ disks
        → IfOk result (λ command. command ≡ Command.Audit disks) }
{
    Ok(Command::Audit {
        disks: disks_in(alloc, audit)?,
    })
}

/// The command in these matches, if it is `play`, `run`, `load` or `audit`.
fn command_in(alloc: Global, matches: &ArgMatches<'_>) -> Result<Option<Command>, AllocError>
    ensures { (command : Command) → IsReadAs (subcommand_rows_of matches.now) command
        → IfOk result (λ read. read ≡ Some command) }
{
    if let Some(play) = matches.subcommand_matches("play") {
        return Ok(Some(play_of(alloc, play)?));
    }
    if let Some(run) = matches.subcommand_matches("run") {
        return Ok(Some(run_of(alloc, run)?));
    }
    if let Some(load) = matches.subcommand_matches("load") {
        return Ok(load_of(load));
    }
    match matches.subcommand_matches("audit") {
        Some(audit) => Ok(Some(audit_of(alloc, audit)?)),
        None => Ok(None),
    }
}

/// What is said where there are no matches.
fn told_of(alloc: Global, error: &Error) -> Result<Command, WordsFault>
    ensures { IsTold (kind_of error.now) result }
{
    let kind = error.kind();
    if kind == ErrorKind::OutOfMemory {
        return Err(WordsFault::Memory);
    }
    let Ok(text) = error.to_string(alloc) else {
        return Err(WordsFault::Memory);
    };
    match kind {
        ErrorKind::DisplayHelp | ErrorKind::DisplayVersion => Ok(Command::Say(text)),
        _ => Err(WordsFault::Usage(text)),
    }
}

/// What the words behind the program's name ask for. A command comes of the words that ask for it, and of no others:
/// so of none whose first is neither `play` nor `run` nor `load` nor `audit`.
pub fn command_of(alloc: Global, words: &[String]) -> Result<Command, WordsFault>
    ensures given { (command : Command) → AsksFor command (map string_bytes words.now) → IsGiven command result }
    ensures asked { IfOk result (λ command. AsksFor command (map string_bytes words.now) ⊎ IsText command) }
    ensures said { AsksForText (map string_bytes words.now) → IsSaid result }
    ensures follows { FollowsFrom (fault_of walter_line (map string_bytes words.now)) result }
{
    let Ok(walter) = walter(alloc) else {
        return Err(WordsFault::Memory);
    };
    match walter.try_get_matches_from(words) {
        Ok(matches) => match command_in(alloc, &matches) {
            Ok(Some(command)) => Ok(command),
            Ok(None) => unreachable!(),
            Err(_) => Err(WordsFault::Memory),
        },
        Err(error) => told_of(alloc, &error),
    }
}

/// The folder whose files the words ask a run or an audit over, if they name one. Words that ask for neither name
/// none.
pub fn folder_of(alloc: Global, words: &[String]) -> Result<Option<FolderPath>, AllocError>
    ensures { IfOk result (λ folder. NamesFolder folder (map string_bytes words.now)) }
{
    match command_of(alloc, words) {
        Ok(command) => Ok(command.into_folder()),
        Err(WordsFault::Usage(_)) => Ok(None),
        Err(WordsFault::Memory) => Err(AllocError),
    }
}

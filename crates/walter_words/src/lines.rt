//! What may stand behind the program's name, and the texts that say so.
ghost use Rattle.std.specs.Prelude.{◌≡◌, IfOk, false};
ghost use Rattle.clap.specs.Words.{app_of, rule_of};
ghost use Rattle.clap.specs.declared.builder.command.Command.TheViews.{out-Command as fields_of};
ghost use Rattle.walter_words.specs.Lines.{audit_line, load_line, play_line, run_line, walter_line};
ghost use Rattle.walter_words.specs.Lines.{disks_rule, trace_rule};

use clap::builder::ValueParser;
use clap::{Arg, ArgAction, Command, value_parser};
use std::alloc::{AllocError, Global};

/// The version of the program.
static VERSION: &str = "0.1.0";

static WALTER_ABOUT: &str =
    "Plays or runs scenarios against a geo-replicated transactional key-value store, and audits what its sites kept";

static WALTER_REST: &str = "\
play reads a scenario from standard input. run reads one too, and lets threads drive it. load makes one of a
seed and reads nothing. What comes of it is written to standard output. Each fault is told on standard error.
The disks are in memory; with --disks DIR play and run keep each site's journal in a file of that folder.
audit reads a scenario and the journals of its sites, and says whether these tell a legal history.

Statuses:
  0  all was written
  1  the words are wrong
  2  the input is no scenario; standard error says where, and what is wanted there
  3  the input could not be read to its end
  4  the output could not be written to its end; a front of it was
  5  memory ran out
  6  a disk could not be taken or given back
  7  a disk has something on it with which no site can begin, or that is no journal to be audited
  8  all was written, and the journals tell no legal history
But for 0, 4 and 8 nothing is written.

Example:
  ./walter play --trace < examples/first_run.json";

static PLAY_ABOUT: &str =
    "Plays the scenario on standard input, and writes its report to standard output";

static PLAY_REST: &str = "\
A scenario is one JSON object: its sites, containers, clients with all that they send, and steps. The report
has each client's replies and each site's log; with --trace a line for each event stands behind it.
docs/FORMATS.md has both byte by byte.

Without --disks the disks are in memory, and end with the program. With --disks DIR the journal of site 0 is
the file site-0.journal of the folder DIR, that of site 1 site-1.journal, and so on. The folder must be there;
a file that isn't is made. No fault that the scenario arms comes at a file. A run begins on journals without
records: where a file holds records already, or is no journal, nothing is run, and the status is 7. Then move
it away, or name another folder. tools/journal says in words what is in such a file.

Statuses:
  0  the whole report was written
  1  the words are wrong
  2  the input is no scenario; standard error says where, and what is wanted there
  3  the input could not be read to its end
  4  the report could not be written to its end; a front of it was
  5  memory ran out
  6  a disk could not be taken or given back
  7  a disk has something on it with which no site can begin
But for 0 and 4 nothing is written.

Examples:
  ./walter play --trace < examples/first_run.json
  folder=$(mktemp -d); ./walter play --disks \"$folder\" < examples/first_run.json";

static RUN_ABOUT: &str =
    "Runs the scenario on standard input in threads, and writes its report to standard output";

static RUN_REST: &str = "\
Worker threads serve the clients and pump the sites of the scenario, to the end. The scenario's key threads
says how many client threads there are; its steps are read and ignored. The report is of the same kind as
play's, and with --trace a line for each event stands behind it. Two runs of one scenario may differ; each
report is that of a legal history. docs/FORMATS.md has scenario and report byte by byte.

Without --disks the disks are in memory, and end with the program. With --disks DIR the journal of site 0 is
the file site-0.journal of the folder DIR, that of site 1 site-1.journal, and so on. The folder must be there;
a file that isn't is made. No fault that the scenario arms comes at a file. A run begins on journals without
records: where a file holds records already, or is no journal, nothing is run, and the status is 7. Then move
it away, or name another folder. tools/journal says in words what is in such a file.

Statuses:
  0  the whole report was written
  1  the words are wrong
  2  the input is no scenario; standard error says where, and what is wanted there
  3  the input could not be read to its end
  4  the report could not be written to its end; a front of it was
  5  memory ran out
  6  a disk could not be taken or given back
  7  a disk has something on it with which no site can begin
But for 0 and 4 nothing is written.

Examples:
  ./walter run --trace < examples/threaded_run.json
  folder=$(mktemp -d); ./walter run --disks \"$folder\" < examples/threaded_run.json";

static LOAD_ABOUT: &str =
    "Makes a scenario of a seed, plays it, and writes a summary to standard output";

static LOAD_REST: &str = "\
It reads nothing. The same seed and number of calls give the same scenario and the same summary.

Statuses:
  0  the whole summary was written
  1  the words are wrong
  2, 3  don't come, since nothing is read
  4  the summary could not be written to its end; a front of it was
  5  memory ran out
  6  a disk could not be taken or given back
  7  a disk has something on it with which no site can begin
But for 0 and 4 nothing is written.

Example:
  ./walter load --seed 7 --calls 1000";

static AUDIT_ABOUT: &str =
    "Says on standard output whether the journals of a scenario's sites tell a legal history";

static AUDIT_REST: &str = "\
It reads the scenario on standard input, for its sites and its containers, and the journals of all sites, and
writes nothing to these. Where they tell a history that parallel snapshot isolation allows, it says yes, and
in which order; and where they don't, it says no, for which reason, and names two records. docs/AUDIT.md has
the reasons and the order, and docs/FORMATS.md the text byte by byte.

With --disks DIR the journal of site 0 is the file site-0.journal of the folder DIR, that of site 1
site-1.journal, and so on, as play and run leave them there. The folder must be there; a file that isn't is
made, with nothing in it, and the status is 7. Without --disks the disks are in memory and have no journals,
so the status is 7 too.

Statuses:
  0  the journals tell a legal history, and all that is said of it was written
  1  the words are wrong
  2  the input is no scenario; standard error says where, and what is wanted there
  3  the input could not be read to its end
  4  what was found could not be written to its end; a front of it was
  5  memory ran out
  6  a disk could not be taken, read or given back
  7  a disk has no journal on it, or one that is damaged
  8  the journals tell no legal history, and the reason was written
But for 0, 4 and 8 nothing is written.

Example, where there is a folder journals:
  ./walter play --disks journals < examples/first_run.json
  ./walter audit --disks journals < examples/first_run.json";

/// The option `--trace` of `play` and of `run`.
fn trace_option<'a>(alloc: Global) -> Arg<'a>
    ensures rule { rule_of result ≡ trace_rule }
    ensures local { result.global ≡ false }
{
    Arg::new(alloc, "trace")
        .long("trace")
        .action(ArgAction::SetTrue)
        .help("Writes a line for each event too, behind the report")
}

/// The option `--disks`, of which this is told.
fn disks_option<'a>(alloc: Global, help: &'a str) -> Arg<'a>
    ensures rule { rule_of result ≡ disks_rule }
    ensures local { result.global ≡ false }
{
    Arg::new(alloc, "disks")
        .long("disks")
        .value_name("DIR")
        .action(ArgAction::Set)
        .value_parser(ValueParser::NonEmptyString)
        .help(help)
}

static KEEPS: &str = "Keeps the journal of each site in a file of this folder, which must be there";

static READS: &str =
    "Reads the journal of each site from a file of this folder, which must be there";

/// What `play` takes.
fn play<'a>(alloc: Global) -> Result<Command<'a>, AllocError>
    ensures line { IfOk result (λ command. app_of command ≡ play_line) }
    ensures local { IfOk result (λ command. (fields_of command).has_globals ≡ false) }
{
    Command::new(alloc, "play")
        .about(PLAY_ABOUT)
        .after_help(PLAY_REST)
        .arg(trace_option(alloc))?
        .arg(disks_option(alloc, KEEPS))
}

/// What `run` takes.
fn run<'a>(alloc: Global) -> Result<Command<'a>, AllocError>
    ensures line { IfOk result (λ command. app_of command ≡ run_line) }
    ensures local { IfOk result (λ command. (fields_of command).has_globals ≡ false) }
{
    Command::new(alloc, "run")
        .about(RUN_ABOUT)
        .after_help(RUN_REST)
        .arg(trace_option(alloc))?
        .arg(disks_option(alloc, KEEPS))
}

/// What `load` takes.
fn load<'a>(alloc: Global) -> Result<Command<'a>, AllocError>
    ensures line { IfOk result (λ command. app_of command ≡ load_line) }
    ensures local { IfOk result (λ command. (fields_of command).has_globals ≡ false) }
{
    let seed = Arg::new(alloc, "seed")
        .long("seed")
        .value_name("N")
        .required(true)
        .action(ArgAction::Set)
        .value_parser(value_parser!(u64))
        .help("The number that the scenario is made of");
    let calls = Arg::new(alloc, "calls")
        .long("calls")
        .value_name("M")
        .required(true)
        .action(ArgAction::Set)
        .value_parser(value_parser!(u64).range(..=20_000))
        .help("How many calls the clients make, 20000 at most");
    Command::new(alloc, "load")
        .about(LOAD_ABOUT)
        .after_help(LOAD_REST)
        .arg(seed)?
        .arg(calls)
}

/// What `audit` takes.
fn audit<'a>(alloc: Global) -> Result<Command<'a>, AllocError>
    ensures line { IfOk result (λ command. app_of command ≡ audit_line) }
    ensures local { IfOk result (λ command. (fields_of command).has_globals ≡ false) }
{
    Command::new(alloc, "audit")
        .about(AUDIT_ABOUT)
        .after_help(AUDIT_REST)
        .arg(disks_option(alloc, READS))
}

/// What the program takes.
pub fn walter<'a>(alloc: Global) -> Result<Command<'a>, AllocError>
    ensures { IfOk result (λ command. app_of command ≡ walter_line) }
{
    let play = play(alloc)?;
    let run = run(alloc)?;
    let load = load(alloc)?;
    let audit = audit(alloc)?;
    Command::new(alloc, "walter")
        .version(VERSION)
        .about(WALTER_ABOUT)
        .after_help(WALTER_REST)
        .bin_name("walter")?
        .no_binary_name(true)
        .subcommand_required(true)
        .subcommand(play)?
        .subcommand(run)?
        .subcommand(load)?
        .subcommand(audit)
}

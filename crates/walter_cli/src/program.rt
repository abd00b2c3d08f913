//! The program, by the words behind its name.
ghost use Rattle.std.specs.Prelude.{◌≡◌, ℕ};
ghost use Rattle.walter_cli.specs.Audits.{AuditPromise};
ghost use Rattle.walter_cli.specs.Headline.{Promise, outside_at};
ghost use Rattle.walter_cli.specs.Racks.{rack_at, racked};
ghost use Rattle.walter_cli.specs.Words.{AskForAudit, Asks};
ghost use Rattle.walter_words.specs.declared.asked.Command.TheVariants as command;

use crate::auditing::audit;
use crate::ended::{Ended, Fault};
use crate::running::run;
use crate::saying::say;
use crate::taking::{pose, take_scenario};
use std::sync::Wait;
use std::thread::Threads;
use walter_disk::Rack;
use walter_stream::{Sink, Source};
use walter_words::{Command, WordsFault, command_of};

/// The program, by the words behind its name: `play` plays the scenario that the source has over the rack's disks, and
/// writes the report to the sink; `run` lets threads drive its clients and its sites instead; `load` plays one that it
/// makes, and writes its summary; `audit` reads the journals of the scenario's sites, and writes what it finds; a help and
/// the version are said.
pub fn top<X: AllocGlobal + Threads + Wait + Sync, S: Source, K: Sink, R: Rack>(
    rt: &X,
    words: &[String],
    source: &mut S,
    sink: &mut K,
    rack: &mut R,
) -> Ended
    ensures promise { ¬ AskForAudit words.now → Promise words.now
        (racked R.D.Disk (rack_at R.Rack rack.old) (rack_at R.Rack rack.new))
        (outside_at S.Source K.Sink source.old sink.old)
        (outside_at S.Source K.Sink source.new sink.new)
        result }
    ensures audit { AskForAudit words.now → AuditPromise
        (racked R.D.Disk (rack_at R.Rack rack.old) (rack_at R.Rack rack.new))
        (outside_at S.Source K.Sink source.old sink.old)
        (outside_at S.Source K.Sink source.new sink.new)
        result }
    // Where the scenario is made, nothing is asked of the source.
    ensures unasked { (seed calls : ℕ) → Asks (command.Load seed calls) words.now → source.new ≡ source.old }
    ensures same_folder { R.folder rack.new ≡ R.folder rack.old }
{
    let alloc = rt.alloc();
    match command_of(alloc, words) {
        Err(WordsFault::Usage(text)) => Ended::early(alloc, Fault::Usage(text)),
        Err(WordsFault::Memory) => Ended::early(alloc, Fault::Memory),
        Ok(Command::Say(text)) => say(alloc, &text, sink),
        Ok(Command::Audit { .. }) => match take_scenario(alloc, source) {
            Ok(scenario) => audit(alloc, &scenario, sink, rack),
            Err(fault) => Ended::early(alloc, fault),
        },
        Ok(command) => match pose(alloc, &command, source) {
            Ok(scenario) => run(rt, alloc, &scenario, &command, sink, rack),
            Err(fault) => Ended::early(alloc, fault),
        },
    }
}

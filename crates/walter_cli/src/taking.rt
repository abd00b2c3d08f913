//! The scenario that a command runs or audits: it is read, or made.
ghost use Rattle.std.specs.Prelude.{◌≡◌, IfOk, IfErr};
ghost use Rattle.walter_cli.specs.Ending.{IsPlayable, IsPoseFault, IsTakeFault};
ghost use Rattle.walter_cli.specs.Sources.{IsTaken};
ghost use Rattle.walter_cli.specs.Words.{CanBeRun, IfMade, IsPosed, but_for_steps};

use crate::ended::Fault;
use std::alloc::Global;
use walter_make::make;
use walter_scenario::{Detail, LONGEST_TEXT, Place, ReadFault, Scenario, Steps, read};
use walter_stream::{ReadError, Source, read_to_end};
use walter_words::Command;

/// The scenario that is to be run: that of the source, or one that is made.
pub fn pose<S: Source>(alloc: Global, command: &Command, source: &mut S) -> Result<Scenario, Fault>
    requires { CanBeRun command.now }
    ensures ok { IfOk result (IsPosed command.now (S.left source.old) (S.left source.new)) }
    ensures playable { IfOk result IsPlayable }
    ensures unasked { IfMade command.now (source.new ≡ source.old) }
    ensures fault { IfErr result
        (IsPoseFault command.now (S.left source.old) (S.left source.new) (S.faults source.old) (S.faults source.new)) }
{
    match command {
        Command::Play { .. } => take_scenario(alloc, source),
        Command::Run { .. } => Ok(without_steps(alloc, take_scenario(alloc, source)?)),
        Command::Load { seed, calls } => match make(alloc, *seed, *calls) {
            Ok(scenario) => Ok(scenario),
            Err(_) => Err(Fault::Memory),
        },
        Command::Audit { .. } | Command::Say(_) => unreachable!(),
    }
}

// Threads take no steps.
fn without_steps(alloc: Global, scenario: Scenario) -> Scenario
    ensures { result ≡ but_for_steps scenario }
{
    Scenario {
        steps: Steps::from(Vec::new(alloc)),
        ..scenario
    }
}

/// The scenario that the bytes of the source spell, read to their end.
#[tactic(auto, using(crate::proofs::Wholes::reading_playable))]
pub fn take_scenario<S: Source>(alloc: Global, source: &mut S) -> Result<Scenario, Fault>
    ensures ok { IfOk result (IsTaken (S.left source.old) (S.left source.new)) }
    ensures playable { IfOk result IsPlayable }
    ensures fault { IfErr result
        (IsTakeFault (S.left source.old) (S.left source.new) (S.faults source.old) (S.faults source.new)) }
{
    let bytes = match read_to_end(alloc, source, LONGEST_TEXT) {
        Ok(bytes) => bytes,
        Err(ReadError::TooLong) => {
            return Err(Fault::Scenario {
                place: Place::TooLong,
                detail: Detail::None,
            });
        }
        Err(ReadError::Failed) => return Err(Fault::Read),
        Err(ReadError::NoMemory) => return Err(Fault::Memory),
    };
    match read(alloc, bytes) {
        Ok(scenario) => Ok(scenario),
        Err(ReadFault::Refused { place, detail }) => Err(Fault::Scenario { place, detail }),
        Err(ReadFault::NoMemory) => Err(Fault::Memory),
    }
}

//! The first restart of a site.
ghost use Rattle.std.specs.Prelude.{◌≡◌, ◌+◌, ◌≤◌, [], ◌∷◌, map, is_ok, is_some, None, Result, OnOk};
ghost use Rattle.walter_base.specs.Sizes.{most_in};
ghost use Rattle.walter_disk.specs.Images.{LeavesOnly};
ghost use Rattle.walter_engine.specs.declared.answers.BeginFault.{BeginFault as Fault};
ghost use Rattle.walter_engine.specs.Begins.{IsFaultOfBegin};
ghost use Rattle.walter_engine.specs.Firsts.{IsAnswerTo, IsBegunOver, MayHaveFirst, not_loaded_by};
ghost use Rattle.walter_engine.specs.Restarts.{left_over};
ghost use Rattle.walter_engine.specs.Stores.{IsLeft, layout_of};
ghost use Rattle.walter_checkpoint.specs.Books.{disk_of, shape_of, GoesOnBehind, IsReady, HasPackRoom, StandsFor};
ghost use Rattle.walter_machine.specs.Machines.{catalog_in, site_in, tables_in, is_up, HasStanding, IsSameSite};
ghost use Rattle.walter_rules.specs.Standing.{unmade};
ghost use Rattle.walter_rules.specs.Trails.{standing, opening};

use crate::answers::BeginFault;
use crate::restarting::raise;
use std::alloc::Global;
use walter_checkpoint::Book;
use walter_disk::Disk;
use walter_journal::JournalFault;
use walter_machine::Machine;
use walter_rules::{Came, Outcome};

/// Begins a site over its book, which has these bodies. One that has records is left as it is.
pub(crate) fn begin_over<D: Disk>(
    alloc: Global,
    machine: &mut Machine,
    book: &mut Book<D>,
    bodies: &[Vec<u8>],
) -> Result<(), BeginFault>
    requires down { tables_in machine.old ≡ None }
    requires place { 10 ≤ left_over (layout_of book.old) [] }
    requires sites { (shape_of book.old).sites ≡ (catalog_in machine.old).sites }
    requires most { (catalog_in machine.old).sites ≤ most_in (shape_of book.old).header }
    requires pack_room { HasPackRoom book.old }
    requires ready { IsReady book.old (map (λ body. body.items) bodies.now) }
    requires goes_on { GoesOnBehind book.old (map (λ body. body.items) bodies.now) }
    ensures up { is_up machine.new ≡ is_ok result }
    ensures stands { HasStanding machine.old unmade → StandsFor book.old (map (λ body. body.items) bodies.now)
        → OnOk result (IsLeft (layout_of book.old) machine.new
        (standing (catalog_in machine.old) (site_in machine.old) (opening ∷ [])) book.new) }
    ensures begins { IsBegunOver (map (λ body. body.items) bodies.now) result }
    ensures any_moment { (stands : StandsFor book.old (map (λ body. body.items) bodies.now))
        → LeavesOnly D.moment D.left_since (disk_of book.old) (disk_of book.new)
        (MayHaveFirst (shape_of book.old) stands.with.stands.bytes (map (λ body. body.items) bodies.now)) }
    ensures faults { IsFaultOfBegin result
        (D.known (disk_of book.old)).faults (D.known (disk_of book.new)).faults }
    ensures device { OnOk result (D.device_calls (disk_of book.new) ≡ D.device_calls (disk_of book.old) + 4) }
    ensures at_most { D.device_calls (disk_of book.new) ≤ D.device_calls (disk_of book.old) + 4 }
    ensures arms { (D.known (disk_of book.new)).arms ≡ (D.known (disk_of book.old)).arms }
    ensures tells { is_some (D.known (disk_of book.new)).reads ≡ is_some (D.known (disk_of book.old)).reads }
    ensures shape { shape_of book.new ≡ shape_of book.old }
    ensures same { IsSameSite machine.old machine.new }
{
    if !bodies.is_empty() {
        return Err(BeginFault::Used);
    }
    machine.settle(0);
    let mut came = Came::only(alloc, Outcome::Passed);
    raise(alloc, machine, book, bodies, &mut came);
    answer_to(&came.outcome)
}

// What a first restart answers where the restart over no records came to this. An epoch is left, and has its place.
fn answer_to(outcome: &Outcome) -> Result<(), BeginFault>
    requires { (answer : Result (Unit {0}) Fault) × IsAnswerTo outcome.now answer }
    ensures { IsAnswerTo outcome.now result }
{
    match outcome {
        Outcome::Taken => Ok(()),
        Outcome::Failed => Err(BeginFault::Failed),
        Outcome::Memory => Err(BeginFault::NoMemory),
        _ => unreachable!(),
    }
}

/// What a first restart answers whose book was not loaded.
pub(crate) fn not_loaded(fault: JournalFault) -> BeginFault
    ensures { result ≡ not_loaded_by fault }
{
    match fault {
        JournalFault::Failed => BeginFault::Failed,
        JournalFault::Foreign => BeginFault::Foreign,
        JournalFault::Damaged { at, length } => BeginFault::Damaged { at, length },
        JournalFault::NoMemory => BeginFault::NoMemory,
    }
}

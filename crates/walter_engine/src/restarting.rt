//! A restart of a site over the book of its disk.
ghost use Rattle.std.specs.Prelude.{◌≡◌, ◌+◌, ◌<◌, ◌≤◌, ◌^◌, [], None, false, map, length, is_some, IfSome, OnErr, OnOk};
ghost use Rattle.walter_base.specs.Sizes.{most_in};
ghost use Rattle.walter_disk.specs.Disks.{Fails};
ghost use Rattle.walter_disk.specs.Images.{LeavesOnly};
ghost use Rattle.walter_engine.specs.Contents.{HasBodies, MayHaveNext};
ghost use Rattle.walter_engine.specs.Effects.{AreCallsOfRestart, IsRefusedOver};
ghost use Rattle.walter_engine.specs.Raises.{IsPacked, LiesIn, Raises, calls_before, hindered_by, unloaded_by};
ghost use Rattle.walter_checkpoint.specs.Books.{disk_of, shape_of, GoesOnBehind, IsReady, HasPackRoom, StandsFor};
ghost use Rattle.walter_engine.specs.Restarts.{ComesOf, left_over};
ghost use Rattle.walter_engine.specs.Stores.{layout_of};
ghost use Rattle.walter_machine.specs.Comings.{IsOutcomeAlone, IsSized, IsFaulty};
ghost use Rattle.walter_machine.specs.Machines.{catalog_in, site_in, tables_in, records_in, is_up, HasStanding, IsSameSite};
ghost use Rattle.walter_rules.specs.Layouts.{Layout, header_of};
ghost use Rattle.walter_rules.specs.Standing.{Standing, up_after};
ghost use Rattle.walter_rules.specs.declared.event.Event.TheVariants as event;

use crate::answers::RefusedRestart;
use crate::replaying::ready_over;
use crate::writing::{put, spell_any};
use std::alloc::Global;
use walter_checkpoint::Book;
use walter_disk::{Disk, Failed};
use walter_journal::JournalFault;
use walter_machine::Machine;
use walter_rules::{Came, Event, Outcome};

/// The site comes up that the bodies of its book tell, in its next epoch, which is journaled. The record in flight is
/// decided before. A book of two areas that has bodies is packed first. Why it is refused comes back, where it is.
pub(crate) fn raise<D: Disk>(
    alloc: Global,
    machine: &mut Machine,
    book: &mut Book<D>,
    bodies: &[Vec<u8>],
    came: &mut Came,
) -> Option<RefusedRestart>
    requires alone { IsOutcomeAlone came.old }
    requires down { tables_in machine.old ≡ None }
    requires countable { records_in machine.old + 1 < 2 ^ 64 }
    requires sites { (shape_of book.old).sites ≡ (catalog_in machine.old).sites }
    requires most { (catalog_in machine.old).sites ≤ most_in (shape_of book.old).header }
    requires pack_room { HasPackRoom book.old }
    requires ready { IsReady book.old (map (λ body. body.items) bodies.now) }
    requires goes_on { GoesOnBehind book.old (map (λ body. body.items) bodies.now) }
    ensures raises { (layout : Layout) (S : Standing) → LiesIn (catalog_in machine.old) layout (site_in machine.old) S
        book.old (map (λ body. body.items) bodies.now)
        → HasStanding machine.old S → records_in machine.old ≡ length S.records
        → Raises (catalog_in machine.old) layout (site_in machine.old) S came.new result machine.new book.new }
    ensures any_moment { (layout : Layout) (S : Standing) → LiesIn (catalog_in machine.old) layout (site_in machine.old) S
        book.old (map (λ body. body.items) bodies.now)
        → LeavesOnly D.moment D.left_since (disk_of book.old) (disk_of book.new)
        (MayHaveNext (catalog_in machine.old) layout (site_in machine.old) S event.Restart None) }
    ensures refused { IfSome result (λ why. (disk_of book.new ≡ disk_of book.old)
        × IsRefusedOver (shape_of book.old).header (catalog_in machine.old) (site_in machine.old) (map (λ body. body.items) bodies.now) why) }
    // over any bodies
    ensures over { ComesOf (header_of (layout_of book.old)) (catalog_in machine.old) (site_in machine.old)
        (left_over (layout_of book.old) (map (λ body. body.items) bodies.now))
        (map (λ body. body.items) bodies.now) came.new.wrote result came.new.outcome }
    ensures up { is_up machine.new ≡ up_after event.Restart came.new.outcome false }
    ensures sized { IsSized (catalog_in machine.old).sites came.new }
    ensures none_sent { came.new.sends ≡ [] }
    ensures none_dropped { came.new.dropped ≡ 0 }
    ensures none_kept { came.new.kept ≡ None }
    ensures faults { IsFaulty came.new (D.known (disk_of book.old)).faults (D.known (disk_of book.new)).faults }
    ensures arms { (D.known (disk_of book.new)).arms ≡ (D.known (disk_of book.old)).arms }
    ensures tells { is_some (D.known (disk_of book.new)).reads ≡ is_some (D.known (disk_of book.old)).reads }
    ensures device { AreCallsOfRestart came.new (calls_before book.old (map (λ body. body.items) bodies.now))
        (D.device_calls (disk_of book.old)) (D.device_calls (disk_of book.new)) }
    ensures shape { shape_of book.new ≡ shape_of book.old }
    ensures same { IsSameSite machine.old machine.new }
{
    let header = book.format();
    let (mut ready, format) = match ready_over(
        alloc,
        machine.catalog(),
        machine.id(),
        bodies,
        header,
    ) {
        Ok(ready) => ready,
        Err(why) => {
            machine.rest(hindrance(why), came);
            return why;
        }
    };
    let Ok(()) = machine.make_room() else {
        machine.want(&Event::Restart, came);
        return None;
    };
    let Ok(body) = spell_any(alloc, book, format, &ready) else {
        machine.want(&Event::Restart, came);
        return None;
    };
    if pack_any(book, bodies).is_err() {
        machine.rest(Outcome::Failed, came);
        return None;
    }
    put(
        alloc,
        machine,
        book,
        format,
        &Event::Restart,
        &mut ready,
        body,
        came,
    );
    None
}

// A restart packs what it found, if that is anything. What was to be appended has room still.
fn pack_any<D: Disk>(book: &mut Book<D>, bodies: &[Vec<u8>]) -> Result<(), Failed>
    requires pack_room { HasPackRoom book.old }
    requires ready { IsReady book.old (map (λ body. body.items) bodies.now) }
    requires goes_on { GoesOnBehind book.old (map (λ body. body.items) bodies.now) }
    ensures shape { shape_of book.new ≡ shape_of book.old }
    ensures packed { OnOk result (IsPacked book.old book.new (map (λ body. body.items) bodies.now)) }
    ensures any_moment { StandsFor book.old (map (λ body. body.items) bodies.now)
        → LeavesOnly D.moment D.left_since (disk_of book.old) (disk_of book.new)
        (λ image. HasBodies (layout_of book.old) image (map (λ body. body.items) bodies.now)) }
    ensures failed { OnErr result (Fails (D.known (disk_of book.old)) (D.known (disk_of book.new))) }
    ensures arms { (D.known (disk_of book.new)).arms ≡ (D.known (disk_of book.old)).arms }
    ensures tells { is_some (D.known (disk_of book.new)).reads ≡ is_some (D.known (disk_of book.old)).reads }
    ensures device { OnOk result (D.device_calls (disk_of book.new) ≡ D.device_calls (disk_of book.old)
        + calls_before book.old (map (λ body. body.items) bodies.now)) }
    ensures at_most { D.device_calls (disk_of book.new) ≤ D.device_calls (disk_of book.old)
        + calls_before book.old (map (λ body. body.items) bodies.now) }
{
    if bodies.is_empty() {
        return Ok(());
    }
    book.pack()
}

// What a restart comes to where none is ready.
fn hindrance(why: Option<RefusedRestart>) -> Outcome
    ensures { result ≡ hindered_by why }
{
    match why {
        Some(_) => Outcome::Refused,
        None => Outcome::Memory,
    }
}

/// What a restart comes to whose journal was not loaded, and why it is refused, where it is.
pub(crate) fn unloaded(fault: JournalFault) -> (Outcome, Option<RefusedRestart>)
    ensures { result ≡ unloaded_by fault }
{
    match fault {
        JournalFault::Failed => (Outcome::Failed, None),
        JournalFault::NoMemory => (Outcome::Memory, None),
        JournalFault::Foreign => (Outcome::Refused, Some(RefusedRestart::Foreign)),
        JournalFault::Damaged { at, length } => (
            Outcome::Refused,
            Some(RefusedRestart::Damaged { at, length }),
        ),
    }
}

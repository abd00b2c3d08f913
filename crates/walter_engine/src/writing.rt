//! An event that is ready, once its record is journaled.
ghost use Rattle.std.specs.Prelude.{◌≡◌, ◌≤◌, ℕ, List, None, false, length, IsSome, IfOk, IfSome, OnErr, OnOk};
ghost use Rattle.walter_base.specs.Sizes.{CanBeRecorded, most_in};
ghost use Rattle.walter_checkpoint.specs.Books.{HasPackRoom, HasRoomBehind, IsReady};
ghost use Rattle.walter_engine.specs.Writings.{HasRoomIfAny, IsSameButRoom, IsSpelling, IsSpellingIfAny, Writes};
ghost use Rattle.walter_machine.specs.Comings.{IsOutcomeAlone};
ghost use Rattle.walter_machine.specs.Machines.{catalog_in, site_in, tables_in, is_up, HasRoom, IsCountable};
ghost use Rattle.walter_machine.specs.Readiness.{IsReadyAnyway, rec_in};
ghost use Rattle.walter_record.specs.Spelling.{FitsFormat};

use std::alloc::Global;
use walter_base::{Bytes, Format, Mem, NoMemory, Record};
use walter_checkpoint::Book;
use walter_disk::Disk;
use walter_journal::AppendFault;
use walter_machine::{Machine, Ready};
use walter_packet::Framed;
use walter_rules::{Came, Event};

/// An event that is ready comes to a site. Its record, if there is one, is journaled first, in this format. All the memory that this
/// takes is taken before the book is written to. What is to be put out has its frames.
pub(crate) fn write<D: Disk>(
    alloc: Global,
    machine: &mut Machine,
    book: &mut Book<D>,
    format: Format,
    event: &Event,
    ready: &mut Ready,
    came: &mut Came,
) -> Vec<Framed>
    requires room { is_up machine.old ≡ false → HasRoom machine.old }
    requires countable { IsCountable machine.old ready.old }
    requires anyway { IsReadyAnyway (catalog_in machine.old) (site_in machine.old) (tables_in machine.old) event.now
        ready.old }
    requires alone { IsOutcomeAlone came.old }
    requires sites { (catalog_in machine.old).sites ≤ most_in format }
    ensures { Writes D.Disk format machine.old machine.new book.old book.new event.now ready.old came.new
        result.items }
{
    match spell_any(alloc, book, format, ready) {
        Ok(body) => put(alloc, machine, book, format, event, ready, body, came),
        Err(_) => {
            machine.want(event, came);
            Vec::new(alloc)
        }
    }
}

/// The same where the record that is ready is spelled, and the book has room for it.
pub(crate) fn put<D: Disk>(
    alloc: Global,
    machine: &mut Machine,
    book: &mut Book<D>,
    format: Format,
    event: &Event,
    ready: &mut Ready,
    body: Option<Bytes>,
    came: &mut Came,
) -> Vec<Framed>
    requires room { is_up machine.old ≡ false → HasRoom machine.old }
    requires countable { IsCountable machine.old ready.old }
    requires anyway { IsReadyAnyway (catalog_in machine.old) (site_in machine.old) (tables_in machine.old) event.now
        ready.old }
    requires alone { IsOutcomeAlone came.old }
    requires sites { (catalog_in machine.old).sites ≤ most_in format }
    requires spelled { IsSpellingIfAny format book.old (rec_in ready.old) body }
    ensures { Writes D.Disk format machine.old machine.new book.old book.new event.now ready.old came.new
        result.items }
{
    let Some(body) = body else {
        return machine.keep(event, ready, came);
    };
    match book.append(body.as_slice()) {
        Ok(()) => machine.keep(event, ready, came),
        Err(AppendFault::Failed) => {
            machine.fail(event, ready, came);
            Vec::new(alloc)
        }
        Err(AppendFault::Full { need, left }) => {
            machine.overflow(event, ready, need, left, came);
            Vec::new(alloc)
        }
    }
}

/// The spelling of the record that is ready, if one is; the book has room for it then.
pub(crate) fn spell_any<D: Disk>(
    alloc: Global,
    book: &mut Book<D>,
    format: Format,
    ready: &Ready,
) -> Mem<Option<Bytes>>
    requires sized { IfSome (rec_in ready.now) CanBeRecorded }
    requires fits { IfSome (rec_in ready.now) (FitsFormat format) }
    ensures spelled { IfOk result (IsSpellingIfAny format book.new (rec_in ready.now)) }
    ensures free { OnErr result (IsSome (rec_in ready.now)) }
    // where a pack is ready, there is room behind it too
    ensures behind { (bodies : List (List ℕ)) → IsReady book.old bodies → IfOk result (HasRoomIfAny book.new) }
    ensures pack_room { OnOk result (HasPackRoom book.old → HasPackRoom book.new) }
    ensures same { IsSameButRoom book.old book.new }
    ensures untouched { rec_in ready.now ≡ None → book.new ≡ book.old }
{
    match ready.record() {
        Some(rec) => Ok(Some(spell(alloc, book, format, rec)?)),
        None => Ok(None),
    }
}

// The spelling of a record, for which the book has room then.
fn spell<D: Disk>(alloc: Global, book: &mut Book<D>, format: Format, rec: &Record) -> Mem<Bytes>
    requires sized { CanBeRecorded rec.now }
    requires fits { FitsFormat format rec.now }
    ensures spelled { IfOk result (IsSpelling format book.new rec.now) }
    ensures behind { (bodies : List (List ℕ)) → IsReady book.old bodies
        → IfOk result (λ body. HasRoomBehind book.new (length body)) }
    ensures pack_room { OnOk result (HasPackRoom book.old → HasPackRoom book.new) }
    ensures same { IsSameButRoom book.old book.new }
{
    let body = walter_record::encode(alloc, rec, format)?;
    match book.make_room(body.as_slice().len() as u64) {
        Ok(()) => Ok(body),
        Err(_) => Err(NoMemory),
    }
}

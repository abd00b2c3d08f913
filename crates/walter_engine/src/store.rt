//! Where the records of a site lie: in the book of one that is up, or on the bare disk of one that is down.
ghost use Rattle.std.specs.Prelude.{◌≡◌, ◌<◌, true, false, not, Some, None, is_some, IfSome, OnOk, OnErr};
ghost use Rattle.walter_base.specs.declared.format.Format.{Format as Header};
ghost use Rattle.walter_disk.specs.Disks.{armed_at};
ghost use Rattle.walter_engine.specs.Stores.{book_if, disk_if, disk_under, header_under, IsStored};
ghost use Rattle.walter_rules.specs.Layouts.{Layout};
ghost use Rattle.walter_rules.specs.Standing.{Standing};

use std::mem;
use walter_base::{Mem, NoMemory};
use walter_checkpoint::Book;
use walter_disk::Disk;

/// The disk, under a book or bare.
pub(crate) fn into_disk<D: Disk + Drop>(book: Option<Book<D>>, disk: Option<D>) -> D
    requires { is_some (disk_under book disk) ≡ true }
    ensures { Some result ≡ disk_under book disk }
{
    match (book, disk) {
        (Some(book), _) => book.into_disk(),
        (None, Some(disk)) => disk,
        (None, None) => unreachable!(),
    }
}

/// Where the site is down, its disk is bare again.
pub(crate) fn close_unless<D: Disk + Drop>(
    is_up: bool,
    book: &mut Option<Book<D>>,
    disk: &mut Option<D>,
)
    requires book { is_some book.old ≡ true }
    requires bare { disk.old ≡ None }
    ensures book { IfSome book.old (λ was. book.new ≡ book_if is_up was) }
    ensures bare { IfSome book.old (λ was. disk.new ≡ disk_if is_up was) }
    ensures same { disk_under book.new disk.new ≡ disk_under book.old disk.old }
    ensures open { is_some book.new ≡ is_up }
    ensures closed { is_some disk.new ≡ not is_up }
{
    if is_up {
        return;
    }
    if let Some(open) = mem::replace(book, None) {
        *disk = Some(open.into_disk());
    }
}

/// Arms the disk, under a book or bare.
pub(crate) fn arm<D: Disk>(
    book: &mut Option<Book<D>>,
    disk: &mut Option<D>,
    nth: u64,
    choice: u64,
) -> Mem<()>
    requires place { 0 < nth }
    requires there { is_some (disk_under book.old disk.old) ≡ true }
    ensures armed { OnOk result (IfSome (disk_under book.old disk.old) (λ old.
        IfSome (disk_under book.new disk.new) (λ new.
        D.known new ≡ armed_at (D.device_calls old) nth choice (D.known old)))) }
    ensures same { OnErr result (IfSome (disk_under book.old disk.old) (λ old.
        IfSome (disk_under book.new disk.new) (λ new. D.known new ≡ D.known old))) }
    ensures device { IfSome (disk_under book.old disk.old) (λ old.
        IfSome (disk_under book.new disk.new) (λ new. D.device_calls new ≡ D.device_calls old)) }
    ensures header { (asked : Header) → header_under book.new asked ≡ header_under book.old asked }
    ensures open { is_some book.new ≡ is_some book.old }
    ensures bare { is_some disk.new ≡ is_some disk.old }
    ensures stored { (layout : Layout) (S : Standing) → IsStored layout S book.old disk.old
        → IsStored layout S book.new disk.new }
{
    if let Some(book) = book {
        return book.arm(nth, choice).map_err(|_| NoMemory);
    }
    let Some(disk) = disk else { unreachable!() };
    disk.arm(nth, choice).map_err(|_| NoMemory)
}

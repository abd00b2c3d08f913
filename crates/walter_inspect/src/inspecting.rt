//! Reads what the journals of all sites hold. Nothing is written to their disks.
ghost use Rattle.std.specs.Prelude.{◌≡◌, ◌<◌, ◌≤◌, ℕ, length, slice_get, Some, Err, IfOk, IfErr};
ghost use Rattle.walter_audit.specs.Reading.{held};
ghost use Rattle.walter_base.specs.Vectors.{most_sites};
ghost use Rattle.walter_disk.specs.Racks.{IsFresh};
ghost use Rattle.walter_inspect.specs.Inspections.{AreAllRead, AreOnlyRead, IsFirstUnread, IsOnlyRead, IsReadAs, IsUnread};
ghost use Rattle.walter_inspect.specs.Nexts.{IsNextOf, IsNextUnread};

use std::alloc::Global;
use walter_audit::Content;
use walter_base::Format;
use walter_checkpoint::load;
use walter_disk::Disk;
use walter_journal::JournalFault;

/// The first site whose journal can't be read, and why.
#[derive(Clone, Copy, Debug, PartialEq, Eq)]
pub struct Unread {
    pub site: u8,
    pub why: JournalFault,
}

/// The disks of all sites, in order, and what their journals hold.
#[derive(Drop)]
pub struct Inspected<D> {
    pub disks: Vec<D>,
    pub read: Result<Vec<Content>, Unread>,
}

/// Reads what the journals on the disks of so many sites hold, one after another, up to the first that can't be read. A
/// disk of no bytes has none. The disks come back as they were.
pub fn read_contents<D: Disk + Drop>(
    alloc: Global,
    disks: Vec<D>,
    capacity: u64,
    sites: u8,
) -> Inspected<D>
    requires some { 0 < length disks.items }
    requires many { length disks.items ≡ sites }
    requires few { sites ≤ most_sites }
    requires fresh { (i : ℕ) (disk : D) → slice_get disks.items i ≡ Some disk
        → IsFresh (D.known disk) (D.may_leave disk) }
    ensures only { AreOnlyRead D.Disk disks.items result.disks.items }
    ensures read { IfOk result.read (λ contents.
        AreAllRead D.Disk capacity sites disks.items result.disks.items contents.items) }
    ensures unread { IfErr result.read (IsFirstUnread D.Disk capacity sites disks.items result.disks.items) }
{
    let Ok(mut back) = Vec::with_capacity(alloc, disks.len()) else {
        return Inspected {
            disks,
            read: Err(Unread {
                site: 0,
                why: JournalFault::NoMemory,
            }),
        };
    };
    let none = Vec::new(alloc);
    let mut read = Ok(none);
    let mut next = 0;
    for disk in disks {
        let site = next;
        let (disk, so_far) = read_next(alloc, read, site, disk, capacity, sites);
        back.push_reserved(disk);
        read = so_far;
        next += 1;
    }
    Inspected { disks: back, read }
}

// What the journals of one site more hold, where those before it could be read.
fn read_next<D: Disk + Drop>(
    alloc: Global,
    read: Result<Vec<Content>, Unread>,
    site: u8,
    disk: D,
    capacity: u64,
    sites: u8,
) -> (D, Result<Vec<Content>, Unread>)
    requires few { sites ≤ most_sites }
    requires fresh { IsFresh (D.known disk) (D.may_leave disk) }
    ensures only { IsOnlyRead D.Disk disk result.0 }
    ensures next { IfOk read (λ contents. IfOk result.1 (λ so_far.
        IsNextOf D.Disk capacity sites disk result.0 contents.items so_far.items)) }
    ensures unread { IfOk read (λ contents. IfErr result.1
        (IsNextUnread D.Disk capacity sites disk result.0 site)) }
    ensures stays { IfErr read (λ unread. (result.0 ≡ disk) × (result.1 ≡ Err unread)) }
{
    let mut contents = match read {
        Ok(contents) => contents,
        Err(unread) => return (disk, Err(unread)),
    };
    let (disk, content) = read_content(alloc, disk, capacity, sites);
    match content {
        Ok(content) => match contents.push(content) {
            Ok(()) => (disk, Ok(contents)),
            Err(_) => (
                disk,
                Err(Unread {
                    site,
                    why: JournalFault::NoMemory,
                }),
            ),
        },
        Err(why) => (disk, Err(Unread { site, why })),
    }
}

// What the journal on a disk holds, or why it can't be read.
fn read_content<D: Disk>(
    alloc: Global,
    disk: D,
    capacity: u64,
    sites: u8,
) -> (D, Result<Content, JournalFault>)
    requires few { sites ≤ most_sites }
    requires fresh { IsFresh (D.known disk) (D.may_leave disk) }
    ensures only { IsOnlyRead D.Disk disk result.0 }
    ensures read { IfOk result.1 (λ content. IsReadAs D.Disk capacity sites disk result.0 (held content)) }
    ensures unread { IfErr result.1 (λ why. IsUnread D.Disk capacity sites disk result.0 why) }
{
    // A new book is for a site that begins.
    if disk.size() == 0 {
        return (disk, Err(JournalFault::Foreign));
    }
    match load(alloc, disk, capacity, 1, sites, Format::Second) {
        Ok((book, bodies)) => {
            let content = Content {
                header: book.format(),
                bodies: bodies.into_vec(),
            };
            (book.into_disk(), Ok(content))
        }
        Err((disk, why)) => (disk, Err(why)),
    }
}

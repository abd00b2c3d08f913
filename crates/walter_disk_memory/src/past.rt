//! What came to a disk or a rack so far, kept in proofs alone.
ghost use Rattle.std.specs.Prelude.{◌≡◌, ℕ, List};
ghost use Rattle.std.specs.Borrow.{ftrue};
ghost use Rattle.walter_disk_memory.specs.Contents.{Call};
ghost use Rattle.walter_disk_memory.specs.Codes.{calls_code, disks_code};
ghost use Rattle.walter_disk_memory.specs.MemoryDisks.{MemoryState};

use crate::event::Event;
use std::marker::Model;

/// The calls of a disk, which say what a crash might have left, or the disks that a rack was handed, each with its
/// site. They exist in proofs alone, in order, and take no memory.
#[derive(Drop)]
pub(crate) struct Past {
    pub ghost calls: { List Call } by { calls_code },
    pub ghost disks: { List (ℕ × MemoryState) } by { disks_code },
}

impl Model for Past {
    ghost also_owns = { λ _. ftrue };
}

// It owns nothing.
unsafe impl Send for Past {}

impl Past {
    ghost use Rattle.walter_disk_memory.specs.Pasts.{past_of};

    pub(crate) fn of(event: &Event<'_>) -> Past
        ensures { result ≡ past_of event.now }
    {
        Past {}
    }
}

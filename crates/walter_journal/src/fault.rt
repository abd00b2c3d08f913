//! Why no journal is loaded, and why no body is appended.
ghost use Rattle.std.specs.Prelude.{◌≡◌};

use std::alloc::AllocError;
use thiserror::Error;
use walter_disk::{Failed, NoMemory};

/// Why no journal was loaded.
#[derive(Clone, Copy, Debug, PartialEq, Eq, Error)]
pub enum JournalFault {
    #[error("a call on the disk failed")]
    Failed,
    #[error("the disk has no journal")]
    Foreign,
    #[error("the journal is damaged: behind the gate at {at} stands the length {length}")]
    Damaged { at: u64, length: u32 },
    #[error("out of memory")]
    NoMemory,
}

impl From<Failed> for JournalFault {
    ghost use Rattle.walter_journal.specs.declared.fault.JournalFault.TheVariants.{Failed};

    ghost from_gives = { λ _ fault. fault ≡ Failed };

    fn from(_fault: Failed) -> JournalFault {
        JournalFault::Failed
    }
}

impl From<NoMemory> for JournalFault {
    ghost use Rattle.walter_journal.specs.declared.fault.JournalFault.TheVariants.{NoMemory};

    ghost from_gives = { λ _ fault. fault ≡ NoMemory };

    fn from(_fault: NoMemory) -> JournalFault {
        JournalFault::NoMemory
    }
}

impl From<AllocError> for JournalFault {
    ghost use Rattle.walter_journal.specs.declared.fault.JournalFault.TheVariants.{NoMemory};

    ghost from_gives = { λ _ fault. fault ≡ NoMemory };

    fn from(_error: AllocError) -> JournalFault {
        JournalFault::NoMemory
    }
}

/// Why a body was not appended.
#[derive(Clone, Copy, Debug, PartialEq, Eq, Error)]
pub enum AppendFault {
    #[error("a call on the disk failed")]
    Failed,
    #[error("the journal is full: {need} bytes are needed and {left} are left")]
    Full { need: u64, left: u64 },
}

impl From<Failed> for AppendFault {
    ghost use Rattle.walter_journal.specs.declared.fault.AppendFault.TheVariants.{Failed};

    ghost from_gives = { λ _ fault. fault ≡ Failed };

    fn from(_fault: Failed) -> AppendFault {
        AppendFault::Failed
    }
}

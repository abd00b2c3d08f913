//! Why a body gives no reply.
ghost use Rattle.std.specs.Prelude.{◌≡◌};
ghost use Rattle.walter_reply.specs.declared.fault.Stop.TheVariants.{Cut};

use std::alloc::{AllocError, AllocFailed};
use thiserror::Error;
use walter_fields::Short;

/// Why a body gives no reply.
#[derive(Clone, Copy, Debug, PartialEq, Eq, Error)]
pub enum ReplyFault {
    /// It spells none. `at` is the place of what is wrong.
    #[error("the frame has no reading at {at}")]
    BadFrame { at: u32 },
    #[error("out of memory")]
    NoMemory,
}

/// Why the front of a body gives no reply.
#[derive(Clone, Copy, Debug)]
pub(crate) enum Stop {
    /// The body ends within the reply.
    Cut,
    /// The byte at this place stands for nothing.
    Unknown(u32),
    /// The body ends within the counts of a Set.
    CutSet,
    /// The field of a Set at this place is wrong.
    BadSet(u32),
    /// Memory ran out.
    NoMemory,
}

impl From<Short> for Stop {
    ghost from_gives = { λ _ stop. stop ≡ Cut };

    fn from(_error: Short) -> Stop {
        Stop::Cut
    }
}

impl From<AllocError> for Stop {
    ghost use Rattle.std.specs.Prelude.{◌≡◌};
    ghost use Rattle.walter_reply.specs.declared.fault.Stop.TheVariants.{NoMemory};

    ghost from_gives = { λ _ stop. stop ≡ NoMemory };

    fn from(_error: AllocError) -> Stop {
        Stop::NoMemory
    }
}

impl<T: Drop> From<AllocFailed<T>> for Stop {
    ghost use Rattle.std.specs.Prelude.{◌≡◌};
    ghost use Rattle.walter_reply.specs.declared.fault.Stop.TheVariants.{NoMemory};

    ghost from_gives = { λ _ stop. stop ≡ NoMemory };

    fn from(_error: AllocFailed<T>) -> Stop {
        Stop::NoMemory
    }
}

//! Why nothing is decoded: the bytes are no spelling, or memory ran out.
ghost use Rattle.std.specs.Prelude.{◌≡◌};
ghost use Rattle.walter_txcode.specs.declared.fault.DecodeFault.TheVariants.{Unspelled};

use std::alloc::{AllocError, AllocFailed};
use walter_fields::Short;

/// Why nothing is decoded.
#[derive(Clone, Copy, Debug, PartialEq, Eq)]
pub enum DecodeFault {
    /// The bytes are no spelling.
    Unspelled,
    /// Memory ran out.
    NoMemory,
}

impl From<Short> for DecodeFault {
    ghost from_gives = { λ _ f. f ≡ Unspelled };

    fn from(_error: Short) -> DecodeFault {
        DecodeFault::Unspelled
    }
}

impl From<AllocError> for DecodeFault {
    ghost use Rattle.std.specs.Prelude.{◌≡◌};
    ghost use Rattle.walter_txcode.specs.declared.fault.DecodeFault.TheVariants.{NoMemory};

    ghost from_gives = { λ _ f. f ≡ NoMemory };

    fn from(_error: AllocError) -> DecodeFault {
        DecodeFault::NoMemory
    }
}

impl<T: Drop> From<AllocFailed<T>> for DecodeFault {
    ghost use Rattle.std.specs.Prelude.{◌≡◌};
    ghost use Rattle.walter_txcode.specs.declared.fault.DecodeFault.TheVariants.{NoMemory};

    ghost from_gives = { λ _ f. f ≡ NoMemory };

    fn from(_error: AllocFailed<T>) -> DecodeFault {
        DecodeFault::NoMemory
    }
}

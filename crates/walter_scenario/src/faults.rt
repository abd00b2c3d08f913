//! What errors come to while a scenario is read.
ghost use Rattle.std.specs.Prelude.{◌≡◌};
ghost use Rattle.walter_scenario.specs.declared.place.Detail.TheVariants.{None as no_detail};
ghost use Rattle.walter_scenario.specs.declared.place.ReadFault.TheVariants.{Refused, NoMemory as no_memory};

use crate::place::{Detail, Place, ReadFault};
use std::alloc::{AllocError, AllocFailed};
use walter_base::NoMemory;

impl From<Place> for ReadFault {
    ghost from_gives = { λ place fault. fault ≡ Refused place no_detail };

    fn from(place: Place) -> ReadFault {
        ReadFault::Refused {
            place,
            detail: Detail::None,
        }
    }
}

impl From<AllocError> for ReadFault {
    ghost from_gives = { λ _ fault. fault ≡ no_memory };

    fn from(_error: AllocError) -> ReadFault {
        ReadFault::NoMemory
    }
}

impl<T: Drop> From<AllocFailed<T>> for ReadFault {
    ghost from_gives = { λ _ fault. fault ≡ no_memory };

    fn from(_error: AllocFailed<T>) -> ReadFault {
        ReadFault::NoMemory
    }
}

impl From<NoMemory> for ReadFault {
    ghost from_gives = { λ _ fault. fault ≡ no_memory };

    fn from(_error: NoMemory) -> ReadFault {
        ReadFault::NoMemory
    }
}

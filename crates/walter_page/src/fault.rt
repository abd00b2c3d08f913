//! Why a text is not written to its end.
ghost use Rattle.std.specs.Prelude.{◌≡◌};

use thiserror::Error;

/// Why a text was not written to its end.
#[derive(Clone, Copy, Debug, PartialEq, Eq, Error)]
pub enum WriteFault {
    #[error("there is no memory for the pieces of the text")]
    NoMemory,
    #[error("a write failed")]
    Failed,
}

impl From<walter_base::NoMemory> for WriteFault {
    ghost use Rattle.walter_page.specs.declared.fault.WriteFault.TheVariants.{NoMemory};

    ghost from_gives = { λ _ e. e ≡ NoMemory };

    fn from(_error: walter_base::NoMemory) -> WriteFault {
        WriteFault::NoMemory
    }
}

impl From<walter_stream::Failed> for WriteFault {
    ghost use Rattle.walter_page.specs.declared.fault.WriteFault.TheVariants.{Failed};

    ghost from_gives = { λ _ e. e ≡ Failed };

    fn from(_fault: walter_stream::Failed) -> WriteFault {
        WriteFault::Failed
    }
}

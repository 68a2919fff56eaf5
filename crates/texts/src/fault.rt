//! The fault of an escaped text.

use std::alloc::AllocError;
use thiserror::Error;

/// Why bytes were not read from their escaped text.
#[derive(Clone, Copy, Debug, PartialEq, Eq, Error)]
pub enum EscapeFault {
    /// The text is the spelling of no bytes.
    #[error("not escaped")]
    NotEscaped,
    /// Memory ran out.
    #[error("no memory")]
    NoMemory,
}

impl From<AllocError> for EscapeFault {
    ghost use Rattle.std.specs.Prelude.{◌≡◌};
    ghost use Rattle.texts.specs.declared.fault.EscapeFault.TheVariants.{NoMemory};

    ghost from_gives = { λ _ e. e ≡ NoMemory };

    fn from(_fault: AllocError) -> EscapeFault {
        EscapeFault::NoMemory
    }
}

//! The faults of this crate's calls.

ghost use Rattle.std.specs.Prelude.{◌≡◌};

use std::alloc::{AllocError, AllocFailed};
use thiserror::Error;

/// Why a call of this crate has no answer.
#[derive(Clone, Copy, Debug, PartialEq, Eq, Error)]
pub enum CoreFault {
    /// A growth was refused.
    #[error("no memory")]
    NoMemory,
    /// 64 draws in a row gave marks that were listed already.
    #[error("marks repeat")]
    MarksRepeat,
}

impl From<AllocError> for CoreFault {
    ghost use Rattle.mailcore.specs.declared.fault.CoreFault.TheVariants.{NoMemory};

    ghost from_gives = { λ _ fault. fault ≡ NoMemory };

    fn from(_: AllocError) -> CoreFault {
        CoreFault::NoMemory
    }
}

/// Why an element was not added to a list in order.
#[derive(Clone, Copy, Debug, PartialEq, Eq, Error)]
pub enum PushFault {
    /// It may not follow the elements that are there.
    #[error("out of order")]
    OutOfOrder,
    /// A growth was refused.
    #[error("no memory")]
    NoMemory,
}

impl<T: Drop> From<AllocFailed<T>> for PushFault {
    ghost use Rattle.mailcore.specs.declared.fault.PushFault.TheVariants.{NoMemory};

    ghost from_gives = { λ _ fault. fault ≡ NoMemory };

    fn from(_: AllocFailed<T>) -> PushFault {
        PushFault::NoMemory
    }
}

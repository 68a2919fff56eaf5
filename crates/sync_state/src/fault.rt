//! The faults of this crate's calls.

use device::DeviceFault;
use std::alloc::{AllocError, AllocFailed};
use thiserror::Error;

/// Why a text was not read, or a call of a book has no answer.
#[derive(Clone, Copy, Debug, PartialEq, Eq, Error)]
pub enum BookFault {
    /// A call of the shelf was stopped, now or earlier.
    #[error("stopped")]
    Stopped,
    /// The text is of no state, and this is its first bad line, counted from 1: the first line after which no valid state
    /// is possible, or, where a valid one ends too early, the line after its last. Line 0: a UID is named already.
    #[error("bad state {0}")]
    BadState(usize),
    /// The journal is bad, and this is its first bad line, counted from 1: the first line after which no valid journal of
    /// the next run is possible.
    #[error("bad journal {0}")]
    BadJournal(usize),
    /// A growth was refused.
    #[error("no memory")]
    NoMemory,
}

impl From<AllocError> for BookFault {
    ghost use Rattle.std.specs.Prelude.{◌≡◌};
    ghost use Rattle.sync_state.specs.declared.fault.BookFault.TheVariants.{NoMemory};

    ghost from_gives = { λ _ fault. fault ≡ NoMemory };

    fn from(_: AllocError) -> BookFault {
        BookFault::NoMemory
    }
}

impl<T: Drop> From<AllocFailed<T>> for BookFault {
    ghost use Rattle.std.specs.Prelude.{◌≡◌};
    ghost use Rattle.sync_state.specs.declared.fault.BookFault.TheVariants.{NoMemory};

    ghost from_gives = { λ _ fault. fault ≡ NoMemory };

    fn from(_: AllocFailed<T>) -> BookFault {
        BookFault::NoMemory
    }
}

impl From<DeviceFault> for BookFault {
    ghost use Rattle.std.specs.Prelude.{◌≡◌};
    ghost use Rattle.sync_state.specs.BookFaults.{of_shelf};

    ghost from_gives = { λ fault reported. reported ≡ of_shelf fault };

    fn from(fault: DeviceFault) -> BookFault {
        match fault {
            DeviceFault::Stopped => BookFault::Stopped,
            DeviceFault::NoMemory => BookFault::NoMemory,
        }
    }
}

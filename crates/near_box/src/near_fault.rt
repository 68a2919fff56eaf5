//! The faults of the near mailbox.

use device::DeviceFault;
use std::alloc::{AllocError, AllocFailed};
use thiserror::Error;

/// Why a call of the near mailbox has no answer.
///
/// After `Stopped` and `NoMemory` every call answers `Stopped`, until the folder is opened again and then the box.
#[derive(Clone, Copy, Debug, PartialEq, Eq, Error)]
pub enum NearFault {
    /// A call of the folder stopped, a file that stood there when the box was opened is gone, or an earlier call of the box
    /// failed, or the box is closed.
    #[error("stopped")]
    Stopped,
    /// The folder lacks `cur`, `new` or `tmp`.
    #[error("absent")]
    Absent,
    /// Two files have one UID.
    #[error("two files with one UID")]
    TwoWithOneUid,
    /// The meta file is not spelled as one, or is missing beside a file with a UID, or a UID is not below the next one.
    #[error("bad meta file")]
    BadMeta,
    /// There is no UID left; nothing was changed.
    #[error("no UID left")]
    UidsExhausted,
    /// A growth was refused.
    #[error("no memory")]
    NoMemory,
}

impl From<DeviceFault> for NearFault {
    ghost use Rattle.std.specs.Prelude.{◌≡◌};
    ghost use Rattle.near_box.specs.NearFaults.{near_fault};

    ghost from_gives = { λ fault near. near ≡ near_fault fault };

    fn from(fault: DeviceFault) -> NearFault {
        match fault {
            DeviceFault::Stopped => NearFault::Stopped,
            DeviceFault::NoMemory => NearFault::NoMemory,
        }
    }
}

impl From<AllocError> for NearFault {
    ghost use Rattle.std.specs.Prelude.{◌≡◌};
    ghost use Rattle.near_box.specs.declared.near_fault.NearFault.TheVariants.{NoMemory};

    ghost from_gives = { λ _ fault. fault ≡ NoMemory };

    fn from(_fault: AllocError) -> NearFault {
        NearFault::NoMemory
    }
}

impl<T: Drop> From<AllocFailed<T>> for NearFault {
    ghost use Rattle.std.specs.Prelude.{◌≡◌};
    ghost use Rattle.near_box.specs.declared.near_fault.NearFault.TheVariants.{NoMemory};

    ghost from_gives = { λ _ fault. fault ≡ NoMemory };

    fn from(_fault: AllocFailed<T>) -> NearFault {
        NearFault::NoMemory
    }
}

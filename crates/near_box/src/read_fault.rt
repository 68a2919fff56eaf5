//! Why files of messages cannot be read.

use device::DeviceFault;
use std::alloc::{AllocError, AllocFailed};

/// Why a part of a call that reads files of messages has no answer.
#[derive(Clone, Copy, PartialEq, Eq)]
pub enum ReadFault {
    /// A file that stood in the folder is not there: another program has renamed or removed it.
    Gone,
    /// A call of the folder has no answer, or a growth was refused.
    Device(DeviceFault),
}

impl From<DeviceFault> for ReadFault {
    ghost use Rattle.std.specs.Prelude.{◌≡◌};
    ghost use Rattle.near_box.specs.declared.read_fault.ReadFault.TheVariants.{Device};

    ghost from_gives = { λ fault read. read ≡ Device fault };

    fn from(fault: DeviceFault) -> ReadFault {
        ReadFault::Device(fault)
    }
}

impl From<AllocError> for ReadFault {
    ghost use Rattle.std.specs.Prelude.{◌≡◌};
    ghost use Rattle.device.specs.declared.DeviceFault.TheVariants.{NoMemory};
    ghost use Rattle.near_box.specs.declared.read_fault.ReadFault.TheVariants.{Device};

    ghost from_gives = { λ _ read. read ≡ Device NoMemory };

    fn from(_fault: AllocError) -> ReadFault {
        ReadFault::Device(DeviceFault::NoMemory)
    }
}

impl<T: Drop> From<AllocFailed<T>> for ReadFault {
    ghost use Rattle.std.specs.Prelude.{◌≡◌};
    ghost use Rattle.device.specs.declared.DeviceFault.TheVariants.{NoMemory};
    ghost use Rattle.near_box.specs.declared.read_fault.ReadFault.TheVariants.{Device};

    ghost from_gives = { λ _ read. read ≡ Device NoMemory };

    fn from(_fault: AllocFailed<T>) -> ReadFault {
        ReadFault::Device(DeviceFault::NoMemory)
    }
}

//! What is common to the devices that a mailbox or a state is kept on: how a call of one stops, how one in memory stops by a
//! schedule, and how one on a disk goes about with files.
//!
//! A call answers Ok with its effect, or a fault with its effect, without it, or with a part of it. After a fault each
//! call answers `Stopped` and changes nothing, until the device is opened again, which keeps what is stored. A killed
//! process is the next call answering `Stopped`.
#![tactic(auto)]

pub mod condition;
pub mod disk;
pub mod file_call;
pub mod file_laws;
pub mod file_record;
pub mod history;
pub mod own_files;
pub mod schedule;
pub mod stop_count;
pub mod trouble;
pub mod whose;

use std::alloc::{AllocError, AllocFailed};
use thiserror::Error;

/// Why a call of a device has no answer. From then on each call stops, until the device is opened again.
#[derive(Clone, Copy, Debug, PartialEq, Eq, Error)]
pub enum DeviceFault {
    /// The call stopped, before its effect, in it or after it.
    #[error("stopped")]
    Stopped,
    /// A growth was refused, which leaves what a stop leaves.
    #[error("no memory")]
    NoMemory,
}

impl From<AllocError> for DeviceFault {
    ghost use Rattle.std.specs.Prelude.{◌≡◌};
    ghost use Rattle.device.specs.declared.DeviceFault.TheVariants.{NoMemory};

    ghost from_gives = { λ _ fault. fault ≡ NoMemory };

    fn from(_fault: AllocError) -> DeviceFault {
        DeviceFault::NoMemory
    }
}

impl<T: Drop> From<AllocFailed<T>> for DeviceFault {
    ghost use Rattle.std.specs.Prelude.{◌≡◌};
    ghost use Rattle.device.specs.declared.DeviceFault.TheVariants.{NoMemory};

    ghost from_gives = { λ _ fault. fault ≡ NoMemory };

    fn from(_fault: AllocFailed<T>) -> DeviceFault {
        DeviceFault::NoMemory
    }
}

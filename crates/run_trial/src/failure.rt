//! Why nothing is reported of a trial.

ghost use Rattle.std.specs.Prelude.{◌≡◌};
ghost use Rattle.run_trial.specs.Statuses.{failure_status};

use device::DeviceFault;
use std::alloc::{AllocError, AllocFailed};
use std::io;
use std::io::ErrorKind;
use sync_state::fault::BookFault;
use thiserror::Error;
use worlds::fault::WorldFault;

/// Why nothing is reported of a trial, as the program reports it.
#[derive(Clone, Copy, Debug, PartialEq, Eq, Error)]
pub enum TrialError {
    /// The arguments are none that the program takes.
    #[error("usage")]
    Usage,
    /// Its text cannot be read.
    #[error("cannot read")]
    Input,
    /// Its text is no trial, at the line of this number, counted from 1.
    #[error("world line {0}")]
    World(usize),
    /// A device of a trial holds what no world is. This does not come.
    #[error("no world")]
    NoWorld,
    /// Memory ran out.
    #[error("no memory")]
    NoMemory,
}

impl TrialError {
    /// The program's exit status.
    pub fn status(self) -> u8
        ensures { result ≡ failure_status self }
    {
        match self {
            TrialError::Usage | TrialError::World(_) => 2,
            _ => 1,
        }
    }
}

impl From<AllocError> for TrialError {
    fn from(_fault: AllocError) -> TrialError {
        TrialError::NoMemory
    }
}

impl<T: Drop> From<AllocFailed<T>> for TrialError {
    fn from(_fault: AllocFailed<T>) -> TrialError {
        TrialError::NoMemory
    }
}

/// Of a folder in memory that takes in what others have added.
impl From<DeviceFault> for TrialError {
    fn from(_fault: DeviceFault) -> TrialError {
        TrialError::NoMemory
    }
}

impl From<WorldFault> for TrialError {
    fn from(fault: WorldFault) -> TrialError {
        match fault {
            WorldFault::Line(line) => TrialError::World(line),
            WorldFault::NoMemory => TrialError::NoMemory,
        }
    }
}

impl From<BookFault> for TrialError {
    fn from(fault: BookFault) -> TrialError {
        match fault {
            BookFault::NoMemory => TrialError::NoMemory,
            _ => TrialError::NoWorld,
        }
    }
}

impl From<io::Error> for TrialError {
    fn from(fault: io::Error) -> TrialError {
        match fault.kind() {
            ErrorKind::OutOfMemory => TrialError::NoMemory,
            _ => TrialError::Input,
        }
    }
}

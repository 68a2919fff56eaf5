//! Why a script is not played to its end.

use device::DeviceFault;
use mailcore::fault::PushFault;
use std::alloc::{AllocError, AllocFailed};
use std::io;
use std::io::ErrorKind;
use std::process::ExitCode;
use texts::fault::EscapeFault;
use thiserror::Error;

/// Why a script is not played to its end. Nothing is printed of it then but the failure.
#[derive(Clone, Copy, Debug, Error)]
pub enum Failure {
    /// The line that is played is none, or has no meaning where it stands.
    #[error("bad line")]
    Script,
    /// The same, with its number, counted from 1.
    #[error("line {0}")]
    Line(usize),
    /// The system fails: standard input or output, a file, a connection, the clock.
    #[error("cannot read or write")]
    Device,
    /// A growth was refused.
    #[error("no memory")]
    NoMemory,
}

impl Failure {
    /// The exit status of the program: 2 for a bad line, 1 for any other failure.
    pub fn status(self) -> ExitCode {
        match self {
            Failure::Script | Failure::Line(_) => ExitCode::from(2),
            Failure::Device | Failure::NoMemory => ExitCode::FAILURE,
        }
    }

    /// The same failure; a bad line gets this number.
    pub fn at(self, number: usize) -> Failure {
        match self {
            Failure::Script => Failure::Line(number),
            other => other,
        }
    }
}

impl From<io::Error> for Failure {
    fn from(fault: io::Error) -> Failure {
        match fault.kind() {
            ErrorKind::OutOfMemory => Failure::NoMemory,
            _ => Failure::Device,
        }
    }
}

impl From<AllocError> for Failure {
    fn from(_fault: AllocError) -> Failure {
        Failure::NoMemory
    }
}

impl<T: Drop> From<AllocFailed<T>> for Failure {
    fn from(_fault: AllocFailed<T>) -> Failure {
        Failure::NoMemory
    }
}

impl From<EscapeFault> for Failure {
    fn from(fault: EscapeFault) -> Failure {
        match fault {
            EscapeFault::NotEscaped => Failure::Script,
            EscapeFault::NoMemory => Failure::NoMemory,
        }
    }
}

impl From<PushFault> for Failure {
    fn from(fault: PushFault) -> Failure {
        match fault {
            PushFault::OutOfOrder => Failure::Script,
            PushFault::NoMemory => Failure::NoMemory,
        }
    }
}

impl From<DeviceFault> for Failure {
    fn from(fault: DeviceFault) -> Failure {
        match fault {
            DeviceFault::Stopped => Failure::Device,
            DeviceFault::NoMemory => Failure::NoMemory,
        }
    }
}

//! Why the program ends before its last connection.

use std::alloc::{AllocError, AllocFailed, Global};
use std::io;
use std::io::ErrorKind;
use std::process::ExitCode;
use thiserror::Error;
use worlds::fault::WorldFault;

/// Why the program ends before its last connection.
#[derive(Debug, Drop, Error)]
pub enum ServeFailure {
    /// It takes no such arguments.
    #[error("usage")]
    Usage,
    /// The file or the address of this name cannot be opened.
    #[error("cannot open {0}")]
    Open(String),
    /// This line of the world is a bad one.
    #[error("world line {0}")]
    World(usize),
    /// The usage cannot be printed.
    #[error("cannot write")]
    Output,
    /// A growth was refused.
    #[error("no memory")]
    NoMemory,
}

impl ServeFailure {
    /// The program's exit status.
    pub fn status(&self) -> ExitCode {
        match self {
            ServeFailure::Usage | ServeFailure::World(_) => ExitCode::from(2),
            ServeFailure::Open(_) | ServeFailure::Output | ServeFailure::NoMemory =>
                ExitCode::FAILURE,
        }
    }

    /// What it means that the file or the address of this name gave a fault.
    pub fn of_opening(fault: &io::Error, name: &str, alloc: Global) -> ServeFailure {
        match fault.kind() {
            ErrorKind::OutOfMemory => ServeFailure::NoMemory,
            _ => ServeFailure::cannot_open(name, alloc),
        }
    }

    /// The file or the address of this name cannot be opened.
    pub fn cannot_open(name: &str, alloc: Global) -> ServeFailure {
        match String::from_str(alloc, name) {
            Ok(name) => ServeFailure::Open(name),
            Err(AllocError) => ServeFailure::NoMemory,
        }
    }
}

impl From<AllocError> for ServeFailure {
    fn from(_fault: AllocError) -> ServeFailure {
        ServeFailure::NoMemory
    }
}

impl<T: Drop> From<AllocFailed<T>> for ServeFailure {
    fn from(_fault: AllocFailed<T>) -> ServeFailure {
        ServeFailure::NoMemory
    }
}

impl From<WorldFault> for ServeFailure {
    fn from(fault: WorldFault) -> ServeFailure {
        match fault {
            WorldFault::Line(line) => ServeFailure::World(line),
            WorldFault::NoMemory => ServeFailure::NoMemory,
        }
    }
}

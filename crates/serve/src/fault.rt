//! Why a connection was not served to its end.

use std::io;
use std::io::ErrorKind;
use thiserror::Error;

/// Why a connection was not served to its end. It is hung up.
#[derive(Clone, Copy, Debug, PartialEq, Eq, Error)]
pub enum ServeFault {
    /// Reading or writing failed, or the connection did not end within 2^64 readings.
    #[error("connection failed")]
    Connection,
    /// Memory ran out.
    #[error("no memory")]
    NoMemory,
}

impl From<io::Error> for ServeFault {
    ghost use Rattle.std.specs.Prelude.{◌≡◌};
    ghost use Rattle.std.specs.IoError.{error_kind};
    ghost use Rattle.serve.specs.Faults.{reported};

    ghost from_gives = { λ error fault. fault ≡ reported (error_kind error) };

    fn from(fault: io::Error) -> ServeFault {
        match fault.kind() {
            ErrorKind::OutOfMemory => ServeFault::NoMemory,
            _ => ServeFault::Connection,
        }
    }
}

//! Where and why a reader stops.

ghost use Rattle.std.specs.Prelude.{◌≡◌};
ghost use Rattle.wire_reader.specs.declared.stop.ReadError.TheVariants.{Memory, At};

use std::alloc::{AllocError, AllocFailed};
use thiserror::Error;

/// How a byte does not go on with what was read.
#[derive(Clone, Copy, Debug, PartialEq, Eq)]
pub enum Kind {
    /// No spelling has this byte here.
    Syntax,
    /// The byte puts a literal's number over its limit.
    TooLong,
}

/// Why nothing whole was read.
#[derive(Clone, Copy, Debug, PartialEq, Eq)]
pub enum Stop {
    /// The bytes end. `Some(n)`: right after the `{n}` and line end of a literal whose sender waits.
    Ends(Option<u32>),
    /// A byte does not go on; the second is the number of bytes from it on.
    Fails(Kind, usize),
}

/// Why a reader that takes memory gives nothing.
#[derive(Debug, Drop, Error)]
pub enum ReadError {
    /// A growth was refused.
    #[error("no memory")]
    Memory,
    /// The bytes stop there.
    #[error("no spelling")]
    At(Stop),
}

impl From<Stop> for ReadError {
    ghost from_gives = { λ stop e. e ≡ At stop };

    fn from(stop: Stop) -> ReadError {
        ReadError::At(stop)
    }
}

impl From<AllocError> for ReadError {
    ghost from_gives = { λ _ e. e ≡ Memory };

    fn from(_: AllocError) -> ReadError {
        ReadError::Memory
    }
}

impl<T: Drop> From<AllocFailed<T>> for ReadError {
    ghost from_gives = { λ _ e. e ≡ Memory };

    fn from(_: AllocFailed<T>) -> ReadError {
        ReadError::Memory
    }
}

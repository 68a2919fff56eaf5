//! The faults of a world's text.

ghost use Rattle.std.specs.Prelude.{◌≡◌, ◌+◌};

use std::alloc::{AllocError, AllocFailed};
use texts::lines::{Line, Lines};
use thiserror::Error;

/// Why a text was not read as a world.
#[derive(Clone, Copy, Debug, PartialEq, Eq, Error)]
pub enum WorldFault {
    /// After this line, counted from 1, no valid world is possible; or one is, and the text ends too early, and
    /// this is the line after its last whole one.
    #[error("line {0}")]
    Line(usize),
    /// Memory ran out.
    #[error("no memory")]
    NoMemory,
}

impl WorldFault {
    /// That this line is a bad one.
    pub fn of(line: Line<'_>) -> WorldFault
        ensures { result ≡ WorldFault.Line line.entry.number }
    {
        WorldFault::Line(line.number)
    }

    /// That the next line is a bad one, or is missing.
    pub fn of_next(lines: &Lines<'_>) -> WorldFault
        ensures { result ≡ WorldFault.Line (lines.now.taken + 1) }
    {
        WorldFault::Line(lines.taken + 1)
    }
}

impl From<AllocError> for WorldFault {
    ghost use Rattle.std.specs.Prelude.{◌≡◌};
    ghost use Rattle.worlds.specs.declared.fault.WorldFault.TheVariants.{NoMemory};

    ghost from_gives = { λ _ e. e ≡ NoMemory };

    fn from(_fault: AllocError) -> WorldFault {
        WorldFault::NoMemory
    }
}

impl<T: Drop> From<AllocFailed<T>> for WorldFault {
    ghost use Rattle.std.specs.Prelude.{◌≡◌};
    ghost use Rattle.worlds.specs.declared.fault.WorldFault.TheVariants.{NoMemory};

    ghost from_gives = { λ _ e. e ≡ NoMemory };

    fn from(_fault: AllocFailed<T>) -> WorldFault {
        WorldFault::NoMemory
    }
}

//! Why a place does not open.

ghost use Rattle.std.specs.Prelude.{◌≡◌};
ghost use Rattle.std.specs.IoError.{error_kind};
ghost use Rattle.near_places.specs.Refusals.{Reports};

use std::alloc::{AllocError, AllocFailed, Global};
use std::io;
use std::io::ErrorKind;
use thiserror::Error;

/// Why there can be no mailbox of a name, whose part is a folder or a file of a mailbox.
pub const OWN_PART: &str =
    "each mailbox has cur, new and tmp, .mbsyncstate.. and .uidvalidity..: no part of a name may be one of these";

/// Why a place does not open.
#[derive(Debug, Drop, Error)]
pub enum PlaceRefusal {
    /// The system says no to the file or the folder of this path. Why, and what can be done, as a text without an end of line.
    #[error("cannot open {0}")]
    CannotOpen(String, &'static str),
    /// A growth was refused.
    #[error("no memory")]
    NoMemory,
}

impl PlaceRefusal {
    /// What an error of the system at this path means.
    pub fn at(alloc: Global, path: &str, error: &io::Error) -> Self
        ensures path { Reports path.now result }
        ensures memory { error_kind error.now ≡ ErrorKind.OutOfMemory → result ≡ PlaceRefusal.NoMemory }
    {
        if error.kind() == ErrorKind::OutOfMemory {
            return PlaceRefusal::NoMemory;
        }
        PlaceRefusal::cannot_open(alloc, path, reason_of(error.kind()))
    }

    /// What is named so does not open, for this reason.
    pub fn cannot_open(alloc: Global, name: &str, reason: &'static str) -> Self
        ensures { Reports name.now result }
    {
        match String::from_str(alloc, name) {
            Ok(name) => PlaceRefusal::CannotOpen(name, reason),
            Err(AllocError) => PlaceRefusal::NoMemory,
        }
    }
}

/// Why the system does not open a file or a folder, and what can be done.
fn reason_of(kind: ErrorKind) -> &'static str {
    match kind {
        ErrorKind::PermissionDenied =>
            "no permission. Let yourself read and write it, and run again",
        ErrorKind::NotFound => "it is gone. Run again",
        ErrorKind::NotADirectory => "a part of this path is a file, not a folder",
        ErrorKind::IsADirectory | ErrorKind::InvalidInput => {
            "this is not a file. Move it elsewhere, and run again"
        }
        ErrorKind::FilesystemLoop => "symlinks lead in a circle",
        ErrorKind::ReadOnlyFilesystem => "the file system is read-only",
        ErrorKind::StorageFull | ErrorKind::QuotaExceeded => {
            "the disk is full. Make room, and run again"
        }
        ErrorKind::InvalidFilename => "a name in it is too long",
        _ => "the system refused",
    }
}

impl From<AllocError> for PlaceRefusal {
    ghost use Rattle.near_places.specs.declared.refusal.PlaceRefusal.TheVariants.{NoMemory};

    ghost from_gives = { λ _ refusal. refusal ≡ NoMemory };

    fn from(_fault: AllocError) -> PlaceRefusal {
        PlaceRefusal::NoMemory
    }
}

impl<T: Drop> From<AllocFailed<T>> for PlaceRefusal {
    ghost use Rattle.near_places.specs.declared.refusal.PlaceRefusal.TheVariants.{NoMemory};

    ghost from_gives = { λ _ refusal. refusal ≡ NoMemory };

    fn from(_fault: AllocFailed<T>) -> PlaceRefusal {
        PlaceRefusal::NoMemory
    }
}

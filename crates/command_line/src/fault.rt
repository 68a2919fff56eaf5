//! Why the words of a command line name no request.

use clap::error::ErrorKind;
use config::cells::CellsFault;
use std::alloc::{AllocError, AllocFailed};
use thiserror::Error;

/// Why the words of a command line name no request. Of several faults the first of these is reported; `NoMemory` may
/// come instead of any.
#[derive(Debug, Drop, Error)]
pub enum UsageFault {
    /// `clap` does not take the words, or they ask for help.
    #[error("{0}")]
    Line(clap::Error),
    /// They have neither the name of a channel nor `-a`.
    #[error("no channel")]
    NoChannel,
    /// The flags of Sync are refused together.
    #[error("sync words")]
    SyncWords,
    /// Memory ran out.
    #[error("no memory")]
    NoMemory,
}

impl From<clap::Error> for UsageFault {
    ghost use Rattle.std.specs.Prelude.{◌≡◌};
    ghost use Rattle.command_line.specs.ClapFaults.{Reports};

    ghost from_gives = { Reports };

    fn from(error: clap::Error) -> UsageFault {
        match error.kind() {
            ErrorKind::OutOfMemory => UsageFault::NoMemory,
            _ => UsageFault::Line(error),
        }
    }
}

impl From<AllocError> for UsageFault {
    ghost use Rattle.std.specs.Prelude.{◌≡◌};
    ghost use Rattle.command_line.specs.declared.fault.UsageFault.TheVariants.{NoMemory};

    ghost from_gives = { λ _ fault. fault ≡ NoMemory };

    fn from(_fault: AllocError) -> UsageFault {
        UsageFault::NoMemory
    }
}

impl<T: Drop> From<AllocFailed<T>> for UsageFault {
    ghost use Rattle.std.specs.Prelude.{◌≡◌};
    ghost use Rattle.command_line.specs.declared.fault.UsageFault.TheVariants.{NoMemory};

    ghost from_gives = { λ _ fault. fault ≡ NoMemory };

    fn from(_fault: AllocFailed<T>) -> UsageFault {
        UsageFault::NoMemory
    }
}

impl From<CellsFault> for UsageFault {
    ghost use Rattle.command_line.specs.ClapFaults.{refusal_reported};
    ghost use Rattle.std.specs.Prelude.{◌≡◌};

    ghost from_gives = { λ fault reported. reported ≡ refusal_reported fault };

    fn from(fault: CellsFault) -> UsageFault {
        match fault {
            CellsFault::Refused(_) => UsageFault::SyncWords,
            CellsFault::NoMemory => UsageFault::NoMemory,
        }
    }
}

//! Why a call has no answer.

ghost use Rattle.std.specs.Prelude.{◌≡◌};
ghost use Rattle.imap_link.specs.Faults.{heard_fault};

use crate::link::LinkFault;
use std::alloc::{AllocError, AllocFailed};
use thiserror::Error;
use wire_reader::answer::WireFault;

/// Why a call of a session or a far mailbox has no answer.
///
/// After `Refused` and `ReadOnly` the session goes on; after the others every call answers `Stopped`, until `reconnect`.
#[derive(Clone, Copy, Debug, PartialEq, Eq, Error)]
pub enum FarFault {
    /// The link stopped, the bytes ended, the server said `* BYE`, the tags are used up, or an earlier call failed.
    #[error("stopped")]
    Stopped,
    /// The server said NO, and nothing changed.
    #[error("refused")]
    Refused,
    /// The server said what does not belong there.
    #[error("the server breaks the protocol")]
    Protocol,
    /// A reply has more than 65536 bytes outside literals, or a literal of more than 16777238 octets.
    #[error("a reply is too long")]
    TooLong,
    /// The server does not speak IMAP4rev2.
    #[error("the server does not speak IMAP4rev2")]
    NoRev2,
    /// The mailbox cannot be changed.
    #[error("the mailbox is read-only")]
    ReadOnly,
    /// A growth was refused.
    #[error("no memory")]
    NoMemory,
}

impl From<LinkFault> for FarFault {
    ghost use Rattle.std.specs.Prelude.{◌≡◌};
    ghost use Rattle.imap_link.specs.Faults.{link_fault};

    ghost from_gives = { λ fault far. far ≡ link_fault fault };

    fn from(fault: LinkFault) -> FarFault {
        match fault {
            LinkFault::Stopped => FarFault::Stopped,
            LinkFault::NoMemory => FarFault::NoMemory,
        }
    }
}

impl From<AllocError> for FarFault {
    ghost use Rattle.std.specs.Prelude.{◌≡◌};
    ghost use Rattle.imap_link.specs.declared.fault.FarFault.TheVariants.{NoMemory};

    ghost from_gives = { λ _ fault. fault ≡ NoMemory };

    fn from(_fault: AllocError) -> FarFault {
        FarFault::NoMemory
    }
}

impl<T: Drop> From<AllocFailed<T>> for FarFault {
    ghost use Rattle.std.specs.Prelude.{◌≡◌};
    ghost use Rattle.imap_link.specs.declared.fault.FarFault.TheVariants.{NoMemory};

    ghost from_gives = { λ _ fault. fault ≡ NoMemory };

    fn from(_fault: AllocFailed<T>) -> FarFault {
        FarFault::NoMemory
    }
}

impl From<WireFault> for FarFault {
    ghost use Rattle.std.specs.Prelude.{◌≡◌};
    ghost use Rattle.imap_link.specs.Faults.{heard_fault};

    ghost from_gives = { λ fault far. far ≡ heard_fault fault };

    fn from(fault: WireFault) -> FarFault {
        match fault {
            WireFault::Syntax(_) => FarFault::Protocol,
            WireFault::LineTooLong | WireFault::LiteralTooLong(_) => FarFault::TooLong,
            WireFault::NoMemory => FarFault::NoMemory,
        }
    }
}
